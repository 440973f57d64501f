//! Tables whose paths go to another pool.

ghost use Rattle.std.specs.Prelude.{◌≡◌, ◌≢◌, ℕ, suc, ◌+◌, ◌*◌, ◌<◌, ◌≤◌, true, length, option_map, unwrap_or, IsTrue, IsSome, Some, None, IfOk};
ghost use Rattle.std.specs.List.Sorted.{IsNonDecreasingBy};
ghost use Rattle.net_names.specs.Prelude.{occurs, PrefixValue};
ghost use Rattle.path_pool.specs.Pool.{IsLive, holds_of, count_of, spare_of};
ghost use Rattle.path_pool.specs.declared.pool.TheConstants.{MOST_COUNT};
ghost use Rattle.stability_laws.specs.Prelude.{has_prefix, prefixes_of, seeds_of as seeds_in};
ghost use Rattle.stability_laws.specs.declared.entry.Entry.{Entry as AnEntry};
ghost use Rattle.route_choice.specs.declared.held.Held.{Held as AHeld};
ghost use Rattle.route_choice.specs.Prelude.{Takes, AreEntriesLive, AreSeedsLive, entry_of, seeds_of, table_routing, round_routing, change_at, overlay_uses, seed_at};
ghost use Rattle.leak_round.specs.declared.holders.Holder.{Holder as AHolder};
ghost use Rattle.leak_round.specs.declared.limits.TheConstants.{MOST_PREFIXES, MOST_ROUNDS};
ghost use Rattle.leak_round.specs.Announced.{AreAnnounced};
ghost use Rattle.leak_round.specs.Growth.{KeepsPaths, GrowsBy, HasRoomFor};
ghost use Rattle.leak_round.specs.Made.{AreRoundsMade, IsRoundMade, IsTableMade};
ghost use Rattle.leak_round.specs.Moved.{asns_of, AreHolders, ArePassedOn, HasSource};
ghost use Rattle.leak_round.specs.Overlays.{table_in, AreFew};
ghost use Rattle.leak_round.specs.Tables.{kept_in, tables_in, AreRoundsFull};

use crate::announced::Announced;
use crate::holders::{Holder, holders_by_length};
use crate::reserving::reserve_numbers;
use crate::round_seeds::seeds_with;
use as_places::AsPlaces;
use net_names::{Asn, NoMemory, Prefix};
use path_pool::PathPool;
use route_choice::{Held, Overlay, RoundTables, SeedIds, Table, uses_are_counted};
use stability_laws::SeedPlan;
use std::alloc::Global;
use std::rc::Rc;

/// What tables are moved by to another pool, lent: those of at most 4 rounds and 32 prefixes.
#[derive(Drop)]
pub struct Moving<'a> {
    pub alloc: Global,
    /// ASes, among which all are that hold something.
    pub ases: &'a Rc<AsPlaces>,
    /// Who announces what, and who leaks in which round.
    pub plan: &'a SeedPlan,
    /// The announced paths of the plan, in the new pool.
    pub announced: &'a [Announced],
    /// The tables of all rounds.
    pub tables: &'a [RoundTables],
    /// The pool of their paths.
    pub from: &'a PathPool,
    ghost full: { AreRoundsFull from.now plan.now tables.now },
    ghost among: { (round : ℕ) (prefix : PrefixValue) (a : ℕ) → IsSome (kept_in from.now tables.now round prefix a) → occurs a ases.now.value.ases ≡ true },
    ghost few: { (round : ℕ) (prefix : PrefixValue) → AreFew (kept_in from.now tables.now round prefix) },
    ghost rounds: { length tables.now ≤ MOST_ROUNDS },
    ghost prefixes: { length (prefixes_of plan.now) ≤ MOST_PREFIXES },
}

// What an AS holds, with its path in the new pool and a hold of it. The path is that of the seed, or the AS
// stands before the path of the second AS.
fn moved(
    from: &PathPool,
    held: Held,
    asn: Asn,
    seeds: &SeedIds,
    made: &Overlay,
    pool: &mut PathPool,
) -> Held
    requires path { IsLive from.now held.path.0 }
    requires source { HasSource pool.old made.now (seed_at seeds.now asn) asn (entry_of from.now held).path }
    requires spare { 0 < spare_of pool.old }
    requires counts { (k : ℕ) → count_of pool.old k < MOST_COUNT }
    ensures entry { entry_of pool.new result ≡ entry_of from.now held }
    ensures live { IsLive pool.new result.path.0 }
    ensures takes { Takes pool.old pool.new (Some result) }
{
    let Held { class, path, otc } = held;
    if let Some(seed) = seeds.get(asn) {
        let path = seed.path;
        pool.hold(path);
        return Held { class, path, otc };
    }
    let Some(rest) = from.tail(path) else {
        unreachable!();
    };
    match made.get(from.head(rest)) {
        Some(Some(next)) => {
            let path = pool.cons(asn, Some(next.path));
            Held { class, path, otc }
        }
        _ => unreachable!(),
    }
}

// Puts what an AS holds into the overlay, with its path in the new pool.
fn move_entry(
    from: &PathPool,
    table: &Table,
    one: &Holder,
    seeds: &SeedIds,
    made: &mut Overlay,
    pool: &mut PathPool,
)
    requires live { AreEntriesLive from.now table.now }
    requires there { IsSome (table_routing from.now table.now one.now.asn) }
    requires source { (e : AnEntry) → table_routing from.now table.now one.now.asn ≡ Some e →
        HasSource pool.old made.old (seed_at seeds.now one.now.asn) one.now.asn e.path }
    requires place { change_at made.old one.now.asn ≡ Some None }
    requires spare { 0 < spare_of pool.old }
    requires counts { (k : ℕ) → count_of pool.old k < MOST_COUNT }
    ensures entry { option_map (entry_of pool.new) (unwrap_or (change_at made.new one.now.asn) None) ≡
        table_routing from.now table.now one.now.asn }
    ensures live { (h : AHeld) → change_at made.new one.now.asn ≡ Some (Some h) → IsLive pool.new h.path.0 }
    ensures there { IsSome (change_at made.new one.now.asn) }
    ensures others { (a : ℕ) → a ≢ one.now.asn → change_at made.new a ≡ change_at made.old a }
    ensures holds { (k : ℕ) → holds_of pool.new k + overlay_uses made.old k ≡
        holds_of pool.old k + overlay_uses made.new k }
    ensures keeps { KeepsPaths pool.old pool.new }
    ensures grows { GrowsBy pool.old pool.new 1 }
    ensures spare { spare_of pool.old ≤ spare_of pool.new + 1 }
{
    let (asn, place) = (one.asn, one.place as usize);
    let Some(held) = table.get_near(asn, place) else {
        unreachable!();
    };
    let held = moved(from, held, asn, seeds, made, pool);
    let _none = made.exchange_near(asn, place, Some(held));
}

// Puts what these ASes hold into the overlay, with their paths in the new pool. They stand by rising length of
// their paths, so that a second AS comes before those that lean on its path.
fn move_entries(
    from: &PathPool,
    table: &Table,
    holders: &[Holder],
    seeds: &SeedIds,
    made: &mut Overlay,
    pool: &mut PathPool,
)
    requires live { AreEntriesLive from.now table.now }
    requires holders { AreHolders (table_routing from.now table.now) holders.now }
    requires rising { IsNonDecreasingBy (λ (x : AHolder). x.length) holders.now }
    requires seeds { AreSeedsLive pool.old seeds.now }
    requires passed_on { ArePassedOn (seeds_of pool.old seeds.now) (table_routing from.now table.now) }
    requires places { (a : ℕ) → occurs a (asns_of holders.now) ≡ true → IsSome (change_at made.old a) }
    requires blank { (a : ℕ) → unwrap_or (change_at made.old a) None ≡ None }
    requires unused { (k : ℕ) → overlay_uses made.old k ≡ 0 }
    requires spare { length holders.now ≤ spare_of pool.old }
    requires counts { (k : ℕ) → count_of pool.old k + length holders.now < MOST_COUNT }
    ensures same { (a : ℕ) → option_map (entry_of pool.new) (unwrap_or (change_at made.new a) None) ≡
        table_routing from.now table.now a }
    ensures live { (a : ℕ) (h : AHeld) → change_at made.new a ≡ Some (Some h) → IsLive pool.new h.path.0 }
    ensures holds { (k : ℕ) → holds_of pool.new k ≡ holds_of pool.old k + overlay_uses made.new k }
    ensures keeps { KeepsPaths pool.old pool.new }
    ensures grows { GrowsBy pool.old pool.new (length holders.now) }
{
    for one in holders {
        move_entry(from, table, one, seeds, made, pool);
    }
}

// The table of a prefix in a round with its paths in the new pool, where the tables of the rounds before have
// theirs.
fn moved_table(
    moving: &Moving<'_>,
    table: &Table,
    earlier: &[RoundTables],
    round: u32,
    prefix: Prefix,
    pool: &mut PathPool,
) -> Result<Table, NoMemory>
    requires at { table_in moving.now.tables.now round prefix ≡ Some table.now }
    requires announced { AreAnnounced pool.old moving.now.plan.now moving.now.announced.now }
    requires earlier { AreRoundsFull pool.old moving.now.plan.now earlier.now }
    requires before { (a : ℕ) → kept_in pool.old earlier.now (length earlier.now) prefix a ≡
        kept_in moving.now.from.now moving.now.tables.now (length earlier.now) prefix a }
    requires round { round ≡ suc (length earlier.now) }
    requires known { IsTrue (has_prefix moving.now.plan.now prefix) }
    requires passed_on { ArePassedOn
        (seeds_in moving.now.plan.now round prefix
        (kept_in moving.now.from.now moving.now.tables.now (length earlier.now) prefix))
        (kept_in moving.now.from.now moving.now.tables.now round prefix) }
    requires room { HasRoomFor pool.old 1 }
    ensures same { IfOk result (λ t. (a : ℕ) →
        table_routing pool.new t a ≡ kept_in moving.now.from.now moving.now.tables.now round prefix a) }
    ensures made { IfOk result (IsTableMade pool.old pool.new prefix) }
{
    let Moving {
        alloc,
        ases,
        plan,
        announced,
        tables: _,
        from,
    } = *moving;
    let seeds = seeds_with(alloc, plan, announced, earlier, &[], round, prefix)?;
    let holders = holders_by_length(alloc, from, table, ases.as_slice())?;
    reserve_numbers(pool, holders.len())?;
    let mut made = Overlay::blank(alloc, ases, 0)?;
    move_entries(from, table, holders.as_slice(), &seeds, &mut made, pool);
    let table = Table::from_changes(prefix, made);
    uses_are_counted(&table);
    Ok(table)
}

// The tables of a round with their paths in the new pool, where those of the rounds before have theirs.
fn moved_round(
    moving: &Moving<'_>,
    old: &RoundTables,
    earlier: &[RoundTables],
    round: u32,
    pool: &mut PathPool,
) -> Result<RoundTables, NoMemory>
    requires at { tables_in moving.now.tables.now round ≡ Some old.now }
    requires announced { AreAnnounced pool.old moving.now.plan.now moving.now.announced.now }
    requires earlier { AreRoundsFull pool.old moving.now.plan.now earlier.now }
    requires before { (prefix : PrefixValue) (a : ℕ) → IsTrue (has_prefix moving.now.plan.now prefix) →
        kept_in pool.old earlier.now (length earlier.now) prefix a ≡
        kept_in moving.now.from.now moving.now.tables.now (length earlier.now) prefix a }
    requires round { round ≡ suc (length earlier.now) }
    requires passed_on { (prefix : PrefixValue) → IsTrue (has_prefix moving.now.plan.now prefix) →
        ArePassedOn
        (seeds_in moving.now.plan.now round prefix
        (kept_in moving.now.from.now moving.now.tables.now (length earlier.now) prefix))
        (kept_in moving.now.from.now moving.now.tables.now round prefix) }
    requires room { HasRoomFor pool.old (length (prefixes_of moving.now.plan.now)) }
    ensures same { IfOk result (λ t. (prefix : PrefixValue) → IsTrue (has_prefix moving.now.plan.now prefix) →
        (a : ℕ) → round_routing pool.new t prefix a ≡
        kept_in moving.now.from.now moving.now.tables.now round prefix a) }
    ensures made { IfOk result (IsRoundMade pool.old pool.new moving.now.plan.now) }
{
    let mut tables = RoundTables::new(moving.alloc);
    let mut place = 0;
    'prefixes: while let Some(prefix) = moving.plan.prefix_at(place) {
        let Some(table) = old.table(prefix) else {
            unreachable!();
        };
        let moved = moved_table(moving, table, earlier, round, prefix, pool)?;
        tables.push(moved)?;
        place += 1;
    }
    Ok(tables)
}

// The tables of all rounds with their paths in the new pool.
pub fn moved_rounds(moving: &Moving<'_>, pool: &mut PathPool) -> Result<Vec<RoundTables>, NoMemory>
    requires announced { AreAnnounced pool.old moving.now.plan.now moving.now.announced.now }
    requires passed_on { (before : ℕ) (prefix : PrefixValue) → before < length moving.now.tables.now →
        IsTrue (has_prefix moving.now.plan.now prefix) →
        ArePassedOn
        (seeds_in moving.now.plan.now (suc before) prefix
        (kept_in moving.now.from.now moving.now.tables.now before prefix))
        (kept_in moving.now.from.now moving.now.tables.now (suc before) prefix) }
    requires room { HasRoomFor pool.old (length moving.now.tables.now * length (prefixes_of moving.now.plan.now)) }
    ensures same { IfOk result (λ v. (before : ℕ) (prefix : PrefixValue) → before < length moving.now.tables.now →
        IsTrue (has_prefix moving.now.plan.now prefix) →
        (a : ℕ) → kept_in pool.new v.items (suc before) prefix a ≡
        kept_in moving.now.from.now moving.now.tables.now (suc before) prefix a) }
    ensures made { IfOk result (λ v. AreRoundsMade pool.old pool.new moving.now.plan.now
        (length moving.now.tables.now) v.items) }
{
    let mut rounds = Vec::new(moving.alloc);
    for old in moving.tables {
        let earlier = rounds.as_slice();
        let round = earlier.len() as u32 + 1;
        let next = moved_round(moving, old, earlier, round, pool)?;
        rounds.push(next)?;
    }
    Ok(rounds)
}
