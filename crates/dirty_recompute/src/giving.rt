//! An AS is given an entry, or none. Room is made first, so that after a refusal all ASes hold what
//! they held.

ghost use Rattle.std.specs.Prelude.{◌≡◌, ◌≢◌, ℕ, ◌<◌, Some, None, IsTrue, true, false, OnOk, OnErr, IfOk, Option};
ghost use Rattle.path_pool.specs.Pool.{IsLive, SamePaths, limit_of, spare_of};
ghost use Rattle.stability_laws.specs.Prelude.{policy_at};
ghost use Rattle.stability_laws.specs.declared.entry.Seed.{Seed as ASeed};
ghost use Rattle.route_choice.specs.declared.held.Held.{Held as AHeld};
ghost use Rattle.route_choice.specs.declared.seeds.SeedIds.{SeedIds as TheSeeds};
ghost use Rattle.route_choice.specs.declared.table.Table.{Table as ATable};
ghost use Rattle.route_choice.specs.Prelude.{named_by, named_at, AreHeld, AreSeedsLive, CanStep, IsNameable, entry_of, routing_of, change_at, joined, overlay_uses};
ghost use Rattle.dirty_recompute.specs.Resources.{CanTurn, IsKept, has_change};
ghost use Rattle.dirty_recompute.specs.Giving.{with_first, GivesUpNone, IsGiven, SameHeld};

use net_names::{Asn, Class, NoMemory};
use path_pool::{PathId, PathPool};
use policy_laws::RoutePolicy;
use route_choice::{Choice, ChoiceNear, Held, Overlay, PrefixWorld, Table, settle_near};
use stability_laws::{carried, class_from};

/// What an AS holds, with the changes in place, sought first at a place.
pub(crate) fn held_near(table: &Table, overlay: &Overlay, asn: Asn, place: usize) -> Option<Held>
    ensures { result ≡ joined table.now overlay.now asn }
{
    match overlay.get_near(asn, place) {
        Some(change) => change,
        None => table.get_near(asn, place),
    }
}

// Whether the entry is of this class and number, and its path is the AS and then the path of that cell, by
// the first cell of its path.
fn is_with_first(
    pool: &PathPool,
    have: &Held,
    asn: Asn,
    class: Class,
    rest: PathId,
    otc: Option<Asn>,
) -> bool
    requires { IsLive pool.now have.now.path.0 }
    ensures { IsTrue result → entry_of pool.now have.now ≡ with_first pool.now asn class rest otc }
{
    if have.class != class || have.otc != otc || pool.head(have.path) != asn {
        return false;
    }
    match pool.tail(have.path) {
        Some(tail) => tail == rest,
        None => false,
    }
}

// Whether the choice is an offer that gives an AS the entry that it holds, by the first cell of its path. The
// places where the AS and the neighbour may stand are hints.
fn is_held_by_offer<P: RoutePolicy, V>(
    at: &PrefixWorld<'_, P, V>,
    pool: &PathPool,
    overlay: &Overlay,
    asn: Asn,
    place: usize,
    before: &Option<Held>,
    chosen: &ChoiceNear,
) -> bool
    requires held { AreHeld pool.now at.now.table.now overlay.now }
    requires before { before.now ≡ joined at.now.table.now overlay.now asn }
    ensures { IsTrue result → (seed : Option ASeed) →
        named_by (λ n. P.meaning (policy_at at.now.book.now n)) seed
        (routing_of pool.now at.now.table.now overlay.now) asn chosen.now.choice
        ≡ routing_of pool.now at.now.table.now overlay.now asn }
{
    let Some(have) = before else {
        return false;
    };
    let choice = chosen.choice;
    let from = chosen.place;
    match choice {
        Choice::Nothing | Choice::Seed => false,
        Choice::Via { neighbour, rel } => match held_near(at.table, overlay, neighbour, from) {
            Some(given) => {
                let sender = at.book.policy_near(neighbour, from);
                let receiver = at.book.policy_near(asn, place);
                let otc = carried(sender, receiver, neighbour, rel.converse(), given.otc);
                is_with_first(pool, have, asn, class_from(rel), given.path, otc)
            }
            None => false,
        },
    }
}

// Makes room for one more cell. The paths and the holds stay.
fn reserve_cell(pool: &mut PathPool) -> Result<(), NoMemory>
    ensures same { SamePaths pool.old pool.new }
    ensures limit { limit_of pool.new ≡ limit_of pool.old }
    ensures room { OnOk result (0 < spare_of pool.new) }
{
    match pool.reserve(1) {
        Ok(()) => Ok(()),
        Err(_) => Err(NoMemory),
    }
}

// Makes room for one more entry, which is mostly at an AS of the table. All ASes hold what they held.
fn make_room(below: &Table, pool: &mut PathPool, overlay: &mut Overlay) -> Result<(), NoMemory>
    ensures can { OnOk result ((seeds : TheSeeds) (table : ATable) → CanTurn pool.old seeds table overlay.old →
        CanStep pool.new seeds table overlay.new 1) }
    ensures same { (table : ATable) → AreHeld pool.old table overlay.old →
        SameHeld pool.old pool.new table overlay.old overlay.new }
    ensures paths { SamePaths pool.old pool.new }
    ensures kept { (seeds : TheSeeds) → AreSeedsLive pool.old seeds →
        IsKept pool.old pool.new seeds overlay.old overlay.new }
{
    overlay.room_over(below, 1)?;
    reserve_cell(pool)?;
    Ok(())
}

// Takes away what an AS holds, which is an entry of the table, if anything. Answers whether there was
// anything.
fn take_away(
    table: &Table,
    overlay: &mut Overlay,
    asn: Asn,
    place: usize,
    before: &Option<Held>,
) -> Result<bool, NoMemory>
    requires before { before.now ≡ joined table.now overlay.old asn }
    requires fresh { (h : AHeld) → before.now ≡ Some h → change_at overlay.old asn ≡ None }
    ensures none { OnOk result (joined table.now overlay.new asn ≡ None) }
    ensures others { (a : ℕ) → a ≢ asn → change_at overlay.new a ≡ change_at overlay.old a }
    ensures changed { IfOk result (λ b. IsTrue b → (joined table.now overlay.old asn ≢ None) ×
        (has_change overlay.new asn ≡ true)) }
    ensures unchanged { IfOk result (λ b. b ≡ false → overlay.new ≡ overlay.old) }
    ensures err { OnErr result (change_at overlay.new asn ≡ change_at overlay.old asn) }
    ensures uses { (k : ℕ) → overlay_uses overlay.new k ≡ overlay_uses overlay.old k }
{
    let Some(_) = before else {
        return Ok(false);
    };
    overlay.room_over(table, 1)?;
    let _ = overlay.exchange_near(asn, place, None);
    Ok(true)
}

/// Gives an AS what a choice names: its seed's entry, or an offer's, or none. Answers whether it is
/// another one than it held before.
pub(crate) fn give_chosen<P: RoutePolicy, V>(
    at: &PrefixWorld<'_, P, V>,
    pool: &mut PathPool,
    overlay: &mut Overlay,
    asn: Asn,
    place: usize,
    before: &Option<Held>,
    chosen: ChoiceNear,
) -> Result<bool, NoMemory>
    requires can { CanTurn pool.old at.now.seeds.now at.now.table.now overlay.old }
    requires choice { IsNameable at.now.seeds.now at.now.table.now overlay.old asn chosen.choice }
    requires before { before.now ≡ joined at.now.table.now overlay.old asn }
    requires kept { GivesUpNone pool.old at.now.table.now overlay.old asn
        (named_at P.meaning at.now pool.old overlay.old asn chosen.choice) }
    ensures given { IfOk result (IsGiven pool.old pool.new at.now.table.now overlay.old overlay.new asn
        (named_at P.meaning at.now pool.old overlay.old asn chosen.choice)) }
    ensures err { OnErr result (SameHeld pool.old pool.new at.now.table.now overlay.old overlay.new) }
    ensures kept { IsKept pool.old pool.new at.now.seeds.now overlay.old overlay.new }
{
    if is_held_by_offer(at, pool, overlay, asn, place, before, &chosen) {
        return Ok(false);
    }
    match chosen.choice {
        Choice::Nothing => take_away(at.table, overlay, asn, place, before),
        Choice::Seed | Choice::Via { .. } => {
            make_room(at.table, pool, overlay)?;
            Ok(settle_near(at, pool, overlay, asn, place, chosen))
        }
    }
}
