//! Changes of the tables of rounds.

ghost use Rattle.std.specs.Prelude.{◌≡◌, ℕ, ◌+◌, ◌≤◌, IsTrue, Option, [], length};
ghost use Rattle.net_names.specs.Prelude.{PrefixValue, prefix_cmp};
ghost use Rattle.path_pool.specs.Pool.{holds_of};
ghost use Rattle.stability_laws.specs.declared.entry.Entry.{Entry as AnEntry};
ghost use Rattle.stability_laws.specs.Prelude.{Plan, ListsRising, has_prefix, prefixes_of};
ghost use Rattle.route_choice.specs.Prelude.{GivesBack, overlay_uses};
ghost use Rattle.leak_round.specs.Tables.{entry_uses};
ghost use Rattle.leak_round.specs.Overlays.{changes_uses, CanPut, IsPut, FitsIn, IsCommitted, AreChangesOf, AreFew, IsLaid};

use net_names::Prefix;
use path_pool::PathPool;
use route_choice::{Overlay, RoundTables, uses_are_counted};

/// The changes of the table of a prefix in a round. They own one outside hold for each of their
/// entries.
#[derive(Drop)]
pub struct Change {
    pub round: u32,
    pub prefix: Prefix,
    pub overlay: Overlay,
}

// Puts changes of the table of a prefix in place.
fn put_changes(tables: &mut RoundTables, prefix: Prefix, overlay: Overlay, pool: &mut PathPool)
    requires { CanPut tables.old prefix overlay pool.old }
    ensures put { IsPut tables.old tables.new prefix overlay pool.old pool.new }
    ensures back { GivesBack pool.old pool.new }
{
    match tables.table_mut(prefix) {
        Some(table) => {
            table.commit(overlay, pool);
            uses_are_counted(table);
        }
        None => {}
    }
}

// Puts changes in place.
fn commit_change(tables: &mut Vec<RoundTables>, change: Change, pool: &mut PathPool)
    requires fits { FitsIn tables.old.items change }
    requires held { (k : ℕ) → entry_uses tables.old.items k + overlay_uses change.overlay k ≤ holds_of pool.old k }
    ensures put { IsCommitted tables.old.items tables.new.items change }
    ensures holds { (k : ℕ) → entry_uses tables.new.items k + holds_of pool.old k ≡
        entry_uses tables.old.items k + overlay_uses change.overlay k + holds_of pool.new k }
    ensures back { GivesBack pool.old pool.new }
{
    let place = change.round as usize - 1;
    put_changes(&mut tables[place], change.prefix, change.overlay, pool);
}

// Puts all changes in place.
pub fn commit_changes(tables: &mut Vec<RoundTables>, changes: Vec<Change>, pool: &mut PathPool)
    requires changes { AreChangesOf tables.old.items changes.items }
    requires held { (k : ℕ) → entry_uses tables.old.items k + changes_uses changes.items k ≤ holds_of pool.old k }
    ensures laid { (plan : Plan) (routings : ℕ → PrefixValue → ℕ → Option AnEntry) (others : ℕ → ℕ) →
        ListsRising prefix_cmp (λ p. IsTrue (has_prefix plan p)) (prefixes_of plan) →
        ((round : ℕ) (prefix : PrefixValue) → AreFew (routings round prefix)) →
        IsLaid plan routings others pool.old tables.old.items changes.items →
        IsLaid plan routings others pool.new tables.new.items [] }
    ensures count { length tables.new.items ≡ length tables.old.items }
    ensures back { GivesBack pool.old pool.new }
{
    let mut left = changes;
    'changes: while let Some(change) = left.pop() {
        commit_change(tables, change, pool);
    }
}

// Gives back the holds of all changes.
pub fn undo_changes(changes: Vec<Change>, pool: &mut PathPool)
    requires { (k : ℕ) → changes_uses changes.items k ≤ holds_of pool.old k }
    ensures holds { (k : ℕ) → holds_of pool.new k + changes_uses changes.items k ≡ holds_of pool.old k }
    ensures back { GivesBack pool.old pool.new }
{
    let mut left = changes;
    'changes: while let Some(change) = left.pop() {
        change.overlay.undo(pool);
    }
}
