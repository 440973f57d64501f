//! The routing of one prefix and one round.

ghost use Rattle.std.specs.Prelude.{◌≡◌, ℕ, ◌+◌, ◌≤◌, None, IsOk, OnOk, unwrap_or};

mod counted;
mod room;

use crate::slots::{Slots, count_missing, replace_all};
use crate::{Held, Overlay};
pub use counted::uses_are_counted;
use net_names::{Asn, NoMemory, Prefix};
use path_pool::PathPool;
pub use room::TableRoom;
use std::alloc::Global;

/// What each AS holds of one prefix in one round. It owns one outside hold for each of its
/// entries.
#[derive(Drop)]
pub struct Table {
    prefix: Prefix,
    slots: Slots,
}

impl Table {
    ghost use Rattle.route_choice.specs.Tables.{prefix_of, held_at, table_uses, change_at, overlay_uses, joined, HasRoomForChanges};
    ghost use Rattle.route_choice.specs.Routings.{table_routing, routing_of};
    ghost use Rattle.route_choice.specs.Holds.{GivesBack};
    ghost use Rattle.path_pool.specs.Pool.{holds_of};

    /// The table of a prefix in which no AS holds anything.
    pub fn new(alloc: Global, prefix: Prefix) -> Table
        ensures prefix { prefix_of result ≡ prefix }
        ensures none { (a : ℕ) → held_at result a ≡ None }
        ensures uses { (k : ℕ) → table_uses result k ≡ 0 }
    {
        Table {
            prefix,
            slots: Slots::new(alloc),
        }
    }

    /// The table of a prefix that has the entries of an overlay. It takes over their holds. Takes
    /// no memory.
    pub fn from_changes(prefix: Prefix, overlay: Overlay) -> Table
        ensures prefix { prefix_of result ≡ prefix }
        ensures entries { (a : ℕ) → held_at result a ≡ unwrap_or (change_at overlay a) None }
        ensures uses { (k : ℕ) → table_uses result k ≡ overlay_uses overlay k }
    {
        Table {
            prefix,
            slots: overlay.changes,
        }
    }

    /// The prefix.
    pub fn prefix(&self) -> Prefix
        ensures { result ≡ prefix_of self.now }
    {
        self.prefix
    }

    // The entries.
    #[inline(always)]
    pub(crate) fn slots(&self) -> &Slots {
        &self.slots
    }

    /// What an AS holds, if anything.
    pub fn get(&self, asn: Asn) -> Option<Held>
        ensures { result ≡ held_at self.now asn }
    {
        self.get_near(asn, 0)
    }

    /// What an AS holds, as `get` gives it, sought first at a place, which is a hint.
    pub fn get_near(&self, asn: Asn, place: usize) -> Option<Held>
        ensures { result ≡ held_at self.now asn }
    {
        self.held_near(asn, place)
    }

    // What an AS holds, sought first at a place.
    #[inline(always)]
    pub(crate) fn held_near(&self, asn: Asn, place: usize) -> Option<Held>
        ensures { result ≡ held_at self.now asn }
    {
        match self.slots.get_near(asn, place) {
            Some(entry) => entry,
            None => None,
        }
    }

    /// Makes room for the changes: for each AS that has one and no place in the table yet. A table without any
    /// AS needs none. The entries stay, also after a refusal.
    pub fn room_for(&mut self, overlay: &Overlay) -> Result<(), NoMemory>
        ensures room { OnOk result (HasRoomForChanges self.new overlay.now) }
        ensures succeeds { HasRoomForChanges self.old overlay.now → IsOk result }
        ensures prefix { prefix_of self.new ≡ prefix_of self.old }
        ensures same { (a : ℕ) → held_at self.new a ≡ held_at self.old a }
        ensures uses { (k : ℕ) → table_uses self.new k ≡ table_uses self.old k }
    {
        if self.slots.len() == 0 {
            return Ok(());
        }
        let missing = count_missing(&self.slots, &overlay.changes);
        self.slots.room(missing)
    }

    /// Puts the changes in place, and gives back the holds of the entries that are replaced or
    /// taken away. Each cell that stays live keeps its path. Takes no memory.
    pub fn commit(&mut self, overlay: Overlay, pool: &mut PathPool)
        requires room { HasRoomForChanges self.old overlay }
        requires held { (k : ℕ) → table_uses self.old k + overlay_uses overlay k ≤ holds_of pool.old k }
        ensures prefix { prefix_of self.new ≡ prefix_of self.old }
        ensures entries { (a : ℕ) → held_at self.new a ≡ joined self.old overlay a }
        ensures routing { (a : ℕ) → table_routing pool.new self.new a ≡ routing_of pool.old self.old overlay a }
        ensures holds { (k : ℕ) → table_uses self.new k + holds_of pool.old k
            ≡ table_uses self.old k + overlay_uses overlay k + holds_of pool.new k }
        ensures back { GivesBack pool.old pool.new }
    {
        if self.slots.len() == 0 {
            self.slots = overlay.changes;
        } else {
            replace_all(&mut self.slots, &overlay.changes, pool);
        }
    }
}
