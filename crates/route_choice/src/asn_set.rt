//! Sets of AS numbers.

ghost use Rattle.std.specs.Prelude.{◌≡◌, ℕ, ◌==◌, nat_eq, false, OnOk, OnErr};
ghost use Rattle.indexmap.specs.IndexSet.{contains};
ghost use Rattle.route_choice.specs.Marks.{is_marked};

use crate::marks::Marks;
use indexmap::IndexSet;
use net_names::{Asn, NoMemory};
use std::alloc::Global;

/// Some AS numbers. They are marked, so that few others are looked up.
#[derive(Drop)]
pub struct AsnSet {
    listed: IndexSet<Asn>,
    marks: Marks<4096>,
    ghost marked: { (a : ℕ) → is_marked marks a ≡ false → contains nat_eq listed a ≡ false },
}

#[tactic(auto, unfolding(crate::specs::AsnSets::is_among))]
impl AsnSet {
    ghost use Rattle.route_choice.specs.AsnSets.{is_among, Adds};

    /// No number.
    pub fn none(alloc: Global) -> AsnSet
        ensures { (a : ℕ) → is_among result a ≡ false }
    {
        AsnSet {
            listed: IndexSet::new(alloc),
            marks: Marks::none(),
        }
    }

    /// Whether a number is among them.
    #[inline(always)]
    pub fn has(&self, asn: Asn) -> bool
        ensures { result ≡ is_among self.now asn }
    {
        self.marks.has(asn) && self.listed.contains(&asn)
    }

    /// Adds a number, and no other. After a refusal all are as before.
    pub fn add(&mut self, asn: Asn) -> Result<(), NoMemory>
        ensures added { OnOk result (Adds self.old self.new (λ a. asn == a)) }
        ensures err { OnErr result ((a : ℕ) → is_among self.new a ≡ is_among self.old a) }
    {
        self.listed.insert(asn)?;
        self.marks.add(asn);
        Ok(())
    }
}
