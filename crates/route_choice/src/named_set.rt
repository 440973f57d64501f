//! Numbers that stand on paths, with the last numbers of the paths.

ghost use Rattle.std.specs.Prelude.{◌≡◌, ℕ, ◌==◌, ◌&&◌, true, false, OnOk};
ghost use Rattle.indexmap.specs.IndexSet.{contains};
ghost use Rattle.route_choice.specs.AsnSets.{is_among, Adds};
ghost use Rattle.route_choice.specs.Naming.{pair_eq};

use crate::asn_set::AsnSet;
use indexmap::IndexSet;
use net_names::{Asn, NoMemory};
use std::alloc::Global;

/// Some AS numbers, and with some of them the last numbers of paths on which they stand.
#[derive(Drop)]
pub struct NamedSet {
    /// The numbers.
    pub asns: AsnSet,
    ends: IndexSet<(Asn, Asn)>,
    ghost within: { (a e : ℕ) → contains pair_eq ends (a, e) ≡ true → is_among asns a ≡ true },
}

#[tactic(auto, unfolding(crate::specs::NamedSets::is_named))]
impl NamedSet {
    ghost use Rattle.route_choice.specs.NamedSets.{is_named, AddsEnds};

    /// No number.
    pub fn none(alloc: Global) -> NamedSet
        ensures asns { (a : ℕ) → is_among result.asns a ≡ false }
        ensures ends { (a e : ℕ) → is_named result a e ≡ false }
    {
        NamedSet {
            asns: AsnSet::none(alloc),
            ends: IndexSet::new(alloc),
        }
    }

    /// Whether a number is among them. Where it isn't, it stands on none of the paths.
    #[inline(always)]
    pub fn has(&self, asn: Asn) -> bool
        ensures value { result ≡ is_among self.now.asns asn }
        ensures none { result ≡ false → (e : ℕ) → is_named self.now asn e ≡ false }
    {
        self.asns.has(asn)
    }

    /// Whether a number stands on a path that ends with another.
    pub fn has_with(&self, asn: Asn, last: Asn) -> bool
        ensures { result ≡ is_named self.now asn last }
    {
        self.ends.contains(&(asn, last))
    }

    /// Adds a number, and no other.
    pub fn add(&mut self, asn: Asn) -> Result<(), NoMemory>
        ensures asns { OnOk result (Adds self.old.asns self.new.asns (λ a. asn == a)) }
        ensures ends { OnOk result (AddsEnds self.old self.new (λ a e. false)) }
    {
        self.asns.add(asn)
    }

    /// Adds a number, and no other, that stands on a path with this last number.
    pub fn add_with(&mut self, asn: Asn, last: Asn) -> Result<(), NoMemory>
        ensures asns { OnOk result (Adds self.old.asns self.new.asns (λ a. asn == a)) }
        ensures ends { OnOk result (AddsEnds self.old self.new (λ a e. (asn == a) && (last == e))) }
    {
        self.asns.add(asn)?;
        self.ends.insert((asn, last))?;
        Ok(())
    }
}
