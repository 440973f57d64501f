//! The ASes whose entries may be wrong after an edit, prefix by prefix.

ghost use Rattle.std.specs.Prelude.{◌≡◌, ℕ, false, true, OnOk, OnErr};
ghost use Rattle.net_names.specs.Prelude.{PrefixValue};
ghost use Rattle.leak_round.specs.Touched.{ases_in, is_touched, touches};

use net_names::{Asn, NoMemory, Prefix};
use std::alloc::Global;

/// A set of prefixes, each with an AS whose entry of that prefix may be wrong after an edit.
#[derive(Drop)]
pub struct Touched {
    pairs: Vec<(Prefix, Asn)>,
}

impl Touched {
    /// The empty set.
    pub fn new(alloc: Global) -> Touched
        ensures { (prefix : PrefixValue) (a : ℕ) → touches result prefix a ≡ false }
    {
        Touched {
            pairs: Vec::new(alloc),
        }
    }

    /// Adds a prefix and an AS. `Err` where there is not enough memory; then the set stays as it was.
    pub fn add(&mut self, prefix: Prefix, asn: Asn) -> Result<(), NoMemory>
        ensures this { OnOk result (touches self.new prefix asn ≡ true) }
        ensures more { (p : PrefixValue) (a : ℕ) → touches self.old p a ≡ true → touches self.new p a ≡ true }
        ensures only { (p : PrefixValue) (a : ℕ) → touches self.new p a ≡ true → touches self.old p a ≡ false →
            (p ≡ prefix) × (a ≡ asn) }
        ensures err { OnErr result ((p : PrefixValue) (a : ℕ) → touches self.new p a ≡ touches self.old p a) }
    {
        self.pairs.push((prefix, asn))?;
        Ok(())
    }

    // Whether some AS is touched for a prefix.
    pub(crate) fn has_any(&self, prefix: Prefix) -> bool
        ensures { result ≡ is_touched self.now prefix }
    {
        self.pairs.iter().any(|pair| pair.0 == prefix)
    }

    // Puts the touched ASes of a prefix, perhaps with repeats, in place of those of a list.
    pub(crate) fn put_ases(&self, prefix: Prefix, ases: &mut Vec<Asn>) -> Result<(), NoMemory>
        ensures { OnOk result (ases.new.items ≡ ases_in self.now.pairs.items prefix) }
    {
        ases.clear();
        for pair in self.pairs.as_slice() {
            if pair.0 == prefix {
                ases.push(pair.1)?;
            }
        }
        Ok(())
    }
}
