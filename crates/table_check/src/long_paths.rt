//! The numbers of long paths, in which many neighbours seek themselves.
ghost use Rattle.std.specs.Prelude.{◌≡◌, ℕ, Option, Some, IfSome, OnOk};
ghost use Rattle.net_names.specs.Prelude.{occurs};
ghost use Rattle.stability_laws.specs.declared.entry.Entry.{Entry as AnEntry};
ghost use Rattle.table_check.specs.Numbers.{AreNumbers};

use crate::numbers::Numbers;
use net_names::{Asn, NoMemory};
use std::alloc::Global;
use std::collections::BTreeMap;

/// The numbers of long paths, by the AS that holds the path.
#[derive(Drop)]
pub(crate) struct LongPaths {
    numbers: BTreeMap<Asn, Numbers>,
}

impl LongPaths {
    /// No paths.
    pub(crate) fn none(alloc: Global) -> LongPaths
        ensures { (held : ℕ → Option AnEntry) → AreNumbers held result }
    {
        LongPaths {
            numbers: BTreeMap::new(alloc),
        }
    }

    /// Puts in the path that an AS holds.
    pub(crate) fn put(&mut self, alloc: Global, asn: Asn, path: &[Asn]) -> Result<(), NoMemory>
        ensures { OnOk result ((held : ℕ → Option AnEntry) (e : AnEntry) → held asn ≡ Some e → e.path ≡ path.now →
            AreNumbers held self.old → AreNumbers held self.new) }
    {
        let numbers = Numbers::of(alloc, path)?;
        self.numbers.insert(asn, numbers)?;
        Ok(())
    }

    /// The numbers of the path that the AS holds, where they are known.
    pub(crate) fn numbers(&self, asn: Asn) -> Option<&Numbers>
        ensures { IfSome result (λ s. (held : ℕ → Option AnEntry) → AreNumbers held self.now → (e : AnEntry) →
            held asn ≡ Some e → (a : ℕ) → occurs a s.now.sorted.items ≡ occurs a e.path) }
    {
        self.numbers.get(&asn)
    }
}
