//! The numbers of a path, in order.
ghost use Rattle.std.specs.Prelude.{◌≡◌, ℕ, IfOk};
ghost use Rattle.std.specs.List.Sorted.{IsNonDecreasing};
ghost use Rattle.net_names.specs.Prelude.{occurs};

use net_names::{Asn, NoMemory};
use std::alloc::Global;

/// The numbers of a path in rising order, so that one of them is found quickly.
#[derive(Drop)]
pub(crate) struct Numbers {
    sorted: Vec<Asn>,
    ghost rising: { IsNonDecreasing sorted.items },
}

impl Numbers {
    /// The numbers of a path.
    pub(crate) fn of(alloc: Global, path: &[Asn]) -> Result<Numbers, NoMemory>
        ensures { IfOk result (λ s. (a : ℕ) → occurs a s.sorted.items ≡ occurs a path.now) }
    {
        let mut sorted = Vec::from_slice(alloc, path)?;
        sorted.sort_unstable();
        Ok(Numbers { sorted })
    }

    /// Whether a number stands in the path.
    pub(crate) fn has(&self, asn: Asn) -> bool
        ensures { result ≡ occurs asn self.now.sorted.items }
    {
        self.sorted.as_slice().binary_search(&asn).is_ok()
    }
}
