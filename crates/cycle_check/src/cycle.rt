//! A provider cycle.
ghost use Rattle.std.specs.Prelude.{◌≡◌, ℕ, ◌<◌, length, map, slice_index, IfOk};

use net_names::{Asn, NoMemory};
use std::alloc::Global;
use std::marker::Model;

/// A provider cycle: at least two ASes, each a provider of the next, and the last of the first.
/// Contracts see the list of their numbers.
#[derive(Debug, Drop)]
pub struct Cycle {
    numbers: Vec<Asn>,
}

impl Model for Cycle {
    ghost use Rattle.std.specs.Prelude.{List, ℕ};

    ghost Value = { List ℕ };

    ghost view = { λ c. c.numbers.items };
}

impl Cycle {
    /// The ASes in the order of the cycle.
    pub fn as_slice(&self) -> &[Asn]
        ensures { result.now ≡ self.now }
    {
        self.numbers.as_slice()
    }
}

/// These ASes as a cycle.
pub fn cycle_of(numbers: Vec<Asn>) -> Cycle
    ensures { result ≡ numbers.items }
{
    Cycle { numbers }
}

/// The ASes at the places of a cycle.
pub fn cycle_at(alloc: Global, ases: &[Asn], places: &[u32]) -> Result<Cycle, NoMemory>
    requires { (k : ℕ) → k < length places.now → slice_index places.now k < length ases.now }
    ensures { IfOk result (λ c. c ≡ map (slice_index ases.now) places.now) }
{
    let mut numbers = Vec::new(alloc);
    for place in places {
        numbers.push(ases[*place as usize])?;
    }
    Ok(Cycle { numbers })
}
