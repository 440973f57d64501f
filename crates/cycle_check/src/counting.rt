//! The ranks of places, or a provider cycle, by Kahn's algorithm: each place waits until all its customers have ranks,
//! and the places that wait to the end are above a cycle.
ghost use Rattle.std.specs.Prelude.{◌≡◌, ◌<◌, length, slice_index, IfOk};
ghost use Rattle.cycle_check.specs.Rows.{AreRows, count_of, row, relation};
ghost use Rattle.cycle_check.specs.Counting.{IsCounted};
ghost use Rattle.cycle_check.specs.Cycles.{IsCycleFromLowest};
ghost use Rattle.cycle_check.specs.Ways.{AllLeftBelow};

use crate::lowest_first::cycle_from;
use crate::notifying::{free, give_ranks, tally, zeros};
use crate::way::{first_left, way_back};
use net_names::NoMemory;
use std::alloc::Global;

/// What counting finds.
#[derive(Drop)]
pub enum Counted {
    /// There is no provider cycle: the rank of each place, and the places by rising rank.
    Ranks { ranks: Vec<u32>, order: Vec<u32> },
    /// A provider cycle, from its lowest place on.
    Cycle(Vec<u32>),
}

// A provider cycle below a place without a rank, from its lowest place on.
fn cycle_below(
    alloc: Global,
    starts: &[u32],
    items: &[u32],
    counts: &[u32],
    start: usize,
) -> Result<Vec<u32>, NoMemory>
    requires rows { AreRows starts.now items.now }
    requires counts { length counts.now ≡ count_of starts.now }
    requires start { start < length counts.now }
    requires left { 0 < slice_index counts.now start }
    requires below { AllLeftBelow (row starts.now items.now) (count_of starts.now) counts.now }
    ensures { IfOk result (λ v. IsCycleFromLowest (relation starts.now items.now) v.items) }
{
    let way = way_back(alloc, starts, items, counts, start)?;
    Ok(cycle_from(alloc, &way.places, way.back)?)
}

/// Numbers that fit at each place, so its rank (the number of provider links on the longest way down
/// from it), and the places by rising rank, or a provider cycle where there is one.
///
/// Each place has its list of providers' places. The only refusal is want of memory. The time is
/// bounded by the places and links.
pub fn count_ranks(alloc: Global, starts: &[u32], items: &[u32]) -> Result<Counted, NoMemory>
    requires { AreRows starts.now items.now }
    ensures { IfOk result (IsCounted starts.now items.now) }
{
    let count = starts.len() - 1;
    let mut counts = zeros(alloc, count)?;
    tally(items, &mut counts);
    let mut ranks = zeros(alloc, count)?;
    let mut order = free(alloc, &counts)?;
    give_ranks(starts, items, &mut counts, &mut ranks, &mut order)?;
    let left = first_left(&counts);
    if left < count {
        return Ok(Counted::Cycle(cycle_below(alloc, starts, items, &counts, left)?));
    }
    Ok(Counted::Ranks { ranks, order })
}
