//! The rows and the order of a graph, from its links.
ghost use Rattle.std.specs.Prelude.{◌≡◌, ℕ, ◌+◌, ◌<◌, ◌≤◌, ◌++◌, length, Some, is_some, nat_eq, IfOk, IfErr};
ghost use Rattle.std.specs.FinMap as map;
ghost use Rattle.std.specs.List.Sorted.{IsStrictlyIncreasing};
ghost use Rattle.indexmap.specs.IndexMap.{get, keys, index_map_len};
ghost use Rattle.net_names.specs.Prelude.{occurs};
ghost use Rattle.as_graph.specs.Refusals.{IsBuildRefusal};
ghost use Rattle.as_graph.specs.Rows.{IsRising};
ghost use Rattle.as_graph.specs.Ends.{ends_at, AreByAs};
ghost use Rattle.as_graph.specs.Gathering.{AreGathered, IsGatherRefusal};
ghost use Rattle.as_graph.specs.Graphs.{IsBuilt};

use crate::ends::{End, higher_side, lower_side, next_end, row_for, take_run};
use crate::error::GraphError;
use crate::row::Row;
use indexmap::IndexMap;
use net_names::{Asn, Links};
use std::alloc::{AllocError, Global};

/// The most ASes that a graph has.
pub const MOST_ASES: usize = 150_000;

// The rows of the ASes at the ends: first the neighbours at its higher ends, then those at its lower
// ends.
fn gather(alloc: Global, higher: &[End], lower: &[End]) -> Result<IndexMap<Asn, Row>, GraphError>
    requires higher_by_as { AreByAs higher.now }
    requires lower_by_as { AreByAs lower.now }
    requires rising { (a : ℕ) → IsRising (ends_at a higher.now ++ ends_at a lower.now) }
    ensures gathered { IfOk result (λ m. AreGathered m higher.now lower.now) }
    ensures few { IfOk result (λ m. index_map_len m ≤ MOST_ASES) }
    ensures refused { IfErr result (IsGatherRefusal higher.now lower.now) }
{
    let mut rows = IndexMap::new(alloc);
    let mut from_higher = 0;
    let mut from_lower = 0;
    while let Some(asn) = next_end(higher, from_higher, lower, from_lower) {
        let mut row = row_for(alloc, higher, from_higher, lower, from_lower, asn)?;
        from_higher = take_run(&mut row, higher, from_higher, asn)?;
        from_lower = take_run(&mut row, lower, from_lower, asn)?;
        rows.insert(asn, row)?;
        if rows.len() > MOST_ASES {
            return Err(GraphError::TooManyAses);
        }
    }
    Ok(rows)
}

/// The rows that these links make, in rising order of their ASes.
pub fn rows_of(alloc: Global, links: &Links) -> Result<IndexMap<Asn, Row>, GraphError>
    ensures built { IfOk result (λ m. IsBuilt m (map.entries links.now)) }
    ensures few { IfOk result (λ m. index_map_len m ≤ MOST_ASES) }
    ensures refused { IfErr result (IsBuildRefusal links.now) }
{
    let lower = lower_side(alloc, links)?;
    let higher = higher_side(alloc, links)?;
    gather(alloc, higher.as_slice(), lower.as_slice())
}

/// The ASes that have rows, in rising order of their numbers.
pub fn order_of(alloc: Global, rows: &IndexMap<Asn, Row>) -> Result<Vec<Asn>, AllocError>
    ensures listed { IfOk result (λ v. (a : ℕ) → occurs a v.items ≡ is_some (get nat_eq rows.now a)) }
    ensures rising { IfOk result (λ v. IsStrictlyIncreasing v.items) }
    ensures len { IfOk result (λ v. length v.items ≡ index_map_len rows.now) }
{
    let mut order = Vec::from_slice(alloc, rows.keys().as_slice())?;
    order.sort_unstable();
    Ok(order)
}
