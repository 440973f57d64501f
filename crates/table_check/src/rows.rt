//! The rows of a printed table.
ghost use Rattle.std.specs.Prelude.{◌≡◌, ℕ, ◌≤◌, false, not, IsTrue, None, length, option_copied, IfOk, IfSome, OnOk};
ghost use Rattle.std.specs.FinMap as map;
ghost use Rattle.as_graph.specs.Prelude.{has};
ghost use Rattle.table_check.specs.Rows.{HasShortRows, HoldsShort, held_by, inside_row};

use as_graph::Graph;
use net_names::{Asn, MOST_IN_PATH, NoMemory};
use stability_laws::{Entry, Routing};
use std::alloc::Global;
use std::collections::BTreeMap;
use std::marker::Model;

/// The rows of all sections, by round and AS. Contracts see a finite map; each path has at most
/// 4294967294 numbers.
#[derive(Drop)]
pub struct Rows {
    entries: BTreeMap<(u32, Asn), Option<Entry>>,
}

impl Model for Rows {
    ghost use Rattle.std.specs.FinMap as map;
    ghost use Rattle.table_check.specs.Rows.{HasShortRows, RowMap, row_map_code};

    ghost Value = { RowMap };

    ghost coded = { row_map_code };

    ghost view = { λ r. map.from_entries r.entries.entries };

    ghost invariant = { λ r. HasShortRows (map.from_entries r.entries.entries) };
}

/// Makes the AS hold a copy of this.
pub(crate) fn put_copy(
    alloc: Global,
    routing: &mut Routing,
    asn: Asn,
    held: &Entry,
) -> Result<(), NoMemory>
    requires { length held.now.path ≤ MOST_IN_PATH }
    ensures { OnOk result (routing.new ≡ map.insert routing.old asn held.now) }
{
    let copy = held.copied(alloc)?;
    routing.put(asn, copy)?;
    Ok(())
}

// Whether the row is of another round, says that nothing is held, or is of an AS of the graph.
fn is_inside(graph: &Graph, round: u32, key: (u32, Asn), held: &Option<Entry>) -> bool
    ensures { result ≡ inside_row (has graph.now) round (key, held.now) }
{
    match held {
        Some(_) => key.0 != round || graph.has(key.1),
        None => true,
    }
}

impl Rows {
    /// No rows.
    pub(crate) fn new(alloc: Global) -> Rows
        ensures { result ≡ map.empty }
    {
        Rows {
            entries: BTreeMap::new(alloc),
        }
    }

    /// Puts in the row of an AS in a round, and says whether it had none. Where it had one, it has this now.
    pub(crate) fn put(
        &mut self,
        round: u32,
        asn: Asn,
        held: Option<Entry>,
    ) -> Result<bool, NoMemory>
        requires { IfSome held (λ e. length e.path ≤ MOST_IN_PATH) }
        ensures new { IfOk result (λ is_new. is_new ≡ not (map.contains_key self.old (round, asn))) }
        ensures with { OnOk result (self.new ≡ map.insert self.old (round, asn) held) }
    {
        let old = self.entries.insert((round, asn), held)?;
        Ok(old.is_none())
    }

    /// What the AS holds in the round; `None` exactly where it has no row or holds nothing.
    pub fn held(&self, round: u32, asn: Asn) -> Option<&Entry>
        ensures { option_copied result ≡ held_by self.now round asn }
    {
        match self.entries.get(&(round, asn)) {
            Some(Some(entry)) => Some(entry),
            Some(None) => None,
            None => None,
        }
    }

    /// Each path in the rows is short.
    pub(crate) fn paths_are_short(&self)
        ensures { HoldsShort self.now }
    {
        // The rows are read for what their type says of every path.
        let _count = self.entries.len();
    }

    /// Whether all that hold something in the round are ASes of the graph.
    pub(crate) fn are_inside(&self, round: u32, graph: &Graph) -> bool
        ensures { IsTrue result → (a : ℕ) → has graph.now a ≡ false → held_by self.now round a ≡ None }
    {
        'rows: for (key, held) in self.entries.iter() {
            if !is_inside(graph, round, *key, held) {
                return false;
            }
        }
        true
    }

    /// What all ASes hold in the round.
    pub(crate) fn routing(&self, alloc: Global, round: u32) -> Result<Routing, NoMemory>
        ensures { IfOk result (λ f. (a : ℕ) → map.get f a ≡ held_by self.now round a) }
    {
        let mut routing = Routing::new(alloc);
        'rows: for (key, held) in self.entries.iter() {
            if let Some(entry) = held {
                if key.0 == round {
                    put_copy(alloc, &mut routing, key.1, entry)?;
                }
            }
        }
        Ok(routing)
    }
}
