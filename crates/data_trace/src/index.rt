//! What the watches of one graph and one book begin with, made once for all rounds and addresses.
ghost use Rattle.std.specs.Prelude.{◌≡◌, ℕ, ◌<◌, ◌≤◌, true, length, IfOk};
ghost use Rattle.stability_laws.specs.Prelude.{policy_at};
ghost use Rattle.data_trace.specs.Columns.{here_at};
ghost use Rattle.as_graph.specs.declared.build.TheConstants.{MOST_ASES};

use crate::columns::{ases_of, groups_of};
use crate::hints::Hints;
use crate::places::Group;
use as_graph::Graph;
use as_places::AsPlaces;
use net_names::NoMemory;
use policy_laws::Labelled;
use stability_laws::Book;
use std::alloc::Global;

/// The ASes of a graph at their places, with their groups: what all watches of the graph and a book
/// have in common, whatever their round and address. Contracts see which ASes it has, and of which
/// graphs and policies it is.
#[derive(Drop)]
pub struct WatchIndex {
    pub(crate) ases: AsPlaces,
    pub(crate) hints: Hints,
    pub(crate) groups: Vec<Group>,
    ghost few: { length ases.ases ≤ MOST_ASES },
    ghost groups_len: { length groups.items ≡ length ases.ases },
    ghost here: { (x : ℕ) → x < length ases.ases → here_at groups.items x ≡ true },
}

impl WatchIndex {
    ghost use Rattle.data_trace.specs.Indexes.{IsIndexOf};

    /// The index of the graph and the book. Watches can begin with it as long as both stay. Its only
    /// refusal is want of memory.
    pub fn of<P: Labelled>(
        alloc: Global,
        graph: &Graph,
        book: &Book<P>,
    ) -> Result<WatchIndex, NoMemory>
        ensures { IfOk result (λ i. IsIndexOf graph.now (λ a. P.label_of (policy_at book.now a)) i) }
    {
        let ases = ases_of(alloc, graph)?;
        let groups = groups_of(alloc, graph, book, ases.as_slice())?;
        let hints = Hints::of(alloc, ases.as_slice())?;
        Ok(WatchIndex {
            ases,
            hints,
            groups,
        })
    }
}
