//! Room in a graph, and marks of ASes that it has room for.
ghost use Rattle.std.specs.Prelude.{◌≡◌, ◌<◌, ◌≤◌, true, IfErr, OnOk, OnErr};
ghost use Rattle.as_graph.specs.Prelude.{is_room_with, as_count};
ghost use Rattle.as_graph.specs.Room.{with_room};
ghost use Rattle.sim_core.specs.Marking.{with_mark_if};
ghost use Rattle.sim_core.specs.declared.errors.EditError.TheVariants as refused;
ghost use Rattle.sim_core.specs.declared.errors.EditLimit.TheVariants.{Ases};
ghost use Rattle.as_graph.specs.declared.build.TheConstants.{MOST_ASES};

use crate::{EditError, EditLimit};
use as_graph::{Graph, GraphError};
use net_names::{Asn, NoMemory};

/// Makes room for a pair of ASes, which may be equal, as `Graph::room` does.
pub fn room_for(graph: &mut Graph, a: Asn, b: Asn) -> Result<(), NoMemory>
    ensures ok { OnOk result (graph.new ≡ with_room graph.old a b) }
    ensures err { OnErr result (graph.new ≡ graph.old) }
{
    match graph.room(a, b) {
        Ok(()) => Ok(()),
        Err(_) => Err(NoMemory),
    }
}

/// Marks an AS, or takes its mark away.
pub fn set_mark(graph: &mut Graph, asn: Asn, is_marked: bool) -> Result<(), EditError>
    requires { is_room_with graph.old.room asn ≡ true }
    ensures ok { OnOk result (graph.new ≡ with_mark_if graph.old asn is_marked) }
    ensures err { OnErr result (graph.new ≡ graph.old) }
    ensures limit { IfErr result (λ e. e ≡ refused.Limit Ases) }
    ensures many { OnErr result (MOST_ASES < as_count (with_mark_if graph.old asn is_marked)) }
{
    if !is_marked {
        graph.unmark(asn);
        return Ok(());
    }
    match graph.mark(asn) {
        Ok(()) => Ok(()),
        Err(GraphError::TooManyAses) => Err(EditError::Limit {
            which: EditLimit::Ases,
        }),
        Err(_) => unreachable!(),
    }
}

/// Gives an AS the mark back that it had, or takes it away again.
pub fn set_mark_back(graph: &mut Graph, asn: Asn, was_marked: bool)
    requires room { is_room_with graph.old.room asn ≡ true }
    requires few { as_count (with_mark_if graph.old asn was_marked) ≤ MOST_ASES }
    ensures { graph.new ≡ with_mark_if graph.old asn was_marked }
{
    match set_mark(graph, asn, was_marked) {
        Ok(()) => {}
        Err(_) => unreachable!(),
    }
}
