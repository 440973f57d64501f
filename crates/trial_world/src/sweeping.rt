//! The text of a sweep over a world.
ghost use Rattle.std.specs.Prelude.{◌≡◌, ◌≤◌, ℕ, true, IfErr, OnOk};
ghost use Rattle.as_graph.specs.Prelude.{IsRank, relation};
ghost use Rattle.io_edge.specs.Prelude.{HasRisen};
ghost use Rattle.rank_order.specs.Prelude.{rank_at};
ghost use Rattle.sim_core.specs.Prelude.{base_world, HasCycle, topology};
ghost use Rattle.sweep.specs.Prelude.{Stops, Writes};
ghost use Rattle.trial_world.specs.Sweeps.{IsBegunIn, IsSweptIn, is_inside};

use crate::fixed::fixed_for;
use crate::trial::trial_of;
use io_edge::Sink;
use rank_order::Ranks;
use sim_core::Base;
use std::alloc::Global;
use sweep::{RowsError, Sweep, sweep_rows};

/// Writes the text of a sweep over the world, as `sweep_rows` does: the rows of the first number of adopters trial by trial,
/// as they come. The line is in the world, its links have no provider cycle, and the ranks are those of its ASes. Each
/// trial is a world of its own, made of this one by the adopters' policies alone, so that lines don't depend on one
/// another. Where memory runs out, the rows of some trials from the first on were written, and where a write fails a front
/// of such rows. The format is this project's own.
pub fn put_sweep<O: Sink>(
    alloc: Global,
    base: &Base,
    ranks: &Ranks,
    line: &Sweep,
    out: &mut O,
) -> Result<(), RowsError>
    requires ranks { (a : ℕ) → IsRank (relation (topology (base_world base.now))) a (rank_at ranks.now a) }
    requires no_cycle { HasCycle (base_world base.now) → ⊥ }
    requires inside { is_inside (base_world base.now) line.now ≡ true }
    ensures ok { OnOk result
        (Writes (IsSweptIn (base_world base.now) line.now) (O.written out.old) (O.written out.new)) }
    ensures err { IfErr result (Stops (IsBegunIn (base_world base.now) line.now)
        (O.written out.old) (O.written out.new) (HasRisen (O.faults out.old) (O.faults out.new))) }
    ensures later { O.faults out.old ≤ O.faults out.new }
{
    let fixed = fixed_for(alloc, base, ranks, line)?;
    let mut trial = trial_of(fixed, line)?;
    sweep_rows(alloc, &mut trial, line, out)
}
