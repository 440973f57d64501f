//! Answers to sweeps, written as they come.
ghost use Rattle.std.specs.Prelude.{◌≤◌, ◌∷◌, [], All, false, IfErr, OnOk};
ghost use Rattle.io_edge.specs.Prelude.{HasRisen};
ghost use Rattle.sim_core.specs.Prelude.{base_world};
ghost use Rattle.sweep.specs.Prelude.{Stops, Writes};
ghost use Rattle.task_reading.specs.Prelude.{job_seen};
ghost use Rattle.asprop_run.specs.Inside.{AreInside, IsInside};
ghost use Rattle.asprop_run.specs.Loaded.{ServesSweep};
ghost use Rattle.asprop_run.specs.Replies.{AnswersJob};
ghost use Rattle.asprop_run.specs.Streams.{stream_of};
ghost use Rattle.asprop_run.specs.Written.{Answering, Begins};

use crate::types::Failure;
use io_edge::Sink;
use rank_order::Ranks;
use sim_core::Base;
use std::alloc::Global;
use sweep::RowsError;
use task_reading::{Job, Jobs};
use trial_world::put_sweep;

// Writes the answer to a sweep by the world and its ranks.
fn write_sweep<O: Sink>(
    alloc: Global,
    base: &Base,
    ranks: &Ranks,
    job: Job<'_>,
    out: &mut O,
) -> Result<(), RowsError>
    requires inside { IsInside (base_world base.now) (job_seen job) }
    requires serves { ServesSweep (base_world base.now) ranks.now (job_seen job) }
    ensures ok { OnOk result (Writes (λ text. AnswersJob (base_world base.now) (job_seen job.entry)
        text false (base_world base.now)) (O.written out.old) (O.written out.new)) }
    ensures err { IfErr result (Stops (Begins (base_world base.now) (job_seen job.entry ∷ []))
        (O.written out.old) (O.written out.new) (HasRisen (O.faults out.old) (O.faults out.new))) }
    ensures later { O.faults out.old ≤ O.faults out.new }
{
    match job {
        Job::Sweep(line) => put_sweep(alloc, base, ranks, line, out),
        Job::Counts | Job::Line(_, _) | Job::Activations(_) | Job::Messages(_) | Job::Tables(_) =>
            unreachable!(),
    }
}

/// Writes the answers to sweeps one after the other, each over the world; none is a refusal. Of each the rows of the first
/// number of adopters are written trial by trial, and the others when all its trials are done. Where memory runs out, what
/// was written is the answers before, and the rows of some trials of the next one from the first on.
pub fn write_sweeps<O: Sink>(
    alloc: Global,
    base: &Base,
    ranks: &Ranks,
    jobs: &Jobs,
    out: &mut O,
) -> Result<bool, Failure>
    requires inside { AreInside (base_world base.now) jobs.now }
    requires serves { All (ServesSweep (base_world base.now) ranks.now) jobs.now }
    ensures { Answering (record { world = base_world base.now; jobs = jobs.now }) result
        (stream_of O.written O.faults out.old out.new) }
{
    'jobs: for place in 0..jobs.count() {
        let Some(job) = jobs.at(place) else {
            unreachable!();
        };
        write_sweep(alloc, base, ranks, job, out)?;
    }
    Ok(false)
}
