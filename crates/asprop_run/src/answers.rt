//! Answers to jobs.
ghost use Rattle.std.specs.Prelude.{◌≡◌, ◌<◌, ◌++◌, All, false, true, IfOk, OnOk, OnErr};
ghost use Rattle.io_edge.specs.Prelude.{AppendsFront, HasCause};
ghost use Rattle.sim_core.specs.Prelude.{base_world, IsKept, kept, world_seen, HasCycle};
ghost use Rattle.scenario_text.specs.Prelude.{IsWellFormed, IsSoundAct};
ghost use Rattle.task_reading.specs.Prelude.{Job as AJob, IsSoundJob, counts_job, job_seen, line_job, needs_of};
ghost use Rattle.task_reading.specs.declared.jobs.Needs.TheVariants as needs;
ghost use Rattle.asprop_run.specs.Inside.{AreInside, IsInside};
ghost use Rattle.asprop_run.specs.Loaded.{IsHeld, Serves, loaded_world};
ghost use Rattle.asprop_run.specs.Replies.{AnswersJob, AppendsReply, head};
ghost use Rattle.asprop_run.specs.Streams.{stream_of};
ghost use Rattle.asprop_run.specs.Written.{Answering, IsPassedOn};

use crate::activating::answer_activations;
use crate::checking::answer_check;
use crate::delivering::answer_deliveries;
use crate::loaded::Loaded;
use crate::refusals::{put_done, put_edit_refusal, put_refusal};
use crate::sweeping::write_sweeps;
use crate::types::Failure;
use io_edge::{Failed, Sink, write_all};
use net_names::{NoMemory, put_bytes};
use route_choice::Steps;
use scenario_text::{Act, Edit, Line, Query};
use sim_core::{Base, QueryError, Sim};
use std::alloc::Global;
use std::marker::Brand;
use std::sync::ledger::{Blank, Ledger};
use task_reading::{Job, Jobs};

// So many bytes of answers are held back at most, and then written together.
const HELD_BACK: usize = 65_536;

// Appends the head line.
fn put_head(alloc: Global, number: u32, text: &mut Vec<u8>) -> Result<(), NoMemory>
    ensures { OnOk result (text.new.items ≡ text.old.items ++ head true number) }
{
    let line = format!(in alloc; "# {number}\n")?;
    put_bytes(text, line.as_bytes())
}

// Appends the answer to a query, or the text of its refusal, and says whether it is refused.
fn put_reply(sim: &Sim, query: &Query, text: &mut Vec<u8>) -> Result<bool, NoMemory>
    ensures { IfOk result (λ refused. AppendsReply (world_seen sim.now) (kept sim.now) (Act.Query query.now)
        refused text.old.items text.new.items (world_seen sim.now)) }
{
    match sim.answer(query, text) {
        Ok(()) => Ok(false),
        Err(QueryError::Memory) => Err(NoMemory),
        Err(error) => {
            put_refusal(text, error)?;
            Ok(true)
        }
    }
}

// Begins the text of an answer: with the head line, if there are head lines, or empty.
fn begin_text(alloc: Global, heads: bool, line: &Line, text: &mut Vec<u8>) -> Result<(), NoMemory>
    ensures { OnOk result (text.new.items ≡ head heads line.now.number) }
{
    text.clear();
    if !heads {
        return Ok(());
    }
    put_head(alloc, line.number, text)
}

// Edits the world, appends how many entries differ, or the text of the refusal, and says whether it is refused.
fn put_edit<L: Ledger>(
    alloc: Global,
    sim: &mut Sim,
    edit: &Edit,
    text: &mut Vec<u8>,
    blank: Blank,
) -> Result<bool, NoMemory>
    requires ledger { (blank.name ≡ L.name) × (blank.parts ≡ L.parts) × (0 < L.parts) }
    requires ends { IsWellFormed edit.now }
    requires kept { IsKept (world_seen sim.old) (kept sim.old) }
    requires no_cycle { HasCycle (world_seen sim.old) → ⊥ }
    ensures reply { IfOk result (λ refused. AppendsReply (world_seen sim.old) (kept sim.old) (Act.Edit edit.now)
        refused text.old.items text.new.items (world_seen sim.new)) }
    ensures kept { OnOk result (IsKept (world_seen sim.new) (kept sim.new)) }
    ensures no_cycle { OnOk result (HasCycle (world_seen sim.new) → ⊥) }
{
    let mut steps = Steps::<L>::new(blank);
    match sim.edit(alloc, edit, &mut steps) {
        Ok(changed) => {
            put_done(text, changed.routes)?;
            Ok(false)
        }
        Err(error) => {
            put_edit_refusal(text, &error)?;
            Ok(true)
        }
    }
}

// Makes the head line, if there is one, and the answer to a line, and says whether it is a refusal.
fn answer_line(
    alloc: Global,
    sim: &mut Sim,
    heads: bool,
    line: &Line,
    text: &mut Vec<u8>,
) -> Result<bool, NoMemory>
    requires sound { IsSoundAct line.now.act }
    requires kept { IsKept (world_seen sim.old) (kept sim.old) }
    requires no_cycle { HasCycle (world_seen sim.old) → ⊥ }
    ensures answered { IfOk result (λ refused. AnswersJob (world_seen sim.old) (line_job heads line.now)
        text.new.items refused (world_seen sim.new)) }
    ensures kept { OnOk result (IsKept (world_seen sim.new) (kept sim.new)) }
    ensures no_cycle { OnOk result (HasCycle (world_seen sim.new) → ⊥) }
{
    begin_text(alloc, heads, line, text)?;
    match &line.act {
        Act::Query(query) => put_reply(sim, query, text),
        Act::Edit(edit) => put_edit::<Brand>(alloc, sim, edit, text, Blank::new(1)),
    }
}

// Makes the numbers of ASes and links.
fn answer_counts(alloc: Global, sim: &Sim, text: &mut Vec<u8>) -> Result<(), NoMemory>
    ensures { OnOk result (AnswersJob (world_seen sim.now) counts_job text.new.items false (world_seen sim.now)) }
{
    text.clear();
    let (ases, links) = (sim.as_count(), sim.link_count());
    let rows = format!(in alloc; "ases|{ases}\nlinks|{links}\n")?;
    put_bytes(text, rows.as_bytes())
}

// Makes the whole answer to a job by what is kept of a world, and says whether it is a refusal.
fn answer_whole(
    alloc: Global,
    sim: &mut Sim,
    job: Job<'_>,
    text: &mut Vec<u8>,
) -> Result<bool, NoMemory>
    requires sound { IsSoundJob (job_seen job) }
    requires inside { IsInside (world_seen sim.old) (job_seen job) }
    requires needs { needs_of (job_seen job) ≡ needs.Kept }
    requires kept { IsKept (world_seen sim.old) (kept sim.old) }
    requires no_cycle { HasCycle (world_seen sim.old) → ⊥ }
    ensures answered { IfOk result (λ refused. AnswersJob (world_seen sim.old) (job_seen job.entry)
        text.new.items refused (world_seen sim.new)) }
    ensures kept { OnOk result (IsKept (world_seen sim.new) (kept sim.new)) }
    ensures no_cycle { OnOk result (HasCycle (world_seen sim.new) → ⊥) }
{
    match job {
        Job::Counts => {
            answer_counts(alloc, sim, text)?;
            Ok(false)
        }
        Job::Line(heads, line) => answer_line(alloc, sim, heads, line, text),
        Job::Activations(acts) => {
            answer_activations(alloc, sim, acts, text)?;
            Ok(false)
        }
        Job::Messages(deliveries) => {
            answer_deliveries(alloc, sim, deliveries, text)?;
            Ok(false)
        }
        Job::Sweep(_) | Job::Tables(_) => unreachable!(),
    }
}

// Makes the whole answer to a job by the world alone, and says whether it is a refusal.
fn answer_bare(
    alloc: Global,
    base: &Base,
    job: Job<'_>,
    text: &mut Vec<u8>,
) -> Result<bool, NoMemory>
    requires needs { needs_of (job_seen job) ≡ needs.World }
    ensures { IfOk result (λ refused. AnswersJob (base_world base.now) (job_seen job.entry)
        text.new.items refused (base_world base.now)) }
{
    match job {
        Job::Tables(tables) => answer_check(alloc, base, tables, text),
        Job::Counts | Job::Line(_, _) | Job::Activations(_) | Job::Messages(_) | Job::Sweep(_) =>
            unreachable!(),
    }
}

// Makes the whole answer to a job, and says whether it is a refusal.
fn answer_job(
    alloc: Global,
    loaded: &mut Loaded,
    job: Job<'_>,
    text: &mut Vec<u8>,
) -> Result<bool, NoMemory>
    requires sound { IsSoundJob (job_seen job) }
    requires inside { IsInside (loaded_world loaded.old) (job_seen job) }
    requires serves { Serves loaded.old (job_seen job) }
    requires held { IsHeld (job_seen job) }
    requires no_cycle { HasCycle (loaded_world loaded.old) → ⊥ }
    ensures answered { IfOk result (λ refused. AnswersJob (loaded_world loaded.old) (job_seen job.entry)
        text.new.items refused (loaded_world loaded.new)) }
    ensures serves { OnOk result ((other : AJob) → Serves loaded.old other → Serves loaded.new other) }
    ensures no_cycle { OnOk result (HasCycle (loaded_world loaded.new) → ⊥) }
{
    match loaded {
        Loaded::Whole(sim) => answer_whole(alloc, sim, job, text),
        Loaded::Bare(base) => answer_bare(alloc, base, job, text),
        Loaded::Ranked(_, _) => unreachable!(),
    }
}

// Holds a text back behind what is held back already, where that takes few bytes; else writes both.
fn pass_on<O: Sink>(text: &[u8], held: &mut Vec<u8>, out: &mut O) -> Result<(), Failed>
    ensures ok { OnOk result (IsPassedOn (O.written out.old) (O.written out.new)
        held.old.items text.now held.new.items) }
    ensures err { OnErr result (AppendsFront (O.written out.old) (O.written out.new) (held.old.items ++ text.now)) }
    ensures cause { HasCause (O.faults out.old) (O.faults out.new) result }
{
    let is_little = held.len() <= HELD_BACK && text.len() <= HELD_BACK - held.len();
    if is_little && held.extend_from_slice(text).is_ok() {
        return Ok(());
    }
    write_all(out, held)?;
    held.clear();
    write_all(out, text)
}

// Writes the answers to the jobs one after the other, each in the world that the jobs before it leave and made whole
// before, and says whether one is a refusal. Short answers are written together. Where memory runs out, the answers
// before are written.
fn write_whole_answers<O: Sink>(
    alloc: Global,
    loaded: &mut Loaded,
    jobs: &Jobs,
    out: &mut O,
) -> Result<bool, Failure>
    requires inside { AreInside (loaded_world loaded.old) jobs.now }
    requires serves { All (Serves loaded.old) jobs.now }
    requires held { All IsHeld jobs.now }
    requires no_cycle { HasCycle (loaded_world loaded.old) → ⊥ }
    ensures { Answering (record { world = loaded_world loaded.old; jobs = jobs.now }) result
        (stream_of O.written O.faults out.old out.new) }
{
    let mut text: Vec<u8> = Vec::new(alloc);
    let mut held: Vec<u8> = Vec::new(alloc);
    let mut refused = false;
    'jobs: for place in 0..jobs.count() {
        let Some(job) = jobs.at(place) else {
            unreachable!();
        };
        match answer_job(alloc, loaded, job, &mut text) {
            Err(_) => {
                write_all(out, &held)?;
                return Err(Failure::Memory);
            }
            Ok(first) => {
                pass_on(&text, &mut held, out)?;
                if first {
                    refused = true;
                }
            }
        }
    }
    write_all(out, &held)?;
    Ok(refused)
}

/// Writes the answers to the jobs one after the other, each in the world that the jobs before it leave, and says whether
/// one is a refusal. An answer is made whole before it is written, and short ones are written together; but the rows of
/// sweeps are written as they come. Where memory runs out, the answers before are written.
pub fn write_answers<O: Sink>(
    alloc: Global,
    loaded: &mut Loaded,
    jobs: &Jobs,
    out: &mut O,
) -> Result<bool, Failure>
    requires inside { AreInside (loaded_world loaded.old) jobs.now }
    requires serves { All (Serves loaded.old) jobs.now }
    requires no_cycle { HasCycle (loaded_world loaded.old) → ⊥ }
    ensures { Answering (record { world = loaded_world loaded.old; jobs = jobs.now }) result
        (stream_of O.written O.faults out.old out.new) }
{
    match loaded {
        Loaded::Ranked(base, ranks) => write_sweeps(alloc, base, ranks, jobs, out),
        Loaded::Whole(_) | Loaded::Bare(_) => write_whole_answers(alloc, loaded, jobs, out),
    }
}
