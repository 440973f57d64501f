//! The top call.
ghost use Rattle.std.specs.Prelude.{◌≡◌, ◌<◌, ◌⊎◌, All, Ok, true, IsSomeAnd, map, option_map, string_bytes};
ghost use Rattle.io_edge.specs.Prelude.{HasRisen};
ghost use Rattle.net_names.specs.Prelude.{PrefixValue};
ghost use Rattle.as_graph.specs.Prelude.{as_count};
ghost use Rattle.sim_core.specs.Prelude.{HasCycle, topology};
ghost use Rattle.stability_laws.specs.Prelude.{has_prefix};
ghost use Rattle.asprop_run.specs.Loaded.{Serves, loaded_world};
ghost use Rattle.asprop_run.specs.Runs.{IsRun, Outcome, Worked};
ghost use Rattle.task_reading.specs.Prelude.{AreAlike, source_of, HasSize, form_of, form_seen, name_by};
ghost use Rattle.asprop_run.specs.Streams.{stream_of};
ghost use Rattle.task_reading.specs.declared.types.File.{File as AFile};
ghost use Rattle.task_reading.specs.declared.types.File.TheVariants as files;
ghost use Rattle.task_reading.specs.declared.types.Cause.TheVariants.{NotInWorld};
ghost use Rattle.task_reading.specs.declared.types.Fault.TheVariants.{InFile};

use crate::answers::write_answers;
use crate::explain::explain;
use crate::loaded::Loaded;
use crate::outside::first_outside;
use crate::types::Failure;
use io_edge::{Inputs, Sink};
use std::alloc::Global;
use task_reading::{
    Asked, Cause, Fault, File, Jobs, Status, WordForm, ask, jobs_are_alike, read_words,
};

// The fault of a line of the option's file.
fn not_in_world(line: u32) -> Fault
    ensures { result ≡ InFile files.Asked (NotInWorld line) }
{
    Fault::InFile(File::Asked, Cause::NotInWorld(line))
}

// Writes the answers to the jobs, where the world that is loaded has all that they name.
fn answer_in<O: Sink>(
    alloc: Global,
    mut loaded: Loaded,
    jobs: &Jobs,
    out: &mut O,
) -> Result<bool, Failure>
    requires alike { AreAlike jobs.now }
    requires serves { All (Serves loaded) jobs.now }
    requires no_cycle { HasCycle (loaded_world loaded) → ⊥ }
    requires populated { (p : PrefixValue) → has_prefix (loaded_world loaded).plan p ≡ true →
        0 < as_count (topology (loaded_world loaded)) }
    ensures { Outcome (Ok (record { world = loaded_world loaded; jobs = jobs.now })) result
        (stream_of O.written O.faults out.old out.new) }
{
    match first_outside(&loaded, jobs) {
        Some(line) => Err(Failure::Fault(not_in_world(line))),
        None => write_answers(alloc, &mut loaded, jobs, out),
    }
}

// Reads the files that the form names, and writes the answers.
fn work<I: Inputs, O: Sink>(
    alloc: Global,
    form: &Option<WordForm<'_>>,
    inputs: &mut I,
    out: &mut O,
) -> Result<bool, Failure>
    requires sized { HasSize (option_map form_seen form.now) }
    ensures { Worked (source_of I.holds I.is_sound I.faults inputs.old inputs.new)
        (option_map form_seen form.now) result (stream_of O.written O.faults out.old out.new) }
{
    let Asked {
        links,
        vrps,
        scenario,
        jobs,
    } = ask(alloc, form, inputs)?;
    jobs_are_alike(&jobs);
    let loaded = Loaded::load(alloc, links, vrps, scenario, &jobs)?;
    answer_in(alloc, loaded, &jobs, out)
}

/// Reads the words and the files that they name, writes the answers to `out`, and says on `err` why
/// it stopped.
///
/// The first word is the program's name. The order of the work is: the words, the relationship
/// file, the payload file, the scenario, the script or the file of another option, the number of
/// ASes, the provider cycle, whether the world has what that file names, the answers, line by line,
/// each made whole before it is written, but that the rows of a sweep are written as they come. A line
/// that edits the world, by a link, a policy, a payload or an announcement, changes it for the lines
/// after it, unless it is refused. Nothing is written to `out` before all files have been read and judged.
///
/// Where the bytes of the files are told, the law `told_files_are_answered` says what a run over them is.
pub fn run<I: Inputs, O: Sink, E: Sink>(
    alloc: Global,
    words: &[String],
    inputs: &mut I,
    out: &mut O,
    err: &mut E,
) -> Status
    // What was read of the files, how the run ends, what it writes, and what it says of a fault.
    ensures ran { IsRun (source_of I.holds I.is_sound I.faults inputs.old inputs.new)
        (map string_bytes words.now) result (stream_of O.written O.faults out.old out.new)
        (stream_of E.written E.faults err.old err.new) }
    // Usage comes where the words have no form, and there nothing else but want of memory.
    ensures usage { form_of (map string_bytes words.now) ≡ None
        → (result ≡ Status.Usage) ⊎ (result ≡ Status.NoMemory) }
    ensures usage_only { result ≡ Status.Usage → form_of (map string_bytes words.now) ≡ None }
    // ReadFault comes only where a read failed of a file that the words name, and WriteFault only
    // where a write failed.
    ensures read_fault { result ≡ Status.ReadFault
        → (file : AFile) × IsSomeAnd (name_by (form_of (map string_bytes words.now)) file)
        (source_of I.holds I.is_sound I.faults inputs.old inputs.new).fails }
    ensures write_fault { result ≡ Status.WriteFault
        → HasRisen (O.faults out.old) (O.faults out.new) }
{
    // The form says which files are read, and how a fault names them.
    let form = match read_words(alloc, words) {
        Ok(form) => form,
        Err(_) => return explain(alloc, &None, &Failure::Memory, err),
    };
    match work(alloc, &form, inputs, out) {
        Ok(true) => Status::SomeRefused,
        Ok(false) => Status::Done,
        Err(failure) => explain(alloc, &form, &failure, err),
    }
}
