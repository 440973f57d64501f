//! The step from the program's arguments to a run over its words.
ghost use Rattle.std.specs.Prelude.{◌≡◌};
ghost use Rattle.std.specs.Process.{exit_status};
ghost use Rattle.asprop_run.specs.Started.{IsWordsOf, Started, Starts, reason_of};
ghost use Rattle.asprop_run.specs.Streams.{stream_of};
ghost use Rattle.task_reading.specs.Prelude.{source_of};

use crate::explain::explain;
use crate::running::run;
use crate::types::Failure;
use io_edge::{Inputs, Sink};
use std::alloc::Global;
use std::env::Args;
use std::io;
use std::io::ErrorKind;
use std::process::ExitCode;
use task_reading::{Fault, Status};

// Why the arguments give no words.
fn reason(error: &io::Error) -> Failure
    ensures { result ≡ reason_of error.now }
{
    match error.kind() {
        ErrorKind::OutOfMemory => Failure::Memory,
        _ => Failure::Fault(Fault::Usage),
    }
}

// All words that the arguments give, or why there are none.
fn words_of(alloc: Global, args: io::Result<Args>) -> Result<Vec<String>, Failure>
    ensures { IsWordsOf args result }
{
    match args {
        Ok(args) => Ok(args.collect::<Vec<String>>(alloc)?),
        Err(error) => Err(reason(&error)),
    }
}

// Runs over the words of the arguments, or says why there are none.
fn run_by<I: Inputs, O: Sink, E: Sink>(
    alloc: Global,
    args: io::Result<Args>,
    inputs: &mut I,
    out: &mut O,
    err: &mut E,
) -> Status
    ensures { Starts (source_of I.holds I.is_sound I.faults inputs.old inputs.new) args result
        (stream_of O.written O.faults out.old out.new) (stream_of E.written E.faults err.old err.new) }
{
    match words_of(alloc, args) {
        Ok(words) => run(alloc, &words, inputs, out, err),
        Err(failure) => explain(alloc, &None, &failure, err),
    }
}

/// The whole program: `run` over its arguments, the program's name first, and the number of the run's status.
///
/// An argument that is no text has no form, so that it is answered as a faulty command line is.
pub fn start<I: Inputs, O: Sink, E: Sink>(
    alloc: Global,
    args: io::Result<Args>,
    inputs: &mut I,
    out: &mut O,
    err: &mut E,
) -> ExitCode
    ensures { Started (source_of I.holds I.is_sound I.faults inputs.old inputs.new) args (exit_status result)
        (stream_of O.written O.faults out.old out.new) (stream_of E.written E.faults err.old err.new) }
{
    ExitCode::from(run_by(alloc, args, inputs, out, err).number())
}
