//! A script: each of its lines is answered with a head line.
ghost use Rattle.std.specs.Prelude.{◌≡◌, ◌≤◌, IfOk, List, Result, length, string_bytes};
ghost use Rattle.scenario_text.specs.Prelude.{LineValue};
ghost use Rattle.scenario_text.specs.LineFaults.{Fails};
ghost use Rattle.scenario_text.specs.declared.line_faults.LinesError.{LinesError as ALinesError};
ghost use Rattle.net_names.specs.declared.limits.TheConstants.{MOST_TEXT_BYTES};
ghost use Rattle.task_reading.specs.Asking.{jobs_in};
ghost use Rattle.task_reading.specs.Files.{FindsJobs, IsFaultIn};
ghost use Rattle.task_reading.specs.Texts.{cause_of};
ghost use Rattle.task_reading.specs.declared.types.File.TheVariants as file;
ghost use Rattle.task_reading.specs.declared.words.FileOption.TheVariants as option;

use crate::fault_texts::{lines_status, lines_text};
use crate::jobs::{Asks, Jobs, LinesAsked};
use crate::types::{AskError, Cause, Fault, File, Status};
use scenario_text::{LinesError, MOST_COMMANDS, read_script};
use std::alloc::{AllocError, Global};

// The error for a fault of the script.
fn fault_of(error: LinesError) -> AskError
    ensures { (value : Result (List LineValue) ALinesError) → Fails error value
        → IsFaultIn file.Asked Cause.Script result value }
{
    match error {
        LinesError::Memory => AskError::Memory,
        _ => AskError::Fault(Fault::InFile(File::Asked, Cause::Script(error))),
    }
}

/// The jobs that a script asks for.
pub fn read(alloc: Global, bytes: &[u8]) -> Result<Jobs, AskError>
    requires { length bytes.now ≤ MOST_TEXT_BYTES }
    ensures { FindsJobs result (jobs_in option.Script bytes.now) }
{
    match read_script(alloc, bytes) {
        Ok(lines) => Ok(Jobs::of_asks(Asks::Lines(LinesAsked {
            counts_first: false,
            heads: true,
            lines,
        }))),
        Err(error) => Err(fault_of(error)),
    }
}

/// What is said of a fault of a script.
pub fn text(alloc: Global, error: LinesError) -> Result<String, AllocError>
    ensures { IfOk result (λ text. string_bytes text ≡ (cause_of (Cause.Script error)).1) }
{
    let most = format!(in alloc; "{MOST_COMMANDS} commands")?;
    lines_text(alloc, error, &most)
}

/// The status of a fault of a script.
pub fn status(error: LinesError) -> Status
    ensures { result ≡ (cause_of (Cause.Script error)).0 }
{
    lines_status(error)
}
