//! A file of activations: ASes act in turn, and what that comes to is answered.
ghost use Rattle.std.specs.Prelude.{◌≡◌, ◌≤◌, IfOk, Result, length, string_bytes};
ghost use Rattle.activations.specs.Prelude.{Fails};
ghost use Rattle.activations.specs.declared.acts.Acts.{Acts as SomeActs};
ghost use Rattle.activations.specs.declared.reading.ActsError.{ActsError as AnActsError};
ghost use Rattle.net_names.specs.declared.limits.TheConstants.{MOST_TEXT_BYTES};
ghost use Rattle.task_reading.specs.Asking.{jobs_in};
ghost use Rattle.task_reading.specs.Files.{FindsJobs, IsFaultIn};
ghost use Rattle.task_reading.specs.Texts.{cause_of};
ghost use Rattle.task_reading.specs.declared.types.File.TheVariants as file;
ghost use Rattle.task_reading.specs.declared.words.FileOption.TheVariants as option;

use crate::jobs::{Asks, Jobs};
use crate::types::{AskError, Cause, Fault, File, Status};
use activations::{ActsError, MOST_ACTIVATIONS, read_acts};
use std::alloc::{AllocError, Global};

// The error for a fault of the file of activations.
fn fault_of(error: ActsError) -> AskError
    ensures { (value : Result SomeActs AnActsError) → Fails error value
        → IsFaultIn file.Asked Cause.Acts result value }
{
    match error {
        ActsError::Memory => AskError::Memory,
        _ => AskError::Fault(Fault::InFile(File::Asked, Cause::Acts(error))),
    }
}

/// The one job that a file of activations asks for.
pub fn read(alloc: Global, bytes: &[u8]) -> Result<Jobs, AskError>
    requires { length bytes.now ≤ MOST_TEXT_BYTES }
    ensures { FindsJobs result (jobs_in option.Activations bytes.now) }
{
    match read_acts(alloc, bytes) {
        Ok(acts) => Ok(Jobs::of_asks(Asks::Activations(acts))),
        Err(error) => Err(fault_of(error)),
    }
}

/// What is said of a fault of a file of activations.
pub fn text(alloc: Global, error: ActsError) -> Result<String, AllocError>
    ensures { IfOk result (λ text. string_bytes text ≡ (cause_of (Cause.Acts error)).1) }
{
    match error {
        ActsError::Memory => Ok(String::new(alloc)),
        ActsError::Unreadable { line } => format!(in alloc; "line {line}: unreadable"),
        ActsError::Twice { line } => format!(in alloc; "line {line}: named twice"),
        ActsError::TooMany { line } => format!(in alloc;
            "line {line}: more than {MOST_ACTIVATIONS} activations"
        ),
        ActsError::NoFor => String::from_str(alloc, "no for line"),
    }
}

/// The status of a fault of a file of activations.
pub fn status(error: ActsError) -> Status
    ensures { result ≡ (cause_of (Cause.Acts error)).0 }
{
    match error {
        ActsError::TooMany { line: _ } => Status::TooLarge,
        _ => Status::BadInput,
    }
}
