//! A file of deliveries: messages are delivered one after the other, and what that comes to is answered.
ghost use Rattle.std.specs.Prelude.{◌≡◌, ◌≤◌, IfOk, Result, length, string_bytes};
ghost use Rattle.message_sim.specs.Prelude.{Fails};
ghost use Rattle.message_sim.specs.declared.steps.Deliveries.{Deliveries as SomeDeliveries};
ghost use Rattle.message_sim.specs.declared.reading.DeliveriesError.{DeliveriesError as ADeliveriesError};
ghost use Rattle.net_names.specs.declared.limits.TheConstants.{MOST_TEXT_BYTES};
ghost use Rattle.task_reading.specs.Asking.{jobs_in};
ghost use Rattle.task_reading.specs.Files.{FindsJobs, IsFaultIn};
ghost use Rattle.task_reading.specs.Texts.{cause_of};
ghost use Rattle.task_reading.specs.declared.types.File.TheVariants as file;
ghost use Rattle.task_reading.specs.declared.words.FileOption.TheVariants as option;

use crate::jobs::{Asks, Jobs};
use crate::types::{AskError, Cause, Fault, File, Status};
use message_sim::{DeliveriesError, MOST_DELIVERIES, read_deliveries};
use std::alloc::{AllocError, Global};

// The error for a fault of the file of deliveries.
fn fault_of(error: DeliveriesError) -> AskError
    ensures { (value : Result SomeDeliveries ADeliveriesError) → Fails error value
        → IsFaultIn file.Asked Cause.Deliveries result value }
{
    match error {
        DeliveriesError::Memory => AskError::Memory,
        _ => AskError::Fault(Fault::InFile(File::Asked, Cause::Deliveries(error))),
    }
}

/// The one job that a file of deliveries asks for.
pub fn read(alloc: Global, bytes: &[u8]) -> Result<Jobs, AskError>
    requires { length bytes.now ≤ MOST_TEXT_BYTES }
    ensures { FindsJobs result (jobs_in option.Messages bytes.now) }
{
    match read_deliveries(alloc, bytes) {
        Ok(deliveries) => Ok(Jobs::of_asks(Asks::Messages(deliveries))),
        Err(error) => Err(fault_of(error)),
    }
}

/// What is said of a fault of a file of deliveries.
pub fn text(alloc: Global, error: DeliveriesError) -> Result<String, AllocError>
    ensures { IfOk result (λ text. string_bytes text ≡ (cause_of (Cause.Deliveries error)).1) }
{
    match error {
        DeliveriesError::Memory => Ok(String::new(alloc)),
        DeliveriesError::Unreadable { line } => format!(in alloc; "line {line}: unreadable"),
        DeliveriesError::TooMany { line } => format!(in alloc;
            "line {line}: more than {MOST_DELIVERIES} deliveries"
        ),
        DeliveriesError::NoFor => String::from_str(alloc, "no for line"),
    }
}

/// The status of a fault of a file of deliveries.
pub fn status(error: DeliveriesError) -> Status
    ensures { result ≡ (cause_of (Cause.Deliveries error)).0 }
{
    match error {
        DeliveriesError::TooMany { line: _ } => Status::TooLarge,
        _ => Status::BadInput,
    }
}
