//! What is said of a failure.
ghost use Rattle.std.specs.Prelude.{◌≡◌, IfOk, None, option_map};
ghost use Rattle.asprop_run.specs.Texts.{ending_of};
ghost use Rattle.asprop_run.specs.Runs.{Explained, Reports};
ghost use Rattle.asprop_run.specs.Streams.{stream_of};
ghost use Rattle.task_reading.specs.Prelude.{form_seen};

use crate::types::Failure;
use cycle_check::Cycle;
use io_edge::{Sink, write_all};
use net_names::NoMemory;
use reports::put_numbers;
use std::alloc::Global;
use task_reading::{
    Fault, Status, WordForm, ases_message, fault_status, file_message, usage_message,
};

// The numbers of a cycle, the lowest first.
fn cycle_message(alloc: Global, cycle: &Cycle) -> Result<Vec<u8>, NoMemory>
    ensures { IfOk result (λ text. text.items ≡ (ending_of None (Err (Failure.Cycle cycle.now))).1) }
{
    let mut text = Vec::new(alloc);
    text.extend_from_slice(b"asprop: provider cycle: ")?;
    put_numbers(&mut text, cycle.as_slice())?;
    text.push(b'\n')?;
    Ok(text)
}

// Writes a text as far as the sink takes it.
fn report<E: Sink>(err: &mut E, text: &[u8])
    ensures { Reports text.now (stream_of E.written E.faults err.old err.new) }
{
    let _ = write_all(err, text);
}

// Says which fault the words or the files have, and gives its status.
fn explain_fault<E: Sink>(
    alloc: Global,
    form: &Option<WordForm<'_>>,
    fault: Fault,
    err: &mut E,
) -> Status
    ensures { Explained (option_map form_seen form.now) (Failure.Fault fault) result
        (stream_of E.written E.faults err.old err.new) }
{
    match fault {
        Fault::Usage => {
            report(err, usage_message().as_bytes());
            Status::Usage
        }
        Fault::TooManyAses => {
            report(err, ases_message().as_bytes());
            Status::TooLarge
        }
        Fault::InFile(file, cause) => match file_message(alloc, form, file, cause) {
            Ok(text) => {
                report(err, text.as_bytes());
                fault_status(fault)
            }
            Err(_) => {
                report(err, b"asprop: out of memory\n");
                Status::NoMemory
            }
        },
    }
}

/// Says why the work stopped, and gives its status. Where memory for the text of a cycle or of a file is wanting, that is
/// said instead.
pub fn explain<E: Sink>(
    alloc: Global,
    form: &Option<WordForm<'_>>,
    failure: &Failure,
    err: &mut E,
) -> Status
    ensures { Explained (option_map form_seen form.now) failure.now result
        (stream_of E.written E.faults err.old err.new) }
{
    match failure {
        Failure::Memory => {
            report(err, b"asprop: out of memory\n");
            Status::NoMemory
        }
        Failure::Write => {
            report(err, b"asprop: write fault\n");
            Status::WriteFault
        }
        Failure::Cycle(cycle) => match cycle_message(alloc, cycle) {
            Ok(text) => {
                report(err, &text);
                Status::BadInput
            }
            Err(_) => {
                report(err, b"asprop: out of memory\n");
                Status::NoMemory
            }
        },
        Failure::Fault(fault) => explain_fault(alloc, form, *fault, err),
    }
}
