//! A file of sweeps: the trials of each are answered by counts.
ghost use Rattle.std.specs.Prelude.{◌≡◌, ◌≤◌, IfOk, List, Result, length, string_bytes};
ghost use Rattle.scenario_text.specs.LineFaults.{Fails};
ghost use Rattle.scenario_text.specs.declared.line_faults.LinesError.{LinesError as ALinesError};
ghost use Rattle.net_names.specs.declared.limits.TheConstants.{MOST_TEXT_BYTES};
ghost use Rattle.sweep.specs.declared.sweeps.Sweep.{Sweep as ASweep};
ghost use Rattle.task_reading.specs.Asking.{jobs_in};
ghost use Rattle.task_reading.specs.Files.{FindsJobs, IsFaultIn};
ghost use Rattle.task_reading.specs.Texts.{cause_of};
ghost use Rattle.task_reading.specs.declared.types.File.TheVariants as file;
ghost use Rattle.task_reading.specs.declared.words.FileOption.TheVariants as option;

use crate::fault_texts::{lines_status, lines_text};
use crate::jobs::{Asks, Jobs};
use crate::types::{AskError, Cause, Fault, File, Status};
use scenario_text::LinesError;
use std::alloc::{AllocError, Global};
use sweep::{MOST_SWEEPS, read_sweeps};

// The error for a fault of the file of sweeps.
fn fault_of(error: LinesError) -> AskError
    ensures { (value : Result (List ASweep) ALinesError) → Fails error value
        → IsFaultIn file.Asked Cause.Sweeps result value }
{
    match error {
        LinesError::Memory => AskError::Memory,
        _ => AskError::Fault(Fault::InFile(File::Asked, Cause::Sweeps(error))),
    }
}

/// The jobs that a file of sweeps asks for.
#[tactic(auto, using(crate::proofs::FewSweeps::few_sweeps))]
pub fn read(alloc: Global, bytes: &[u8]) -> Result<Jobs, AskError>
    requires { length bytes.now ≤ MOST_TEXT_BYTES }
    ensures { FindsJobs result (jobs_in option.Sweep bytes.now) }
{
    match read_sweeps(alloc, bytes) {
        Ok(sweeps) => Ok(Jobs::of_asks(Asks::Sweeps(sweeps))),
        Err(error) => Err(fault_of(error)),
    }
}

/// What is said of a fault of a file of sweeps.
pub fn text(alloc: Global, error: LinesError) -> Result<String, AllocError>
    ensures { IfOk result (λ text. string_bytes text ≡ (cause_of (Cause.Sweeps error)).1) }
{
    let most = format!(in alloc; "{MOST_SWEEPS} sweeps")?;
    lines_text(alloc, error, &most)
}

/// The status of a fault of a file of sweeps.
pub fn status(error: LinesError) -> Status
    ensures { result ≡ (cause_of (Cause.Sweeps error)).0 }
{
    lines_status(error)
}
