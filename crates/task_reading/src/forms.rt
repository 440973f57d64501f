//! The files of options for what is asked. A module for each has its reader, its fault and what is said of that.
ghost use Rattle.std.specs.Prelude.{◌≡◌, ◌≤◌, length};
ghost use Rattle.net_names.specs.declared.limits.TheConstants.{MOST_LIST_BYTES};
ghost use Rattle.task_reading.specs.Asking.{jobs_in, most_bytes};
ghost use Rattle.task_reading.specs.Files.{FindsJobs};

pub mod acts;
pub mod deliveries;
pub mod script;
pub mod sweeps;
pub mod tables;

use crate::jobs::Jobs;
use crate::types::AskError;
use crate::words::FileOption;
use net_names::{MOST_LIST_BYTES, MOST_TEXT_BYTES};
use std::alloc::Global;

/// How many bytes an option's file has at most.
pub fn most_bytes(option: FileOption) -> usize
    ensures value { result ≡ most_bytes option }
    ensures most { result ≤ MOST_LIST_BYTES }
{
    match option {
        FileOption::Check => MOST_LIST_BYTES,
        FileOption::Script | FileOption::Activations | FileOption::Messages | FileOption::Sweep =>
            MOST_TEXT_BYTES,
    }
}

/// The jobs that the bytes of an option's file ask for.
pub fn jobs_in(alloc: Global, option: FileOption, bytes: &[u8]) -> Result<Jobs, AskError>
    requires { length bytes.now ≤ most_bytes option }
    ensures { FindsJobs result (jobs_in option bytes.now) }
{
    match option {
        FileOption::Script => script::read(alloc, bytes),
        FileOption::Activations => acts::read(alloc, bytes),
        FileOption::Messages => deliveries::read(alloc, bytes),
        FileOption::Sweep => sweeps::read(alloc, bytes),
        FileOption::Check => tables::read(alloc, bytes),
    }
}
