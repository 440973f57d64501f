//! A printed table: whether it is that of the stable routings is answered.
ghost use Rattle.std.specs.Prelude.{◌≡◌, ◌≤◌, IfOk, Result, length, string_bytes};
ghost use Rattle.table_check.specs.Reading.{Fails};
ghost use Rattle.table_check.specs.declared.reading.TablesError.{TablesError as ATablesError};
ghost use Rattle.table_check.specs.declared.tables.Tables.{Tables as SomeTables};
ghost use Rattle.net_names.specs.declared.limits.TheConstants.{MOST_LIST_BYTES};
ghost use Rattle.task_reading.specs.Asking.{jobs_in};
ghost use Rattle.task_reading.specs.Files.{FindsJobs, IsFaultIn};
ghost use Rattle.task_reading.specs.Texts.{cause_of};
ghost use Rattle.task_reading.specs.declared.types.File.TheVariants as file;
ghost use Rattle.task_reading.specs.declared.words.FileOption.TheVariants as option;

use crate::jobs::{Asks, Jobs};
use crate::types::{AskError, Cause, Fault, File};
use std::alloc::{AllocError, Global};
use table_check::{TablesError, read_tables};

// The error for a fault of the printed table.
fn fault_of(error: TablesError) -> AskError
    ensures { (value : Result SomeTables ATablesError) → Fails error value
        → IsFaultIn file.Asked Cause.Tables result value }
{
    match error {
        TablesError::Memory => AskError::Memory,
        _ => AskError::Fault(Fault::InFile(File::Asked, Cause::Tables(error))),
    }
}

/// The one job that a printed table asks for.
pub fn read(alloc: Global, bytes: &[u8]) -> Result<Jobs, AskError>
    requires { length bytes.now ≤ MOST_LIST_BYTES }
    ensures { FindsJobs result (jobs_in option.Check bytes.now) }
{
    match read_tables(alloc, bytes) {
        Ok(tables) => Ok(Jobs::of_asks(Asks::Tables(tables))),
        Err(error) => Err(fault_of(error)),
    }
}

/// What is said of a fault of a printed table.
pub fn text(alloc: Global, error: TablesError) -> Result<String, AllocError>
    ensures { IfOk result (λ text. string_bytes text ≡ (cause_of (Cause.Tables error)).1) }
{
    match error {
        TablesError::Memory => Ok(String::new(alloc)),
        TablesError::Unreadable { line } => format!(in alloc; "line {line}: unreadable"),
        TablesError::Twice { line } => format!(in alloc; "line {line}: named twice"),
        TablesError::NoFor => String::from_str(alloc, "no for line"),
    }
}
