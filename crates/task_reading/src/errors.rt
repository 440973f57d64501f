//! The faults of files as errors of asking.
ghost use Rattle.std.specs.Prelude.{Result, Err};
ghost use Rattle.net_names.specs.Prelude.{LinkMap};
ghost use Rattle.caida_reader.specs.Prelude.{Fails as RelationFails};
ghost use Rattle.caida_reader.specs.declared.errors.RelError.{RelError as ARelError};
ghost use Rattle.roa_table.specs.Prelude.{Gives, Payloads};
ghost use Rattle.roa_table.specs.declared.errors.VrpError.{VrpError as AVrpError};
ghost use Rattle.scenario_text.specs.Prelude.{ScenarioValue};
ghost use Rattle.scenario_text.specs.Faults.{Fails as ScenarioFails};
ghost use Rattle.scenario_text.specs.declared.faults.ScenarioError.{ScenarioError as AScenarioError};
ghost use Rattle.task_reading.specs.Files.{IsFaultIn};
ghost use Rattle.task_reading.specs.declared.types.File.TheVariants as file;
ghost use Rattle.task_reading.specs.declared.types.Cause.TheVariants as cause;

use crate::types::{AskError, Cause, Fault, File};
use caida_reader::RelError;
use roa_table::VrpError;
use scenario_text::ScenarioError;

/// The error for a fault of the relationship file.
pub fn of_relations(error: RelError) -> AskError
    ensures { (value : Result LinkMap ARelError) → RelationFails error value
        → IsFaultIn file.Relations cause.Relation result value }
{
    match error {
        RelError::Memory => AskError::Memory,
        _ => AskError::Fault(Fault::InFile(File::Relations, Cause::Relation(error))),
    }
}

/// The error for a fault of the payload file.
pub fn of_payloads(error: VrpError) -> AskError
    ensures { (value : Result Payloads AVrpError) → Gives (Err error) value
        → IsFaultIn file.Payloads cause.Payload result value }
{
    match error {
        VrpError::Memory => AskError::Memory,
        _ => AskError::Fault(Fault::InFile(File::Payloads, Cause::Payload(error))),
    }
}

/// The error for a fault of the scenario.
pub fn of_scenario(error: ScenarioError) -> AskError
    ensures { (value : Result ScenarioValue AScenarioError) → ScenarioFails error value
        → IsFaultIn file.Scenario cause.Scenario result value }
{
    match error {
        ScenarioError::Memory => AskError::Memory,
        _ => AskError::Fault(Fault::InFile(File::Scenario, Cause::Scenario(error))),
    }
}
