//! The texts and statuses of faults.
ghost use Rattle.std.specs.Prelude.{◌≡◌, [], IfOk, None, Option, option_map, string_bytes, unwrap_or};
ghost use Rattle.clap.specs.Walk.{Text};
ghost use Rattle.task_reading.specs.Texts.{cause_of, fault_ending, lines_cause};
ghost use Rattle.task_reading.specs.Words.{Form, form_seen, name_by};

use crate::forms::{acts, deliveries, script, sweeps, tables};
use crate::types::{Cause, Fault, File, Status};
use crate::words::WordForm;
use caida_reader::RelError;
use net_names::MOST_LINKS;
use roa_table::{MOST_PAYLOADS, VrpError};
use scenario_text::{LimitOf, LinesError, ScenarioError, place_string};
use std::alloc::{AllocError, Global};

const USAGE: &str = concat!(
    "usage: asprop REL [--vrps FILE] [--scenario FILE] [--script FILE]\n",
    "       asprop REL --origin N\n",
    "       asprop --demo N\n",
    "       asprop REL [--vrps FILE] [--scenario FILE] --activations FILE\n",
    "       asprop REL [--vrps FILE] [--scenario FILE] --messages FILE\n",
    "       asprop REL [--vrps FILE] [--scenario FILE] --sweep FILE\n",
    "       asprop REL [--vrps FILE] [--scenario FILE] --check FILE\n",
);

// What is said of a fault of the relationship file.
fn relation_text(alloc: Global, error: RelError) -> Result<String, AllocError>
    ensures { IfOk result (λ text. string_bytes text ≡ (cause_of (Cause.Relation error)).1) }
{
    match error {
        RelError::Memory => Ok(String::new(alloc)),
        RelError::Unreadable { line } => format!(in alloc; "line {line}: unreadable"),
        RelError::SelfLink { line } => format!(in alloc; "line {line}: an AS linked to itself"),
        RelError::Conflict { line, earlier } => {
            format!(in alloc; "line {line}: conflicts with line {earlier}")
        }
        RelError::TooManyLinks { line } => format!(in alloc;
            "line {line}: more than {MOST_LINKS} links"
        ),
    }
}

// What is said of a fault of the payload file.
fn payload_text(alloc: Global, error: VrpError) -> Result<String, AllocError>
    ensures { IfOk result (λ text. string_bytes text ≡ (cause_of (Cause.Payload error)).1) }
{
    match error {
        VrpError::Memory => Ok(String::new(alloc)),
        VrpError::Fields { row } => format!(in alloc; "row {row}: fewer than three fields"),
        VrpError::BadAsn { row } => format!(in alloc; "row {row}: bad AS number"),
        VrpError::BadPrefix { row } => format!(in alloc; "row {row}: bad prefix"),
        VrpError::BadMax { row } => format!(in alloc; "row {row}: bad maximum length"),
        VrpError::TooMany { row } => format!(in alloc;
            "row {row}: more than {MOST_PAYLOADS} payloads"
        ),
    }
}

// The limit that a scenario passes.
fn limit_text(which: LimitOf) -> &'static str
    ensures { result.now ≡ (cause_of (Cause.Scenario (ScenarioError.Limit which))).1 }
{
    match which {
        LimitOf::Announcements => "more than 64 announcements",
        LimitOf::Prefixes => "more than 32 prefixes",
        LimitOf::Path => "more than 64 numbers in a path",
        LimitOf::Rounds => "more than 4 rounds",
        LimitOf::Leakers => "more than 64 leakers in a round",
        LimitOf::Watch => "more than 16 watched addresses",
    }
}

// What is said of a fault of the scenario.
fn scenario_text(alloc: Global, error: ScenarioError) -> Result<String, AllocError>
    ensures { IfOk result (λ text. string_bytes text ≡ (cause_of (Cause.Scenario error)).1) }
{
    match error {
        ScenarioError::Memory => Ok(String::new(alloc)),
        ScenarioError::NotJson => String::from_str(alloc, "not JSON"),
        ScenarioError::Shape { place } => {
            let text = place_string(alloc, place)?;
            format!(in alloc; "{text}: wrong shape")
        }
        ScenarioError::Value { place } => {
            let text = place_string(alloc, place)?;
            format!(in alloc; "{text}: bad value")
        }
        ScenarioError::Twice { place } => {
            let text = place_string(alloc, place)?;
            format!(in alloc; "{text}: named twice")
        }
        ScenarioError::Limit { which } => String::from_str(alloc, limit_text(which)),
    }
}

/// What is said of a fault of a file of lines, of which it may have so many.
pub fn lines_text(alloc: Global, error: LinesError, most: &str) -> Result<String, AllocError>
    ensures { IfOk result (λ text. string_bytes text ≡ (lines_cause most.now error).1) }
{
    match error {
        LinesError::Memory => Ok(String::new(alloc)),
        LinesError::Unreadable { line } => format!(in alloc; "line {line}: unreadable"),
        LinesError::TooMany { line } => format!(in alloc; "line {line}: more than {most}"),
    }
}

/// The status of a fault of a file of lines.
pub fn lines_status(error: LinesError) -> Status
    ensures { (most : Text) → result ≡ (lines_cause most error).0 }
{
    match error {
        LinesError::TooMany { line: _ } => Status::TooLarge,
        _ => Status::BadInput,
    }
}

// What is said of a file that isn't taken, with the place in it.
fn cause_text(alloc: Global, cause: Cause) -> Result<String, AllocError>
    ensures { IfOk result (λ text. string_bytes text ≡ (cause_of cause).1) }
{
    match cause {
        Cause::Unread => String::from_str(alloc, "read fault"),
        Cause::TooLong(most) => format!(in alloc; "more than {most} bytes"),
        Cause::Relation(error) => relation_text(alloc, error),
        Cause::Payload(error) => payload_text(alloc, error),
        Cause::Scenario(error) => scenario_text(alloc, error),
        Cause::Script(error) => script::text(alloc, error),
        Cause::Acts(error) => acts::text(alloc, error),
        Cause::Deliveries(error) => deliveries::text(alloc, error),
        Cause::Sweeps(error) => sweeps::text(alloc, error),
        Cause::Tables(error) => tables::text(alloc, error),
        Cause::NotInWorld(line) => format!(in alloc; "line {line}: not in the world"),
    }
}

// The name of a file as the form gives it.
fn file_name<'a>(form: &Option<WordForm<'a>>, file: File) -> &'a str
    ensures { result.now ≡ unwrap_or (name_by (option_map form_seen form.now) file) [] }
{
    match form {
        Some(form) => form.name(file).unwrap_or(""),
        None => "",
    }
}

/// What is said of words that have none of the forms.
pub fn usage_message() -> &'static str
    ensures { result.now ≡ (fault_ending None Fault.Usage).1 }
{
    USAGE
}

/// What is said of a world with more ASes than a run takes.
pub fn ases_message() -> &'static str
    ensures { result.now ≡ (fault_ending None Fault.TooManyAses).1 }
{
    "asprop: more than 150000 ASes\n"
}

/// What is said of a file that isn't taken, with its name as the form gives it and the place in it.
pub fn file_message(
    alloc: Global,
    form: &Option<WordForm<'_>>,
    file: File,
    cause: Cause,
) -> Result<String, AllocError>
    ensures { IfOk result (λ text. string_bytes text ≡
        (fault_ending (option_map form_seen form.now) (Fault.InFile file cause)).1) }
{
    let name = file_name(form, file);
    let text = cause_text(alloc, cause)?;
    format!(in alloc; "asprop: {name}: {text}\n")
}

// The status of a file that isn't taken.
fn cause_status(cause: Cause) -> Status
    ensures { result ≡ (cause_of cause).0 }
{
    match cause {
        Cause::Unread => Status::ReadFault,
        Cause::TooLong(_) => Status::TooLarge,
        Cause::Relation(RelError::TooManyLinks { line: _ }) => Status::TooLarge,
        Cause::Relation(_) => Status::BadInput,
        Cause::Payload(VrpError::TooMany { row: _ }) => Status::TooLarge,
        Cause::Payload(_) => Status::BadInput,
        Cause::Scenario(ScenarioError::Limit { which: _ }) => Status::TooLarge,
        Cause::Scenario(_) => Status::BadInput,
        Cause::Script(error) => script::status(error),
        Cause::Acts(error) => acts::status(error),
        Cause::Deliveries(error) => deliveries::status(error),
        Cause::Sweeps(error) => sweeps::status(error),
        Cause::Tables(_) | Cause::NotInWorld(_) => Status::BadInput,
    }
}

/// The status with which a run ends that has this fault.
pub fn fault_status(fault: Fault) -> Status
    ensures { (form : Option Form) → result ≡ (fault_ending form fault).0 }
{
    match fault {
        Fault::Usage => Status::Usage,
        Fault::TooManyAses => Status::TooLarge,
        Fault::InFile(_, cause) => cause_status(cause),
    }
}
