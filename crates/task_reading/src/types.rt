//! What a run is about.
ghost use Rattle.std.specs.Prelude.{◌≡◌};
ghost use Rattle.task_reading.specs.Texts.{number_of};
ghost use Rattle.task_reading.specs.declared.types.AskError.TheVariants.{Memory};

use activations::ActsError;
use caida_reader::RelError;
use message_sim::DeliveriesError;
use net_names::NoMemory;
use roa_table::VrpError;
use scenario_text::{LinesError, ScenarioError};
use std::alloc::AllocError;
use table_check::TablesError;

/// The part that a file has in a run.
#[derive(Clone, Copy, Debug, PartialEq, Eq)]
pub enum File {
    /// The relationship file.
    Relations,
    /// The payload file.
    Payloads,
    /// The scenario.
    Scenario,
    /// The file of an option for what is asked.
    Asked,
}

/// Why the words and the files give no task.
#[derive(Clone, Copy, Debug, PartialEq, Eq)]
pub enum Fault {
    /// The words have none of the forms.
    Usage,
    /// This file isn't taken, for this cause.
    InFile(File, Cause),
    /// The world has more than 150,000 ASes.
    TooManyAses,
}

/// Why nothing is asked.
#[derive(Clone, Copy, Debug, PartialEq, Eq)]
pub enum AskError {
    /// Memory ran out.
    Memory,
    /// The words or a file have this fault.
    Fault(Fault),
}

impl From<NoMemory> for AskError {
    ghost from_gives = { λ _ e. e ≡ Memory };

    fn from(_e: NoMemory) -> AskError {
        AskError::Memory
    }
}

impl From<AllocError> for AskError {
    ghost from_gives = { λ _ e. e ≡ Memory };

    fn from(_e: AllocError) -> AskError {
        AskError::Memory
    }
}

/// Why a file isn't taken.
#[derive(Clone, Copy, Debug, PartialEq, Eq)]
pub enum Cause {
    /// A read of it failed.
    Unread,
    /// It has more than this many bytes.
    TooLong(usize),
    /// The relationship file has this fault.
    Relation(RelError),
    /// The payload file has this fault.
    Payload(VrpError),
    /// The scenario has this fault.
    Scenario(ScenarioError),
    /// The script has this fault.
    Script(LinesError),
    /// The file of activations has this fault.
    Acts(ActsError),
    /// The file of deliveries has this fault.
    Deliveries(DeliveriesError),
    /// The file of sweeps has this fault.
    Sweeps(LinesError),
    /// The printed table has this fault.
    Tables(TablesError),
    /// The line of this number, the first such one, names what isn't in the world.
    NotInWorld(u32),
}

/// How a run ended.
#[derive(Clone, Copy, Debug, PartialEq, Eq)]
pub enum Status {
    /// All answers were written, and none is a refusal.
    Done,
    /// All answers were written, and at least one is a refusal.
    SomeRefused,
    /// The words have none of the forms.
    Usage,
    /// A file is refused, or the links have a provider cycle.
    BadInput,
    /// A read of a file failed.
    ReadFault,
    /// A write of the answers failed.
    WriteFault,
    /// Memory ran out.
    NoMemory,
    /// A file is too long, or a counted limit is passed.
    TooLarge,
}

impl Status {
    /// The number with which the program ends.
    pub fn number(self) -> u8
        ensures { result ≡ number_of self }
    {
        match self {
            Status::Done => 0,
            Status::SomeRefused => 1,
            Status::Usage => 2,
            Status::BadInput => 3,
            Status::ReadFault => 4,
            Status::WriteFault => 5,
            Status::NoMemory => 6,
            Status::TooLarge => 7,
        }
    }
}
