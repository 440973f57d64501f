//! The failures that errors come to.
ghost use Rattle.std.specs.Prelude.{◌≡◌};
ghost use Rattle.asprop_run.specs.Failures.{unasked, unloaded, unwritten};
ghost use Rattle.asprop_run.specs.declared.types.Failure.TheVariants.{Memory, Write};

use crate::types::Failure;
use io_edge::Failed;
use sim_core::LoadError;
use std::alloc::AllocError;
use sweep::RowsError;
use task_reading::{AskError, Fault};

impl From<AllocError> for Failure {
    ghost from_gives = { λ _ f. f ≡ Memory };

    fn from(_e: AllocError) -> Failure {
        Failure::Memory
    }
}

impl From<Failed> for Failure {
    ghost from_gives = { λ _ f. f ≡ Write };

    fn from(_e: Failed) -> Failure {
        Failure::Write
    }
}

impl From<AskError> for Failure {
    ghost from_gives = { λ e f. f ≡ unasked e };

    fn from(e: AskError) -> Failure {
        match e {
            AskError::Memory => Failure::Memory,
            AskError::Fault(fault) => Failure::Fault(fault),
        }
    }
}

impl From<LoadError> for Failure {
    ghost from_gives = { λ e f. f ≡ unloaded e };

    fn from(e: LoadError) -> Failure {
        match e {
            LoadError::Memory => Failure::Memory,
            LoadError::TooManyAses => Failure::Fault(Fault::TooManyAses),
            LoadError::ProviderCycle(cycle) => Failure::Cycle(cycle),
        }
    }
}

impl From<RowsError> for Failure {
    ghost from_gives = { λ e f. f ≡ unwritten e };

    fn from(e: RowsError) -> Failure {
        match e {
            RowsError::Memory => Failure::Memory,
            RowsError::Write => Failure::Write,
        }
    }
}
