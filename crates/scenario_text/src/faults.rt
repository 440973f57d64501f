//! Why a scenario is refused.
ghost use Rattle.std.specs.Prelude.{◌≡◌};
ghost use Rattle.scenario_text.specs.declared.faults.ScenarioError.TheVariants.{Memory};

use crate::places::Place;
use std::alloc::{AllocError, AllocFailed};

/// The limits of a scenario, in the order in which they are tested.
#[derive(Clone, Copy, Debug, PartialEq, Eq)]
pub enum LimitOf {
    /// 64 announcements.
    Announcements,
    /// 32 different prefixes that are announced.
    Prefixes,
    /// 64 numbers in a path.
    Path,
    /// 4 rounds, that is, leakers of three rounds after the first.
    Rounds,
    /// 64 leakers in a round.
    Leakers,
    /// 16 watched addresses.
    Watch,
}

/// Why a scenario is refused: the first fault of the first pass that finds one. The passes are the variants after
/// `Memory`, in their order.
#[derive(Clone, Copy, Debug, PartialEq, Eq)]
pub enum ScenarioError {
    /// Memory ran out.
    Memory,
    /// The bytes are no JSON text, as `serde_json` reads it (RFC 8259).
    NotJson,
    /// A value has another type than its place takes, an object has an unknown member, or a member is missing.
    Shape {
        /// The value, the object or the missing member.
        place: Place,
    },
    /// An AS number, a prefix, an address or a policy's name is outside its grammar, or a path does not start with its AS.
    Value {
        /// The value.
        place: Place,
    },
    /// The same stands earlier.
    Twice {
        /// The later one.
        place: Place,
    },
    /// A limit is passed.
    Limit {
        /// The first limit that is passed.
        which: LimitOf,
    },
}

impl From<AllocError> for ScenarioError {
    ghost from_gives = { λ _ e. e ≡ Memory };

    fn from(_e: AllocError) -> ScenarioError {
        ScenarioError::Memory
    }
}

impl<T: Drop> From<AllocFailed<T>> for ScenarioError {
    ghost from_gives = { λ _ e. e ≡ Memory };

    fn from(_e: AllocFailed<T>) -> ScenarioError {
        ScenarioError::Memory
    }
}
