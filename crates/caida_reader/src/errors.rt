//! Why a relationship file has no links.
ghost use Rattle.std.specs.Prelude.{◌≡◌};
ghost use Rattle.caida_reader.specs.declared.errors.RelError.TheVariants.{Memory};

use net_names::NoMemory;

/// Why a relationship file has no links: the first fault of its first faulty line. Lines are numbered from 1, and those that
/// are skipped count. A line is judged in the order of these variants.
#[derive(Clone, Copy, Debug, PartialEq, Eq)]
pub enum RelError {
    /// Memory ran out.
    Memory,
    /// The line doesn't have the form.
    Unreadable {
        /// The number of the line.
        line: u64,
    },
    /// The two numbers of the line are equal.
    SelfLink {
        /// The number of the line.
        line: u64,
    },
    /// An earlier line gives the same pair another relation.
    Conflict {
        /// The number of the line.
        line: u64,
        /// The number of the first line that gives the pair.
        earlier: u64,
    },
    /// The pair is new, and 1,500,000 pairs stand.
    TooManyLinks {
        /// The number of the line.
        line: u64,
    },
}

impl From<NoMemory> for RelError {
    ghost from_gives = { λ _ e. e ≡ Memory };

    fn from(_e: NoMemory) -> RelError {
        RelError::Memory
    }
}
