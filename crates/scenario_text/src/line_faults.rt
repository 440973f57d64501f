//! Why a file of lines is refused.
ghost use Rattle.std.specs.Prelude.{◌≡◌};
ghost use Rattle.scenario_text.specs.declared.line_faults.LinesError.TheVariants.{Memory};

use net_names::NoMemory;

/// Why a file of lines is refused: the fault of its first faulty line. Lines are numbered from 1, and skipped lines
/// count. A line is judged in the order of the last two variants.
#[derive(Clone, Copy, Debug, PartialEq, Eq)]
pub enum LinesError {
    /// Memory ran out.
    Memory,
    /// The line has none of the forms that a line of the file may have.
    Unreadable {
        /// The number of the line.
        line: u32,
    },
    /// As many lines that aren't skipped as the file may have stand before the line.
    TooMany {
        /// The number of the line.
        line: u32,
    },
}

impl From<NoMemory> for LinesError {
    ghost from_gives = { λ _ e. e ≡ Memory };

    fn from(_e: NoMemory) -> LinesError {
        LinesError::Memory
    }
}
