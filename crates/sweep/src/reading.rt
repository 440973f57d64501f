//! Reading a file of sweeps.
ghost use Rattle.std.proofs.Common.{rules};
ghost use Rattle.std.specs.Prelude.{◌≡◌, ◌≤◌, ⊤, length};
ghost use Rattle.net_names.specs.Prelude.{kept_from};
ghost use Rattle.net_names.specs.declared.limits.TheConstants.{MOST_TEXT_BYTES as most_bytes};
ghost use Rattle.scenario_text.specs.LineFaults.{Fails as FailsBy};
ghost use Rattle.scenario_text.specs.Prelude.{Gives};
ghost use Rattle.sweep.specs.Reading.{fails_on as fails_alike, sweeps_by, with_line};

use crate::forms::sweep;
use crate::sweeps::{MOST_SWEEPS, Sweeps};
use net_names::{LineByLine, MOST_TEXT_BYTES, put_lines};
use scenario_text::LinesError;
use std::alloc::Global;

/// Why a file of sweeps is refused. It may have 1,000 lines that aren't skipped.
pub type SweepsError = LinesError;

impl LineByLine for Sweeps {
    type Error = LinesError;

    ghost says = { with_line };

    ghost Fails = { FailsBy };

    ghost IsReady = { λ _ _. ⊤ };

    ghost most = { most_bytes };

    ghost fails_on = { fails_alike };

    ghost stays_ready = { λ _ _ _ _ ready. ready };

    ghost fits = { Prim.search rules };

    fn put_line(mut self, alloc: Global, number: u32, line: &[u8]) -> Result<Sweeps, LinesError> {
        let Some(sweep) = sweep(alloc, number, line)? else {
            return Err(LinesError::Unreadable { line: number });
        };
        if self.len() >= MOST_SWEEPS {
            return Err(LinesError::TooMany { line: number });
        }
        self.push(sweep)?;
        Ok(self)
    }
}

/// The sweeps of a file of at most 16,777,216 bytes, a line each. A line ends with a line feed, before which one carriage
/// return may stand; a line that is empty or begins with `#` is skipped. The format is this project's own.
///
/// `Unreadable` exactly where the first faulty line has not the form, and `TooMany` exactly where it has it and 1,000
/// lines that aren't skipped stand before it; `Memory` where there is not enough memory.
pub fn read_sweeps(alloc: Global, bytes: &[u8]) -> Result<Sweeps, SweepsError>
    requires { length bytes.now ≤ MOST_TEXT_BYTES }
    ensures { Gives result (sweeps_by (kept_from 1 bytes.now)) }
{
    put_lines(alloc, Sweeps::new(alloc), 1, bytes)
}
