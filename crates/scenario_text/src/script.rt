//! Reading a script.
ghost use Rattle.std.specs.Prelude.{◌≤◌, length, IfOk};
ghost use Rattle.scenario_text.specs.LineValues.{IsSoundAct};
ghost use Rattle.scenario_text.specs.LineFaults.{Gives};
ghost use Rattle.scenario_text.specs.Script.{command, script_of};

use crate::forms::act;
use crate::line_faults::LinesError;
use crate::lines::{Line, Lines};
use net_names::{MOST_TEXT_BYTES, next_kept};
use std::alloc::Global;

/// Why a script is refused. It may have 100,000 lines that aren't skipped.
pub type ScriptError = LinesError;

/// How many lines of a script ask or edit at most.
pub const MOST_COMMANDS: u32 = 100_000;

// What a line says that isn't skipped, where so many others stand before it.
fn command_of(alloc: Global, line: &[u8], number: u32, before: u32) -> Result<Line, ScriptError>
    ensures gives { Gives result (command before (number, line.now)) }
    ensures sound { IfOk result (λ l. IsSoundAct l.act) }
{
    let Some(act) = act(alloc, line)? else {
        return Err(ScriptError::Unreadable { line: number });
    };
    if before < MOST_COMMANDS {
        Ok(Line { number, act })
    } else {
        Err(ScriptError::TooMany { line: number })
    }
}

/// The lines of a script of at most 16,777,216 bytes. A line ends with a line feed, before which one carriage return may
/// stand; a line that is empty or begins with `#` is skipped. The format is this project's own.
///
/// `Unreadable` exactly where the first faulty line has none of the forms, and `TooMany` exactly where it has one and
/// 100,000 lines that aren't skipped stand before it; `Memory` where there is not enough memory.
pub fn read_script(alloc: Global, bytes: &[u8]) -> Result<Lines, ScriptError>
    requires { length bytes.now ≤ MOST_TEXT_BYTES }
    ensures { Gives result (script_of bytes.now) }
{
    let mut lines = Lines::new(alloc);
    let mut rest = bytes;
    let mut number: u32 = 1;
    let mut count: u32 = 0;
    while let Some(kept) = next_kept(rest, number) {
        rest = kept.rest;
        number = kept.number + 1;
        let next = command_of(alloc, kept.line, kept.number, count)?;
        count += 1;
        lines.push(next)?;
    }
    Ok(lines)
}
