//! Runs the cases of a bundle, and says which of them are not as they say.
//!
//! A bundle is a text, read from standard input. A case in it has a name, words, files, and the status, the output and the
//! fault text that a run over them must leave; docs/CASES.md says how it is written. Each case is run over files and sinks
//! in memory, in several ways: so many bytes a call, and calls that fail. `check` prints a line for each case that is not as
//! it says, and last how many passed and how many failed.
#![tactic(auto)]

ghost use Rattle.std.specs.Prelude.{◌≡◌, ◌↔◌, Ok, true};
ghost use Rattle.std.specs.Process.{exit_status};

mod case;
mod check;
mod judge;
mod lines;
mod read;
mod report;
mod text;

use check::check;
use io_edge::StdSink;
use judge::OutOfMemory;
use std::io::Read;
use std::process::ExitCode;

// The exit status: 0 exactly where all cases passed, and that was written.
fn code(checked: Result<bool, OutOfMemory>) -> ExitCode
    ensures { (exit_status result ≡ 0) ↔ (checked ≡ Ok true) }
{
    match checked {
        Ok(true) => ExitCode::SUCCESS,
        Ok(false) => ExitCode::FAILURE,
        Err(OutOfMemory) => ExitCode::FAILURE,
    }
}

fn main(rt: HostRuntime) -> ExitCode {
    let mut text = Vec::new(rt.alloc());
    let mut out = StdSink::new(rt.stdout());
    if rt.reader().read_to_end(&mut text).is_err() {
        return ExitCode::FAILURE;
    }
    code(check(rt.alloc(), &text, &mut out))
}
