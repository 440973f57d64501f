//! The routes of autonomous systems over the links of a relationship file, and answers to a script about them.
//!
//! `main` hands the real arguments, files and streams to `start` of asprop_run, whose contract says what the program does
//! over arguments, inputs and sinks that tell what they hold.
#![tactic(auto)]

use asprop_run::start;
use io_edge::{DirInputs, StdSink};
use std::env;
use std::process::ExitCode;

fn main(rt: HostRuntime) -> ExitCode {
    let mut inputs = DirInputs::new(rt);
    let mut out = StdSink::new(rt.stdout());
    let mut err = StdSink::new(rt.stderr());
    start(rt.alloc(), env::args(&rt), &mut inputs, &mut out, &mut err)
}
