//! The edge to files and streams: what the program asks of them, and the objects that answer.
//!
//! [`Inputs`] gives files by name and [`Sink`] takes bytes. Each object counts its faults, so that a failure can be told
//! from an answer that gives up by itself. [`read_all`] answers the whole file, or why not; [`write_all`] appends the whole
//! piece, or a front of it where the sink failed. [`CleanInputs`] and [`CleanSink`] never fail, [`MemInputs`] and
//! [`MemSink`] fail at exactly the calls that their user names, [`DirInputs`] and [`StdSink`] are the real files and
//! streams: they pass on what a file or a stream gives and takes, and those of the system tell nothing of that.
#![tactic(auto)]

mod calls;
mod clean_inputs;
mod clean_sink;
mod dir_inputs;
mod files;
mod mem_inputs;
mod mem_sink;
mod std_sink;
mod traits;
mod whole;

pub use clean_inputs::CleanInputs;
pub use clean_sink::CleanSink;
pub use dir_inputs::DirInputs;
pub use mem_inputs::MemInputs;
pub use mem_sink::MemSink;
pub use std_sink::StdSink;
pub use traits::{Failed, Inputs, Sink};
pub use whole::{ReadAllError, read_all, write_all};
