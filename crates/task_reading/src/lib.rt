//! What a run of the program is asked for: the words of the command line and the files that they name.
//!
//! [`read_words`] gives the form of the words, and none exactly where the command doesn't take them or they have none of
//! the forms. [`ask`] reads the files that a form names, each to its end or to one byte past its limit, and gives what they
//! ask for, or the first fault in the order of reading; it yields to want of memory alone. [`fault_status`],
//! [`usage_message`], [`ases_message`] and [`file_message`] say with which status and text a run ends that has a fault.
#![tactic(auto)]

mod asking;
mod command;
mod errors;
mod fault_texts;
mod forms;
mod jobs;
mod reading;
mod types;
mod words;

pub use asking::{Asked, ask};
pub use fault_texts::{ases_message, fault_status, file_message, usage_message};
pub use jobs::{Job, Jobs, Needs, jobs_are_alike};
pub use types::{AskError, Cause, Fault, File, Status};
pub use words::{FileOption, WordForm, read_words};
