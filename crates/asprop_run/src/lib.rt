//! What a run of the program does: from its words, its files and its streams to its status.
//!
//! [`run`] reads the words and the files that they name, writes the answers, and says why it stopped; its contract is the
//! claim of the program. [`start`] is `run` over the arguments of a process. [`told_files_are_answered`],
//! [`answers_are_one_text`], [`orders_settle`], [`messages_settle`], [`stable_tables_are_kept`],
//! [`printed_routes_are_right`] and [`sweeps_are_independent`] are laws of all runs, and of all texts that answer what is asked.
#![tactic(auto)]

mod activating;
mod answers;
mod checking;
mod delivering;
mod explain;
mod failing;
mod laws;
mod loaded;
mod outside;
mod refusals;
mod running;
mod starting;
mod states;
mod sweeping;
mod types;

pub use laws::{
    answers_are_one_text, messages_settle, orders_settle, printed_routes_are_right,
    stable_tables_are_kept, sweeps_are_independent, told_files_are_answered,
};
pub use running::run;
pub use starting::start;
pub use types::Failure;
