//! Whether a printed table is that of the stable routings.
//!
//! A table has sections, one for each round from the first on. `check_tables` looks at each AS of each
//! section by itself and computes no routing of its own. The law says that it accepts exactly the
//! stable routings of the rounds, and that it accepts their table as it is printed.
#![tactic(auto)]

mod check;
mod everywhere;
mod forms;
mod laws;
mod long_paths;
mod lowest;
mod near;
mod numbers;
mod placed;
mod reading;
mod rows;
mod seeds;
mod tables;
mod verdict;

pub use check::check_tables;
pub use laws::{
    accepted_are_rounds, one_verdict, printed_rounds_are_accepted, printed_tables_are_read,
};
pub use reading::{TablesError, read_tables};
pub use rows::Rows;
pub use tables::{Starts, Tables};
pub use verdict::Verdict;
