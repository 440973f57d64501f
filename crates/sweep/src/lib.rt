//! Sweeps: how many ASes reach whom where more and more ASes adopt a kind of policy.
//!
//! A line of a sweep asks for trials. In each of them some ASes, drawn by SplitMix64, adopt the line's kind, and the
//! fates of all packets for one address in one round are counted. [`read_sweeps`] takes the lines from a file, and
//! [`sweep_rows`] writes the rows of a line, over whatever is a [`Trial`]: a world whose policies can be changed and
//! whose fates are counted. Those of the first number of adopters are written trial by trial, as they come. Afterwards the
//! policies are as they were.
#![tactic(auto)]

mod drawing;
mod error;
mod forms;
mod laws;
mod reading;
mod rows;
mod standing;
mod stepping;
mod sweeping;
mod sweeps;
mod trial;

pub use error::RowsError;
pub use laws::{adopters_are_least, swept_texts_are_one};
pub use reading::{SweepsError, read_sweeps};
pub use sweeping::sweep_rows;
pub use sweeps::{Ks, MOST_NUMBERS, MOST_SWEEPS, MOST_TRIALS, Sweep, Sweeps};
pub use trial::{Fate, Trial};
