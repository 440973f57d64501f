//! Relationship files of CAIDA's form: the links between ASes, one in each line.
//!
//! [`Reader`] takes a file in pieces and judges each line that a line feed has ended; [`read_links`] takes it whole. Both
//! give the links that the lines give, or the first fault with its line, however the file is cut. A file has links exactly
//! where each line that isn't skipped has the form and joins two ASes, no two lines give one pair two relations, and there
//! are at most 1,500,000 pairs; then its links are those that some line gives, in whatever order the lines stand
//! ([`links_are_those_given`]).
#![tactic(auto)]

mod digits;
mod entry;
mod errors;
mod firsts;
mod laws;
mod line;
mod marks;
mod merge;
mod others;
mod reader;
mod run;
mod runs;

pub use errors::RelError;
pub use laws::links_are_those_given;
pub use reader::{Reader, read_links, read_pieces};
