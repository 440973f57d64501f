//! Sets of validated ROA payloads, and the CSV files that they are read from.
//!
//! [`Vrps`] is a finite set of at most 2,000,000 payloads. It tells the payloads of one prefix and those that cover one, in
//! order. [`read`] gives the set of all payloads of a file, or the first fault of its first faulty row. A file has such a
//! set exactly where each row gives a payload and these are at most 2,000,000 different ones; then its payloads are those
//! that some row gives ([`payloads_are_those_given`]).
#![tactic(auto)]

mod chunk;
mod chunks;
mod covering;
mod crowd;
mod errors;
mod file;
mod gather;
mod laws;
mod plain;
mod printed;
mod record;
mod row;
mod rows;
mod table;

pub use covering::Covering;
pub use errors::{AddError, VrpError};
pub use file::read;
pub use laws::payloads_are_those_given;
pub use table::{MOST_PAYLOADS, Vrps};
