//! The numbers that reports and sweeps give of a hijack by a longer prefix can't rise with the adopters.
//!
//! In a round in which nobody leaks, where one AS alone announces the longer prefix and is invalid there,
//! and ASes begin to drop invalid routes: the number of ASes whose packets are delivered at the hijacker
//! stays or falls, in a report, and in each trial of a line of a sweep.
#![tactic(auto)]

mod laws;

pub use laws::{numbers_fall, reported_hijacks_fall, swept_hijacks_fall};
