//! What more droppers do to a hijack by a longer prefix.
//!
//! All that is announced of the longer prefix is invalid. In each round in which nobody leaks, whose packets
//! come to a hijacker where more ASes drop invalid routes is one whose packets do where fewer drop them; so
//! no count of such ASes rises.
#![tactic(auto)]

mod laws;

pub use laws::{sub_prefix_adoption_helps, sub_prefix_counts_fall};
