//! Route origin validation: what validated payloads say of a prefix with an origin.
//!
//! [`state`] tells whether the origin may announce the prefix, by all payloads of a set, and [`explain`] tells the payloads
//! that cover the prefix besides. [`States`] gives routing policies the states over a set, or over a set without one
//! payload. [`KnownStates`] gives them those over a set too, and searches it no more for prefixes and origins that it
//! was told ahead.
#![tactic(auto)]

mod explained;
mod judging;
mod known;
mod rows;
mod states;

pub use explained::{Explained, explain, state};
pub use known::KnownStates;
pub use states::States;
