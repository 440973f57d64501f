//! Worked cases for the calls of all libraries, and a policy that is none of the kinds.
//!
//! Each test makes public calls with ample memory, and compares what they answer with values worked by hand
//! or taken from outside. `Narrow` meets the laws of `policy_laws` and differs from each kind in what it
//! accepts, in what it exports, and in whom it likes better: what is proved of every policy is tried on it.
#![tactic(auto)]

mod narrow;

pub use narrow::Narrow;

#[cfg(test)]
mod tests;
