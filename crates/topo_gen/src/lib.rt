//! A generated input: links, payloads, a scenario and the lines of a script, made of one number.
//!
//! [`generate`] draws the links by the words of SplitMix64, seeded with the number of ASes, so that the same number
//! gives the same input everywhere. Each provider has a lower number than its customer. The lines ask for reports,
//! cut ten links and join each again, and ask once more.
#![tactic(auto)]

mod demo;
mod draw;
mod lines;
mod links;
mod pairs;
mod scenario;

pub use demo::{Demo, MOST_DRAWN, generate};
