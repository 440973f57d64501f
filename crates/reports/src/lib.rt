//! The texts of answers.
//!
//! Each call appends the exact text of an answer to a buffer that its caller keeps and uses again, so
//! that printing takes no memory once the buffer is large enough. Where memory runs out, the buffer is
//! as it was after a call `put_..`; after one of the private calls `append_..` it may have grown.
#![tactic(auto)]

mod entries;
mod group;
mod ranks;
mod report;
mod rows;
mod trace;
mod validity;
mod whole;

pub use entries::put_entry;
pub use ranks::put_ranks;
pub use report::put_report;
pub use rows::{put_numbers, put_route, put_routes};
pub use trace::put_trace;
pub use validity::put_validity;
