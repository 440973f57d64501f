//! Adoption sweeps over a world.
//!
//! [`is_inside`] tells whether a line of a sweep is in a world, and [`put_sweep`] writes the text of a line that is. For
//! a line it keeps what the line asks for alone: the announcements of the prefixes that hold its address, and routing trees of
//! these, or, where paths are needed, the rounds up to its round and one watch. From one world of a trial to the next trees
//! are grown anew; the rounds and the watch are edited where few ASes change, and made anew where many do. The laws say that a
//! line has one text, that rows which were begun are a front of it, and that its numbers are those that a report over the
//! world of the trial counts.
#![tactic(auto)]

mod fixed;
mod inside;
mod kept;
mod kinds;
mod laws;
mod lone;
mod parts;
mod sweeping;
mod tables;
mod touching;
mod trees;
mod trial;

pub use inside::is_inside;
pub use laws::{begun_rows_are_a_front, one_swept_text, swept_numbers_are_reported};
pub use sweeping::put_sweep;
