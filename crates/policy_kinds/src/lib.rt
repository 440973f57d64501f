//! The six kinds of routing policy.
//!
//! Each kind answers as its row of the table in `specs/Kinds.antt` says, meets the laws of every
//! policy, and has a name of its own, which is read and printed. Another kind is a row there, with its
//! name, a row in `rows.rt`, and a name in `texts.rt`.
#![tactic(auto)]

mod kind;
mod rows;
mod texts;

pub use kind::Kind;
pub use texts::{put_kind, read_kind};
