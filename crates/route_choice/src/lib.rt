//! What one AS chooses, and what all ASes hold. A table has for one prefix what each AS holds, an
//! overlay has changes of it, and both name paths of a pool; a round has a table for each prefix. A
//! step of an AS takes its seed, or else its best offer, or nothing, and puts the entry that this
//! names into the overlay. It takes no memory, and each step is counted. Who makes steps needs only
//! that they can be made, and learns what each leaves: the routing, the holds and the room.
//!
//! When an AS takes its step in the order of ranks, each path through itself that it is offered ends as a seed's path on
//! which it stands (`named_by`).
#![tactic(auto)]

mod asn_set;
mod beside;
mod best;
mod choice;
mod choosing;
mod counts;
mod dense;
mod few;
mod first;
mod held;
mod looks;
mod loops;
mod marks;
mod named;
mod named_set;
mod overlay;
mod plain;
mod prefix_world;
mod round_tables;
mod row;
mod seeds;
mod settling;
mod slot;
mod slots;
mod stepping;
mod steps;
mod table;
mod turn;
mod views;

pub use asn_set::AsnSet;
pub use choice::{Choice, ChoiceNear, Part};
pub use choosing::{evaluate, evaluate_near};
pub use counts::MOST_COUNTED;
pub use held::{Held, SeedHeld};
pub use loops::may_loop_among;
pub use marks::Marks;
pub use named::named_by;
pub use named_set::NamedSet;
pub use overlay::Overlay;
pub use plain::visit_providers;
pub use prefix_world::PrefixWorld;
pub use round_tables::RoundTables;
pub use seeds::SeedIds;
pub use settling::{settle, settle_near};
pub use stepping::{visit, visit_among};
pub use steps::Steps;
pub use table::{Table, TableRoom, uses_are_counted};
pub use turn::{PlacedAs, Turn};
pub use views::view_but_for_loops;
