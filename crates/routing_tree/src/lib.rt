//! The stable routing of a prefix as a routing tree, without its paths: of each AS how long the path is that it holds, from
//! which neighbour it has it, and at whom its packets end (the routing trees of Gill, Schapira and Goldberg, "Let the Market
//! Drive Deployment", 2011).
//!
//! It serves where each announced path is the announcer alone, where nobody leaks, and where each policy hands routes on as
//! the plain one does and sets no mark. ASes stand at their places in an order by rank, so that nothing is looked up by
//! number, and growing a tree takes no memory.
#![tactic(auto)]

mod around;
mod choosing;
mod ends;
mod growing;
mod links;
mod tree;

pub use ends::Ends;
pub use links::{PlaceLists, PlacedLinks};
pub use tree::{Placed, PlacedSeed, RoutingTree};
