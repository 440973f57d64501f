//! The graph of ASes: links between customers, peers and providers, and marked ASes.
//!
//! Contracts see a graph as a finite map of links and a finite set of marked ASes, and see the pair of
//! ASes whose edits take no memory. Its ASes are the ends of its links and the marked ones. The
//! neighbours of an AS, and the ASes, come in rising order of their numbers. The laws say what
//! provider cycles and ranks are, for any graph.
#![tactic(auto)]

mod build;
mod ends;
mod error;
mod finder;
mod graph;
mod laws;
mod neighbour;
mod order;
mod places;
mod row;
mod writes;

pub use build::MOST_ASES;
pub use error::{Absent, GraphError};
pub use graph::Graph;
pub use laws::{
    ases_are_kept, edits_are_undone, fitting_are_ranks, links_are_set, links_are_sound,
    links_are_taken, one_rank, ranks_fit,
};
pub use neighbour::Neighbour;
