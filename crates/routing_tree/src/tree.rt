//! Routing trees, and what they grow by.

ghost use Rattle.std.specs.Prelude.{◌≡◌, ℕ, IfOk, length};
ghost use Rattle.routing_tree.specs.Trees.{HasPlaces};

use crate::links::PlacedLinks;
use net_names::{Asn, NoMemory, State};
use std::alloc::Global;

/// The ASes of a graph by rising rank, and at the place of each its links and its policy.
#[derive(Drop)]
pub struct Placed<'a, P> {
    /// The ASes.
    pub ases: &'a [Asn],
    /// The links.
    pub links: &'a PlacedLinks,
    /// The policies.
    pub policies: &'a [P],
}

/// An AS that announces the prefix with a path of itself alone.
#[derive(Clone, Copy)]
pub struct PlacedSeed {
    /// Its place.
    pub place: u32,
    /// The state of the prefix with it as origin.
    pub state: State,
}

/// What each AS holds of a prefix, by its place: how long its path is, 0 where it holds nothing; whether that is an own or a
/// customer's route; the state of the prefix with the path's origin; and the place of the neighbour from which it has it,
/// which is its own where it announces it.
#[derive(Drop)]
pub struct RoutingTree {
    pub(crate) lengths: Vec<u32>,
    pub(crate) lows: Vec<bool>,
    pub(crate) states: Vec<State>,
    pub(crate) parents: Vec<u32>,
}

impl RoutingTree {
    /// The tree of so many places at which nothing is held. The only refusal is want of memory.
    pub fn none(alloc: Global, count: usize) -> Result<RoutingTree, NoMemory>
        ensures { IfOk result (HasPlaces count) }
    {
        Ok(RoutingTree {
            lengths: Vec::from_elem(alloc, 0u32, count)?,
            lows: Vec::from_elem(alloc, false, count)?,
            states: Vec::from_elem(alloc, State::NotFound, count)?,
            parents: Vec::from_elem(alloc, 0u32, count)?,
        })
    }
}
