//! A simulation: a world, the ranks of its ASes, the routings of all its rounds, and where packets end.
//!
//! [`Sim::load`] makes the world of links, validated payloads and a scenario, and keeps for each round and
//! prefix the one and only stable routing, and for each round and watched address the end of every trace.
//! [`Sim::edit`] changes the world, and says how many entries differ then, or refuses an edit and changes nothing.
//! [`Sim::answer`] appends the answer to a query about it, or refuses a query that names a round, a prefix, an
//! AS or a watched address that the world has not. A [`Sim`] lends its graph, policies, payloads and ranks,
//! and says what ASes put in by themselves; a [`Base`] is a world of which nothing is kept.
#![tactic(auto)]

mod announcements;
mod answering;
mod base;
mod changing;
mod difference;
mod editing;
mod errors;
mod laws;
mod lending;
mod linking;
mod loading;
mod marking;
mod naming;
mod parts;
mod payloads;
mod policies;
mod readers;
mod renewing;
mod seeding;
mod sim;
mod simulating;
mod touching;
mod validating;
mod watching;

pub use base::Base;
pub use editing::Changed;
pub use errors::{EditError, EditLimit, LoadError, QueryError};
pub use laws::{answers_are_one, kept_are_stable, kept_is_one};
pub use naming::is_other;
pub use sim::Sim;
pub use validating::known_states;
