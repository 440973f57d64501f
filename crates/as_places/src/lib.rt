//! Distinct AS numbers, each at a place.
//!
//! `AsPlaces` has numbers in a list. Whoever keeps something for each AS keeps it by place and needs
//! no look-up where a place is known: a hint is compared with the number that stands there. A place
//! that was given once stays.
#![tactic(auto)]

mod gathering;
mod places;

pub use places::AsPlaces;
