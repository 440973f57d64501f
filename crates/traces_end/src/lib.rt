//! Without leaks packets don't run in loops.
//!
//! In each round in which nobody leaks, whatever the policies and whatever is announced, each packet is
//! delivered or finds no route; and it finds none exactly where its first AS has no entry of a prefix that
//! holds the address.
#![tactic(auto)]

mod laws;

pub use laws::packets_arrive;
