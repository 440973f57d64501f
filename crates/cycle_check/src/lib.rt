//! Provider cycles and ranks, by counting customers.
//!
//! `find_cycle` gives a provider cycle, from its lowest number on, exactly where a graph has one.
//! `rank_ases` gives such a cycle or, where there is none, the rank of each AS and the ASes by rising
//! rank. Each AS waits for its customers; one that has none left to wait for gets its rank and notifies
//! its providers. So neither the depth nor the shape of a graph matters: each list of providers is
//! looked at a bounded number of times. `closes` gives the cycle that a new provider link would close,
//! by two searches, up from the provider and down from the customer.
#![tactic(auto)]

mod closing;
mod counting;
mod cycle;
mod lowest_first;
mod notifying;
mod placing;
mod provider_rows;
mod ranking;
mod row;
mod search;
mod way;

pub use closing::closes;
pub use cycle::Cycle;
pub use placing::{place_in, place_near};
pub use provider_rows::places_of_rows;
pub use ranking::{Ranked, RankedAs, Ranking, find_cycle, rank_ases};
