//! Where packets go. In each round and for each address an AS has a next hop, by the longest prefix of
//! which it has an entry; the trace of a packet follows next hops until it is delivered, has no route,
//! or comes back to an AS. A watch keeps the end of every AS's trace for one round and address, and
//! counts them by group.
#![tactic(auto)]

mod announcers;
mod best;
mod blank;
mod candidate;
mod cell;
mod columns;
mod counting;
mod differing;
mod forwarding;
mod growing;
mod hints;
mod hops;
mod index;
mod keeping;
mod kinds;
mod laws;
mod leaving;
mod lists;
mod packed;
mod places;
mod renewal;
mod source;
mod spreading;
mod sums;
mod tracing;
mod walks;
mod watch;

pub use differing::Differing;
pub use hops::next_hop;
pub use index::WatchIndex;
pub use kinds::{End, Hop, Trace, Which};
pub use laws::{longest_is_sent, one_trace, rounds_stay_inside};
pub use tracing::trace;
pub use watch::Watch;
