//! The stable routing of a prefix, as three passes find it: of customers' routes, of peers' and of providers'. The
//! last two go as one here, so that two passes are made over the ASes, in an order by rank.
//!
//! Upwards each AS takes its seed or the best of its customers' offers. Then, from the top down, each
//! takes its seed or the best of all offers: peers' routes go across and providers' routes down.
//! In a world without a provider cycle the routing that stands then is stable, for every policy that
//! meets the laws, and it is the only stable one.
#![tactic(auto)]

mod course;
mod lists;
mod looks;
mod pass;
mod passes;
mod stable;
mod stances;
mod states;
mod told;
mod way;

pub use course::Course;
pub use stable::{propagate, propagate_along};
pub use way::Way;
