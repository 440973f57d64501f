//! What a routing policy may answer, and the laws that every policy meets.
//!
//! A policy sees of an offer what stands in a `View`. It accepts or refuses it, ranks two of them,
//! and says which held routes go to which neighbour. Each implementation of `RoutePolicy` proves that
//! it ranks offers strictly, prefers customers, exports what peers and providers gave to customers
//! only, and heeds the validation state only where it says so.
#![tactic(auto)]

mod policy;
mod states;

pub use policy::{Labelled, RoutePolicy, Stance, View};
pub use states::{NoStates, OriginStates};
