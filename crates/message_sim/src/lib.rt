//! Messages between ASes, over links that keep their order.
//!
//! Each AS tells its neighbours what it holds, and tells them anew where that has changed. A delivery
//! takes the oldest message from a link; its receiver chooses by what its links received last. Whatever
//! the order of the deliveries, a net without messages under way holds the one stable routing.
#![tactic(auto)]

mod arrival;
mod choosing;
mod forms;
mod ground;
mod laws;
mod line;
mod net;
mod news;
mod queue;
mod reading;
mod route;
mod starting;
mod steps;
mod tables;
mod writes;

pub use laws::{
    deliveries_are_those_said, deliveries_end, deliveries_settle, fair_orders_settle,
    quiet_nets_are_stable, rest_settles, turns_settle, worlds_have_heights,
};
pub use line::Line;
pub use net::Net;
pub use reading::{DeliveriesError, read_deliveries};
pub use route::Route;
pub use steps::{Deliveries, DeliverySteps, MOST_DELIVERIES, Step};
