//! Offers between ASes, what it is for a routing to be right and stable, and that there is exactly one
//! stable routing.
//!
//! A routing is stable where each AS holds its seed, or else the offer that its policy puts first, or
//! nothing where it has no offer. In a world without a provider cycle there is exactly one stable
//! routing, and activations in any order come to it. `check_at` tests one AS, `right_entry` answers
//! what it would be right with, `seeds_at` what ASes put in in a round, and the laws say what an offer
//! and a choice depend on.
#![tactic(auto)]

mod book;
mod check;
mod entry;
mod laws;
mod offer_paths;
mod offers;
mod right;
mod round_seeds;
mod routing;
mod same;
mod seed_plan;
mod world;
mod wrong;

pub use book::{Book, FEW_NAMED};
pub use check::{better, check_at, holds_given};
pub use entry::{Entry, Seed};
pub use laws::{
    a_stable_routing_exists, any_order_settles, customers_decide, exactly_one_family,
    exactly_one_stable_routing, nothing_up, offer_follows, offer_names, one_answer, one_family,
    one_stable_routing, paths_go_on, right_by_offers, right_follows,
};
pub use offer_paths::offer_path;
pub use offers::{carried, class_from, last_of, number_sent, offered_view};
pub use right::right_entry;
pub use round_seeds::seeds_at;
pub use routing::{Routing, Seeds};
pub use same::{is_of_seed, same_class, same_number, same_path};
pub use seed_plan::{SeedEdit, SeedPlan, plans_are_sound};
pub use world::World;
pub use wrong::Wrong;
