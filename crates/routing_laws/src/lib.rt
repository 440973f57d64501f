//! What holds of the stable routings of every world.
//!
//! Which route leaks are stopped, and how far the others go; what becomes of invalid routes where ASes
//! drop them; what held paths look like; who is reached; and how far a change goes. Each law speaks of
//! the stable routings of a world, or of all rounds of a plan, and of every policy that does what the
//! law asks of it: `kinds_meet` says which of the six kinds do. No law needs memory or has an effect.
#![tactic(auto)]

mod change_laws;
mod invalid_laws;
mod kind_laws;
mod leak_laws;
mod path_laws;
mod reach_laws;

pub use change_laws::{
    clean_adoption_is_idle, dropping_keeps_customers_routes, neighbours_contain,
    no_way_no_influence, right_where_they_differ,
};
pub use invalid_laws::{
    books_agree, books_agree_in_rounds, droppers_hold_no_invalid,
    droppers_hold_no_invalid_in_rounds, invalids_are_cut_off, invalids_are_forgotten,
    invalids_stay_behind_wall, stubs_invalids_are_forgotten,
};
pub use kind_laws::{
    droppers_guard_ways, droppers_keep_customers_routes, droppers_shrink_reach, droppers_wall_off,
    dropping_is_idle, dropping_may_harm, invalids_reach, kinds_meet, kinds_reach,
    kinds_shield_cones, kinds_stop_leaks, order_is_free, ordinary_is_free,
};
pub use leak_laws::{
    adopters_take_no_leaks, guarded_leaks_stop, leaks_reach_no_further, marked_leaks_stop,
};
pub use path_laws::{paths_are_valley_free, routes_come_valley_free, valleys_name_leakers};
pub use reach_laws::{
    careful_chains_reach, careful_ways_reach, cones_are_immune, providers_are_reached,
    valley_free_ways_reach,
};
