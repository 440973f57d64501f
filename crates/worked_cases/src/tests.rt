//! What no script of the program shows: types of a test's own, calls that the program doesn't make, and values that it
//! doesn't print. What a script shows is a case of crates/cases. What several modules build stands in `worlds`.
mod edges;
mod files;
mod graphs;
mod kinds;
mod laws;
mod lent_worlds;
mod narrow_policy;
mod path_cells;
mod relationship_files;
mod right_routes;
mod rounds;
mod seeds;
mod steps;
mod tables;
mod values;
mod worlds;
