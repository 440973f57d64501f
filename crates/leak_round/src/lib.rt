//! The tables of all rounds of a plan of seeds.
//!
//! In round 1 the announced paths are the seeds. In each later round each leaker of that round leaks
//! too: it puts in the path that a peer or a provider gave it in the round just before. `Rounds::build`
//! makes for each round and prefix the one stable routing of its seeds, over one pool of paths.
//! `Rounds::plan` says after an edit which entries change, and `commit` puts the changes in place.
//!
//! A plan is one of seeds, who announces what and who leaks, or one of rounds: the changes of all tables, until they
//! are put in place. The first call of an edit and those that it leads to, in order:
//!
//! - `Rounds::plan` makes a plan of rounds;
//! - `edit_if_any` and `edit_seeds` make the plan of seeds after the edit, with its announced paths in the pool;
//! - `find_and_tell` goes through the rounds, and tells how many entries differ and where;
//! - `find_in_round` goes through the prefixes of a round;
//! - `find_change` finds the changes of one table: none where nobody is touched and `keeps_seeds` says that the seeds
//!   stay. Else it asks `seeds_and_wrong` for the seeds after the edit and the ASes that may hold something wrong, and
//!   `find_with_seeds` to put the changes behind the others;
//! - `changes_in_round` looks the table up;
//! - `changes_of_table` has its changes from `plan_edit` of `dirty_recompute`;
//! - `listed` lists what is told of the changes;
//! - `Rounds::commit` puts them in place by `commit_changes`, and the plan of seeds by `take_seeds`;
//! - `Rounds::undo` gives them up by `undo_changes`, and the plan of seeds by `drop_seeds`.
#![tactic(auto)]

mod announced;
mod building;
mod changes;
mod differing;
mod edited;
mod ends;
mod finding;
mod holders;
mod kept_seeds;
mod laws;
mod leaked;
mod limits;
mod moving;
mod own_seeds;
mod plans;
mod reserving;
mod round;
mod round_changes;
mod round_prefix;
mod round_seeds;
mod rounds;
mod seeds_out;
mod staying;
mod table_changes;
mod table_seeds;
mod told;
mod touched;
mod whole_edit;

pub use laws::live_cells_are_reached;
pub use limits::{MAX_CELLS, MOST_ANNOUNCEMENTS, MOST_NUMBERS, MOST_PREFIXES, MOST_ROUNDS};
pub use plans::{RoundsDone, RoundsPlan};
pub use rounds::{MOST_CELLS, Rounds};
pub use touched::Touched;
