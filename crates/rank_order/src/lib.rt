//! The rank of each AS, and the ASes in an order of rising rank.
//!
//! The rank of an AS is the number of provider links on the longest way down from it. `Ranks::build`
//! gives the ranks of a graph, or a provider cycle exactly where the graph has one. `by_rank` lists
//! the ASes so that each comes behind its customers. `Ranks::plan` says what the ranks become with a
//! graph that was edited, and `Ranks::commit` carries a plan out.
#![tactic(auto)]

mod attempt;
mod check;
mod commit;
mod list;
mod order;
mod plan;
mod planning;
mod ranks;
mod staying;

pub use order::{RankOrder, by_rank, placed_by_rank};
pub use plan::RankPlan;
pub use ranks::{RankError, Ranks};
pub use staying::ranks_stay;
