//! Edits by affected ASes: after an edit only the ASes whose entries may be wrong choose anew.
//!
//! First upwards by rising rank: an AS takes its seed or the best of its customers' offers. Then downwards
//! by falling rank, over all offers. Whoever changes makes those of its neighbours choose anew for whom
//! its new offer may matter. The changes that are left are exact, and the steps are at most two for each
//! AS that was touched or has a neighbour that changed. Once no AS has a seed, all entries are taken away
//! without a step.
#![tactic(auto)]

mod after_step;
mod clearing;
mod crowding;
mod few;
mod giving;
mod laws;
mod named;
mod plan;
mod planned_ranks;
mod prefix_edit;
mod queue;
mod ranked_world;
mod spared;
mod spot;
mod spots;
mod stepping;
mod turns;
mod way;

pub use plan::plan_edit;
pub use planned_ranks::PlannedRanks;
pub use prefix_edit::PrefixEdit;
