//! Activations of ASes in any order.
//!
//! An AS that is activated takes what is right with what its neighbours hold. A list of activations is
//! run one by one; where each AS comes up again often enough, it ends in the one stable routing.
#![tactic(auto)]

mod acts;
mod forms;
mod height;
mod laws;
mod pieces;
mod reading;
mod running;
mod settling;

pub use acts::{Acts, NamedAses};
pub use height::height_of;
pub use laws::acts_are_those_said;
pub use pieces::full_pieces;
pub use reading::{ActsError, MOST_ACTIVATIONS, read_acts};
pub use running::run_activations;
