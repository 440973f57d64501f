//! The scenario and the script of a run, by their grammars.
//!
//! A scenario is four lists: announcements, policies, leakers of each later round and watched addresses.
//! [`read_scenario`] takes one from a JSON document, or tells the first fault of the first pass that finds one, with its
//! place. A script is edits of a world and queries about it, a line each: [`read_script`] takes its lines, or tells the
//! first faulty one. In every [`Scenario`] nothing is named twice, no limit is passed, and each path starts with its AS.
//! Exactly the texts that say such a scenario are accepted ([`scenarios_are_those_said`]), and exactly the scripts each of
//! whose lines is skipped or has one of the forms, at most 100,000 of them not skipped ([`lines_are_those_said`]).
#![tactic(auto)]

mod acts;
mod document_shapes;
mod documents;
mod faults;
mod fields;
mod forms;
mod json_values;
mod laws;
mod limits;
mod line_faults;
mod lines;
mod lists;
mod place_texts;
mod places;
mod reading;
mod scenario;
mod script;
mod shapes;
mod tapes;
mod twice;
mod values;
mod walks;
mod whole_numbers;

pub use acts::{Act, Edit, Query};
pub use faults::{LimitOf, ScenarioError};
pub use fields::{AddrField, Before, Ending, Field, KindField, RoundField};
pub use forms::read_for;
pub use laws::{lines_are_those_said, scenarios_are_those_said};
pub use limits::{
    MOST_ANNOUNCEMENTS, MOST_LEAK_LISTS, MOST_LEAKERS, MOST_NUMBERS, MOST_PREFIXES, MOST_WATCHED,
};
pub use line_faults::LinesError;
pub use lines::{Line, Lines};
pub use lists::Leakers;
pub use place_texts::place_string;
pub use places::{Member, PartOf, Place};
pub use reading::read_scenario;
pub use scenario::{Announcement, Scenario};
pub use script::{MOST_COMMANDS, ScriptError, read_script};
