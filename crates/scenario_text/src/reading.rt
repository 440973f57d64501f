//! Reading a scenario.
ghost use Rattle.std.specs.Prelude.{◌≤◌, length};
ghost use Rattle.scenario_text.specs.Faults.{Gives};
ghost use Rattle.scenario_text.specs.Readings.{document_in, lists_of_bytes, scenario_of_bytes};

use crate::document_shapes::document;
use crate::documents::Document;
use crate::faults::ScenarioError;
use crate::json_values::JsonValue;
use crate::limits::test_limits;
use crate::lists::Lists;
use crate::scenario::Scenario;
use crate::tapes::tape;
use crate::twice::test_once;
use crate::values::lists;
use json::Scratch;
use net_names::MOST_TEXT_BYTES;
use std::alloc::Global;

// The document of a JSON text, each value of its type.
fn document_in(alloc: Global, text: &str) -> Result<Document, ScenarioError>
    requires { length text.now ≤ MOST_TEXT_BYTES }
    ensures { Gives result (document_in text.now) }
{
    let mut scratch = Scratch::new(alloc);
    let tape = tape(alloc, text, &mut scratch)?;
    document(alloc, &JsonValue::of(tape.root()))
}

// The four lists that the bytes say, before it is asked what stands twice and which limits are passed.
fn said(alloc: Global, bytes: &[u8]) -> Result<Lists, ScenarioError>
    requires { length bytes.now ≤ MOST_TEXT_BYTES }
    ensures { Gives result (lists_of_bytes bytes.now) }
{
    match simdutf8::basic::from_utf8(bytes) {
        Ok(text) => {
            let document = document_in(alloc, text)?;
            lists(alloc, &document)
        }
        Err(_) => Err(ScenarioError::NotJson),
    }
}

/// The scenario that a text of at most 16,777,216 bytes says. The text is a JSON object (RFC 8259): `announcements` is a
/// list of objects with a `prefix`, an `as` and maybe a `path`; `policies`, a list of objects with an `as` and a `policy`,
/// `leaks`, a list of lists of numbers, and `watch`, a list of addresses, may be there. The format is this project's own.
///
/// It is judged in five passes, and the fault is the first of the first pass that finds one: `NotJson`; `Shape` where a value
/// has another type than its place takes, a member is missing or an object has an unknown one; `Value` where a number or a
/// text is outside its grammar or a path does not start with its AS; `Twice` where the same stands earlier; `Limit` where a
/// limit is passed. Each pass goes through the whole document in the order of its members above and of their lists. `Memory`
/// where there is not enough memory.
#[tactic(auto, unfolding(crate::specs::Readings::scenario_of_bytes))]
pub fn read_scenario(alloc: Global, bytes: &[u8]) -> Result<Scenario, ScenarioError>
    requires { length bytes.now ≤ MOST_TEXT_BYTES }
    ensures { Gives result (scenario_of_bytes bytes.now) }
{
    let lists = said(alloc, bytes)?;
    test_once(alloc, &lists)?;
    test_limits(alloc, &lists)?;
    Ok(Scenario::from_lists(lists))
}
