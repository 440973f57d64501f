//! The types of single values.
ghost use Rattle.std.specs.Prelude.{◌≡◌, bytes_eq, false, map};
ghost use Rattle.std.specs.List.{list_any};
ghost use Rattle.std.specs.Option.{option_map_or};
ghost use Rattle.serde_json.specs.Data.{Data};
ghost use Rattle.serde_json.specs.Find.{as_object};
ghost use Rattle.scenario_text.specs.Faults.{Gives, GivesBy};
ghost use Rattle.scenario_text.specs.Members.{all_in, object as object_at};
ghost use Rattle.scenario_text.specs.Shapes.{text_at, number_at, list_at};
ghost use Rattle.scenario_text.specs.Tokens.{data_at};
ghost use Rattle.scenario_text.specs.Walks.{Reader};

use crate::documents::Text;
use crate::faults::ScenarioError;
use crate::json_values::JsonValue;
use crate::places::Place;
use std::alloc::Global;

/// How a value of a document is read.
pub(crate) trait Shape {
    /// What it is read as.
    type To: Drop;

    ghost reads: { Reader Data Self.To };

    /// What the value at this place is read as, or its first fault.
    fn shape(
        alloc: Global,
        place: Place,
        value: &JsonValue<'_, '_>,
    ) -> Result<Self::To, ScenarioError>
        ensures { Gives result (reads place (data_at value.now.element)) };
}

/// The value as a text.
pub(crate) struct TextShape;

impl Shape for TextShape {
    type To = Text;

    ghost reads = { text_at };

    fn shape(
        alloc: Global,
        place: Place,
        value: &JsonValue<'_, '_>,
    ) -> Result<Text, ScenarioError> {
        match value.as_str() {
            Some(text) => {
                let text = String::from_str(alloc, text)?;
                Ok(Text { text })
            }
            None => Err(ScenarioError::Shape { place }),
        }
    }
}

/// The value as a number from 0 to 2^64 - 1.
pub(crate) struct NumberShape;

impl Shape for NumberShape {
    type To = u64;

    ghost reads = { number_at };

    fn shape(
        _alloc: Global,
        place: Place,
        value: &JsonValue<'_, '_>,
    ) -> Result<u64, ScenarioError> {
        match value.as_u64() {
            Some(number) => Ok(number),
            None => Err(ScenarioError::Shape { place }),
        }
    }
}

/// The value as a list, each of whose items is read.
pub(crate) fn list<S: Shape>(
    alloc: Global,
    place: Place,
    value: &JsonValue<'_, '_>,
) -> Result<Vec<S::To>, ScenarioError>
    ensures { GivesBy (λ v. v.items) result (list_at S.reads place (data_at value.now.element)) }
{
    let Some(mut items) = value.element.items() else {
        return Err(ScenarioError::Shape { place });
    };
    let mut out = Vec::new(alloc);
    while let Some(element) = items.next() {
        let next = S::shape(alloc, place.item(out.len()), &JsonValue::of(element))?;
        out.push(next)?;
    }
    Ok(out)
}

// Whether the name is one of these.
fn is_known(known: &[&str], name: &str) -> bool
    ensures { result ≡ list_any (λ k. bytes_eq name.now k.now) known.now }
{
    known.iter().any(|k| name == *k)
}

// Whether the value is an object each of whose members has one of these names.
fn has_known(known: &[&str], value: &JsonValue<'_, '_>) -> bool
    ensures { result ≡
        option_map_or (all_in (map (λ k. k.now) known.now)) (as_object (data_at value.now.element)) false }
{
    let Some(mut members) = value.element.members() else {
        return false;
    };
    while let Some((name, _)) = members.next() {
        if !is_known(known, name) {
            return false;
        }
    }
    true
}

/// Tests that the value is an object each of whose members has one of these names.
pub(crate) fn object(
    known: &[&str],
    place: Place,
    value: &JsonValue<'_, '_>,
) -> Result<(), ScenarioError>
    ensures { Gives result (object_at (map (λ k. k.now) known.now) place (data_at value.now.element)) }
{
    if has_known(known, value) {
        Ok(())
    } else {
        Err(ScenarioError::Shape { place })
    }
}
