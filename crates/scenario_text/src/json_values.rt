//! The values of a JSON text, each seen where it stands in the text. Nothing is made of them.
ghost use Rattle.std.specs.Prelude.{◌≡◌, option_map, option_and_then};
ghost use Rattle.serde_json.specs.Find.{get, as_str, as_number, as_u64};
ghost use Rattle.scenario_text.specs.Tokens.{IsData, data_at};

use crate::whole_numbers::whole_number;
use json::Element;

/// A value of a JSON text, which serde_json reads too.
#[derive(Drop)]
pub(crate) struct JsonValue<'t, 'a> {
    pub(crate) element: Element<'t, 'a>,
    ghost is_data: { IsData element },
}

impl<'t, 'a> JsonValue<'t, 'a> {
    /// The value that stands there.
    pub(crate) fn of(element: Element<'t, 'a>) -> JsonValue<'t, 'a>
        requires { IsData element }
        ensures { result.element ≡ element.entry }
    {
        JsonValue { element }
    }

    /// The text, where it is one.
    pub(crate) fn as_str(&self) -> Option<&'a str>
        ensures { option_map (λ s. s.now) result ≡ as_str (data_at self.now.element) }
    {
        self.element.as_str()
    }

    /// The number, where it is an integer from 0 to 2^64 - 1.
    pub(crate) fn as_u64(&self) -> Option<u64>
        ensures { result ≡ option_and_then as_u64 (as_number (data_at self.now.element)) }
    {
        match self.element.as_number() {
            Some(text) => whole_number(text).unwrap_or(None),
            None => None,
        }
    }

    /// The last member of that name, where it is an object that has one.
    pub(crate) fn get(&self, name: &str) -> Option<JsonValue<'t, 'a>>
        ensures { option_map (λ v. data_at v.element) result ≡ get name.now (data_at self.now.element) }
    {
        match self.element.get(name) {
            Some(element) => Some(JsonValue::of(element)),
            None => None,
        }
    }
}
