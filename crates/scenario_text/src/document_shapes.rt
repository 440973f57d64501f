//! The first pass over a document: the types of its values, and the members of its objects.
ghost use Rattle.std.specs.Prelude.{◌∷◌, []};
ghost use Rattle.scenario_text.specs.Faults.{Gives, GivesBy};
ghost use Rattle.scenario_text.specs.Members.{needed};
ghost use Rattle.scenario_text.specs.Tokens.{data_at};
ghost use Rattle.scenario_text.specs.Shapes.{text_at, number_at, list_at, optional_or, announcement_at, policy_at, document_of};

use crate::documents::{AnnouncementText, Document, Numbers, PolicyText, Text};
use crate::faults::ScenarioError;
use crate::json_values::JsonValue;
use crate::places::{Member, PartOf, Place};
use crate::shapes::{NumberShape, Shape, TextShape, list, object};
use std::alloc::Global;

// The value as a list of numbers.
fn numbers(alloc: Global, place: Place, value: &JsonValue<'_, '_>) -> Result<Numbers, ScenarioError>
    ensures { Gives result (list_at number_at place (data_at value.now.element)) }
{
    let numbers = list::<NumberShape>(alloc, place, value)?;
    Ok(Numbers { numbers })
}

// The member of this place, which has to be there.
fn needed_value<S: Shape>(
    alloc: Global,
    place: Place,
    value: &JsonValue<'_, '_>,
) -> Result<S::To, ScenarioError>
    ensures { Gives result (needed S.reads place (data_at value.now.element)) }
{
    match value.get(place.name()) {
        Some(value) => S::shape(alloc, place, &value),
        None => Err(ScenarioError::Shape { place }),
    }
}

// The path, or the list of this number alone where there is none.
fn path(
    alloc: Global,
    place: Place,
    asn: u64,
    value: &JsonValue<'_, '_>,
) -> Result<Numbers, ScenarioError>
    ensures { Gives result (optional_or (asn ∷ []) (list_at number_at) place (data_at value.now.element)) }
{
    match value.get(place.name()) {
        Some(value) => numbers(alloc, place, &value),
        None => {
            let mut numbers = Vec::new(alloc);
            numbers.push(asn)?;
            Ok(Numbers { numbers })
        }
    }
}

struct AnnouncementShape;

impl Shape for AnnouncementShape {
    type To = AnnouncementText;

    ghost reads = { announcement_at };

    #[tactic(auto, unfolding(crate::specs::Shapes::announcement_at))]
    fn shape(
        alloc: Global,
        place: Place,
        value: &JsonValue<'_, '_>,
    ) -> Result<AnnouncementText, ScenarioError> {
        object(&["prefix", "as", "path"], place, value)?;
        let prefix = needed_value::<TextShape>(alloc, place.part(PartOf::Prefix), value)?;
        let number = needed_value::<NumberShape>(alloc, place.part(PartOf::Number), value)?;
        let path = path(alloc, place.part(PartOf::Path), number, value)?;
        Ok(AnnouncementText {
            prefix,
            number,
            path,
        })
    }
}

struct PolicyShape;

impl Shape for PolicyShape {
    type To = PolicyText;

    ghost reads = { policy_at };

    #[tactic(auto, unfolding(crate::specs::Shapes::policy_at))]
    fn shape(
        alloc: Global,
        place: Place,
        value: &JsonValue<'_, '_>,
    ) -> Result<PolicyText, ScenarioError> {
        object(&["as", "policy"], place, value)?;
        let number = needed_value::<NumberShape>(alloc, place.part(PartOf::Number), value)?;
        let policy = needed_value::<TextShape>(alloc, place.part(PartOf::Policy), value)?;
        Ok(PolicyText { number, policy })
    }
}

struct LeakersShape;

impl Shape for LeakersShape {
    type To = Numbers;

    ghost reads = { list_at number_at };

    fn shape(
        alloc: Global,
        place: Place,
        value: &JsonValue<'_, '_>,
    ) -> Result<Numbers, ScenarioError> {
        numbers(alloc, place, value)
    }
}

// The items of the member of this place, which has to be there.
fn needed_list<S: Shape>(
    alloc: Global,
    place: Place,
    value: &JsonValue<'_, '_>,
) -> Result<Vec<S::To>, ScenarioError>
    ensures { GivesBy (λ v. v.items) result (needed (list_at S.reads) place (data_at value.now.element)) }
{
    match value.get(place.name()) {
        Some(value) => list::<S>(alloc, place, &value),
        None => Err(ScenarioError::Shape { place }),
    }
}

// The items of the member of this place, and none where it is missing.
fn optional_list<S: Shape>(
    alloc: Global,
    place: Place,
    value: &JsonValue<'_, '_>,
) -> Result<Vec<S::To>, ScenarioError>
    ensures { GivesBy (λ v. v.items) result (optional_or [] (list_at S.reads) place (data_at value.now.element)) }
{
    match value.get(place.name()) {
        Some(value) => list::<S>(alloc, place, &value),
        None => Ok(Vec::new(alloc)),
    }
}

/// The document with each value of its type, or the first place at which one isn't.
#[tactic(auto, unfolding(crate::specs::Shapes::document_of))]
pub(crate) fn document(alloc: Global, value: &JsonValue<'_, '_>) -> Result<Document, ScenarioError>
    ensures { Gives result (document_of (data_at value.now.element)) }
{
    object(
        &["announcements", "policies", "leaks", "watch"],
        Place::document(),
        value,
    )?;
    let announcements = needed_list::<AnnouncementShape>(
        alloc,
        Place::member(Member::Announcements),
        value,
    )?;
    let policies = optional_list::<PolicyShape>(alloc, Place::member(Member::Policies), value)?;
    let leaks = optional_list::<LeakersShape>(alloc, Place::member(Member::Leaks), value)?;
    let watch = optional_list::<TextShape>(alloc, Place::member(Member::Watch), value)?;
    Ok(Document {
        announcements,
        policies,
        leaks,
        watch,
    })
}
