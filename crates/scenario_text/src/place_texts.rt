//! The texts of places.
ghost use Rattle.std.specs.Prelude.{◌≡◌, ◌∷◌, [], codes, string_bytes, IfOk};
ghost use Rattle.std.specs.Option.{option_map_or};
ghost use Rattle.scenario_text.specs.Places.{member_name, part_name};
ghost use Rattle.scenario_text.specs.PlaceTexts.{position_text, place_text};

use crate::places::{Member, PartOf, Place};
use std::alloc::{AllocError, Global};

// The member's name, or `document` where there is none.
fn member_text(member: Option<Member>) -> &'static str
    ensures { result.now ≡ option_map_or member_name member (codes "document") }
{
    match member {
        None => "document",
        Some(member) => member.name(),
    }
}

// A dot and the part's name, or nothing where there is none.
fn part_string(alloc: Global, part: Option<PartOf>) -> Result<String, AllocError>
    ensures { IfOk result (λ s. string_bytes s ≡ option_map_or (λ part. 46 ∷ part_name part) part []) }
{
    match part {
        None => Ok(String::new(alloc)),
        Some(part) => format!(in alloc; ".{}", part.name()),
    }
}

// The position in brackets, or nothing where there is none.
fn position_string(alloc: Global, position: Option<usize>) -> Result<String, AllocError>
    ensures { IfOk result (λ s. string_bytes s ≡ position_text position) }
{
    match position {
        None => Ok(String::new(alloc)),
        Some(index) => format!(in alloc; "[{}]", index),
    }
}

/// The text of a place: the member's name, or `document` where there is none; then `[i]` for a position; then `.prefix`,
/// `.as`, `.path` or `.policy`; then `[j]` for a second position. `Err` where there is not enough memory. The format is
/// this project's own.
pub fn place_string(alloc: Global, place: Place) -> Result<String, AllocError>
    ensures { IfOk result (λ s. string_bytes s ≡ place_text place) }
{
    let first = position_string(alloc, place.first)?;
    let part = part_string(alloc, place.part)?;
    let second = position_string(alloc, place.second)?;
    format!(in alloc;
        "{}{}{}{}",
        member_text(place.member),
        first.as_str(),
        part.as_str(),
        second.as_str()
    )
}
