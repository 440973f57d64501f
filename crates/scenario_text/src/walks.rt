//! Going through a list up to the first fault.
ghost use Rattle.scenario_text.specs.Walks.{Reader, each_at};
ghost use Rattle.scenario_text.specs.Faults.{Gives, GivesBy};

use crate::faults::ScenarioError;
use crate::places::Place;
use std::alloc::Global;

/// How what stands at a place is read.
pub(crate) trait Reading {
    /// What stands there.
    type From;
    /// What it is read as.
    type To: Drop;

    ghost gives: { Reader Self.From Self.To };

    /// What it is read as, or its first fault.
    fn read(alloc: Global, place: Place, from: &Self::From) -> Result<Self::To, ScenarioError>
        ensures { Gives result (gives place from.now) };
}

/// What the items of the list at this place are read as, or the first fault of the first faulty one.
pub(crate) fn each<R: Reading>(
    alloc: Global,
    place: Place,
    items: &[R::From],
) -> Result<Vec<R::To>, ScenarioError>
    ensures { GivesBy (λ v. v.items) result (each_at R.gives place items.now) }
{
    let mut out = Vec::new(alloc);
    for (i, item) in items.iter().enumerate() {
        let next = R::read(alloc, place.item(i), item)?;
        out.push(next)?;
    }
    Ok(out)
}
