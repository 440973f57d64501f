//! Laws of sweeps over a world.
ghost use Rattle.trial_world.specs.Laws.{BegunRowsAreAFront, OneSweptText, SweptNumbersAreReported};

use policy_kinds::Kind;
use stability_laws::one_stable_routing;

/// A line that is in a world without a provider cycle has one text (Gao and Rexford 2001).
pub fn one_swept_text()
    ensures { OneSweptText }
{
    one_stable_routing::<Kind>();
}

/// The numbers of a sweep are those that a report counts by what is kept of the trial's world.
pub fn swept_numbers_are_reported()
    ensures { SweptNumbersAreReported }
{
    one_stable_routing::<Kind>();
}

/// The rows of a line that were written before memory ran out are a front of the line's one text.
pub fn begun_rows_are_a_front()
    ensures { BegunRowsAreAFront }
{
    one_stable_routing::<Kind>();
}
