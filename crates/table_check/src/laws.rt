//! What acceptance means, and that a table is read as it is printed. Each law is a function without
//! effect: who needs it calls it, and has its clause.
ghost use Rattle.table_check.specs.Laws.{AcceptedAreRounds, OneVerdict, PrintedRoundsAreAccepted};
ghost use Rattle.table_check.specs.Printed.{PrintedTablesAreRead};

use policy_laws::RoutePolicy;
use stability_laws::one_stable_routing;

/// In a world without a provider cycle a table is accepted exactly where each section is the one stable
/// routing of its round.
pub fn accepted_are_rounds<P: RoutePolicy>()
    ensures { AcceptedAreRounds P.meaning }
{
    one_stable_routing::<P>();
}

/// A table that is printed is read again: it has a section for each list of rows, with just these rows.
pub fn printed_tables_are_read()
    ensures { PrintedTablesAreRead }
{}

/// In a world without a provider cycle the printed tables of the stable routings of its rounds are read as
/// a table that is accepted.
pub fn printed_rounds_are_accepted<P: RoutePolicy>()
    ensures { PrintedRoundsAreAccepted P.meaning }
{
    one_stable_routing::<P>();
}

/// A table has one verdict.
pub fn one_verdict<P: RoutePolicy>()
    ensures { OneVerdict P.meaning }
{}
