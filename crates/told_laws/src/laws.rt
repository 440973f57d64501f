//! The laws. Each is a function without effect: who needs it calls it, and has its clause.
ghost use Rattle.told_laws.specs.Delivered.{DeliveriesSettleSoon, TurnsAreFew};
ghost use Rattle.told_laws.specs.Printable.{HeldEntriesArePrintable, LoadedWorldsArePrintable, OriginsAreAses, PrintedRoutesAreAccepted, ToldRoutesAreAccepted};
ghost use Rattle.told_laws.specs.SweepFiles.{SweepFaultsAreFirst, SweepFilesAreIndependent, SweepsAreThoseSaid};
ghost use Rattle.told_laws.specs.TableFiles.{TableFaultsAreFirst, TablesAreThoseSaid};
ghost use Rattle.told_laws.specs.Activated.{ActsAreNamed, NamedOrdersSettle, ToldOrdersSettle};

use activations::acts_are_those_said;
use asprop_run::{printed_routes_are_right, sweeps_are_independent};
use message_sim::{deliveries_settle, turns_settle};
use policy_kinds::Kind;
use policy_laws::RoutePolicy;
use scenario_text::scenarios_are_those_said;
use sim_core::kept_are_stable;
use stability_laws::any_order_settles;

/// Turns from the start take out at most n ^ (2 h) messages, whatever they are and in whatever order
/// (Gao and Rexford 2001, safety).
pub fn turns_are_few<P: RoutePolicy>()
    ensures { TurnsAreFew P.meaning }
{
    deliveries_settle::<P>();
}

/// The number behind `delivered|` in the answer to a file of deliveries is at most n ^ (2 h); and where no
/// message is under way in the end, or the `rest` lines ask for as many or more, none is under way, and the
/// rows are those of `routes` for the round and the prefix (Gao and Rexford 2001, safety).
pub fn deliveries_settle_soon()
    ensures { DeliveriesSettleSoon }
{
    turns_are_few::<Kind>();
    turns_settle::<Kind>();
    kept_are_stable();
}

/// Each AS that a file of activations says to hold something or to be activated is named by one of its
/// lines.
pub fn acts_are_named()
    ensures { ActsAreNamed }
{
    acts_are_those_said();
}

/// Activations with at least twice as many full pieces as the longest chain has ASes are answered by the
/// rows of `routes` and by `settled|yes`, where each AS that holds something or is activated is named by a
/// line (Gao and Rexford 2001).
pub fn named_orders_settle()
    ensures { NamedOrdersSettle }
{
    any_order_settles::<Kind>();
    kept_are_stable();
}

/// The activations of a task that words and files give, with at least twice as many full pieces as the
/// longest chain has ASes, are answered by the rows of `routes` and by `settled|yes` (Gao and Rexford 2001).
pub fn told_orders_settle()
    ensures { ToldOrdersSettle }
{
    acts_are_named();
    named_orders_settle();
}

/// What a file of sweeps asks for is what its lines ask for: it is accepted exactly where each line that
/// isn't skipped has the form and these are at most 1,000.
pub fn sweeps_are_those_said()
    ensures { SweepsAreThoseSaid }
{}

/// The fault of a file of sweeps is that of its first faulty line: that it hasn't the form, or else that
/// 1,000 sweeps stand before it.
pub fn sweep_faults_are_first()
    ensures { SweepFaultsAreFirst }
{}

/// A file of sweeps may be cut behind any line feed: its answer is the answers of its parts, one after the
/// other, where these are accepted and ask for at most 1,000 sweeps together. So many machines, each with a
/// part of the file, write the bytes of one.
pub fn sweep_files_are_independent()
    ensures { SweepFilesAreIndependent }
{
    sweeps_are_independent();
}

/// Each entry that is held in a round of a world that can be printed can be printed.
pub fn held_entries_are_printable()
    ensures { HeldEntriesArePrintable }
{}

/// What queries for routes print is read again and accepted, in a world that can be printed and has no
/// provider cycle.
pub fn printed_routes_are_accepted()
    ensures { PrintedRoutesAreAccepted }
{
    printed_routes_are_right();
    held_entries_are_printable();
}

/// The one origin that words ask for has the number of an AS.
pub fn origins_are_ases()
    ensures { OriginsAreAses }
{}

/// The world of each task that files give can be printed: its ASes and paths have numbers of ASes, and its
/// prefixes are prefixes.
pub fn loaded_worlds_are_printable()
    ensures { LoadedWorldsArePrintable }
{
    scenarios_are_those_said();
}

/// What queries for routes print over files is read again, and accepted by `--check` over the same files.
pub fn told_routes_are_accepted()
    ensures { ToldRoutesAreAccepted }
{
    loaded_worlds_are_printable();
    printed_routes_are_accepted();
}

/// What a printed table says is what its lines say: it is accepted exactly where these are sections of one
/// prefix, one for each round from 1 on, in each of which an AS has one row at most.
pub fn tables_are_those_said()
    ensures { TablesAreThoseSaid }
{}

/// The fault of a file of a printed table is that of its first faulty line: that it is neither a row nor the
/// `for` line of the next section, or else that the section has a row of its AS; or there is no line.
pub fn table_faults_are_first()
    ensures { TableFaultsAreFirst }
{}
