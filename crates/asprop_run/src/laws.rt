//! What holds of all runs, and of all told texts.
ghost use Rattle.asprop_run.specs.Laws.{DeliveriesSettle, EachRun, OneText, OrdersSettle, PrintedRoutesAreRight, StableTablesAreKept, SweepsAreIndependent};
ghost use Rattle.asprop_run.specs.Statuses.{IsComplete, RunsAsTold};

use io_edge::{Inputs, Sink};
use message_sim::turns_settle;
use policy_kinds::Kind;
use sim_core::kept_are_stable;
use stability_laws::{any_order_settles, one_answer};
use table_check::{accepted_are_rounds, one_verdict, printed_rounds_are_accepted};
use trial_world::one_swept_text;

/// Each run over files whose bytes are told, where no read of them fails, is one over those bytes. And where
/// these files are accepted and no write fails, it ends with Done or SomeRefused, or memory ran out.
pub fn told_files_are_answered<I: Inputs, O: Sink, E: Sink>()
    ensures told { EachRun I.holds I.is_sound I.faults O.written O.faults E.written E.faults RunsAsTold }
    ensures complete { EachRun I.holds I.is_sound I.faults O.written O.faults E.written E.faults IsComplete }
{}

/// All texts that answer jobs over one world, which has all that they name, agree on whether an answer is a refusal. Job by
/// job they are one text, but where both refuse the same link for a provider cycle: it may close several cycles, of which an
/// answer names one.
pub fn answers_are_one_text()
    ensures { OneText }
{
    one_answer::<Kind>();
    one_swept_text();
    one_verdict::<Kind>();
}

/// Whatever the order in which ASes act, and whatever they hold at first: activations with at least twice as many full
/// pieces as the longest chain of the world has ASes are answered by the rows of `routes` for the round and the prefix,
/// and then by `settled|yes`, in a world without a provider cycle that has all that they name (Gao and Rexford 2001).
pub fn orders_settle()
    ensures { OrdersSettle }
{
    any_order_settles::<Kind>();
    kept_are_stable();
}

/// Whatever the order in which messages are delivered: where none is under way in the end, or where `rest` asks for n ^ (2 h)
/// deliveries or more, none is, and the rows are those of `routes` for the round and the prefix, in a world of n ASes without a
/// provider cycle whose longest chain has h, and that has all that is named (Gao and Rexford 2001, safety).
pub fn messages_settle()
    ensures { DeliveriesSettle }
{
    turns_settle::<Kind>();
    kept_are_stable();
}

/// A printed table is answered by `stable|yes` exactly where each section is the one stable routing of its round, in a world
/// without a provider cycle that has all rounds of the table and its prefix (Gao and Rexford 2001).
pub fn stable_tables_are_kept()
    ensures { StableTablesAreKept }
{
    accepted_are_rounds::<Kind>();
}

/// The answers to queries for the routes of a prefix, one for each round from the first on and each behind its line `for R P`,
/// are a printed table that is answered by `stable|yes`, in a world without a provider cycle of which all that is held in
/// these rounds can be printed (Gao and Rexford 2001).
pub fn printed_routes_are_right()
    ensures { PrintedRoutesAreRight }
{
    accepted_are_rounds::<Kind>();
    printed_rounds_are_accepted::<Kind>();
}

/// The text that answers the sweeps of a file is those that answer its parts, one behind the other, wherever it is cut: so many
/// machines, each with a part, give the same bytes as one.
pub fn sweeps_are_independent()
    ensures { SweepsAreIndependent }
{}
