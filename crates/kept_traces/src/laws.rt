//! The laws. Each is a function without effect: who needs it calls it, and has its clause.
ghost use Rattle.kept_traces.specs.Sound.{EditedPlansStaySound, KeptPacketsArrive, LoadedPlansAreSound, NoLoopsAreReported};

use policy_kinds::Kind;
use traces_end::packets_arrive;

/// The plan of a scenario's world is sound, where each path of the scenario starts with its announcement's AS
/// and has at most 64 numbers.
pub fn loaded_plans_are_sound()
    ensures { LoadedPlansAreSound }
{}

/// An edit that is not refused leaves a sound plan.
pub fn edited_plans_stay_sound()
    ensures { EditedPlansStaySound }
{}

/// In round 1 no packet to a watched address runs in a loop, and one finds no route exactly where its first
/// AS has no entry of a prefix that holds the address.
pub fn kept_packets_arrive()
    ensures { KeptPacketsArrive }
{
    packets_arrive::<Kind>();
}

/// A report of round 1 counts no AS whose packets run in a loop: loops are the work of leaks.
pub fn no_loops_are_reported()
    ensures { NoLoopsAreReported }
{
    kept_packets_arrive();
}
