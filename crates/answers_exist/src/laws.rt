//! The laws. Each is a function without effect: who needs it calls it, and has its clause.
ghost use Rattle.answers_exist.specs.Exists.{AKeptExists, AReasonExists, ACountExists, AnAnswerExists};
ghost use Rattle.answers_exist.specs.Tasks.{JobsHaveAnswers, TaskPlansAreSound, TasksHaveAnswers, TasksHaveOneAnswer};

use asprop_run::answers_are_one_text;
use data_trace::{longest_is_sent, one_trace};
use kept_traces::loaded_plans_are_sound;
use message_sim::worlds_have_heights;
use policy_kinds::Kind;
use scenario_text::scenarios_are_those_said;
use sim_core::kept_are_stable;
use stability_laws::{exactly_one_family, one_answer};

/// Of each world without a provider cycle there are the routings of all rounds, the ranks, and the ends of
/// all traces (Gao and Rexford 2001).
pub fn a_kept_exists()
    ensures { AKeptExists }
{
    exactly_one_family::<Kind>();
    longest_is_sent();
    one_trace();
}

/// A query that is not refused has an answer.
pub fn an_answer_exists()
    ensures { AnAnswerExists }
{
    longest_is_sent();
    one_trace();
    kept_are_stable();
}

/// In a world without a provider cycle each edit is allowed, or there is a reason to refuse it.
pub fn a_reason_exists()
    ensures { AReasonExists }
{}

/// An edit of a world changes some number of entries.
pub fn a_count_exists()
    ensures { ACountExists }
{}

/// Jobs have an answer where the world has no provider cycle, and has all that they name.
pub fn jobs_have_answers()
    ensures { JobsHaveAnswers }
{
    a_kept_exists();
    an_answer_exists();
    a_reason_exists();
    a_count_exists();
    one_answer::<Kind>();
    worlds_have_heights();
}

/// A task that words and files give is answered by some text, where its world has no provider cycle and has all
/// that is named.
pub fn tasks_have_answers()
    ensures { TasksHaveAnswers }
{
    jobs_have_answers();
}

/// A task that words and files give has exactly one answer, where its world has no provider cycle and has all that
/// is named; where a link is refused for a provider cycle, each text tells one that the link closes.
pub fn tasks_have_one_answer()
    ensures { TasksHaveOneAnswer }
{
    tasks_have_answers();
    answers_are_one_text();
}

/// The plan of the world of a task that words and files give is sound: each announced path starts with its AS, and
/// nobody leaks in round 1.
pub fn task_plans_are_sound()
    ensures { TaskPlansAreSound }
{
    scenarios_are_those_said();
    loaded_plans_are_sound();
}
