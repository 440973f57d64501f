//! What is named that the world has not.
ghost use Rattle.std.specs.Prelude.{◌≡◌, ◌&&◌, All, List, ◌∷◌};
ghost use Rattle.std.specs.Option.{option_or};
ghost use Rattle.sim_core.specs.Prelude.{base_world, has_round};
ghost use Rattle.stability_laws.specs.Prelude.{has_prefix};
ghost use Rattle.asprop_run.specs.Loaded.{Serves, loaded_world};
ghost use Rattle.asprop_run.specs.Task.{outside};
ghost use Rattle.task_reading.specs.Prelude.{Job as AJob, job_seen, needs_of};
ghost use Rattle.task_reading.specs.declared.jobs.Needs.TheVariants as needs;

use crate::loaded::Loaded;
use net_names::Prefix;
use sim_core::Base;
use task_reading::{Job, Jobs};
use trial_world::is_inside;

// Whether the world has the round and the prefix.
fn has_table(loaded: &Loaded, round: u32, prefix: Prefix) -> bool
    ensures { result ≡ (has_round (loaded_world loaded.now) round && has_prefix (loaded_world loaded.now).plan prefix) }
{
    round >= 1 && round <= loaded.rounds() && loaded.plan().has_prefix(prefix)
}

// The line of the sweep that the job is, where it isn't in the world.
fn line_outside(base: &Base, job: Job<'_>) -> Option<u32>
    requires { needs_of (job_seen job) ≡ needs.Ranks }
    ensures { (jobs : List AJob) → outside (base_world base.now) (job_seen job.entry ∷ jobs) ≡
        option_or result (outside (base_world base.now) jobs) }
{
    match job {
        Job::Sweep(line) => if is_inside(base, line) {
            None
        } else {
            Some(line.line)
        },
        Job::Counts | Job::Line(_, _) | Job::Activations(_) | Job::Messages(_) | Job::Tables(_) =>
            unreachable!(),
    }
}

// The first line of sweeps that isn't in the world.
fn first_sweep_outside(base: &Base, jobs: &Jobs) -> Option<u32>
    requires { All (λ job. needs_of job ≡ needs.Ranks) jobs.now }
    ensures { result ≡ outside (base_world base.now) jobs.now }
{
    'jobs: for place in 0..jobs.count() {
        let Some(job) = jobs.at(place) else {
            unreachable!();
        };
        if let Some(line) = line_outside(base, job) {
            return Some(line);
        }
    }
    None
}

/// The first line of an option's file that names what isn't in the world: its round or its prefix, an AS or a link, or
/// what a sweep asks for.
pub fn first_outside(loaded: &Loaded, jobs: &Jobs) -> Option<u32>
    requires { All (Serves loaded.now) jobs.now }
    ensures { result ≡ outside (loaded_world loaded.now) jobs.now }
{
    if let Loaded::Ranked(base, _) = loaded {
        return first_sweep_outside(base, jobs);
    }
    match jobs.at(0) {
        Some(Job::Activations(acts)) => {
            if has_table(loaded, acts.round, acts.prefix) {
                acts.first_foreign(loaded.graph())
            } else {
                Some(acts.for_line)
            }
        }
        Some(Job::Messages(deliveries)) => {
            if has_table(loaded, deliveries.round, deliveries.prefix) {
                deliveries.first_foreign(loaded.graph())
            } else {
                Some(deliveries.for_line)
            }
        }
        Some(Job::Tables(tables)) => tables.first_outside(loaded.plan(), loaded.rounds()),
        Some(Job::Counts) | Some(Job::Line(_, _)) | None => None,
        Some(Job::Sweep(_)) => unreachable!(),
    }
}
