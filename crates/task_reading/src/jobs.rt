//! What is asked in a world: jobs, one after the other.
ghost use Rattle.std.specs.Prelude.{◌≡◌, ◌∷◌, All, IfSome, length, map, option_map, slice_get};
ghost use Rattle.scenario_text.specs.Prelude.{AreSoundLines};
ghost use Rattle.task_reading.specs.Jobs.{AreAlike, IsSoundAsks, IsSoundJob, counts_job, job_seen, jobs_of, line_job, line_jobs, needs_of};

use activations::Acts;
use message_sim::Deliveries;
use scenario_text::{Line, Lines};
use std::marker::Model;
use sweep::{Sweep, Sweeps};
use table_check::Tables;

/// A job, which has one answer.
#[derive(Clone, Copy)]
pub enum Job<'a> {
    /// The numbers of ASes and links.
    Counts,
    /// The answer to a line, with a head line, which has the number of the line, or without.
    Line(bool, &'a Line),
    /// What activations of ASes in turn come to.
    Activations(&'a Acts),
    /// What deliveries of messages come to.
    Messages(&'a Deliveries),
    /// The trials of a sweep.
    Sweep(&'a Sweep),
    /// Whether a printed table is that of the stable routings.
    Tables(&'a Tables),
}

/// What of a world answers are made from.
#[derive(Clone, Copy, Debug, PartialEq, Eq)]
pub enum Needs {
    /// What is kept of it.
    Kept,
    /// The world alone.
    World,
    /// The world, and the ranks of its ASes.
    Ranks,
}

/// Lines, and what is answered to them.
#[derive(Drop)]
pub struct LinesAsked {
    /// Whether the numbers of ASes and links are answered before.
    pub counts_first: bool,
    /// Whether each answer has a head line, with the number of its line.
    pub heads: bool,
    /// The lines.
    pub lines: Lines,
}

/// How jobs are kept.
#[derive(Drop)]
pub enum Asks {
    /// The answers to lines.
    Lines(LinesAsked),
    /// What activations come to.
    Activations(Acts),
    /// What deliveries come to.
    Messages(Deliveries),
    /// The trials of sweeps.
    Sweeps(Sweeps),
    /// Whether a printed table is right.
    Tables(Tables),
}

// The job of the line at a place.
fn line_at(heads: bool, lines: &[Line], place: usize) -> Option<Job<'_>>
    requires { AreSoundLines lines.now }
    ensures value { option_map job_seen result ≡ slice_get (map (line_job heads) lines.now) place }
    ensures sound { IfSome result (λ job. IsSoundJob (job_seen job)) }
{
    match lines.get(place) {
        Some(line) => Some(Job::Line(heads, line)),
        None => None,
    }
}

// The same, where the numbers of ASes and links have the first place.
fn line_behind_counts(heads: bool, lines: &[Line], place: usize) -> Option<Job<'_>>
    requires { AreSoundLines lines.now }
    ensures value { option_map job_seen result ≡ slice_get (counts_job ∷ map (line_job heads) lines.now) place }
    ensures sound { IfSome result (λ job. IsSoundJob (job_seen job)) }
{
    if place == 0 {
        return Some(Job::Counts);
    }
    line_at(heads, lines, place - 1)
}

// How many jobs there are of lines.
fn count_lines(asked: &LinesAsked) -> usize
    ensures { result ≡ length (line_jobs asked.now) }
{
    asked.lines.as_slice().len() + usize::from(asked.counts_first)
}

/// Jobs, which are done one after the other. Contracts see the list of them.
#[derive(Drop)]
pub struct Jobs {
    asks: Asks,
}

impl Model for Jobs {
    ghost use Rattle.std.specs.Prelude.{List};
    ghost use Rattle.std.specs.Coded.{codes};
    ghost use Rattle.activations.specs.contracts.acts.Acts as acts;
    ghost use Rattle.message_sim.specs.contracts.steps.Deliveries as deliveries;
    ghost use Rattle.sweep.specs.contracts.sweeps.Sweep as sweep;
    ghost use Rattle.table_check.specs.contracts.tables.Tables as tables;
    ghost use Rattle.task_reading.specs.Jobs.{Job as AJob, IsSoundAsks, jobs_of};

    ghost Value = { List AJob };

    ghost coded = { Prim.hlevel (codes, acts.the_row.coded, deliveries.the_row.coded, sweep.the_row.coded, tables.the_row.coded) };

    ghost view = { λ j. jobs_of j.asks };

    ghost invariant = { λ j. IsSoundAsks j.asks };
}

/// All jobs are lines, and before them perhaps the numbers of ASes and links, or all are sweeps, or they
/// are activations, deliveries or a printed table alone.
pub fn jobs_are_alike(jobs: &Jobs)
    ensures { AreAlike jobs.now }
{
    let _asks = &jobs.asks;
}

impl Jobs {
    /// The jobs that are kept so.
    pub(crate) fn of_asks(asks: Asks) -> Jobs
        requires { IsSoundAsks asks }
        ensures { result ≡ jobs_of asks }
    {
        Jobs { asks }
    }

    /// What of a world the answers are made from.
    pub fn needs(&self) -> Needs
        ensures { All (λ job. needs_of job ≡ result) self.now }
    {
        match &self.asks {
            Asks::Lines(_) | Asks::Activations(_) | Asks::Messages(_) => Needs::Kept,
            Asks::Sweeps(_) => Needs::Ranks,
            Asks::Tables(_) => Needs::World,
        }
    }

    /// How many jobs there are.
    pub fn count(&self) -> usize
        ensures { result ≡ length self.now }
    {
        match &self.asks {
            Asks::Lines(asked) => count_lines(asked),
            Asks::Sweeps(sweeps) => sweeps.len(),
            Asks::Activations(_) | Asks::Messages(_) | Asks::Tables(_) => 1,
        }
    }

    /// The job at a place, counted from 0; `None` exactly where the place is not below their number.
    pub fn at(&self, place: usize) -> Option<Job<'_>>
        ensures value { option_map job_seen result ≡ slice_get self.now place }
        ensures sound { IfSome result (λ job. IsSoundJob (job_seen job)) }
    {
        match &self.asks {
            Asks::Lines(asked) => {
                if asked.counts_first {
                    line_behind_counts(asked.heads, asked.lines.as_slice(), place)
                } else {
                    line_at(asked.heads, asked.lines.as_slice(), place)
                }
            }
            Asks::Activations(acts) => {
                if place == 0 {
                    Some(Job::Activations(acts))
                } else {
                    None
                }
            }
            Asks::Messages(deliveries) => {
                if place == 0 {
                    Some(Job::Messages(deliveries))
                } else {
                    None
                }
            }
            Asks::Sweeps(sweeps) => match sweeps.at(place) {
                Some(sweep) => Some(Job::Sweep(sweep)),
                None => None,
            },
            Asks::Tables(tables) => {
                if place == 0 {
                    Some(Job::Tables(tables))
                } else {
                    None
                }
            }
        }
    }
}
