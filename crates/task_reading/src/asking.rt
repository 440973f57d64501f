//! From the form of the words and the files to what is asked.
ghost use Rattle.std.specs.Prelude.{◌≡◌, ◌≤◌, ◌∷◌, [], IfOk, option_map, Some};
ghost use Rattle.net_names.specs.declared.addresses.Family.TheVariants.{V4};
ghost use Rattle.scenario_text.specs.Prelude.{nothing};
ghost use Rattle.scenario_text.specs.declared.acts.Act.TheVariants as act;
ghost use Rattle.scenario_text.specs.declared.acts.Query.TheVariants as query;
ghost use Rattle.task_reading.specs.Files.{Prepares};
ghost use Rattle.task_reading.specs.Sources.{source_of};
ghost use Rattle.task_reading.specs.Words.{HasSize, demo_form, file_form, form_seen, origin_form, text_seen};

use crate::jobs::{Asks, Jobs, LinesAsked};
use crate::reading::{read_jobs, read_payloads, read_plan, read_relations};
use crate::types::{AskError, Fault};
use crate::words::{FileOption, WordForm};
use io_edge::Inputs;
use net_names::{Asn, Family, Links, NoMemory, Path, Prefix};
use roa_table::Vrps;
use scenario_text::{Act, Announcement, Line, Lines, Query, Scenario};
use std::alloc::Global;
use topo_gen::{Demo, generate};

/// What is asked for: the links, the payloads and the scenario of a world, and the jobs that are done in it.
#[derive(Drop)]
pub struct Asked {
    /// The links between ASes.
    pub links: Links,
    /// The payloads by which origins are validated.
    pub vrps: Vrps,
    /// Who announces what, who leaks, which policies there are, and what is watched.
    pub scenario: Scenario,
    /// The jobs that are done in it, one after the other.
    pub jobs: Jobs,
}

// 0.0.0.0/0.
fn all_v4_addresses() -> Prefix
    ensures { result ≡ record { family = V4; addr = 0; len = 0 } }
{
    let Some(prefix) = Prefix::new(Family::V4, 0, 0) else {
        unreachable!();
    };
    prefix
}

// The scenario in which an AS announces 0.0.0.0/0 by its own number.
fn origin_scenario(alloc: Global, origin: Asn) -> Result<Scenario, NoMemory>
    ensures { IfOk result (λ s. s ≡ record nothing {
      announcements =
          record { prefix = record { family = V4; addr = 0; len = 0 }; asn = origin; path = origin ∷ [] } ∷ [];
    }) }
{
    let mut path = Path::new(alloc);
    path.push(origin)?;
    let mut scenario = Scenario::new(alloc);
    scenario.announce(Announcement {
        prefix: all_v4_addresses(),
        asn: origin,
        path,
    })?;
    Ok(scenario)
}

// The line that asks for the routes of 0.0.0.0/0.
fn origin_lines(alloc: Global) -> Result<Lines, NoMemory>
    ensures { IfOk result (λ lines. lines ≡
        record { number = 1; act = act.Query (query.Routes 1 (record { family = V4; addr = 0; len = 0 })) } ∷ []) }
{
    let mut lines = Lines::new(alloc);
    let prefix = all_v4_addresses();
    lines.push(Line {
        number: 1,
        act: Act::Query(Query::Routes { round: 1, prefix }),
    })?;
    Ok(lines)
}

// The routes of all ASes to one origin, over the relationship file of this name, without payloads.
fn ask_origin<I: Inputs>(
    alloc: Global,
    rel: &str,
    origin: Asn,
    inputs: &mut I,
) -> Result<Asked, AskError>
    ensures { Prepares (source_of I.holds I.is_sound I.faults inputs.old inputs.new)
        (Some (origin_form rel.now origin)) result }
{
    let links = read_relations(alloc, inputs, rel)?;
    let scenario = origin_scenario(alloc, origin)?;
    let lines = origin_lines(alloc)?;
    Ok(Asked {
        links,
        vrps: Vrps::new(alloc),
        scenario,
        jobs: Jobs::of_asks(Asks::Lines(LinesAsked {
            counts_first: false,
            heads: false,
            lines,
        })),
    })
}

// What an option's file asks for, over the files of these names.
fn ask_file<I: Inputs>(
    alloc: Global,
    rel: &str,
    vrps: Option<&str>,
    scenario: Option<&str>,
    file: Option<&str>,
    option: FileOption,
    inputs: &mut I,
) -> Result<Asked, AskError>
    ensures { Prepares (source_of I.holds I.is_sound I.faults inputs.old inputs.new)
        (Some (file_form rel.now (text_seen vrps.entry) (text_seen scenario.entry) (text_seen file.entry) option))
        result }
{
    let links = read_relations(alloc, inputs, rel)?;
    let vrps = read_payloads(alloc, inputs, vrps)?;
    let scenario = read_plan(alloc, inputs, scenario)?;
    let jobs = read_jobs(alloc, inputs, option, file)?;
    Ok(Asked {
        links,
        vrps,
        scenario,
        jobs,
    })
}

// The generated input of so many ASes. It reads no file.
fn ask_demo<I: Inputs>(alloc: Global, size: u32, _inputs: &mut I) -> Result<Asked, AskError>
    requires least { 4 ≤ size }
    requires most { size ≤ 20000 }
    ensures { Prepares (source_of I.holds I.is_sound I.faults _inputs.old _inputs.new)
        (Some (demo_form size)) result }
{
    let Demo {
        links,
        vrps,
        scenario,
        lines,
    } = generate(alloc, size)?;
    Ok(Asked {
        links,
        vrps,
        scenario,
        jobs: Jobs::of_asks(Asks::Lines(LinesAsked {
            counts_first: true,
            heads: true,
            lines,
        })),
    })
}

/// Reads the files that the form names, and gives what they ask for. A generated input reads no file.
///
/// The first fault is answered, in this order: the form, the relationship file, the payload file, the
/// scenario, the file for what is asked; each file is read to its end, or to one byte past its limit, before it is
/// judged. A file is no longer read once one before it has a fault. Where memory runs out that is
/// answered in place of all else.
pub fn ask<I: Inputs>(
    alloc: Global,
    form: &Option<WordForm<'_>>,
    inputs: &mut I,
) -> Result<Asked, AskError>
    requires sized { HasSize (option_map form_seen form.now) }
    ensures { Prepares (source_of I.holds I.is_sound I.faults inputs.old inputs.new)
        (option_map form_seen form.now) result }
{
    let Some(form) = form else {
        return Err(AskError::Fault(Fault::Usage));
    };
    match form {
        WordForm::Origin { rel, origin } => ask_origin(alloc, rel, *origin, inputs),
        WordForm::File {
            rel,
            vrps,
            scenario,
            file,
            option,
        } => ask_file(alloc, rel, *vrps, *scenario, *file, *option, inputs),
        WordForm::Demo { size } => ask_demo(alloc, *size, inputs),
    }
}
