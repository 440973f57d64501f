//! A generated input.
ghost use Rattle.std.specs.Prelude.{◌≡◌, ◌≤◌, IfOk};
ghost use Rattle.topo_gen.specs.Drawn.{drawn_links};
ghost use Rattle.topo_gen.specs.Lines.{drawn_lines};
ghost use Rattle.topo_gen.specs.declared.demo.TheConstants.{MOST_DRAWN};
ghost use Rattle.topo_gen.specs.Scenarios.{drawn_payloads, drawn_scenario};

use crate::lines::generate_lines;
use crate::links::generate_links;
use crate::scenario::{generate_payloads, generate_scenario};
use net_names::{Links, NoMemory};
use roa_table::Vrps;
use scenario_text::{Lines, Scenario};
use std::alloc::Global;

/// How many ASes a generated input has at most.
pub const MOST_DRAWN: u32 = 20_000;

/// A generated input: what the four files of a run would say.
#[derive(Drop)]
pub struct Demo {
    /// The links.
    pub links: Links,
    /// The payloads.
    pub vrps: Vrps,
    /// The scenario.
    pub scenario: Scenario,
    /// The lines of the script.
    pub lines: Lines,
}

/// The generated input of `n` ASes, from 4 to 20,000. The same number gives the same input. `Err` where there is not
/// enough memory.
pub fn generate(alloc: Global, n: u32) -> Result<Demo, NoMemory>
    requires least { 4 ≤ n }
    requires most { n ≤ MOST_DRAWN }
    ensures links { IfOk result (λ d. d.links ≡ drawn_links n) }
    ensures vrps { IfOk result (λ d. d.vrps ≡ drawn_payloads n) }
    ensures scenario { IfOk result (λ d. d.scenario ≡ drawn_scenario n) }
    ensures lines { IfOk result (λ d. d.lines ≡ drawn_lines (drawn_links n)) }
{
    let links = generate_links(alloc, n)?;
    let vrps = generate_payloads(alloc, n)?;
    let scenario = generate_scenario(alloc, n)?;
    let lines = generate_lines(alloc, &links)?;
    Ok(Demo {
        links,
        vrps,
        scenario,
        lines,
    })
}
