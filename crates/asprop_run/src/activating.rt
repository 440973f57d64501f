//! Activations of ASes, and what they come to.
ghost use Rattle.std.specs.Prelude.{◌≡◌, ◌++◌, ℕ, None, codes, false, if◌then◌else◌, IfOk, OnOk};
ghost use Rattle.std.specs.FinMap as fin;
ghost use Rattle.activations.specs.Prelude.{AreSound};
ghost use Rattle.net_names.specs.Prelude.{occurs};
ghost use Rattle.reports.specs.Rows.{table};
ghost use Rattle.sim_core.specs.Prelude.{IsKept, kept, world_seen, HasCycle};
ghost use Rattle.stability_laws.specs.Prelude.{entry_row};
ghost use Rattle.asprop_run.specs.Inside.{IsInside};
ghost use Rattle.asprop_run.specs.Replies.{AnswersJob};
ghost use Rattle.asprop_run.specs.Settling.{acts_rows};
ghost use Rattle.task_reading.specs.Prelude.{acts_job};

use crate::states::{seeds_at, states_at};
use activations::{Acts, full_pieces, height_of, run_activations};
use as_graph::Graph;
use net_names::{Asn, NoMemory, put_bytes};
use reports::put_entry;
use sim_core::{Sim, kept_are_stable};
use stability_laws::{Routing, World};
use std::alloc::Global;

// The same routing, whose entries stand at these ASes alone.
fn same_routing(alloc: Global, ases: &[Asn], held: &Routing) -> Result<Routing, NoMemory>
    requires { (a : ℕ) → occurs a ases.now ≡ false → fin.get held.now a ≡ None }
    ensures { IfOk result (λ routing. (a : ℕ) → fin.get routing a ≡ fin.get held.now a) }
{
    let mut routing = Routing::new(alloc);
    for asn in ases {
        if let Some(entry) = held.get(*asn) {
            routing.put(*asn, entry.copied(alloc)?)?;
        }
    }
    Ok(routing)
}

// Appends the rows of all ASes in the routing, in rising number.
fn put_rows(text: &mut Vec<u8>, graph: &Graph, routing: &Routing) -> Result<(), NoMemory>
    ensures { OnOk result (text.new.items ≡ text.old.items ++
        table graph.now (λ a. entry_row a (fin.get routing.now a))) }
{
    let ases = graph.ases();
    for asn in ases {
        put_entry(text, *asn, routing.get(*asn))?;
    }
    Ok(())
}

/// The word for what holds or doesn't.
pub(crate) fn yes_or_no(holds: bool) -> &'static str
    ensures { result.now ≡ codes (if holds then "yes" else "no") }
{
    if holds { "yes" } else { "no" }
}

// Appends what is said of the list and the routing.
fn put_settled(
    alloc: Global,
    text: &mut Vec<u8>,
    pieces: u64,
    height: u64,
    settled: bool,
) -> Result<(), NoMemory>
    ensures { OnOk result (text.new.items ≡ text.old.items ++ acts_rows pieces height settled) }
{
    let word = yes_or_no(settled);
    let rows = format!(in alloc; "pieces|{pieces}\nheight|{height}\nsettled|{word}\n")?;
    put_bytes(text, rows.as_bytes())
}

/// Makes the answer to activations: the rows of all ASes after them, how many full pieces the list has, how many ASes the
/// longest chain of the world has, and whether the routing is stable.
pub fn answer_activations(
    alloc: Global,
    sim: &Sim,
    acts: &Acts,
    text: &mut Vec<u8>,
) -> Result<(), NoMemory>
    requires sound { AreSound acts.now }
    requires inside { IsInside (world_seen sim.now) (acts_job acts.now) }
    requires kept { IsKept (world_seen sim.now) (kept sim.now) }
    requires no_cycle { HasCycle (world_seen sim.now) → ⊥ }
    ensures { OnOk result (AnswersJob (world_seen sim.now) (acts_job acts.now)
        text.new.items false (world_seen sim.now)) }
{
    kept_are_stable();
    let (graph, list) = (sim.graph(), acts.list.as_slice());
    let seeds = seeds_at(alloc, sim, acts.round, acts.prefix)?;
    let states = states_at(alloc, sim.vrps(), sim.plan(), acts.prefix)?;
    let mut routing = same_routing(alloc, graph.ases(), &acts.held)?;
    let world = World {
        graph,
        book: sim.book(),
        states: &states,
    };
    let settled = run_activations(alloc, &world, acts.prefix, &seeds, &mut routing, list)?;
    let pieces = full_pieces(alloc, graph, list)?;
    let height = height_of(graph, sim.ranks());
    text.clear();
    put_rows(text, graph, &routing)?;
    put_settled(alloc, text, pieces, height, settled)
}
