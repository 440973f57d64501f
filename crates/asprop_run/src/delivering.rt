//! Deliveries of messages, and what they come to.
ghost use Rattle.std.specs.Prelude.{◌≡◌, ◌++◌, ◌==◌, false, OnOk};
ghost use Rattle.message_sim.specs.Prelude.{net_of};
ghost use Rattle.reports.specs.Rows.{table};
ghost use Rattle.sim_core.specs.Prelude.{IsKept, kept, world_seen, HasCycle};
ghost use Rattle.stability_laws.specs.Prelude.{entry_row};
ghost use Rattle.asprop_run.specs.Delivering.{message_rows};
ghost use Rattle.asprop_run.specs.Inside.{IsInside};
ghost use Rattle.asprop_run.specs.Replies.{AnswersJob};
ghost use Rattle.task_reading.specs.Prelude.{messages_job};

use crate::activating::yes_or_no;
use crate::states::{seeds_at, states_at};
use as_graph::Graph;
use message_sim::{Deliveries, Net};
use net_names::{NoMemory, put_bytes};
use origin_validation::KnownStates;
use policy_kinds::Kind;
use reports::put_entry;
use sim_core::{Sim, kept_are_stable};
use std::alloc::Global;

// Appends the rows of what all ASes chose, in rising number.
fn put_choices(
    text: &mut Vec<u8>,
    graph: &Graph,
    net: &Net<'_, Kind, KnownStates<'_>>,
) -> Result<(), NoMemory>
    ensures { OnOk result (text.new.items ≡ text.old.items ++
        table graph.now (λ a. entry_row a ((net_of net.now).choice a))) }
{
    let ases = graph.ases();
    for asn in ases {
        put_entry(text, *asn, net.choice(*asn))?;
    }
    Ok(())
}

// Appends what is said of the messages.
fn put_messages(
    alloc: Global,
    text: &mut Vec<u8>,
    delivered: u32,
    queued: u64,
    quiet: bool,
) -> Result<(), NoMemory>
    requires { quiet ≡ (queued == 0) }
    ensures { OnOk result (text.new.items ≡ text.old.items ++ message_rows delivered queued) }
{
    let word = yes_or_no(quiet);
    let rows = format!(in alloc; "delivered|{delivered}\nqueued|{queued}\nquiet|{word}\n")?;
    put_bytes(text, rows.as_bytes())
}

/// Makes the answer to deliveries: the rows of what all ASes chose after them, how many messages were taken out, how many
/// are under way, and whether none is.
pub fn answer_deliveries(
    alloc: Global,
    sim: &Sim,
    deliveries: &Deliveries,
    text: &mut Vec<u8>,
) -> Result<(), NoMemory>
    requires inside { IsInside (world_seen sim.now) (messages_job deliveries.now) }
    requires kept { IsKept (world_seen sim.now) (kept sim.now) }
    requires no_cycle { HasCycle (world_seen sim.now) → ⊥ }
    ensures { OnOk result (AnswersJob (world_seen sim.now) (messages_job deliveries.now)
        text.new.items false (world_seen sim.now)) }
{
    kept_are_stable();
    let graph = sim.graph();
    let seeds = seeds_at(alloc, sim, deliveries.round, deliveries.prefix)?;
    let states = states_at(alloc, sim.vrps(), sim.plan(), deliveries.prefix)?;
    let mut net = Net::new(alloc, graph, sim.book(), &states, deliveries.prefix, &seeds)?;
    let delivered = net.run(alloc, &deliveries.steps)?;
    text.clear();
    put_choices(text, graph, &net)?;
    put_messages(alloc, text, delivered, net.queued(), net.quiet())
}
