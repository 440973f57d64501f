//! ASes that no link, no announcement and no leak names: they are there by their policy alone.
ghost use Rattle.std.specs.Prelude.{◌≡◌, IfOk, not};
ghost use Rattle.stability_laws.specs.Prelude.{policy_at};
ghost use Rattle.sim_core.specs.Prelude.{is_other as is_other_policy};
ghost use Rattle.trial_world.specs.Fixed.{AreLone, is_lone as is_lone_in};
ghost use Rattle.trial_world.specs.Trials.{plain_in};

use as_graph::Graph;
use net_names::{Asn, NoMemory};
use policy_kinds::Kind;
use sim_core::is_other;
use stability_laws::{Book, SeedPlan};
use std::alloc::Global;

// Whether neither a link nor an announcement or a leak names the AS.
fn is_lone(graph: &Graph, plan: &SeedPlan, asn: Asn) -> bool
    ensures { result ≡ is_lone_in graph.now plan.now asn }
{
    graph.links_stand_lower_first();
    graph.neighbours(asn).is_empty() && !plan.names(asn)
}

/// The ASes of the graph that have no link and that the plan doesn't name.
pub fn lone_ases(alloc: Global, graph: &Graph, plan: &SeedPlan) -> Result<Vec<Asn>, NoMemory>
    ensures { IfOk result (λ v. AreLone graph.now plan.now v.items) }
{
    let mut lone = Vec::new(alloc);
    for asn in graph.ases() {
        if is_lone(graph, plan, *asn) {
            lone.push(*asn)?;
        }
    }
    Ok(lone)
}

// Whether an AS has the plain kind.
fn is_plain(book: &Book<Kind>, asn: Asn) -> bool
    ensures { result ≡ not (is_other_policy (asn, policy_at book.now asn)) }
{
    !is_other(*book.policy(asn))
}

/// How many of the ASes have the plain kind. Where they are lone, these are no ASes of the world.
pub fn plain_count(lone: &[Asn], book: &Book<Kind>) -> u64
    ensures { result ≡ plain_in lone.now book.now }
{
    lone.iter().filter(|asn| is_plain(book, **asn)).count() as u64
}
