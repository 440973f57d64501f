//! The ASes whose entries may be wrong where policies changed.
ghost use Rattle.std.specs.Prelude.{◌≡◌, ℕ, true, Some, All, IfOk, OnOk};
ghost use Rattle.as_graph.specs.Prelude.{relation};
ghost use Rattle.leak_round.specs.Prelude.{touches};
ghost use Rattle.net_names.specs.Prelude.{PrefixValue};
ghost use Rattle.net_names.specs.declared.routes.Rel.{Rel};
ghost use Rattle.trial_world.specs.Tables.{AreTouched, IsTouchedAround};

use as_graph::Graph;
use leak_round::Touched;
use net_names::{Asn, NoMemory, Prefix};
use policy_kinds::Kind;
use policy_laws::RoutePolicy;
use stability_laws::{Book, SeedPlan};
use std::alloc::Global;

// Touches the neighbours of an AS for a prefix.
fn touch_neighbours(
    touched: &mut Touched,
    graph: &Graph,
    prefix: Prefix,
    asn: Asn,
) -> Result<(), NoMemory>
    ensures these { OnOk result ((n : ℕ) (r : Rel) → relation graph.now asn n ≡ Some r →
        touches touched.new prefix n ≡ true) }
    ensures more { (p : PrefixValue) (a : ℕ) → touches touched.old p a ≡ true → touches touched.new p a ≡ true }
{
    for neighbour in graph.neighbours(asn) {
        touched.add(prefix, neighbour.asn)?;
    }
    Ok(())
}

// Touches an AS that had a policy, and where it begins or ceases to mark its neighbours too, for a prefix.
fn touch_around(
    touched: &mut Touched,
    graph: &Graph,
    book: &Book<Kind>,
    prefix: Prefix,
    asn: Asn,
    was: Kind,
) -> Result<(), NoMemory>
    ensures these { OnOk result (IsTouchedAround graph.now book.now (asn, was) (touches touched.new prefix)) }
    ensures more { (p : PrefixValue) (a : ℕ) → touches touched.old p a ≡ true → touches touched.new p a ≡ true }
{
    touched.add(prefix, asn)?;
    if was.marks() == book.policy(asn).marks() {
        return Ok(());
    }
    touch_neighbours(touched, graph, prefix, asn)
}

// Does so for each AS of a list, beside which the policy stands that it had.
fn touch_all(
    touched: &mut Touched,
    graph: &Graph,
    book: &Book<Kind>,
    prefix: Prefix,
    before: &[(Asn, Kind)],
) -> Result<(), NoMemory>
    ensures these { OnOk result
        (All (λ c. IsTouchedAround graph.now book.now c (touches touched.new prefix)) before.now) }
    ensures more { (p : PrefixValue) (a : ℕ) → touches touched.old p a ≡ true → touches touched.new p a ≡ true }
{
    for one in before {
        touch_around(touched, graph, book, prefix, one.0, one.1)?;
    }
    Ok(())
}

/// The ASes of a list, beside which the policies stand that they had, and the neighbours of those that begin or cease to
/// mark (RFC 9234, section 5) with that of the book, for each prefix of the plan.
pub fn touched_by(
    alloc: Global,
    graph: &Graph,
    plan: &SeedPlan,
    book: &Book<Kind>,
    before: &[(Asn, Kind)],
) -> Result<Touched, NoMemory>
    ensures { IfOk result (AreTouched graph.now plan.now book.now before.now) }
{
    // `prefix_at` is called for its clause that the list has all prefixes of the plan.
    let _first = plan.prefix_at(0);
    let mut touched = Touched::new(alloc);
    for prefix in plan.prefixes() {
        touch_all(&mut touched, graph, book, *prefix, before)?;
    }
    Ok(touched)
}
