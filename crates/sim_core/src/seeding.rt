//! What a scenario announces and leaks, and which policies it gives, as the rounds need them.
ghost use Rattle.std.specs.Prelude.{◌≡◌, ◌≢◌, ◌≤◌, ◌++◌, ◌∷◌, [], ℕ, List, All, filter, map, IfOk, OnOk};
ghost use Rattle.policy_kinds.specs.declared.kind.Kind.{Kind as AKind};
ghost use Rattle.policy_kinds.specs.declared.kind.Kind.TheVariants.{Plain};
ghost use Rattle.std.specs.FinMap as fin;
ghost use Rattle.stability_laws.specs.Prelude.{Plan, empty_plan};
ghost use Rattle.sim_core.specs.Loaded.{is_other as is_other_policy, plan_of};

use crate::naming::is_other;
use as_graph::Graph;
use net_names::{Asn, NoMemory};
use policy_kinds::Kind;
use scenario_text::{Announcement, Scenario};
use stability_laws::{Book, FEW_NAMED, SeedPlan};
use std::alloc::Global;

// Makes the ASes announce.
fn announce_all(alloc: Global, plan: &mut SeedPlan, scenario: &Scenario) -> Result<(), NoMemory>
    requires { plan.old ≡ empty_plan }
    ensures { OnOk result (plan.new ≡ plan_of (record scenario.now { leaks = [] })) }
{
    for announcement in scenario.announcements() {
        let path = announcement.path.copied(alloc)?;
        plan.announce(announcement.prefix, path)?;
    }
    Ok(())
}

// Makes the ASes leak in the round.
fn leak_all(plan: &mut SeedPlan, round: u32, leakers: &[Asn]) -> Result<(), NoMemory>
    requires { 2 ≤ round }
    ensures { OnOk result ((before : Plan) (leaks : List ((ℕ × ℕ) × Unit {0})) →
        plan.old ≡ record before { leakers = fin.from_entries leaks } →
        plan.new ≡ record before { leakers = fin.from_entries (leaks ++ map (λ a. ((round, a), tt)) leakers.now) }) }
{
    for asn in leakers {
        plan.leaker(round, *asn)?;
    }
    Ok(())
}

/// What the scenario announces and leaks.
pub fn seed_plan(alloc: Global, scenario: &Scenario) -> Result<SeedPlan, NoMemory>
    ensures { IfOk result (λ plan. plan ≡ plan_of scenario.now) }
{
    let mut plan = SeedPlan::new(alloc);
    announce_all(alloc, &mut plan, scenario)?;
    let mut round = 2u32;
    for leakers in scenario.leaks() {
        leak_all(&mut plan, round, leakers.as_slice())?;
        round += 1;
    }
    Ok(plan)
}

// Names the AS, where its policy is another than the plain one.
fn name_policy(book: &mut Book<Kind>, policy: (Asn, Kind)) -> Result<(), NoMemory>
    ensures rest { book.new.rest ≡ book.old.rest }
    ensures named { OnOk result ((before : List (ℕ × AKind)) → All (λ p. p.0 ≢ policy.0) before →
        book.old.named ≡ fin.from_entries (filter is_other_policy before) →
        book.new.named ≡ fin.from_entries (filter is_other_policy (before ++ policy ∷ []))) }
{
    if !is_other(policy.1) {
        return Ok(());
    }
    book.room(policy.0)?;
    book.set(policy.0, policy.1);
    Ok(())
}

// Makes room for the ASes of the graph, in the order of its rows, where more than a few policies are other ones than the
// plain one: an AS's policy then stands where its row does, and is found there.
fn make_rows(book: &mut Book<Kind>, graph: &Graph, policies: &[(Asn, Kind)]) -> Result<(), NoMemory>
    ensures rest { book.new.rest ≡ book.old.rest }
    ensures named { book.new.named ≡ book.old.named }
{
    let others = policies.iter().filter(|policy| is_other(policy.1)).count();
    if others <= FEW_NAMED {
        return Ok(());
    }
    for asn in graph.rows() {
        book.room(*asn)?;
    }
    Ok(())
}

/// The policies that the scenario gives, and the plain one for the rest. Where none but the plain one is given, the book
/// stays empty.
pub fn policies(alloc: Global, scenario: &Scenario, graph: &Graph) -> Result<Book<Kind>, NoMemory>
    ensures rest { IfOk result (λ book. book.rest ≡ Plain) }
    ensures named { IfOk result (λ book. book.named ≡ fin.from_entries (filter is_other_policy scenario.now.policies)) }
{
    let mut book = Book::new(alloc, Kind::Plain);
    make_rows(&mut book, graph, scenario.policies())?;
    for policy in scenario.policies() {
        name_policy(&mut book, *policy)?;
    }
    Ok(book)
}
