//! The graph of a world: its links, and the ASes that the scenario names.
ghost use Rattle.std.specs.Prelude.{◌≡◌, ◌≤◌, ◌∷◌, ◌++◌, [], ℕ, map, filter, flat_map, None, IfOk, OnOk, IfErr};
ghost use Rattle.as_graph.specs.Prelude.{as_count};
ghost use Rattle.scenario_text.specs.declared.scenario.Announcement.{Announcement as AnAnnouncement};
ghost use Rattle.sim_core.specs.Loaded.{is_other as is_other_policy, names_in};
ghost use Rattle.sim_core.specs.Marking.{IsMarksRefusal, MakesGraph, marked};
ghost use Rattle.as_graph.specs.declared.build.TheConstants.{MOST_ASES};

use crate::LoadError;
use as_graph::{Graph, GraphError};
use net_names::{Asn, Links, NoMemory};
use policy_kinds::Kind;
use scenario_text::{Announcement, Leakers, Scenario};
use std::alloc::Global;

// Marks an AS of a graph without room.
fn mark(graph: &mut Graph, asn: Asn) -> Result<(), LoadError>
    requires { graph.old.room ≡ None }
    ensures ok { OnOk result (graph.new ≡ marked graph.old (asn ∷ [])) }
    ensures few { OnOk result (as_count graph.old ≤ MOST_ASES → as_count graph.new ≤ MOST_ASES) }
    ensures refused { IfErr result (IsMarksRefusal graph.old (asn ∷ [])) }
{
    match graph.mark(asn) {
        Ok(()) => Ok(()),
        Err(GraphError::Memory) => Err(LoadError::Memory),
        Err(GraphError::TooManyLinks) => unreachable!(),
        Err(GraphError::TooManyAses) => Err(LoadError::TooManyAses),
    }
}

// Marks the ASes of a graph without room.
fn mark_all(graph: &mut Graph, names: &[Asn]) -> Result<(), LoadError>
    requires { graph.old.room ≡ None }
    ensures ok { OnOk result (graph.new ≡ marked graph.old names.now) }
    ensures few { OnOk result (as_count graph.old ≤ MOST_ASES → as_count graph.new ≤ MOST_ASES) }
    ensures refused { IfErr result (IsMarksRefusal graph.old names.now) }
{
    for asn in names {
        mark(graph, *asn)?;
    }
    Ok(())
}

/// Whether the kind is another than the plain one.
pub fn is_other(kind: Kind) -> bool
    ensures { (a : ℕ) → result ≡ is_other_policy (a, kind) }
{
    match kind {
        Kind::Plain => false,
        _ => true,
    }
}

// Puts the announcing ASes at the end.
fn add_announcers(names: &mut Vec<Asn>, announcements: &[Announcement]) -> Result<(), NoMemory>
    ensures { OnOk result (names.new.items ≡ names.old.items ++ map (λ (a : AnAnnouncement). a.asn) announcements.now) }
{
    for announcement in announcements {
        names.push(announcement.asn)?;
    }
    Ok(())
}

// Puts the leakers of all rounds at the end.
fn add_leakers(names: &mut Vec<Asn>, leaks: &[Leakers]) -> Result<(), NoMemory>
    ensures { OnOk result (names.new.items ≡ names.old.items ++ flat_map (λ leakers. leakers) leaks.now) }
{
    for leakers in leaks {
        names.extend_from_slice(leakers.as_slice())?;
    }
    Ok(())
}

// Puts the AS at the end, where its policy is another than the plain one.
fn add_other(names: &mut Vec<Asn>, policy: (Asn, Kind)) -> Result<(), NoMemory>
    ensures { OnOk result (names.new.items ≡ names.old.items ++ map (λ p. p.0) (filter is_other_policy (policy ∷ []))) }
{
    if !is_other(policy.1) {
        return Ok(());
    }
    names.push(policy.0)?;
    Ok(())
}

// Puts the ASes with another policy than the plain one at the end.
fn add_others(names: &mut Vec<Asn>, policies: &[(Asn, Kind)]) -> Result<(), NoMemory>
    ensures { OnOk result (names.new.items ≡ names.old.items ++ map (λ p. p.0) (filter is_other_policy policies.now)) }
{
    for policy in policies {
        add_other(names, *policy)?;
    }
    Ok(())
}

// The ASes that the scenario names, some twice.
fn names_of(alloc: Global, scenario: &Scenario) -> Result<Vec<Asn>, NoMemory>
    ensures { IfOk result (λ names. names.items ≡ names_in scenario.now) }
{
    let mut names = Vec::new(alloc);
    add_announcers(&mut names, scenario.announcements())?;
    add_leakers(&mut names, scenario.leaks())?;
    add_others(&mut names, scenario.policies())?;
    Ok(names)
}

/// The graph of the links in which the ASes that the scenario names are marked.
pub fn world_graph(alloc: Global, links: &Links, scenario: &Scenario) -> Result<Graph, LoadError>
    ensures { MakesGraph links.now (names_in scenario.now) result }
{
    let names = names_of(alloc, scenario)?;
    let mut graph = match Graph::build(alloc, links) {
        Ok(graph) => graph,
        Err(GraphError::Memory) => return Err(LoadError::Memory),
        Err(GraphError::TooManyLinks) => unreachable!(),
        Err(GraphError::TooManyAses) => return Err(LoadError::TooManyAses),
    };
    mark_all(&mut graph, &names)?;
    Ok(graph)
}
