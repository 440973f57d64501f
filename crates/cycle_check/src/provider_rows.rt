//! The lists of the providers of a graph's ASes, by place.
ghost use Rattle.std.specs.Prelude.{◌≡◌, ◌<◌, ◌≤◌, ◌^◌, ◌+◌, [], ◌∷◌, ◌++◌, length, IfOk, OnOk};
ghost use Rattle.std.specs.List.Sorted.{IsStrictlyIncreasing};
ghost use Rattle.as_graph.specs.Prelude.{relation};
ghost use Rattle.cycle_check.specs.Rows.{AreRows};
ghost use Rattle.cycle_check.specs.Places.{place_in};
ghost use Rattle.cycle_check.specs.Providers.{AreAses, AreFilled, AreProviderRows, IsRowPut, provider_places, put_provider};
ghost use Rattle.as_graph.specs.declared.build.TheConstants.{MOST_ASES};

use crate::notifying::{push, zeros};
use crate::placing::place_near;
use as_graph::{Graph, Neighbour, links_are_sound};
use net_names::{Asn, NoMemory, Rel};
use std::alloc::Global;

/// Lists of places, one after the other in one region: each begins where the one before it ends.
#[derive(Drop)]
pub struct ProviderRows {
    pub starts: Vec<u32>,
    pub items: Vec<u32>,
}

/// For each row of the graph, the place of its AS among the ASes. These are hints: no contract says
/// what they are. The only refusal is want of memory.
pub fn places_of_rows(alloc: Global, graph: &Graph, ases: &[Asn]) -> Result<Vec<u32>, NoMemory> {
    let mut places = zeros(alloc, graph.rows().len())?;
    for (place, asn) in ases.iter().enumerate() {
        if let Some(kept) = places.get_mut(graph.place_near(*asn, place)) {
            *kept = u32::try_from(place).unwrap_or(0);
        }
    }
    Ok(places)
}

// The hint for a neighbour, by the row at which it was last found.
fn hint(near: &[u32], rows: &[u32], at: usize) -> usize {
    match rows.get(at) {
        Some(row) => match near.get(*row as usize) {
            Some(place) => *place as usize,
            None => 0,
        },
        None => 0,
    }
}

// Puts the place of a neighbour behind the others, if it is a provider.
fn put(
    ases: &[Asn],
    neighbour: Neighbour,
    near: usize,
    items: &mut Vec<u32>,
) -> Result<(), NoMemory>
    requires rising { IsStrictlyIncreasing ases.now }
    requires few { length ases.now ≤ MOST_ASES }
    ensures { OnOk result (items.new.items ≡
        items.old.items ++ put_provider neighbour.rel (place_in ases.now neighbour.asn) []) }
{
    match neighbour.rel {
        Rel::Customer | Rel::Peer => Ok(()),
        Rel::Provider => push(items, place_near(ases, neighbour.asn, near) as u32),
    }
}

// Puts the places of the providers among an AS's neighbours behind the others.
fn put_all(
    ases: &[Asn],
    near: &[u32],
    neighbours: &[Neighbour],
    rows: &[u32],
    items: &mut Vec<u32>,
) -> Result<(), NoMemory>
    requires rising { IsStrictlyIncreasing ases.now }
    requires few { length ases.now ≤ MOST_ASES }
    ensures { OnOk result (items.new.items ≡ items.old.items ++ provider_places ases.now neighbours.now) }
{
    for (at, neighbour) in neighbours.iter().enumerate() {
        put(ases, *neighbour, hint(near, rows, at), items)?;
    }
    Ok(())
}

// Puts the places of the providers of the AS at a place behind the others.
fn put_row(
    graph: &Graph,
    ases: &[Asn],
    near: &[u32],
    place: usize,
    items: &mut Vec<u32>,
) -> Result<(), NoMemory>
    requires ases { AreAses graph.now ases.now }
    requires few { length ases.now ≤ MOST_ASES }
    requires place { place < length ases.now }
    ensures { OnOk result (IsRowPut (relation graph.now) ases.now place items.old.items items.new.items) }
{
    links_are_sound();
    let asn = ases[place];
    let row = graph.place_near(asn, place);
    let neighbours = graph.neighbours_near(asn, row);
    put_all(ases, near, neighbours, graph.neighbour_places(row), items)?;
    Ok(())
}

// Puts the end of a list behind those of the others.
fn put_end(starts: &mut Vec<u32>, end: usize) -> Result<(), NoMemory>
    ensures end { OnOk result (starts.new.items ≡ starts.old.items ++ end ∷ []) }
    ensures small { OnOk result (end < 2 ^ 32) }
{
    match u32::try_from(end) {
        Ok(end) => push(starts, end),
        Err(_) => Err(NoMemory),
    }
}

// The lists of the first ASes, one after the other.
fn filled(alloc: Global, graph: &Graph, ases: &[Asn]) -> Result<ProviderRows, NoMemory>
    requires ases { AreAses graph.now ases.now }
    requires few { length ases.now ≤ MOST_ASES }
    ensures { IfOk result (λ r.
        AreFilled (relation graph.now) ases.now r.starts.items r.items.items (length ases.now)) }
{
    let near = places_of_rows(alloc, graph, ases)?;
    let mut starts = Vec::new(alloc);
    let mut items = Vec::new(alloc);
    push(&mut starts, 0)?;
    for place in 0..ases.len() {
        put_row(graph, ases, &near, place, &mut items)?;
        put_end(&mut starts, items.len())?;
    }
    Ok(ProviderRows { starts, items })
}

/// The places of the providers of each AS, in the order of the ASes.
pub fn provider_rows(alloc: Global, graph: &Graph, ases: &[Asn]) -> Result<ProviderRows, NoMemory>
    requires ases { AreAses graph.now ases.now }
    requires few { length ases.now ≤ MOST_ASES }
    ensures rows { IfOk result (λ r. AreRows r.starts.items r.items.items) }
    ensures providers { IfOk result (λ r.
        AreProviderRows (relation graph.now) ases.now r.starts.items r.items.items) }
{
    links_are_sound();
    Ok(filled(alloc, graph, ases)?)
}
