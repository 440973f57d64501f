//! What the passes go along, for every prefix alike: the ASes by rising rank, and the providers of each.
//! An AS stands at its place in this order, which is near those of its providers, and at its row of the graph.

ghost use Rattle.std.specs.Prelude.{◌≡◌, ℕ, ◌<◌, [], true, length, slice_index, IfOk, OnOk, All, Some, Option, nat_eq};
ghost use Rattle.std.specs.List.{IsDistinct};
ghost use Rattle.net_names.specs.Prelude.{occurs};
ghost use Rattle.net_names.specs.declared.routes.Rel.{Rel as ARel};
ghost use Rattle.net_names.specs.declared.routes.Rel.TheVariants.{Provider as AProvider};
ghost use Rattle.as_graph.specs.Prelude.{relation, IsRank, asns};
ghost use Rattle.rank_order.specs.Prelude.{rank_at};
ghost use Rattle.three_pass.specs.Courses.{AreAbove, IsCourse};
ghost use Rattle.three_pass.specs.Lists.{AreProviders};
ghost use Rattle.three_pass.specs.Scratches.{IsScratch};

use crate::lists::ProviderLists;
use crate::looks::Looks;
use as_graph::{Graph, Neighbour};
use as_places::AsPlaces;
use net_names::{Asn, NoMemory, Rel, place_at};
use rank_order::{RankOrder, Ranks, placed_by_rank};
use route_choice::Overlay;
use std::alloc::Global;
use std::rc::Rc;

/// The ASes of a graph by rising rank, for each of them, in this order, its providers, and the ASes of the
/// rows of the graph. It is the same for all prefixes and rounds. Places and rows of ASes are hints.
#[derive(Drop)]
pub struct Course {
    pub(crate) order: RankOrder,
    pub(crate) above: ProviderLists,
    pub(crate) rows: Rc<AsPlaces>,
    // for each row the place of its AS in the order
    pub(crate) places: Vec<u32>,
    // with which the course was made, and tables along it are made
    pub(crate) alloc: Global,
}

// Puts a neighbour behind the list, if it is a provider.
fn put_if_provider(list: &mut Looks, neighbour: &Neighbour, place: u32) -> Result<(), NoMemory>
    ensures each { OnOk result ((w : ℕ → ℕ → Option ARel) (a : ℕ) → w a neighbour.now.asn ≡ Some neighbour.now.rel →
        All (λ x. w a x.asn ≡ Some x.rel) list.old.neighbours.items →
        All (λ x. w a x.asn ≡ Some x.rel) list.new.neighbours.items) }
    ensures only { OnOk result (All (λ x. x.rel ≡ AProvider) list.old.neighbours.items →
        All (λ x. x.rel ≡ AProvider) list.new.neighbours.items) }
    ensures this { OnOk result (neighbour.now.rel ≡ AProvider →
        occurs neighbour.now.asn (asns list.new.neighbours.items) ≡ true) }
    ensures others { OnOk result ((n : ℕ) → occurs n (asns list.old.neighbours.items) ≡ true →
        occurs n (asns list.new.neighbours.items) ≡ true) }
{
    if neighbour.rel != Rel::Provider {
        return Ok(());
    }
    if list.push(*neighbour, place) {
        Ok(())
    } else {
        Err(NoMemory)
    }
}

// Whether an AS stands at a place of a list.
pub(crate) fn stands_at(rows: &[Asn], row: usize, asn: Asn) -> bool
    ensures inside { result ≡ true → row < length rows.now }
    ensures there { result ≡ true → slice_index rows.now row ≡ asn }
{
    if row < rows.len() {
        rows[row] == asn
    } else {
        false
    }
}

// Puts the providers among the neighbours of an AS into an empty list.
fn put_providers(
    list: &mut Looks,
    graph: &Graph,
    asn: Asn,
    row: usize,
    places: &[u32],
) -> Result<(), NoMemory>
    requires { list.old.neighbours.items ≡ [] }
    ensures { OnOk result (AreProviders (relation graph.now) asn list.new.neighbours.items) }
{
    let neighbours = graph.neighbours_near(asn, row);
    let rows = graph.neighbour_places(row);
    for (index, neighbour) in neighbours.iter().enumerate() {
        let place = places.get(place_at(rows, index)).copied().unwrap_or(0);
        put_if_provider(list, neighbour, place)?;
    }
    Ok(())
}

// The providers of each of these ASes, in their order.
fn providers_of(
    alloc: Global,
    graph: &Graph,
    ases: &[Asn],
    rows: &[u32],
    places: &[u32],
) -> Result<ProviderLists, NoMemory>
    ensures { IfOk result (λ l. AreAbove (relation graph.now) ases.now l) }
{
    let mut lists = ProviderLists::none(alloc)?;
    let mut list = Looks::none(alloc);
    for (place, asn) in ases.iter().enumerate() {
        list.clear();
        let row = place_at(rows, place);
        put_providers(&mut list, graph, *asn, row, places)?;
        lists.push(&list)?;
    }
    Ok(lists)
}

// For each row the place in the order of the AS that has it, where these are the rows in the order.
fn places_by_row(alloc: Global, count: usize, rows: &[u32]) -> Result<Vec<u32>, NoMemory> {
    let mut places = Vec::from_elem(alloc, 0u32, count)?;
    for (place, row) in rows.iter().enumerate() {
        if let Some(kept) = places.get_mut(*row as usize) {
            *kept = u32::try_from(place).unwrap_or(0);
        }
    }
    Ok(places)
}

impl Course {
    /// The course of a graph and its ranks. The only refusal is want of memory.
    pub fn of(alloc: Global, graph: &Graph, ranks: &Ranks) -> Result<Course, NoMemory>
        requires { (a : ℕ) → IsRank (relation graph.now) a (rank_at ranks.now a) }
        ensures { IfOk result (IsCourse graph.now) }
    {
        let order = placed_by_rank(alloc, graph, ranks)?;
        let rows = AsPlaces::shared(alloc, graph.rows())?;
        let places = places_by_row(alloc, rows.len(), &order.places)?;
        let above = providers_of(alloc, graph, &order.ases, &order.places, &places)?;
        Ok(Course {
            order,
            above,
            rows,
            places,
            alloc,
        })
    }

    /// An overlay for propagation along the course, which can serve all prefixes one after the other. The
    /// ASes of the course differ, as those of each course of a graph do. The only refusal is want of memory.
    pub fn scratch(&self) -> Result<Overlay, NoMemory>
        requires { IsDistinct nat_eq self.now.order.ases.items }
        ensures { IfOk result (IsScratch self.now) }
    {
        let places = AsPlaces::shared(self.alloc, self.order.ases.as_slice())?;
        let overlay = Overlay::blank(self.alloc, &places, 1)?;
        Ok(overlay)
    }
}
