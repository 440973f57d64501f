//! New ranks that are tried, from the ends of an edited link upwards and no further than they change: nothing is known of
//! them before they are checked.
use crate::ranks::Ranks;
use as_graph::{Graph, Neighbour};
use net_names::{Asn, Rel};
use std::alloc::{AllocError, Global};
use std::collections::{BTreeMap, BTreeSet};

/// ASes and a rank for each, by place.
#[derive(Drop)]
pub struct Attempt {
    pub ases: Vec<Asn>,
    pub ranks: Vec<u32>,
}

// The new numbers so far, and the ASes that are to be numbered, by the number that they had.
#[derive(Drop)]
struct Numbering {
    numbers: BTreeMap<Asn, u32>,
    queue: BTreeSet<(u32, Asn)>,
}

// The number of an AS.
fn number(numbers: &BTreeMap<Asn, u32>, ranks: &Ranks, asn: Asn, place: usize) -> u32 {
    match numbers.get(&asn) {
        Some(number) => *number,
        None => ranks.rank_near(asn, place),
    }
}

// One more than the greatest number of a customer, 0 without customers.
fn number_over(
    numbers: &BTreeMap<Asn, u32>,
    ranks: &Ranks,
    neighbours: &[Neighbour],
    places: &[u32],
) -> u32 {
    let mut greatest = 0;
    for (at, neighbour) in neighbours.iter().enumerate() {
        if neighbour.rel == Rel::Customer {
            let place = places.get(at).copied().unwrap_or(0) as usize;
            let number = number(numbers, ranks, neighbour.asn, place);
            greatest = greatest.max(number.saturating_add(1));
        }
    }
    greatest
}

// Puts an AS into the queue.
fn wake(numbering: &mut Numbering, ranks: &Ranks, asn: Asn) -> Result<(), AllocError> {
    let number = number(&numbering.numbers, ranks, asn, 0);
    numbering.queue.insert((number, asn))?;
    Ok(())
}

// Puts those providers into the queue whose number may change with that of a customer.
fn wake_providers(
    numbering: &mut Numbering,
    ranks: &Ranks,
    neighbours: &[Neighbour],
    before: u32,
    later: u32,
) -> Result<(), AllocError> {
    for neighbour in neighbours {
        if neighbour.rel == Rel::Provider {
            let number = number(&numbering.numbers, ranks, neighbour.asn, 0);
            if number <= later || number == before.saturating_add(1) {
                wake(numbering, ranks, neighbour.asn)?;
            }
        }
    }
    Ok(())
}

// Numbers an AS.
fn renumber(
    numbering: &mut Numbering,
    graph: &Graph,
    ranks: &Ranks,
    asn: Asn,
) -> Result<(), AllocError> {
    let row = graph.place_near(asn, 0);
    let neighbours = graph.neighbours_near(asn, row);
    let before = number(&numbering.numbers, ranks, asn, row);
    let later = number_over(
        &numbering.numbers,
        ranks,
        neighbours,
        graph.neighbour_places(row),
    );
    numbering.numbers.insert(asn, later)?;
    if before != later {
        wake_providers(numbering, ranks, neighbours, before, later)?;
    }
    Ok(())
}

// Puts those of the ASes into the queue that are in the graph.
fn begun(
    alloc: Global,
    graph: &Graph,
    ranks: &Ranks,
    ends: &[Asn],
) -> Result<Numbering, AllocError> {
    let mut numbering = Numbering {
        numbers: BTreeMap::new(alloc),
        queue: BTreeSet::new(alloc),
    };
    for asn in ends {
        if graph.has(*asn) {
            wake(&mut numbering, ranks, *asn)?;
        }
    }
    Ok(numbering)
}

// The numbers by place.
fn listed(alloc: Global, numbers: &BTreeMap<Asn, u32>) -> Result<Attempt, AllocError> {
    let mut attempt = Attempt {
        ases: Vec::with_capacity(alloc, numbers.len())?,
        ranks: Vec::with_capacity(alloc, numbers.len())?,
    };
    for (asn, number) in numbers.iter() {
        attempt.ases.push(*asn)?;
        attempt.ranks.push(*number)?;
    }
    Ok(attempt)
}

/// Numbers the ends anew, and each AS above them whose number may change, the lowest first. It gives
/// up after so many as the graph has.
pub fn tried(
    alloc: Global,
    graph: &Graph,
    ranks: &Ranks,
    ends: &[Asn],
) -> Result<Attempt, AllocError> {
    let mut numbering = begun(alloc, graph, ranks, ends)?;
    for _ in 0..graph.as_count() {
        match numbering.queue.pop_first() {
            Some((_, asn)) => renumber(&mut numbering, graph, ranks, asn)?,
            None => break,
        }
    }
    listed(alloc, &numbering.numbers)
}
