//! Where the rows of neighbours stand. A place is a hint: no contract says what it is, and whoever
//! uses it compares the number that stands there with the wanted one, which is looked up where they
//! differ.
ghost use Rattle.std.specs.Prelude.{◌≤◌};
ghost use Rattle.indexmap.specs.IndexMap.{index_map_len};
ghost use Rattle.as_graph.specs.declared.build.TheConstants.{MOST_ASES};

use crate::finder::Finder;
use crate::neighbour::Neighbour;
use crate::row::Row;
use indexmap::IndexMap;
use net_names::Asn;
use std::alloc::{AllocError, Global};

// Where the list of a row stands in the region, and how long it is. A row with a list of its own has
// OWN for the start, and for the length the number of that list.
#[derive(Clone, Copy)]
struct Span {
    start: u32,
    len: u32,
}

const OWN: u32 = u32::MAX;

// How many more places a row's own list has room for when it is made.
const SPARE: usize = 4;

const EMPTY: Span = Span { start: 0, len: 0 };

/// For each row, in the order of the rows, the places of its neighbours' rows, in their order. The
/// lists of a graph that is built stand in one region. A row that gets a neighbour later has a list
/// of its own from then on.
#[derive(Drop)]
pub struct Places {
    spans: Vec<Span>,
    items: Vec<u32>,
    own: Vec<Vec<u32>>,
}

impl Places {
    /// The places of the neighbours of the row at a place.
    pub fn of_row(&self, place: usize) -> &[u32] {
        let Some(span) = self.spans.get(place) else {
            return &[];
        };
        let found = if span.start == OWN {
            self.own.get(span.len as usize).map(|list| list.as_slice())
        } else {
            let start = span.start as usize;
            self.items
                .get(start..start.saturating_add(span.len as usize))
        };
        match found {
            Some(places) => places,
            None => &[],
        }
    }

    /// Makes room for one more place in the list of a row. Where memory is wanting, the list is given
    /// up.
    pub fn reserve(&mut self, alloc: Global, row: Option<usize>) {
        let Some(row) = row else {
            return;
        };
        if self.reserve_at(alloc, row).is_err() {
            self.give_up(row);
        }
    }

    fn reserve_at(&mut self, alloc: Global, row: usize) -> Result<(), AllocError> {
        self.cover(row)?;
        let number = self.own_list(alloc, row)?;
        match self.own.get_mut(number) {
            Some(list) => list.reserve(1),
            None => Ok(()),
        }
    }

    // Empty lists for the rows up to this one that have none yet.
    fn cover(&mut self, row: usize) -> Result<(), AllocError> {
        for _ in self.spans.len()..row.saturating_add(1) {
            self.spans.push(EMPTY)?;
        }
        Ok(())
    }

    // The number of the row's own list, which is made where there is none.
    fn own_list(&mut self, alloc: Global, row: usize) -> Result<usize, AllocError> {
        if let Some(span) = self.spans.get(row) {
            if span.start == OWN {
                return Ok(span.len as usize);
            }
        }
        let places = self.of_row(row);
        let mut list = Vec::with_capacity(alloc, places.len().saturating_add(SPARE))?;
        list.extend_from_slice(places)?;
        let number = self.own.len();
        let Ok(len) = u32::try_from(number) else {
            return Err(AllocError);
        };
        self.own.push(list)?;
        if let Some(span) = self.spans.get_mut(row) {
            *span = Span { start: OWN, len };
        }
        Ok(number)
    }

    fn give_up(&mut self, row: usize) {
        if let Some(span) = self.spans.get_mut(row) {
            *span = EMPTY;
        }
    }

    /// Puts the place of a new neighbour into the list of a row, in the room that there is. Where
    /// there is none, the list is given up.
    pub fn put(&mut self, row: Option<usize>, at: Option<usize>, neighbour: Option<usize>) {
        let (Some(row), Some(at), Some(neighbour)) = (row, at, neighbour) else {
            return;
        };
        if !self.put_in_room(row, at, u32::try_from(neighbour).unwrap_or(0)) {
            self.give_up(row);
        }
    }

    fn put_in_room(&mut self, row: usize, at: usize, place: u32) -> bool {
        let Some(span) = self.spans.get(row) else {
            return false;
        };
        if span.start != OWN {
            return false;
        }
        let number = span.len as usize;
        match self.own.get_mut(number) {
            Some(list) => {
                at <= list.len() && list.len() < list.capacity() && list.insert(at, place).is_ok()
            }
            None => false,
        }
    }

    /// Takes the place of a neighbour out of the list of a row.
    pub fn take(&mut self, row: Option<usize>, at: Option<usize>) {
        let (Some(row), Some(at)) = (row, at) else {
            return;
        };
        let Some(span) = self.spans.get(row) else {
            return;
        };
        let span = *span;
        if span.start == OWN {
            self.take_own(span.len as usize, at);
        } else {
            self.take_shared(span, at);
            self.shorten(row);
        }
    }

    fn take_own(&mut self, number: usize, at: usize) {
        if let Some(list) = self.own.get_mut(number) {
            if at < list.len() {
                let _gone = list.remove(at);
            }
        }
    }

    fn take_shared(&mut self, span: Span, at: usize) {
        let start = span.start as usize;
        let end = start
            .saturating_add(span.len as usize)
            .min(self.items.len());
        let from = start.saturating_add(at);
        if from < end {
            self.items.as_mut_slice().copy_within(from + 1..end, from);
        }
    }

    fn shorten(&mut self, row: usize) {
        if let Some(span) = self.spans.get_mut(row) {
            span.len = span.len.saturating_sub(1);
        }
    }
}

// Where the list of each row stands.
fn spans_of(alloc: Global, rows: &IndexMap<Asn, Row>) -> Result<Vec<Span>, AllocError> {
    let mut spans = Vec::with_capacity(alloc, rows.len())?;
    let mut start = 0u32;
    for row in rows.values() {
        let len = u32::try_from(row.as_slice().len()).unwrap_or(0);
        spans.push(Span { start, len })?;
        start = start.wrapping_add(len);
    }
    Ok(spans)
}

// Puts the places of a row's neighbours behind those of the rows before it.
fn put_row(
    items: &mut Vec<u32>,
    finder: &Finder<'_>,
    neighbours: &[Neighbour],
) -> Result<(), AllocError> {
    for neighbour in neighbours {
        items.push(finder.place(neighbour.asn).unwrap_or(0))?;
    }
    Ok(())
}

/// The places of the neighbours of all rows, which stand in rising order of their ASes.
pub fn places_of(alloc: Global, rows: &IndexMap<Asn, Row>) -> Result<Places, AllocError>
    requires { index_map_len rows.now ≤ MOST_ASES }
{
    let finder = Finder::new(alloc, rows.keys().as_slice())?;
    let spans = spans_of(alloc, rows)?;
    let count = match spans.last() {
        Some(span) => span.start.wrapping_add(span.len) as usize,
        None => 0,
    };
    let mut items = Vec::with_capacity(alloc, count)?;
    for row in rows.values() {
        put_row(&mut items, &finder, row.as_slice())?;
    }
    Ok(Places {
        spans,
        items,
        own: Vec::new(alloc),
    })
}
