//! The two ends of each link, by the AS that stands there.
ghost use Rattle.std.specs.Prelude.{◌≡◌, ◌<◌, ◌≤◌, ◌++◌, ℕ, length, [], false, drop, slice_index_or, IfOk, OnOk, IfSome, IfNone};
ghost use Rattle.std.specs.FinMap as map;
ghost use Rattle.as_graph.specs.Rows.{IsRising};
ghost use Rattle.as_graph.specs.Ends.{lower_ends, higher_ends, ends_at, at_of, AreTurned, AreByAs, IsRun, IsNextEnd};

use crate::neighbour::Neighbour;
use crate::row::Row;
use net_names::{Asn, Links, Numbered, deal_by_number};
use std::alloc::{AllocError, Global};

/// One end of a link: the AS that stands there, and its neighbour.
#[derive(Clone, Copy)]
pub struct End {
    pub at: Asn,
    pub neighbour: Neighbour,
}

impl Numbered for End {
    ghost number_of = { λ e. e.at };

    fn number(&self) -> Asn {
        self.at
    }
}

/// The lower end of each link, in the links' order.
pub fn lower_side(alloc: Global, links: &Links) -> Result<Vec<End>, AllocError>
    ensures ends { IfOk result (λ v. v.items ≡ lower_ends (map.entries links.now)) }
    ensures turned { OnOk result (AreTurned (map.entries links.now)) }
{
    let mut ends = Vec::with_capacity(alloc, links.len())?;
    for place in 0..links.len() {
        let Some(link) = links.at(place) else {
            unreachable!();
        };
        ends.push_reserved(End {
            at: link.lo,
            neighbour: Neighbour {
                asn: link.hi,
                rel: link.rel,
            },
        });
    }
    Ok(ends)
}

/// The higher end of each link, in rising order of the ASes, and at each AS in the links' order.
pub fn higher_side(alloc: Global, links: &Links) -> Result<Vec<End>, AllocError>
    ensures ends { IfOk result (λ v. (a : ℕ) → ends_at a v.items ≡ ends_at a (higher_ends (map.entries links.now))) }
    ensures by_as { IfOk result (λ v. AreByAs v.items) }
{
    let mut ends = Vec::with_capacity(alloc, links.len())?;
    for place in 0..links.len() {
        let Some(link) = links.at(place) else {
            unreachable!();
        };
        ends.push_reserved(End {
            at: link.hi,
            neighbour: Neighbour {
                asn: link.lo,
                rel: link.rel.converse(),
            },
        });
    }
    // What is dealt so is sorted up to number 1,048,575, and then the sort only looks through it.
    deal_by_number(alloc, &mut ends)?;
    ends.sort_by_key(|end| end.at)?;
    Ok(ends)
}

fn at(ends: &[End], place: usize) -> Option<Asn>
    ensures { result ≡ at_of ends.now place }
{
    match ends.get(place) {
        Some(end) => Some(end.at),
        None => None,
    }
}

/// The least AS at the higher ends from place `j` on and the lower ends from place `i` on.
pub fn next_end(higher: &[End], j: usize, lower: &[End], i: usize) -> Option<Asn>
    requires higher_by_as { AreByAs higher.now }
    requires lower_by_as { AreByAs lower.now }
    ensures found { IfSome result (IsNextEnd higher.now lower.now j i) }
    ensures none_higher { IfNone result (length higher.now ≤ j) }
    ensures none_lower { IfNone result (length lower.now ≤ i) }
{
    match (at(higher, j), at(lower, i)) {
        (Some(h), Some(l)) => { if h < l { Some(h) } else { Some(l) } }
        (Some(h), None) => Some(h),
        (None, Some(l)) => Some(l),
        (None, None) => None,
    }
}

// How many ends from a place on are those of the AS.
fn run_length(ends: &[End], from: usize, asn: Asn) -> usize {
    match ends.get(from..) {
        Some(rest) => rest.iter().take_while(|end| end.at == asn).count(),
        None => 0,
    }
}

/// An empty row with room for the neighbours at an AS's ends, which begin at place `j` of the higher
/// ends and place `i` of the lower ends.
pub fn row_for(
    alloc: Global,
    higher: &[End],
    j: usize,
    lower: &[End],
    i: usize,
    asn: Asn,
) -> Result<Row, AllocError>
    ensures none { IfOk result (λ r. r.neighbours.items ≡ []) }
    ensures unmarked { IfOk result (λ r. r.marked ≡ false) }
{
    let lower_count = run_length(lower, i, asn);
    Row::with_room(
        alloc,
        run_length(higher, j, asn).saturating_add(lower_count),
    )
}

/// Puts the neighbours at an AS's ends into its row. Returns the place behind these ends.
pub fn take_run(row: &mut Row, ends: &[End], from: usize, asn: Asn) -> Result<usize, AllocError>
    requires from { from ≤ length ends.now }
    requires by_as { AreByAs ends.now }
    requires least { (k : ℕ) (d : End) → from ≤ k → k < length ends.now → asn ≤ (slice_index_or ends.now k d).at }
    requires rising { IsRising (row.old.neighbours.items ++ ends_at asn (drop from ends.now)) }
    ensures taken { OnOk result
        (row.new.neighbours.items ≡ row.old.neighbours.items ++ ends_at asn (drop from ends.now)) }
    ensures marked { row.new.marked ≡ row.old.marked }
    ensures run { IfOk result (IsRun ends.now asn from) }
{
    let mut place = from;
    while place < ends.len() && ends[place].at == asn {
        let neighbour = ends[place].neighbour;
        row.push(neighbour.asn, neighbour.rel)?;
        place += 1;
    }
    Ok(place)
}
