//! What the ASes hold in a section, by the places of the graph's rows.
ghost use Rattle.std.specs.Prelude.{◌≡◌, ◌<◌, ◌-◌, ◌^◌, ℕ, length, map as each, option_copied, option_map, Some, IfOk, IfSome, OnOk};
ghost use Rattle.net_names.specs.Prelude.{occurs};
ghost use Rattle.stability_laws.specs.declared.entry.Entry.{Entry as AnEntry};
ghost use Rattle.table_check.specs.Numbers.{AreNumbers};
ghost use Rattle.table_check.specs.Rows.{HoldsShort, held_by};
ghost use Rattle.table_check.specs.Walk.{brief_of};

use crate::long_paths::LongPaths;
use crate::numbers::Numbers;
use crate::rows::Rows;
use as_graph::Graph;
use net_names::{Asn, Class, NoMemory};
use stability_laws::Entry;
use std::alloc::Global;

// An entry whose offer shows at most this length has a path that is short enough for each neighbour to look through it.
const MOST_IN_SHORT: u32 = 256;

// How many neighbours may each look through a long path.
const FEW_NEIGHBOURS: usize = 64;

/// What an offer of an entry shows of it without a look at its path.
#[derive(Clone, Copy)]
pub(crate) struct Brief {
    pub(crate) class: Class,
    pub(crate) otc: Option<Asn>,
    /// How many numbers the path has with one more.
    pub(crate) length: u32,
}

/// What the ASes hold in a section, by AS, and what those of the graph's rows hold, by place.
#[derive(Drop)]
pub(crate) struct Placed<'a> {
    pub(crate) table: &'a Rows,
    pub(crate) round: u32,
    rows: &'a [Asn],
    briefs: &'a [Option<Brief>],
    held: &'a [Option<&'a Entry>],
    long: &'a LongPaths,
    ghost shown: { briefs.now ≡ each (λ a. option_map brief_of (held_by table.now round a)) rows.now },
    ghost same: { each option_copied held.now ≡ each (held_by table.now round) rows.now },
    ghost short: { HoldsShort table.now },
    ghost numbered: { AreNumbers (held_by table.now round) long.now },
}

// What an offer of the entry shows.
fn brief_from(entry: &Entry) -> Brief
    requires { length entry.now.path < 2 ^ 32 - 1 }
    ensures { result ≡ brief_of entry.now }
{
    Brief {
        class: entry.class,
        otc: entry.otc,
        length: entry.path.as_slice().len() as u32 + 1,
    }
}

// What an offer of what the AS holds in the round shows, and what it holds.
fn found_at<'a>(table: &'a Rows, round: u32, asn: Asn) -> (Option<Brief>, Option<&'a Entry>)
    ensures brief { result.0 ≡ option_map brief_of (held_by table.now round asn) }
    ensures held { option_copied result.1 ≡ held_by table.now round asn }
{
    table.paths_are_short();
    match table.held(round, asn) {
        Some(entry) => (Some(brief_from(entry)), Some(entry)),
        None => (None, None),
    }
}

/// What these ASes hold in the round, in their order: what offers of it show, and what it is.
pub(crate) fn held_by_rows<'a>(
    alloc: Global,
    rows: &[Asn],
    table: &'a Rows,
    round: u32,
) -> Result<(Vec<Option<Brief>>, Vec<Option<&'a Entry>>), NoMemory>
    ensures briefs { IfOk result
        (λ found. found.0.items ≡ each (λ a. option_map brief_of (held_by table.now round a)) rows.now) }
    ensures held { IfOk result (λ found. each option_copied found.1.items ≡ each (held_by table.now round) rows.now) }
{
    let mut briefs = Vec::new(alloc);
    let mut held = Vec::new(alloc);
    for asn in rows {
        let (brief, entry) = found_at(table, round, *asn);
        briefs.push(brief)?;
        held.push(entry)?;
    }
    Ok((briefs, held))
}

// Whether the AS holds a long path at this place, and has many neighbours.
fn is_looked_through(graph: &Graph, briefs: &[Option<Brief>], asn: Asn, place: usize) -> bool {
    if place >= briefs.len() {
        return false;
    }
    match briefs[place] {
        Some(brief) => {
            brief.length > MOST_IN_SHORT && graph.neighbours_near(asn, place).len() > FEW_NEIGHBOURS
        },
        None => false,
    }
}

// Puts in the numbers of the path that the AS holds in the round.
fn put_path(
    alloc: Global,
    table: &Rows,
    round: u32,
    asn: Asn,
    long: &mut LongPaths,
) -> Result<(), NoMemory>
    ensures { OnOk result (AreNumbers (held_by table.now round) long.old →
        AreNumbers (held_by table.now round) long.new) }
{
    match table.held(round, asn) {
        Some(entry) => long.put(alloc, asn, entry.path.as_slice()),
        None => Ok(()),
    }
}

/// The numbers of the long paths that ASes with many neighbours hold in the round. What offers show stands in the
/// order of the graph's rows.
pub(crate) fn long_paths(
    alloc: Global,
    graph: &Graph,
    table: &Rows,
    round: u32,
    briefs: &[Option<Brief>],
) -> Result<LongPaths, NoMemory>
    ensures { IfOk result (λ long. AreNumbers (held_by table.now round) long) }
{
    let mut long = LongPaths::none(alloc);
    let mut place = 0usize;
    for asn in graph.rows() {
        if is_looked_through(graph, briefs, *asn, place) {
            put_path(alloc, table, round, *asn, &mut long)?;
        }
        place = place.wrapping_add(1);
    }
    Ok(long)
}

impl<'a> Placed<'a> {
    /// The rows of the round, what these ASes hold by them, and the numbers of long paths.
    pub(crate) fn new(
        table: &'a Rows,
        round: u32,
        rows: &'a [Asn],
        briefs: &'a [Option<Brief>],
        held: &'a [Option<&'a Entry>],
        long: &'a LongPaths,
    ) -> Placed<'a>
        requires shown { briefs.now ≡ each (λ a. option_map brief_of (held_by table.now round a)) rows.now }
        requires same { each option_copied held.now ≡ each (held_by table.now round) rows.now }
        requires numbered { AreNumbers (held_by table.now round) long.now }
        ensures table { result.table.now ≡ table.now }
        ensures round { result.round ≡ round }
    {
        table.paths_are_short();
        Placed {
            table,
            round,
            rows,
            briefs,
            held,
            long,
        }
    }

    /// The numbers of the path that the AS holds, whose offer shows this length, where they are known.
    pub(crate) fn numbers_of(&self, asn: Asn, length: u32) -> Option<&Numbers>
        ensures { IfSome result (λ s. (e : AnEntry) → held_by self.now.table.now self.now.round asn ≡ Some e →
            (a : ℕ) → occurs a s.now.sorted.items ≡ occurs a e.path) }
    {
        if length > MOST_IN_SHORT {
            self.long.numbers(asn)
        } else {
            None
        }
    }

    /// What an offer of what the AS holds shows, sought first at a place.
    pub(crate) fn brief_near(&self, asn: Asn, place: usize) -> Option<Brief>
        ensures { result ≡ option_map brief_of (held_by self.now.table.now self.now.round asn) }
    {
        if place < self.rows.len() && self.rows[place] == asn {
            self.briefs[place]
        } else {
            found_at(self.table, self.round, asn).0
        }
    }

    /// What the AS holds, sought first at a place.
    pub(crate) fn near(&self, asn: Asn, place: usize) -> Option<&Entry>
        ensures value { option_copied result ≡ held_by self.now.table.now self.now.round asn }
        ensures short { HoldsShort self.now.table.now }
    {
        if place < self.rows.len() && self.rows[place] == asn {
            self.held[place]
        } else {
            self.table.held(self.round, asn)
        }
    }
}
