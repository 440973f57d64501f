//! Pairs in two runs.
ghost use Rattle.std.specs.Prelude.{◌≡◌, ◌++◌, IsTrue, None, IfOk, OnErr, map, if◌then◌else◌};
ghost use Rattle.std.specs.FinMap as fin;
ghost use Rattle.caida_reader.specs.Firsts.{FirstMap};
ghost use Rattle.caida_reader.specs.Entries.{entry_of};
ghost use Rattle.caida_reader.specs.Runs.{link_of, turned, joined, AreApart, AreMarked, Lists};

use crate::entry::{Entry, LINES};
use crate::firsts::First;
use crate::marks::PairFilter;
use crate::merge::{both_ends, merge};
use crate::run::Run;
use net_names::{Asn, Link, NoMemory, deal_by_number};
use std::alloc::Global;
use std::marker::Model;

/// As many pairs as a run has before they are marked. They are marked anew, among twice the words, whenever it has grown to
/// twice the length.
const LONG: usize = 4096;

/// Pairs, each with its first line. In a file whose lines rise, the pairs of lines with the lower number first rise, and
/// those of the other lines do with their ends exchanged: each is put in at once. The rising pairs are marked, so that
/// hardly one is searched for among them in vain.
#[derive(Drop)]
pub(crate) struct Runs {
    rising: Run,
    marks: PairFilter,
    turned: Run,
}

impl Model for Runs {
    ghost use Rattle.caida_reader.specs.Firsts.{FirstMap, first_map_code};
    ghost use Rattle.caida_reader.specs.Runs.{joined, all_turned, AreRuns};

    ghost Value = { FirstMap };

    ghost coded = { first_map_code };

    ghost view = { λ a. joined a.rising (all_turned a.turned) };

    ghost invariant = { λ a. AreRuns a.rising a.turned a.marks };
}

// Sets the marks of a run's pairs apart from the others' once the run is long: searches cost more than marks from there on.
fn mark_long(run: &Run, marks: &mut PairFilter) -> Result<(), NoMemory>
    requires { AreMarked run.now marks.old }
    ensures { AreMarked run.now marks.new }
{
    let len = run.as_slice().len();
    if len < LONG || !len.is_power_of_two() {
        return Ok(());
    }
    marks.mark_only(run.as_slice())
}

// Whether it is plain, without a search, that a pair doesn't stand in a run whose pairs are marked.
#[inline(always)]
fn is_new_in(run: &Run, marks: &PairFilter, lo: Asn, hi: Asn) -> bool
    requires { AreMarked run.now marks.now }
    ensures { IsTrue result → fin.get run.now (lo, hi) ≡ None }
{
    if run.is_past(lo, hi) {
        return true;
    }
    !marks.has(lo, hi)
}

// The first line of a pair of a run whose pairs are marked. A pair that isn't marked is not searched for.
fn get_marked(run: &Run, marks: &PairFilter, lo: Asn, hi: Asn) -> Option<First>
    requires { AreMarked run.now marks.now }
    ensures { result ≡ fin.get run.now (lo, hi) }
{
    if is_new_in(run, marks, lo, hi) {
        return None;
    }
    run.get(lo, hi)
}

// The links of entries whose ends are exchanged, and further ones.
fn gather_back(alloc: Global, exchanged: &[Entry], further: &[Link]) -> Result<Vec<Link>, NoMemory>
    ensures { IfOk result (λ links. links.items ≡
        map (λ e. link_of (turned (entry_of e))) exchanged.now ++ further.now) }
{
    let mut links = Vec::with_capacity(alloc, exchanged.len())?;
    'exchanged: for entry in exchanged {
        links.push_reserved(entry.turned_link());
    }
    links.extend_from_slice(further)?;
    Ok(links)
}

impl Runs {
    /// No pairs.
    pub(crate) fn new(alloc: Global) -> Runs
        ensures { result ≡ fin.empty }
    {
        Runs {
            rising: Run::new(alloc),
            marks: PairFilter::new(alloc),
            turned: Run::new(alloc),
        }
    }

    /// The first line of the pair, where it stands.
    pub(crate) fn get(&self, lo: Asn, hi: Asn) -> Option<First>
        ensures { result ≡ fin.get self.now (lo, hi) }
    {
        match get_marked(&self.rising, &self.marks, lo, hi) {
            Some(first) => Some(first),
            None => self.turned.get(hi, lo),
        }
    }

    /// Whether it is plain, without a search, that the pair doesn't stand.
    #[inline(always)]
    pub(crate) fn is_new(&self, lo: Asn, hi: Asn) -> bool
        ensures { IsTrue result → fin.get self.now (lo, hi) ≡ None }
    {
        is_new_in(&self.rising, &self.marks, lo, hi) && self.turned.is_past(hi, lo)
    }

    /// Whether `put` would put the pair in. Only time hangs on it.
    pub(crate) fn takes(&self, lo: Asn, hi: Asn) -> bool {
        self.rising.is_past(lo, hi) || self.turned.is_past(hi, lo)
    }

    /// Puts the pair in where it is above all pairs of a run, and says whether it is.
    #[inline(always)]
    pub(crate) fn put(&mut self, lo: Asn, hi: Asn, first: First) -> Result<bool, NoMemory>
        requires { fin.get self.old (lo, hi) ≡ None }
        ensures ok { IfOk result (λ put. self.new ≡ (if put then fin.insert self.old (lo, hi) first else self.old)) }
        ensures err { OnErr result (self.new ≡ self.old) }
    {
        if first.line >= LINES {
            return Ok(false);
        }
        if self.rising.is_past(lo, hi) {
            mark_long(&self.rising, &mut self.marks)?;
            self.marks.mark(lo, hi);
            self.rising.push(lo, hi, first)?;
            return Ok(true);
        }
        if self.turned.is_past(hi, lo) {
            self.turned.push(hi, lo, first)?;
            return Ok(true);
        }
        Ok(false)
    }

    /// The links of the pairs and further ones: in rising order where the further ones are links too.
    pub(crate) fn links(&self, alloc: Global, further: &[Link]) -> Result<Vec<Link>, NoMemory>
        ensures { IfOk result (λ links. (more : FirstMap) → AreApart self.now more →
            Lists further.now more → Lists links.items (joined self.now more)) }
    {
        let mut back = gather_back(alloc, self.turned.as_slice(), further)?;
        // What is dealt so is sorted up to number 1,048,575, since the exchanged pairs rise.
        deal_by_number(alloc, &mut back)?;
        back.sort_unstable_by_key(|link| both_ends(link.lo, link.hi));
        merge(alloc, self.rising.as_slice(), &back)
    }
}
