//! The pairs of the lines so far, each with its first line.
ghost use Rattle.std.specs.Prelude.{◌≡◌, ◌<◌, All, Ok, Err, IfOk, OnOk, OnErr, unwrap_or, if◌then◌else◌};
ghost use Rattle.std.specs.FinMap as fin;
ghost use Rattle.caida_reader.specs.Says.{IsRising};
ghost use Rattle.caida_reader.specs.Firsts.{FirstMap, with_first, Judges, relations};
ghost use Rattle.net_names.specs.contracts.routes.Rel.{the_type};
ghost use denote.Enum.Bare.{sameb};
ghost use Rattle.caida_reader.specs.Runs.{AreApart, Puts, Lists};

use crate::RelError;
use crate::line::Line;
use crate::others::Others;
use crate::runs::Runs;
use net_names::{Asn, Link, Links, MOST_LINKS, NoMemory, Rel};
use std::alloc::Global;
use std::marker::Model;

/// What the first line of a pair says, and its number.
#[derive(Clone, Copy, Debug, PartialEq, Eq)]
pub(crate) struct First {
    pub(crate) rel: Rel,
    pub(crate) line: u64,
}

/// The pairs of the lines so far, each with its first line: in runs while they come in the order of the lines, and else
/// among the others.
#[derive(Drop)]
pub(crate) struct Firsts {
    runs: Runs,
    others: Others,
    count: usize,
}

impl Model for Firsts {
    ghost use Rattle.caida_reader.specs.Firsts.{FirstMap, first_map_code};
    ghost use Rattle.caida_reader.specs.Runs.{joined, AreFirsts};

    ghost Value = { FirstMap };

    ghost coded = { first_map_code };

    ghost view = { λ a. joined a.runs a.others };

    ghost invariant = { λ a. AreFirsts a.runs a.others a.count };
}

// Puts a pair in that is looked for in all parts, unless it stands: then its first line is answered.
#[inline(never)]
fn find_and_put(
    runs: &mut Runs,
    others: &mut Others,
    lo: Asn,
    hi: Asn,
    given: First,
) -> Result<Option<First>, NoMemory>
    requires { AreApart runs.old others.old }
    ensures ok { IfOk result (Puts runs.old others.old (lo, hi) given runs.new others.new) }
    ensures err { OnErr result ((runs.new ≡ runs.old) × (others.new ≡ others.old)) }
{
    match runs.get(lo, hi) {
        Some(first) => return Ok(Some(first)),
        None => {}
    }
    if !runs.takes(lo, hi) {
        return others.add(lo, hi, given);
    }
    match others.get(lo, hi) {
        Some(first) => return Ok(Some(first)),
        None => {}
    }
    if runs.put(lo, hi, given)? {
        return Ok(None);
    }
    others.add(lo, hi, given)
}

// Puts a pair in, unless it stands: then its first line is answered. In a file whose lines rise nearly all pairs are put in
// at once.
#[inline(always)]
fn put(
    runs: &mut Runs,
    others: &mut Others,
    lo: Asn,
    hi: Asn,
    given: First,
) -> Result<Option<First>, NoMemory>
    requires { AreApart runs.old others.old }
    ensures ok { IfOk result (Puts runs.old others.old (lo, hi) given runs.new others.new) }
    ensures err { OnErr result ((runs.new ≡ runs.old) × (others.new ≡ others.old)) }
{
    if others.is_empty() && runs.is_new(lo, hi) && runs.put(lo, hi, given)? {
        return Ok(None);
    }
    find_and_put(runs, others, lo, hi, given)
}

impl Firsts {
    pub(crate) fn new(alloc: Global) -> Firsts
        ensures { result ≡ fin.empty }
    {
        Firsts {
            runs: Runs::new(alloc),
            others: Others::new(alloc),
            count: 0,
        }
    }

    // The first line of the pair: the one that stands, or else this one, which stands from now on.
    fn first(&mut self, lo: Asn, hi: Asn, given: First) -> Result<First, NoMemory>
        requires lower { lo < hi }
        requires room { fin.len self.old < MOST_LINKS }
        ensures value { IfOk result (λ first. first ≡ unwrap_or (fin.get self.old (lo, hi)) given) }
        ensures after { OnOk result (self.new ≡ with_first self.old (lo, hi) given) }
    {
        match put(&mut self.runs, &mut self.others, lo, hi, given)? {
            Some(first) => Ok(first),
            None => {
                self.count += 1;
                Ok(given)
            }
        }
    }
}

// A link whose pair stands: it is a conflict where the first line gives another relation.
fn compare(first: First, given: First) -> Result<(), RelError>
    ensures { result ≡
        (if sameb the_type first.rel given.rel then Ok tt else Err (RelError.Conflict given.line first.line)) }
{
    if first.rel == given.rel {
        return Ok(());
    }
    Err(RelError::Conflict {
        line: given.line,
        earlier: first.line,
    })
}

impl Firsts {
    // The first line of the pair, where it stands.
    fn get(&self, lo: Asn, hi: Asn) -> Option<First>
        ensures { result ≡ fin.get self.now (lo, hi) }
    {
        match self.runs.get(lo, hi) {
            Some(first) => Some(first),
            None => self.others.get(lo, hi),
        }
    }

    // Judges a link where no further pair may stand.
    fn judge_full(&self, lo: Asn, hi: Asn, given: First) -> Result<(), RelError>
        requires { fin.len self.now ≡ MOST_LINKS }
        ensures { Judges self.now self.now given.line (Line.Link lo hi given.rel) result }
    {
        match self.get(lo, hi) {
            Some(first) => compare(first, given),
            None => Err(RelError::TooManyLinks { line: given.line }),
        }
    }

    // Judges a link, and counts it in.
    fn judge_link(&mut self, lo: Asn, hi: Asn, given: First) -> Result<(), RelError>
        requires { lo < hi }
        ensures { Judges self.old self.new given.line (Line.Link lo hi given.rel) result }
    {
        if self.count == MOST_LINKS {
            return self.judge_full(lo, hi, given);
        }
        let first = self.first(lo, hi, given)?;
        compare(first, given)
    }

    /// Judges the line of this number, and counts its link in.
    pub(crate) fn judge(&mut self, line: u64, said: Line) -> Result<(), RelError>
        requires { IsRising said }
        ensures { Judges self.old self.new line said result }
    {
        match said {
            Line::Skipped => Ok(()),
            Line::Unreadable => Err(RelError::Unreadable { line }),
            Line::SelfLink => Err(RelError::SelfLink { line }),
            Line::Link { lo, hi, rel } => self.judge_link(lo, hi, First { rel, line }),
        }
    }
}

// The links of a list, put in one after the other.
fn put_all(alloc: Global, gathered: &[Link]) -> Result<Links, NoMemory>
    requires { All (λ l. l.lo < l.hi) gathered.now }
    ensures { IfOk result (λ links. (pairs : FirstMap) → Lists gathered.now pairs → links ≡ relations pairs) }
{
    let mut links = Links::new(alloc);
    'links: for link in gathered {
        if links.set(link.lo, link.hi, link.rel).is_err() {
            return Err(NoMemory);
        }
    }
    Ok(links)
}

impl Firsts {
    // The links of the pairs, in rising order.
    fn gather(&self, alloc: Global) -> Result<Vec<Link>, NoMemory>
        ensures all { IfOk result (λ links. Lists links.items self.now) }
        ensures lower { IfOk result (λ links. All (λ l. l.lo < l.hi) links.items) }
    {
        let others = self.others.links(alloc)?;
        self.runs.links(alloc, &others)
    }

    /// The links of the pairs.
    pub(crate) fn links(&self, alloc: Global) -> Result<Links, NoMemory>
        ensures { IfOk result (λ links. links ≡ relations self.now) }
    {
        match Links::from_rising(self.gather(alloc)?) {
            Ok(links) => Ok(links),
            Err(gathered) => put_all(alloc, &gathered),
        }
    }
}
