//! Pairs that come in rising order.
ghost use Rattle.std.specs.Prelude.{◌≡◌, ◌<◌, ◌-◌, IsTrue, OnOk, OnErr, length, map};
ghost use Rattle.std.specs.FinMap as fin;
ghost use Rattle.std.specs.List.{HoldsAt};
ghost use Rattle.std.specs.List.Sorted.{IsSearchInRange, IsBinarySearchResult};
ghost use Rattle.std.specs.declared.cmp.Ordering.TheVariants.{Less};
ghost use Rattle.net_names.specs.Prelude.{pair_cmp};
ghost use Rattle.caida_reader.specs.Entries.{entry_of};
ghost use Rattle.caida_reader.specs.Runs.{IsPast};

use crate::entry::{Entry, LINES};
use crate::firsts::First;
use net_names::{Asn, NoMemory};
use std::alloc::Global;
use std::marker::Model;

/// Pairs, each with its first line. A pair above all others is put in at once.
#[derive(Drop)]
pub(crate) struct Run {
    entries: Vec<Entry>,
}

impl Model for Run {
    ghost use Rattle.std.specs.Prelude.{T, map};
    ghost use Rattle.std.specs.FinMap as fin;
    ghost use Rattle.net_names.specs.Prelude.{pair_cmp};
    ghost use Rattle.caida_reader.specs.Firsts.{FirstMap, first_map_code};
    ghost use Rattle.caida_reader.specs.Entries.{entry_of};

    ghost Value = { FirstMap };

    ghost coded = { first_map_code };

    ghost view = { λ a. fin.from_sorted (map entry_of a.entries.items) };

    ghost invariant = { λ a. T (fin.is_sorted pair_cmp (map entry_of a.entries.items)) };
}

// Whether a pair is above the last one, where there is one.
fn is_past_last(entries: &[Entry], a: Asn, b: Asn) -> bool
    ensures { IsTrue result → 0 < length entries.now →
        HoldsAt (λ e. pair_cmp (e.a, e.b) (a, b) ≡ Less) entries.now (length entries.now - 1) }
{
    match entries.last() {
        Some(last) => (last.a, last.b) < (a, b),
        None => true,
    }
}

// Where a pair stands, or where it would have to be put in.
fn search(entries: &[Entry], a: Asn, b: Asn) -> Result<usize, usize>
    ensures bound { IsSearchInRange result (length entries.now) }
    ensures position { IsBinarySearchResult (λ e. pair_cmp (e.a, e.b) (a, b)) entries.now result }
{
    entries.binary_search_by_key(&(a, b), |entry| (entry.a, entry.b))
}

impl Run {
    /// No pairs.
    pub(crate) fn new(alloc: Global) -> Run
        ensures { result ≡ fin.empty }
    {
        Run {
            entries: Vec::new(alloc),
        }
    }

    /// The pairs in rising order, each with its first line.
    pub(crate) fn as_slice(&self) -> &[Entry]
        ensures { map entry_of result.now ≡ fin.entries self.now }
    {
        self.entries.as_slice()
    }

    /// Whether a pair is above all.
    #[inline(always)]
    pub(crate) fn is_past(&self, a: Asn, b: Asn) -> bool
        ensures { IsTrue result → IsPast self.now (a, b) }
    {
        is_past_last(self.entries.as_slice(), a, b)
    }

    /// The first line of a pair.
    pub(crate) fn get(&self, a: Asn, b: Asn) -> Option<First>
        ensures { result ≡ fin.get self.now (a, b) }
    {
        if self.is_past(a, b) {
            return None;
        }
        match search(self.entries.as_slice(), a, b) {
            Ok(at) => Some(self.entries[at].first()),
            Err(_) => None,
        }
    }

    /// Puts in a pair that is above all, with a line that fits into an entry.
    #[inline(always)]
    pub(crate) fn push(&mut self, a: Asn, b: Asn, first: First) -> Result<(), NoMemory>
        requires past { IsPast self.old (a, b) }
        requires fits { first.line < LINES }
        ensures ok { OnOk result (self.new ≡ fin.insert self.old (a, b) first) }
        ensures err { OnErr result (self.new ≡ self.old) }
    {
        let entry = Entry::new(a, b, first);
        self.entries.push(entry)?;
        Ok(())
    }
}
