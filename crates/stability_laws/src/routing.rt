//! What ASes hold, and what they put in by themselves.
ghost use Rattle.std.specs.Prelude.{◌≡◌, ◌≤◌, ℕ, None, length, option_copied, OnOk, OnErr, IfSome, IfNone};
ghost use Rattle.std.specs.FinMap as map;
ghost use Rattle.as_graph.specs.Prelude.{IsAbove};
ghost use Rattle.stability_laws.specs.Short.{HasShortPaths};
ghost use Rattle.stability_laws.specs.Answers.{IsNextHolder};

use crate::entry::{Entry, Seed};
use net_names::{Asn, MOST_IN_PATH, NoMemory};
use std::alloc::Global;
use std::collections::BTreeMap;
use std::marker::Model;
use std::ops::Bound;

/// What each AS holds, for one prefix and one round. Contracts see a finite map; each path has at most
/// `MOST_IN_PATH` numbers.
#[derive(Drop)]
pub struct Routing {
    entries: BTreeMap<Asn, Entry>,
}

impl Model for Routing {
    ghost use Rattle.std.specs.Ordering.{nat_cmp};
    ghost use Rattle.std.specs.Coded.{coded_ℕ};
    ghost use Rattle.std.specs.FinMap as map;
    ghost use Rattle.stability_laws.specs.declared.entry.Entry.{Entry as AnEntry};
    ghost use Rattle.stability_laws.specs.contracts.entry.Entry as entry;

    ghost Value = { map.FinMap nat_cmp AnEntry };

    ghost coded = { map.code coded_ℕ entry.the_row.coded };

    ghost use Rattle.stability_laws.specs.Short.{HasShortPaths};

    ghost view = { λ r. map.from_entries r.entries.entries };

    ghost invariant = { λ r. HasShortPaths (map.from_entries r.entries.entries) };
}

impl Routing {
    /// The routing in which no AS holds anything.
    pub fn new(alloc: Global) -> Routing
        ensures { result ≡ map.empty }
    {
        Routing {
            entries: BTreeMap::new(alloc),
        }
    }

    /// Makes the AS hold this entry, in place of what it held. `Err` where there is not enough memory;
    /// then the routing stays as it was.
    pub fn put(&mut self, asn: Asn, entry: Entry) -> Result<(), NoMemory>
        requires { length entry.path ≤ MOST_IN_PATH }
        ensures ok { OnOk result (self.new ≡ map.insert self.old asn entry) }
        ensures err { OnErr result (self.new ≡ self.old) }
    {
        self.entries.insert(asn, entry)?;
        Ok(())
    }

    /// What the AS holds.
    pub fn get(&self, asn: Asn) -> Option<&Entry>
        ensures value { option_copied result ≡ map.get self.now asn }
        ensures short { HasShortPaths self.now }
    {
        self.entries.get(&asn)
    }

    /// The least AS above `after` that holds something, or the least of all where there is no bound;
    /// `None` exactly where there is none.
    pub fn next(&self, after: Option<Asn>) -> Option<Asn>
        ensures found { IfSome result (IsNextHolder (map.get self.now) after) }
        ensures none { IfNone result ((k : ℕ) → IsAbove after k → map.get self.now k ≡ None) }
    {
        let start = match after {
            Some(asn) => Bound::Excluded(asn),
            None => Bound::Unbounded,
        };
        match self.entries.range((start, Bound::Unbounded)).next() {
            Some((asn, _)) => Some(*asn),
            None => None,
        }
    }

    /// Makes the AS hold nothing. It takes no memory.
    pub fn clear(&mut self, asn: Asn)
        ensures { self.new ≡ map.remove self.old asn }
    {
        let _ = self.entries.remove(&asn);
    }
}

/// What ASes put in by themselves, for one prefix and one round. Contracts see a finite map.
#[derive(Drop)]
pub struct Seeds {
    seeds: BTreeMap<Asn, Seed>,
}

impl Model for Seeds {
    ghost use Rattle.std.specs.Ordering.{nat_cmp};
    ghost use Rattle.std.specs.Coded.{coded_ℕ};
    ghost use Rattle.std.specs.FinMap as map;
    ghost use Rattle.stability_laws.specs.declared.entry.Seed.{Seed as ASeed};
    ghost use Rattle.stability_laws.specs.contracts.entry.Seed as seed;

    ghost Value = { map.FinMap nat_cmp ASeed };

    ghost coded = { map.code coded_ℕ seed.the_row.coded };

    ghost view = { λ s. map.from_entries s.seeds.entries };
}

impl Seeds {
    /// No seeds.
    pub fn new(alloc: Global) -> Seeds
        ensures { result ≡ map.empty }
    {
        Seeds {
            seeds: BTreeMap::new(alloc),
        }
    }

    /// Makes the AS put in this seed, in place of what it put in. `Err` where there is not enough
    /// memory; then the seeds stay as they were.
    pub fn put(&mut self, asn: Asn, seed: Seed) -> Result<(), NoMemory>
        requires { length seed.path ≤ MOST_IN_PATH }
        ensures ok { OnOk result (self.new ≡ map.insert self.old asn seed) }
        ensures err { OnErr result (self.new ≡ self.old) }
    {
        self.seeds.insert(asn, seed)?;
        Ok(())
    }

    /// What the AS puts in.
    pub fn get(&self, asn: Asn) -> Option<&Seed>
        ensures { option_copied result ≡ map.get self.now asn }
    {
        self.seeds.get(&asn)
    }
}
