//! Pairs that come in any order.
ghost use Rattle.std.specs.Prelude.{◌≡◌, ℕ, IsTrue, None, IfOk, OnOk, OnErr};
ghost use Rattle.std.specs.FinMap as fin;
ghost use Rattle.caida_reader.specs.Firsts.{with_first};
ghost use Rattle.caida_reader.specs.Runs.{Lists};

use crate::firsts::First;
use net_names::{Asn, Link, NoMemory};
use std::alloc::Global;
use std::collections::BTreeMap;
use std::marker::Model;

/// Pairs, each with its first line.
#[derive(Drop)]
pub(crate) struct Others {
    entries: BTreeMap<(Asn, Asn), First>,
}

impl Model for Others {
    ghost use Rattle.std.specs.FinMap as fin;
    ghost use Rattle.caida_reader.specs.Firsts.{FirstMap, first_map_code};

    ghost Value = { FirstMap };

    ghost coded = { first_map_code };

    ghost view = { λ a. fin.from_entries a.entries.entries };
}

impl Others {
    /// No pairs.
    pub(crate) fn new(alloc: Global) -> Others
        ensures { result ≡ fin.empty }
    {
        Others {
            entries: BTreeMap::new(alloc),
        }
    }

    /// Whether there is no pair.
    #[inline(always)]
    pub(crate) fn is_empty(&self) -> bool
        ensures { IsTrue result → (pair : ℕ × ℕ) → fin.get self.now pair ≡ None }
    {
        self.entries.is_empty()
    }

    /// The first line of the pair, where it stands.
    pub(crate) fn get(&self, lo: Asn, hi: Asn) -> Option<First>
        ensures { result ≡ fin.get self.now (lo, hi) }
    {
        self.entries.get(&(lo, hi)).copied()
    }

    /// Puts the pair in, unless it stands: then that is answered which stands.
    pub(crate) fn add(&mut self, lo: Asn, hi: Asn, given: First) -> Result<Option<First>, NoMemory>
        ensures value { IfOk result (λ first. first ≡ fin.get self.old (lo, hi)) }
        ensures after { OnOk result (self.new ≡ with_first self.old (lo, hi) given) }
        ensures err { OnErr result (self.new ≡ self.old) }
    {
        match self.entries.insert((lo, hi), given)? {
            None => Ok(None),
            Some(first) => {
                // The pair stands, so its first line is put back.
                let _ = self.entries.insert((lo, hi), first);
                Ok(Some(first))
            }
        }
    }

    /// The links of the pairs.
    pub(crate) fn links(&self, alloc: Global) -> Result<Vec<Link>, NoMemory>
        ensures { IfOk result (λ links. Lists links.items self.now) }
    {
        let mut links = Vec::new(alloc);
        'pairs: for (pair, first) in self.entries.iter() {
            let link = Link {
                lo: pair.0,
                hi: pair.1,
                rel: first.rel,
            };
            links.push(link)?;
        }
        Ok(links)
    }
}
