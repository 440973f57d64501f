//! Links that come in any order.
ghost use Rattle.std.specs.Prelude.{◌≡◌, ◌<◌, ◌≤◌, IfOk, OnOk};
ghost use Rattle.std.specs.FinMap as fin;
ghost use Rattle.net_names.specs.Prelude.{map_of, AreLinks};
ghost use Rattle.topo_gen.specs.Drawn.{joined};

use net_names::{Asn, Link, Links, MOST_LINKS, NoMemory, Rel};
use std::alloc::Global;
use std::collections::BTreeMap;
use std::marker::Model;

/// The linked pairs so far, which may come in any order: at the pair of a lower and a higher AS stands what the
/// higher one is to the lower one.
#[derive(Drop)]
pub(crate) struct Pairs {
    entries: BTreeMap<(Asn, Asn), Rel>,
}

impl Model for Pairs {
    ghost use Rattle.std.specs.FinMap as fin;
    ghost use Rattle.net_names.specs.Prelude.{LinkMap, link_map_code};
    ghost use Rattle.topo_gen.specs.Rising.{AreRising};

    ghost Value = { LinkMap };

    ghost coded = { link_map_code };

    ghost view = { λ p. fin.from_entries p.entries.entries };

    ghost invariant = { λ p. AreRising (fin.from_entries p.entries.entries) };
}

impl Pairs {
    /// No pairs.
    pub(crate) fn new(alloc: Global) -> Pairs
        ensures { result ≡ fin.empty }
    {
        Pairs {
            entries: BTreeMap::new(alloc),
        }
    }

    /// Joins the pair, unless it has a link: `hi` becomes this to `lo`.
    pub(crate) fn join(&mut self, lo: Asn, hi: Asn, rel: Rel) -> Result<(), NoMemory>
        requires { lo < hi }
        ensures { OnOk result (self.new ≡ joined lo hi rel self.old) }
    {
        if self.entries.contains_key(&(lo, hi)) {
            return Ok(());
        }
        self.entries.insert((lo, hi), rel)?;
        Ok(())
    }

    // The links of the pairs, in their rising order.
    fn list(&self, alloc: Global) -> Result<Vec<Link>, NoMemory>
        requires { fin.len self.now ≤ MOST_LINKS }
        ensures all { IfOk result (λ links. map_of links.items ≡ self.now) }
        ensures rising { IfOk result (λ links. AreLinks links.items) }
    {
        let mut links = Vec::new(alloc);
        'pairs: for (pair, rel) in self.entries.iter() {
            let link = Link {
                lo: pair.0,
                hi: pair.1,
                rel: *rel,
            };
            links.push(link)?;
        }
        Ok(links)
    }

    /// The links of the pairs, put in order once.
    pub(crate) fn in_order(&self, alloc: Global) -> Result<Links, NoMemory>
        requires { fin.len self.now ≤ MOST_LINKS }
        ensures { IfOk result (λ links. links ≡ self.now) }
    {
        let Ok(links) = Links::from_rising(self.list(alloc)?) else {
            unreachable!();
        };
        Ok(links)
    }
}
