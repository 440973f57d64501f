//! The numbers on the paths of seeds, listed where many ASes ask.

use net_names::Asn;
use path_pool::PathPool;
use route_choice::{NamedSet, SeedIds, named_by};
use std::alloc::Global;

/// So many ASes ask before the numbers are listed.
const UNLISTED: usize = 32;

/// The numbers on the paths of some seeds. They are listed once more than a few ASes ask, so that a small
/// edit lists none.
#[derive(Drop)]
pub(crate) struct Named {
    alloc: Global,
    // How many asked before the numbers were listed.
    asked: usize,
    // The numbers, once they are listed.
    pub listed: Option<Box<NamedSet>>,
}

impl Named {
    ghost use Rattle.std.specs.Prelude.{◌≡◌, ℕ, false, Option};
    ghost use Rattle.stability_laws.specs.declared.entry.Seed.{Seed as ASeed};
    ghost use Rattle.route_choice.specs.Prelude.{AreSeedsLive, seeds_of};
    ghost use Rattle.dirty_recompute.specs.Named.{HasAll, IsOnNoPath};

    /// Nobody has asked.
    pub(crate) fn new(alloc: Global) -> Named
        ensures { (seeds : ℕ → Option ASeed) → HasAll result seeds }
    {
        Named {
            alloc,
            asked: 0,
            listed: None,
        }
    }

    // Lists the numbers. Where memory is wanting, it counts anew. The set has a function of its own, since who has one
    // among its locals clears it at each call.
    #[cold]
    #[inline(never)]
    fn list(&mut self, seeds: &SeedIds, pool: &PathPool)
        requires live { AreSeedsLive pool.now seeds.now }
        requires all { HasAll self.old (seeds_of pool.now seeds.now) }
        ensures { HasAll self.new (seeds_of pool.now seeds.now) }
    {
        self.asked = 0;
        let Ok(named) = named_by(self.alloc, seeds, pool) else {
            return;
        };
        if let Ok(listed) = Box::new(self.alloc, named) {
            self.listed = Some(listed);
        }
    }

    // Counts who asks, and lists the numbers once there are more than a few.
    fn count(&mut self, seeds: &SeedIds, pool: &PathPool)
        requires live { AreSeedsLive pool.now seeds.now }
        requires all { HasAll self.old (seeds_of pool.now seeds.now) }
        ensures { HasAll self.new (seeds_of pool.now seeds.now) }
    {
        if self.listed.is_some() {
            return;
        }
        if self.asked < UNLISTED {
            self.asked += 1;
            return;
        }
        self.list(seeds, pool);
    }

    /// Whether an AS may stand on the path of a seed. The first that ask may.
    pub(crate) fn may_have(&mut self, seeds: &SeedIds, pool: &PathPool, asn: Asn) -> bool
        requires live { AreSeedsLive pool.now seeds.now }
        requires all { HasAll self.old (seeds_of pool.now seeds.now) }
        ensures all { HasAll self.new (seeds_of pool.now seeds.now) }
        ensures out { result ≡ false → IsOnNoPath (seeds_of pool.now seeds.now) asn }
    {
        self.count(seeds, pool);
        match &self.listed {
            Some(listed) => listed.has(asn),
            None => true,
        }
    }
}
