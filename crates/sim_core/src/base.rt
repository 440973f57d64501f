//! A world without what is kept of it.
ghost use Rattle.std.specs.Prelude.{◌≡◌, ◌≢◌, ◌≤◌, ℕ, Some};
ghost use Rattle.std.specs.List.{AllPairs};
ghost use Rattle.std.specs.FinMap as fin;
ghost use Rattle.leak_round.specs.Prelude.{IsWithinLimits};
ghost use Rattle.policy_kinds.specs.declared.kind.Kind.TheVariants.{Plain};
ghost use Rattle.sim_core.specs.Parts.{IsNamed};
ghost use Rattle.leak_round.specs.declared.limits.TheConstants.{MOST_ROUNDS};

use as_graph::Graph;
use net_names::Addr;
use policy_kinds::Kind;
use roa_table::Vrps;
use stability_laws::{Book, SeedPlan};

/// A world without what is kept of it: its links and ASes, its payloads, its policies, what is announced
/// and leaked, how many rounds there are, and which addresses are watched. Contracts see the world.
#[derive(Drop)]
pub struct Base {
    pub(crate) graph: Graph,
    pub(crate) vrps: Vrps,
    pub(crate) book: Book<Kind>,
    pub(crate) plan: SeedPlan,
    pub(crate) rounds: u32,
    pub(crate) watched: Vec<Addr>,
    ghost named: { IsNamed graph book plan },
    ghost plain: { book.rest ≡ Plain },
    ghost other: { (a : ℕ) → fin.get book.named a ≢ Some Plain },
    ghost small: { IsWithinLimits plan },
    ghost few: { rounds ≤ MOST_ROUNDS },
    ghost once: { AllPairs (λ a b. a ≢ b) watched.items },
}
