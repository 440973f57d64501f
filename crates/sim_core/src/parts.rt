//! The parts of a simulation.
ghost use Rattle.std.specs.Prelude.{◌≡◌, ◌≢◌, ◌≤◌, ℕ, true, false, Some};
ghost use Rattle.std.specs.List.{AllPairs};
ghost use Rattle.std.specs.FinMap as fin;
ghost use Rattle.leak_round.specs.Prelude.{IsWithinLimits, is_open, plan_of, round_count};
ghost use Rattle.net_names.specs.Prelude.{occurs};
ghost use Rattle.policy_kinds.specs.Prelude.{kind_policy};
ghost use Rattle.stability_laws.specs.Prelude.{policy_at};
ghost use Rattle.policy_kinds.specs.declared.kind.Kind.TheVariants.{Plain};
ghost use Rattle.sim_core.specs.Parts.{IsNamed};
ghost use Rattle.sim_core.specs.Watching.{HasWatches};
ghost use Rattle.leak_round.specs.declared.limits.TheConstants.{MOST_ROUNDS};

use crate::watching::RoundWatches;
use as_graph::Graph;
use as_places::AsPlaces;
use leak_round::Rounds;
use net_names::Addr;
use policy_kinds::Kind;
use rank_order::Ranks;
use roa_table::Vrps;
use stability_laws::Book;

/// A world, the ranks of its ASes, for each round and prefix a routing, and for each round and watched
/// address the ends of all traces. An edit takes them from one world to the next. Contracts see the
/// world, the ranks, what each AS holds, and the rows of the watches.
#[derive(Drop)]
pub struct Parts {
    pub(crate) graph: Graph,
    pub(crate) ranks: Ranks,
    pub(crate) vrps: Vrps,
    pub(crate) book: Book<Kind>,
    pub(crate) rounds: Rounds,
    // All ASes whose policy reads the states, and perhaps others.
    pub(crate) readers: AsPlaces,
    pub(crate) watched: Vec<Addr>,
    pub(crate) watches: Vec<RoundWatches>,
    ghost named: { IsNamed graph book (plan_of rounds) },
    ghost plain: { book.rest ≡ Plain },
    ghost other: { (a : ℕ) → fin.get book.named a ≢ Some Plain },
    ghost small: { IsWithinLimits (plan_of rounds) },
    ghost few: { round_count rounds ≤ MOST_ROUNDS },
    ghost closed: { is_open rounds ≡ false },
    ghost reading: { (a : ℕ) → (kind_policy (policy_at book a)).reads_state ≡ true → occurs a readers.ases ≡ true },
    ghost once: { AllPairs (λ a b. a ≢ b) watched.items },
    ghost watching: { HasWatches (round_count rounds) watched.items watches.items },
}
