//! Whether the ends of an edited link hold what is right still, in all rounds.

ghost use Rattle.std.specs.Prelude.{◌≡◌, ℕ, true, false, IsTrue, OnOk};
ghost use Rattle.net_names.specs.Prelude.{PrefixValue};
ghost use Rattle.leak_round.specs.Rounds.{kept};
ghost use Rattle.leak_round.specs.Staying.{IsSettled, StaysRightIn, StaysRightInRounds};
ghost use Rattle.leak_round.specs.Touched.{touches};

use crate::rounds::Rounds;
use crate::staying::stays_right;
use crate::touched::Touched;
use net_names::{Asn, NoMemory, Prefix};
use policy_laws::{OriginStates, RoutePolicy};
use route_choice::{PrefixWorld, SeedIds};
use stability_laws::World;

// Whether an AS that was right in a round before its link with another AS was edited is right there still. The seeds
// are not looked at.
fn stays_in_round<P: RoutePolicy, V: OriginStates>(
    world: &World<'_, P, V>,
    rounds: &Rounds,
    seeds: &SeedIds,
    round: u32,
    prefix: Prefix,
    asn: Asn,
    end: Asn,
) -> bool
    ensures { IsTrue result →
        StaysRightIn P.meaning V.state_of world.now prefix (kept rounds.now round prefix) asn end }
{
    let pool = rounds.pool();
    let Some(tables) = rounds.round(round) else {
        return false;
    };
    let Some(table) = tables.table(prefix) else {
        return false;
    };
    let at = PrefixWorld {
        graph: world.graph,
        book: world.book,
        states: world.states,
        seeds,
        table,
    };
    stays_right(&at, pool, asn, end)
}

// Whether an AS that was right in each round before its link with another AS was edited is right in each round still.
// The seeds are not looked at.
fn stays_in_rounds<P: RoutePolicy, V: OriginStates>(
    world: &World<'_, P, V>,
    rounds: &Rounds,
    seeds: &SeedIds,
    prefix: Prefix,
    asn: Asn,
    end: Asn,
) -> bool
    ensures { IsTrue result → StaysRightInRounds P.meaning V.state_of world.now rounds.now prefix asn end }
{
    for past in 0..rounds.count() {
        if !stays_in_round(world, rounds, seeds, past + 1, prefix, asn, end) {
            return false;
        }
    }
    true
}

// Touches an end of an edited link for a prefix, unless it is right there in each round still. The seeds are not
// looked at.
pub fn touch_end<P: RoutePolicy, V: OriginStates>(
    touched: &mut Touched,
    world: &World<'_, P, V>,
    rounds: &Rounds,
    seeds: &SeedIds,
    prefix: Prefix,
    asn: Asn,
    end: Asn,
) -> Result<(), NoMemory>
    ensures this { OnOk result (IsSettled P.meaning V.state_of world.now rounds.now touched.new prefix asn end) }
    ensures more { (p : PrefixValue) (a : ℕ) → touches touched.old p a ≡ true → touches touched.new p a ≡ true }
    ensures only { (p : PrefixValue) (a : ℕ) → touches touched.new p a ≡ true → touches touched.old p a ≡ false →
        a ≡ asn }
{
    if world.graph.has(asn) && stays_in_rounds(world, rounds, seeds, prefix, asn, end) {
        return Ok(());
    }
    touched.add(prefix, asn)
}
