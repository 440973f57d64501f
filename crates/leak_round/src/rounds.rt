//! The tables of all rounds.

ghost use Rattle.std.specs.Prelude.{◌≡◌, ◌↔◌, ℕ, ◌+◌, ◌*◌, ◌≤◌, false, IsSome, IfSome, IfOk, length, is_some};
ghost use Rattle.net_names.specs.Prelude.{PrefixValue};
ghost use Rattle.as_graph.specs.Prelude.{relation, as_count, HasNoProviderCycle, IsRank};
ghost use Rattle.rank_order.specs.Prelude.{rank_at};
ghost use Rattle.three_pass.specs.Prelude.{IsCourse, IsScratch, IsWay};
ghost use Rattle.path_pool.specs.Pool.{holds_of, limit_of};
ghost use Rattle.stability_laws.specs.Prelude.{has_prefix, prefixes_of, AreRounds, setting_in};
ghost use Rattle.route_choice.specs.Prelude.{table_at, round_routing, AreAllLive, AreByPrefix};
ghost use Rattle.leak_round.specs.Limits.{IsWithinLimits};
ghost use Rattle.leak_round.specs.Announced.{AreAnnounced, announced_uses};
ghost use Rattle.leak_round.specs.Growth.{HasRoomFor};
ghost use Rattle.leak_round.specs.Made.{AreRoundsMade, CanStand};
ghost use Rattle.leak_round.specs.OwnSeeds.{AreOwnSeeds};
ghost use Rattle.leak_round.specs.Tables.{kept_in, entry_uses, AreRoundsFull};
ghost use Rattle.leak_round.specs.declared.limits.TheConstants.{MAX_CELLS, MOST_ROUNDS};

mod commits;
mod planning;
mod seeding;
mod tidying;
mod touching;

use crate::announced::{Announced, announce_all};
use crate::building::Building;
use crate::limits::MAX_CELLS;
use crate::round::make_round;
use net_names::NoMemory;
use path_pool::PathPool;
use policy_laws::{OriginStates, RoutePolicy};
use rank_order::Ranks;
use route_choice::{Overlay, RoundTables, SeedIds, Steps};
use stability_laws::{SeedPlan, World, one_family};
use std::alloc::Global;
use std::sync::ledger::Ledger;
use three_pass::{Course, Way};

/// How many cells of a pool are live at most where an edit begins.
pub const MOST_CELLS: usize = 20_000_000;

/// The tables of all rounds of a plan of seeds, with the pool of their paths. It owns one hold of each
/// announced path.
#[derive(Drop)]
pub struct Rounds {
    pool: PathPool,
    plan: SeedPlan,
    announced: Vec<Announced>,
    // The seeds that the announcements make, prefix by prefix. They are made when a plan needs them.
    own: Vec<SeedIds>,
    tables: Vec<RoundTables>,
    // A plan is open.
    planned: bool,
    ghost announcements: { AreAnnounced pool plan announced.items },
    ghost own_seeds: { AreOwnSeeds plan announced.items own.items },
    ghost full: { AreRoundsFull pool plan tables.items },
    ghost held: { (k : ℕ) → entry_uses tables.items k + announced_uses announced.items k ≤ holds_of pool k },
    ghost closed: { planned ≡ false → (k : ℕ) → holds_of pool k ≡ entry_uses tables.items k + announced_uses announced.items k },
    ghost limits: { IsWithinLimits plan },
    ghost few: { length tables.items ≤ MOST_ROUNDS },
    ghost cells: { limit_of pool ≡ MAX_CELLS },
}

// The tables of the rounds, one after the other. They are made in an overlay for the course.
fn make_rounds<P: RoutePolicy, V: OriginStates, L: Ledger>(
    building: &Building<'_, P, V>,
    rounds: u32,
    pool: &mut PathPool,
    scratch: &mut Overlay,
    steps: &mut Steps<L>,
) -> Result<Vec<RoundTables>, NoMemory>
    requires way { IsWay P.meaning building.now.world.now building.now.way.now }
    requires scratch { IsScratch building.now.way.now.course.now scratch.old }
    requires announced { AreAnnounced pool.old building.now.plan.now building.now.announced.now }
    requires room { HasRoomFor pool.old (rounds * length (prefixes_of building.now.plan.now)) }
    ensures cost { steps.new ≤ steps.old +
        2 * as_count building.now.world.now.graph.now * length (prefixes_of building.now.plan.now) * rounds }
    ensures stable { IfOk result (λ v. AreRounds (setting_in P.meaning V.state_of building.now.world.now)
        building.now.plan.now rounds (kept_in pool.new v.items)) }
    ensures made { IfOk result (λ v. AreRoundsMade pool.old pool.new building.now.plan.now rounds v.items) }
{
    let mut tables = Vec::new(building.alloc);
    for _past in 0..rounds {
        let earlier = tables.as_slice();
        let next = make_round(building, earlier, pool, scratch, steps)?;
        tables.push(next)?;
    }
    Ok(tables)
}

// Rounds of which no plan is open.
fn closed_rounds(
    alloc: Global,
    pool: PathPool,
    plan: SeedPlan,
    announced: Vec<Announced>,
    tables: Vec<RoundTables>,
) -> Rounds
    requires { CanStand pool plan announced.items tables.items }
    ensures pool { result.pool ≡ pool }
    ensures plan { result.plan ≡ plan }
    ensures tables { result.tables.items ≡ tables.items }
    ensures closed { result.planned ≡ false }
{
    Rounds {
        pool,
        plan,
        announced,
        own: Vec::new(alloc),
        tables,
        planned: false,
    }
}

impl Rounds {
    ghost use Rattle.leak_round.specs.Built.{AreBuilt};
    ghost use Rattle.leak_round.specs.Rounds.{is_open, plan_of, pool_of, round_count, kept, announced_of, uses_of};

    /// The tables of the rounds from 1 to `rounds`, at most 4. For each round and prefix of the plan it
    /// is the one stable routing of that round's seeds: the announced paths and, from round 2 on, what
    /// each leaker of the round, unless it announces the prefix, got from a peer or a provider in the
    /// round just before (RFC 7908, section 3).
    ///
    /// The graph has no provider cycle, and the ranks are its ranks. It takes at most two steps for each
    /// AS, prefix and round, and at most one cell for each entry and each number of an announced path,
    /// which are never more than 20,000,000.
    /// Its only refusal is want of memory.
    pub fn build<P: RoutePolicy, V: OriginStates, L: Ledger>(
        alloc: Global,
        world: &World<'_, P, V>,
        ranks: &Ranks,
        plan: SeedPlan,
        rounds: u32,
        steps: &mut Steps<L>,
    ) -> Result<Rounds, NoMemory>
        requires no_cycle { HasNoProviderCycle (relation world.now.graph.now) }
        requires ranks { (a : ℕ) → IsRank (relation world.now.graph.now) a (rank_at ranks.now a) }
        requires limits { IsWithinLimits plan }
        requires rounds { rounds ≤ MOST_ROUNDS }
        ensures cost { steps.new ≤ steps.old + 2 * as_count world.now.graph.now * length (prefixes_of plan) * rounds }
        ensures built { IfOk result (AreBuilt (setting_in P.meaning V.state_of world.now) plan rounds) }
    {
        let course = Course::of(alloc, world.graph, ranks)?;
        Rounds::build_along(alloc, world, &course, plan, rounds, steps)
    }

    /// The tables of the rounds, as [`Rounds::build`] makes them, along a course of the graph that was made
    /// before. A course stands as long as its graph does, whatever the policies and the seeds are.
    pub fn build_along<P: RoutePolicy, V: OriginStates, L: Ledger>(
        alloc: Global,
        world: &World<'_, P, V>,
        course: &Course,
        plan: SeedPlan,
        rounds: u32,
        steps: &mut Steps<L>,
    ) -> Result<Rounds, NoMemory>
        requires no_cycle { HasNoProviderCycle (relation world.now.graph.now) }
        requires course { IsCourse world.now.graph.now course.now }
        requires limits { IsWithinLimits plan }
        requires rounds { rounds ≤ MOST_ROUNDS }
        ensures cost { steps.new ≤ steps.old + 2 * as_count world.now.graph.now * length (prefixes_of plan) * rounds }
        ensures built { IfOk result (AreBuilt (setting_in P.meaning V.state_of world.now) plan rounds) }
    {
        one_family::<P>();
        let mut pool = PathPool::new(alloc, MAX_CELLS);
        let announced = announce_all(alloc, &plan, &mut pool)?;
        let mut scratch = course.scratch()?;
        let way = Way::of(world, course)?;
        let building = Building {
            alloc,
            world,
            way: &way,
            plan: &plan,
            announced: announced.as_slice(),
        };
        let tables = make_rounds(&building, rounds, &mut pool, &mut scratch, steps)?;
        Ok(closed_rounds(alloc, pool, plan, announced, tables))
    }

    /// The tables of a round, one for each prefix of the plan; `None` exactly where there is no such
    /// round. Rounds are numbered from 1.
    pub fn round(&self, round: u32) -> Option<&RoundTables>
        ensures there { IsSome result ↔ ((1 ≤ round) × (round ≤ round_count self.now)) }
        ensures routing { IfSome result (λ t. (prefix : PrefixValue) (a : ℕ) →
            round_routing (pool_of self.now) t.now prefix a ≡ kept self.now round prefix a) }
        ensures prefixes { IfSome result (λ t. (prefix : PrefixValue) →
            is_some (table_at t.now prefix) ≡ has_prefix (plan_of self.now) prefix) }
        ensures by_prefix { IfSome result (λ t. AreByPrefix t.now) }
        ensures live { IfSome result (λ t. AreAllLive (pool_of self.now) t.now) }
    {
        if round == 0 {
            return None;
        }
        self.tables.get(round as usize - 1)
    }

    /// How many rounds there are, at most 4.
    pub fn count(&self) -> u32
        ensures value { result ≡ round_count self.now }
        ensures few { result ≤ MOST_ROUNDS }
    {
        self.tables.len() as u32
    }

    /// The pool in which the paths of all tables stand. While no plan is open each of its outside holds
    /// is that of an entry or of an announced path.
    pub fn pool(&self) -> &PathPool
        ensures value { result.now ≡ pool_of self.now }
        ensures held { is_open self.now ≡ false → (k : ℕ) → holds_of result.now k ≡ uses_of self.now k }
        ensures announced { AreAnnounced result.now (plan_of self.now) (announced_of self.now) }
    {
        &self.pool
    }

    /// Who announces what, and who leaks in which round.
    pub fn seed_plan(&self) -> &SeedPlan
        ensures { result.now ≡ plan_of self.now }
    {
        &self.plan
    }
}
