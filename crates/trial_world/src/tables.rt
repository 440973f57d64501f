//! The tables of a trial, with their watch.
ghost use Rattle.std.specs.Prelude.{◌≡◌, ◌<◌, ◌≤◌, true, false, IfOk, OnOk, OnErr};
ghost use Rattle.as_graph.specs.Prelude.{HasNoProviderCycle, as_count, relation};
ghost use Rattle.data_trace.specs.Prelude.{addr_of, rows_of, spare_of};
ghost use Rattle.leak_round.specs.Prelude.{IsWithinLimits, is_open, kept, pool_of};
ghost use Rattle.leak_round.specs.declared.limits.TheConstants.{MOST_ROUNDS};
ghost use Rattle.leak_round.specs.declared.rounds.TheConstants.{MOST_CELLS};
ghost use Rattle.path_pool.specs.Pool.{live_count};
ghost use Rattle.sim_core.specs.Prelude.{AreRoundsOf, GoesOnInside};
ghost use Rattle.three_pass.specs.Prelude.{IsCourse};
ghost use Rattle.trial_world.specs.Fixed.{IsFixed};
ghost use Rattle.trial_world.specs.Tables.{AreLineRounds, AreLineRows, AreRowsBut, AreTablesBefore, AreTablesIn, IsSeen, StayTables};

use crate::fixed::Fixed;
use crate::touching::touched_by;
use as_graph::links_are_sound;
use data_trace::{Differing, Watch};
use dirty_recompute::PlannedRanks;
use leak_round::{MOST_CELLS, Rounds};
use net_names::{Asn, NoMemory};
use origin_validation::KnownStates;
use path_pool::PathPool;
use policy_kinds::Kind;
use route_choice::{RoundTables, Steps};
use stability_laws::{Book, SeedPlan, World, paths_go_on, plans_are_sound, right_follows};
use std::alloc::Global;
use std::marker::Brand;
use std::sync::ledger::{Blank, Ledger};
use three_pass::Course;

// Where at most so many ASes change their policy the tables are edited, and not made anew.
const FEW: usize = 4;

// So they are where at most one AS of so many does. An edit costs 25 microseconds for each AS that changes, and from one
// trial to the next twice the adopters change. Tables made anew cost 27 milliseconds over 75,000 ASes. The two meet at
// some 1,000 changes, which is one AS of 75.
const ONE_OF: usize = 64;

/// The tables of a line's rounds in the world of a trial, and the watch for the line's address in its round.
#[derive(Drop)]
pub struct LineTables {
    pub(crate) rounds: Rounds,
    pub(crate) watch: Watch,
}

// The tables of the rounds of a plan, of which there are so many, along a course that was made before.
fn rounds_of<L: Ledger>(
    alloc: Global,
    world: &World<'_, Kind, KnownStates<'_>>,
    course: &Course,
    plan: SeedPlan,
    count: u32,
    blank: Blank,
) -> Result<Rounds, NoMemory>
    requires ledger { (blank.name ≡ L.name) × (blank.parts ≡ L.parts) × (0 < L.parts) }
    requires no_cycle { HasNoProviderCycle (relation world.now.graph.now) }
    requires course { IsCourse world.now.graph.now course.now }
    requires small { IsWithinLimits plan }
    requires few { count ≤ MOST_ROUNDS }
    ensures rounds { IfOk result
        (AreRoundsOf world.now.graph.now world.now.states.now.payloads world.now.book.now plan count) }
    ensures closed { IfOk result (λ rounds. is_open rounds ≡ false) }
{
    let mut steps = Steps::<L>::new(blank);
    let rounds = Rounds::build_along(alloc, world, course, plan, count, &mut steps)?;
    Ok(rounds)
}

// What a watch of the line sees: the tables of its round, the pool of their paths, and the whole plan.
#[derive(Drop)]
struct Seen<'a> {
    tables: &'a RoundTables,
    pool: &'a PathPool,
    plan: &'a SeedPlan,
}

// What a watch of the line sees of the rounds.
fn seen_in<'a>(fixed: &'a Fixed<'_>, rounds: &'a Rounds) -> Seen<'a>
    requires fixed { IsFixed fixed.now }
    requires line { AreLineRounds fixed.now rounds.now }
    ensures { IsSeen fixed.now rounds.now result }
{
    let Some(tables) = rounds.round(fixed.round) else {
        unreachable!();
    };
    let (pool, plan) = (rounds.pool(), fixed.base.plan());
    Seen { tables, pool, plan }
}

// The watch of the rounds for the line's address in its round.
fn watch_of(fixed: &Fixed<'_>, rounds: &Rounds) -> Result<Watch, NoMemory>
    requires fixed { IsFixed fixed.now }
    requires line { AreLineRounds fixed.now rounds.now }
    requires inside { GoesOnInside fixed.now.graph.now fixed.now.plan (kept rounds.now fixed.now.round) }
    ensures rows { IfOk result (λ watch. AreLineRows fixed.now (kept rounds.now fixed.now.round) (rows_of watch)) }
    ensures addr { IfOk result (λ watch. addr_of watch ≡ fixed.now.addr) }
{
    let seen = seen_in(fixed, rounds);
    let (index, addr) = (&fixed.index, fixed.addr);
    Watch::by_index(fixed.alloc, index, seen.tables, seen.pool, seen.plan, addr)
}

/// The tables where the ASes have the policies of the book, made anew.
pub fn tables_by(fixed: &Fixed<'_>, book: &Book<Kind>) -> Result<LineTables, NoMemory>
    requires { IsFixed fixed.now }
    ensures { IfOk result (AreTablesIn fixed.now book.now) }
{
    let (alloc, round) = (fixed.alloc, fixed.round);
    let world = World {
        graph: fixed.graph,
        book,
        states: &fixed.states,
    };
    let plan = fixed.plan.copied(alloc)?;
    let rounds = rounds_of::<Brand>(alloc, &world, &fixed.course, plan, round, Blank::new(1))?;
    paths_go_on::<Kind>();
    plans_are_sound(&fixed.plan);
    let watch = watch_of(fixed, &rounds)?;
    Ok(LineTables { rounds, watch })
}

// Takes the watch to the rounds as they are, where the ASes of the list hold something else than before. It takes no
// memory.
fn renew(fixed: &Fixed<'_>, rounds: &Rounds, changed: &[Asn], watch: &mut Watch)
    requires fixed { IsFixed fixed.now }
    requires line { AreLineRounds fixed.now rounds.now }
    requires inside { GoesOnInside fixed.now.graph.now fixed.now.plan (kept rounds.now fixed.now.round) }
    requires spare { as_count fixed.now.graph.now ≤ spare_of watch.old }
    requires addr { addr_of watch.old ≡ fixed.now.addr }
    requires rows { AreRowsBut fixed.now (kept rounds.now fixed.now.round) changed.now (rows_of watch.old) }
    ensures rows { AreLineRows fixed.now (kept rounds.now fixed.now.round) (rows_of watch.new) }
    ensures addr { addr_of watch.new ≡ fixed.now.addr }
{
    let seen = seen_in(fixed, rounds);
    // A trial counts all ASes, and no groups of them: these stay those of the policies at the start.
    let book = fixed.base.book();
    let differing = Differing {
        hops: changed,
        groups: &[],
    };
    watch.update(
        fixed.graph,
        seen.tables,
        seen.pool,
        seen.plan,
        book,
        &differing,
    );
}

impl LineTables {
    // Whether the tables are edited: where few of so many ASes change their policy, and few cells are live.
    fn can_edit(&self, ases: usize, changed: usize) -> bool
        ensures { result ≡ true → live_count (pool_of self.now.rounds) ≤ MOST_CELLS }
    {
        let are_few = changed <= FEW || changed <= ases / ONE_OF;
        are_few && self.rounds.pool().live() <= MOST_CELLS
    }

    // Takes the tables to the policies of the book by an edit, which costs what changes.
    fn edit<L: Ledger>(
        &mut self,
        fixed: &Fixed<'_>,
        book: &Book<Kind>,
        before: &[(Asn, Kind)],
        blank: Blank,
    ) -> Result<(), NoMemory>
        requires ledger { (blank.name ≡ L.name) × (blank.parts ≡ L.parts) × (0 < L.parts) }
        requires fixed { IsFixed fixed.now }
        requires few_cells { live_count (pool_of self.old.rounds) ≤ MOST_CELLS }
        requires from { AreTablesBefore fixed.now book.now before.now self.old }
        ensures ok { OnOk result (AreTablesIn fixed.now book.now self.new) }
        ensures err { OnErr result (StayTables fixed.now self.old self.new) }
    {
        links_are_sound();
        right_follows::<Kind>();
        paths_go_on::<Kind>();
        plans_are_sound(&fixed.plan);
        let alloc = fixed.alloc;
        let touched = touched_by(alloc, fixed.graph, &fixed.plan, book, before)?;
        self.watch.room(fixed.graph)?;
        let world = World {
            graph: fixed.graph,
            book,
            states: &fixed.states,
        };
        let ranks = PlannedRanks {
            ranks: fixed.ranks,
            plan: &fixed.rank_plan,
        };
        let mut steps = Steps::<L>::new(blank);
        let plan = self
            .rounds
            .plan(alloc, &world, &ranks, &touched, None, &mut steps)?;
        let done = self.rounds.commit(plan);
        let changed = done.changed_in(fixed.round);
        renew(fixed, &self.rounds, changed, &mut self.watch);
        Ok(())
    }

    /// Takes the tables to the policies of the book, from those of a book in which the ASes of the list had the policies
    /// beside them, and all others those of this one. Where few ASes are listed it costs what changes, and else what all
    /// tables cost. Where memory runs out they stay what they were.
    pub fn follow(
        &mut self,
        fixed: &Fixed<'_>,
        book: &Book<Kind>,
        before: &[(Asn, Kind)],
    ) -> Result<(), NoMemory>
        requires fixed { IsFixed fixed.now }
        requires from { AreTablesBefore fixed.now book.now before.now self.old }
        ensures ok { OnOk result (AreTablesIn fixed.now book.now self.new) }
        ensures err { OnErr result (StayTables fixed.now self.old self.new) }
    {
        if self.can_edit(fixed.graph.as_count(), before.len()) {
            return self.edit::<Brand>(fixed, book, before, Blank::new(1));
        }
        let tables = tables_by(fixed, book)?;
        *self = tables;
        Ok(())
    }
}
