//! Nets.
ghost use Rattle.std.specs.Prelude.{◌≡◌, ◌≢◌, ◌≤◌, ◌↔◌, ℕ, None, Some, Option, replicate, IfOk, OnErr, IfSome, IfNone, IsTrue, false, option_copied, if◌then◌else◌};
ghost use Rattle.std.specs.FinMap as map;
ghost use Rattle.as_graph.specs.Prelude.{relation, has, HasNoProviderCycle};
ghost use Rattle.stability_laws.specs.declared.entry.Entry.{Entry as AnEntry};
ghost use Rattle.stability_laws.specs.Prelude.{IsStable};
ghost use Rattle.message_sim.specs.Messages.{IsStart, IsQuiet};
ghost use Rattle.message_sim.specs.Nets.{net_of, net_setting, seeds_in, queued_in, IsTurnOf, IsNextLink, IsRested};
ghost use Rattle.message_sim.specs.Starts.{HasShortSeeds};
ghost use Rattle.message_sim.specs.Turns.{AreTurns, first_foreign_in, is_foreign, turns_of};

use crate::ground::Ground;
use crate::starting::{count, first_choices, first_lines, no_bests, waiting_links};
use crate::steps::{DeliverySteps, Step};
use crate::tables::{NetState, are_none_waiting, choice_in, deliver_in, lowest, under_way};
use as_graph::Graph;
use net_names::{Asn, NoMemory, Prefix};
use policy_laws::{OriginStates, RoutePolicy};
use stability_laws::{Book, Entry, Seeds, one_stable_routing};
use std::alloc::Global;
use std::marker::Model;

/// A net of ASes at one prefix, each with what it holds, and with the messages under way between them.
/// Contracts see what each AS chose, what each link received last and the queue of each link, beside the
/// world of the net, which stays as it is.
#[derive(Drop)]
pub struct Net<'a, P: RoutePolicy, V: OriginStates> {
    ground: Ground<'a, P, V>,
    tables: NetState,
}

impl<'a, P: RoutePolicy, V: OriginStates> Model for Net<'a, P, V> {
    ghost use Rattle.std.specs.FinMap as fin;
    ghost use Rattle.stability_laws.specs.Prelude.{setting};
    ghost use Rattle.message_sim.specs.Nets.{NetValue, net_code, value_of};
    ghost use Rattle.message_sim.specs.Kept.{IsNet};

    ghost Value = { NetValue P V };

    ghost coded = { net_code P.code V.code };

    ghost view = { λ n. value_of (record { graph = n.ground.graph.now; book = n.ground.book.now; states = n.ground.states.now; prefix = n.ground.prefix; seeds = n.ground.seeds.now }) n.tables.choices.entries n.tables.lines.entries };

    ghost invariant = { λ n. IsNet n.ground.graph.now (setting P.meaning n.ground.graph.now n.ground.book.now (V.state_of n.ground.states.now n.ground.prefix)) (fin.get n.ground.seeds.now) n.tables };
}

// How many messages a turn takes out.
fn taken(took: bool) -> u32
    ensures value { result ≡ (if took then 1 else 0) }
    ensures one { result ≤ 1 }
{
    if took { 1 } else { 0 }
}

impl<'a, P: RoutePolicy, V: OriginStates> Net<'a, P, V> {
    /// The net at its start: each AS holds its seed's entry or nothing, each link has received a
    /// withdrawal, and each entry that an AS sends is under way.
    pub fn new(
        alloc: Global,
        graph: &'a Graph,
        book: &'a Book<P>,
        states: &'a V,
        prefix: Prefix,
        seeds: &'a Seeds,
    ) -> Result<Net<'a, P, V>, NoMemory>
        requires no_cycle { HasNoProviderCycle (relation graph.now) }
        requires only_ases { (a : ℕ) → has graph.now a ≡ false → map.get seeds.now a ≡ None }
        requires short { HasShortSeeds (map.get seeds.now) }
        ensures world { IfOk result (λ n. n.world ≡
            record { graph = graph.now; book = book.now; states = states.now; prefix = prefix; seeds = seeds.now }) }
        ensures start { IfOk result (λ n.
            IsStart (net_setting P.meaning V.state_of n.world) (seeds_in n.world) (net_of n)) }
    {
        let choices = first_choices(alloc, graph.ases(), seeds)?;
        let bests = no_bests(alloc, graph.ases())?;
        let lines = first_lines(alloc, graph, book, &choices)?;
        let waiting = waiting_links(alloc, &lines)?;
        let queued = count(&lines)?;
        Ok(Net {
            ground: Ground {
                graph,
                book,
                states,
                prefix,
                seeds,
            },
            tables: NetState {
                choices,
                bests,
                lines,
                waiting,
                queued,
            },
        })
    }

    /// Delivers the oldest message from one AS to another, which are linked; `false` exactly where no
    /// message is under way there, and then nothing changes. The receiver chooses anew by what its links
    /// received, and tells its neighbours what has changed. `Err` where there is not enough memory; then
    /// the net stays as it was. It looks at all that the receiver has received only where its best offer
    /// was of this neighbour and has become worse.
    pub fn deliver(&mut self, alloc: Global, from: Asn, to: Asn) -> Result<bool, NoMemory>
        requires { relation self.old.world.graph to from ≢ None }
        ensures world { self.new.world ≡ self.old.world }
        ensures delivered { IfOk result (IsTurnOf (net_setting P.meaning V.state_of self.old.world)
            (seeds_in self.old.world) self.old from to self.new) }
        ensures err { OnErr result (self.new ≡ self.old) }
    {
        deliver_in(alloc, &self.ground, &mut self.tables, from, to)
    }

    /// Whether no message is under way. Then what the ASes hold is the one stable routing of the seeds.
    pub fn quiet(&self) -> bool
        ensures quiet { IsTrue result ↔ IsQuiet (net_of self.now) }
        ensures stable { IsTrue result →
            IsStable (net_setting P.meaning V.state_of self.now.world) (seeds_in self.now.world)
            (net_of self.now).choice }
        ensures the_one { IsTrue result → (f : ℕ → Option AnEntry) →
            IsStable (net_setting P.meaning V.state_of self.now.world) (seeds_in self.now.world) f → (a : ℕ) →
            f a ≡ (net_of self.now).choice a }
    {
        one_stable_routing::<P>();
        are_none_waiting(&self.tables.lines, self.tables.queued)
    }

    /// How many messages are under way.
    pub fn queued(&self) -> u64
        ensures { result ≡ queued_in self.now.world.graph (net_of self.now) }
    {
        under_way(&self.tables.lines, self.tables.queued)
    }

    /// What an AS holds.
    pub fn choice(&self, asn: Asn) -> Option<&Entry>
        ensures { option_copied result ≡ (net_of self.now).choice asn }
    {
        choice_in(&self.tables.choices, asn)
    }

    /// The lowest pair of ASes with a message from the first to the second; `None` exactly where no
    /// message is under way.
    pub fn next_link(&self) -> Option<(Asn, Asn)>
        ensures found { IfSome result (IsNextLink (net_of self.now)) }
        ensures linked { IfSome result (λ l. relation self.now.world.graph l.1 l.0 ≢ None) }
        ensures none { IfNone result (IsQuiet (net_of self.now)) }
    {
        lowest(&self.tables.waiting, &self.tables.lines)
    }

    /// Makes up to `most` deliveries, each on the lowest link with a message, as long as there is one. How
    /// many it made: fewer only where no message is under way then. `Err` where there is not enough memory;
    /// then the deliveries before were made.
    pub fn rest(&mut self, alloc: Global, most: u32) -> Result<u32, NoMemory>
        ensures world { self.new.world ≡ self.old.world }
        ensures rested { IfOk result (IsRested (net_setting P.meaning V.state_of self.old.world)
            (seeds_in self.old.world) self.old most self.new) }
    {
        for k in 0..most {
            let Some(link) = self.next_link() else {
                return Ok(k);
            };
            self.deliver(alloc, link.0, link.1)?;
        }
        Ok(most)
    }

    // Makes so many turns of one link; how many messages they take out.
    fn turn(&mut self, alloc: Global, from: Asn, to: Asn, most: u32) -> Result<u32, NoMemory>
        requires { relation self.old.world.graph to from ≢ None }
        ensures world { self.new.world ≡ self.old.world }
        ensures run { IfOk result (λ made. AreTurns (net_setting P.meaning V.state_of self.old.world)
            (seeds_in self.old.world) (replicate most (Some (from, to))) (net_of self.old) made (net_of self.new)) }
    {
        let mut made: u32 = 0;
        for k in 0..most {
            made += taken(self.deliver(alloc, from, to)?);
        }
        Ok(made)
    }

    // Makes the turns of a step; how many messages they take out.
    fn make(&mut self, alloc: Global, step: &Step) -> Result<u32, NoMemory>
        requires { is_foreign (relation self.old.world.graph) step.now ≡ false }
        ensures world { self.new.world ≡ self.old.world }
        ensures run { IfOk result (λ made. AreTurns (net_setting P.meaning V.state_of self.old.world)
            (seeds_in self.old.world) (replicate step.now.most step.now.link) (net_of self.old) made
            (net_of self.new)) }
    {
        match step.link {
            Some((from, to)) => self.turn(alloc, from, to, step.most),
            None => self.rest(alloc, step.most),
        }
    }

    /// Makes the turns that the steps ask for, one after the other; how many messages they take out. `Err`
    /// where there is not enough memory; then the turns before were made.
    pub fn run(&mut self, alloc: Global, steps: &DeliverySteps) -> Result<u32, NoMemory>
        requires linked { first_foreign_in (relation self.old.world.graph) steps.now ≡ None }
        ensures world { self.new.world ≡ self.old.world }
        ensures run { IfOk result (λ made. AreTurns (net_setting P.meaning V.state_of self.old.world)
            (seeds_in self.old.world) (turns_of steps.now) (net_of self.old) made (net_of self.new)) }
    {
        let mut made: u32 = 0;
        for step in steps.as_slice() {
            made += self.make(alloc, step)?;
        }
        Ok(made)
    }
}
