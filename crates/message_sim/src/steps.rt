//! The steps of a file of deliveries.
ghost use Rattle.std.specs.Prelude.{◌≡◌, ◌≤◌, ◌+◌, [], ◌∷◌, ◌++◌, length, OnOk, OnErr, option_copied, slice_get};
ghost use Rattle.as_graph.specs.Prelude.{relation};
ghost use Rattle.message_sim.specs.Turns.{first_foreign_in, is_foreign as foreign, turns_of};

use as_graph::Graph;
use net_names::{Asn, NoMemory, Prefix};
use std::alloc::Global;
use std::marker::Model;

/// How many deliveries a file asks for at most.
pub const MOST_DELIVERIES: u32 = 1_000_000;

/// What a line of a file of deliveries asks for.
#[derive(Drop)]
pub struct Step {
    /// The number of the line, where the first line has number 1 and skipped lines count.
    pub line: u32,
    /// The link from a first AS to a second one on which the messages are delivered; without it each is
    /// delivered on the lowest link on which one is under way.
    pub link: Option<(Asn, Asn)>,
    /// How many deliveries at most.
    pub most: u32,
}

impl Model for Step {
    ghost use Rattle.message_sim.specs.StepValues.{StepValue};

    ghost Value = { StepValue };

    ghost view = { λ s. record { line = s.line; link = s.link; most = s.most } };

    ghost inverse = { λ s. record { line = s.line; link = s.link; most = s.most } };
}

/// Steps in their order, which ask for at most 1,000,000 deliveries. Contracts see the list of them.
#[derive(Drop)]
pub struct DeliverySteps {
    items: Vec<Step>,
    asked: u32,
}

impl Model for DeliverySteps {
    ghost use Rattle.std.specs.Prelude.{◌≡◌, ◌≤◌, List, length};
    ghost use Rattle.message_sim.specs.StepValues.{StepValue};
    ghost use Rattle.message_sim.specs.declared.steps.TheConstants.{MOST_DELIVERIES as most};
    ghost use Rattle.message_sim.specs.Turns.{turns_of};

    ghost Value = { List StepValue };

    ghost view = { λ s. s.items.items };

    ghost invariant = { λ s. (s.asked ≡ length (turns_of s.items.items)) × (s.asked ≤ most) };
}

impl DeliverySteps {
    /// No steps.
    pub(crate) fn new(alloc: Global) -> DeliverySteps
        ensures { result ≡ [] }
    {
        DeliverySteps {
            items: Vec::new(alloc),
            asked: 0,
        }
    }

    /// How many deliveries they ask for.
    pub(crate) fn asked(&self) -> u32
        ensures value { result ≡ length (turns_of self.now) }
        ensures few { result ≤ MOST_DELIVERIES }
    {
        self.asked
    }

    /// Puts a step at the end. `Err` where there is not enough memory; then the list stays as it was.
    pub(crate) fn push(&mut self, step: Step) -> Result<(), NoMemory>
        requires { length (turns_of self.old) + step.most ≤ MOST_DELIVERIES }
        ensures ok { OnOk result (self.new ≡ self.old ++ step ∷ []) }
        ensures err { OnErr result (self.new ≡ self.old) }
    {
        let more = step.most;
        self.items.push(step)?;
        self.asked += more;
        Ok(())
    }

    /// The steps, in their order.
    pub(crate) fn as_slice(&self) -> &[Step]
        ensures value { result.now ≡ self.now }
        ensures few { length (turns_of self.now) ≤ MOST_DELIVERIES }
    {
        self.items.as_slice()
    }

    /// The step at a place, counted from 0; `None` exactly where the place is not below their number.
    pub fn at(&self, place: usize) -> Option<&Step>
        ensures { option_copied result ≡ slice_get self.now place }
    {
        self.items.get(place)
    }
}

/// What a file of deliveries asks for: the steps, in a net of a round and a prefix.
#[derive(Drop)]
pub struct Deliveries {
    /// The number of the line that names the round and the prefix.
    pub for_line: u32,
    /// The round.
    pub round: u32,
    /// The prefix.
    pub prefix: Prefix,
    /// The steps.
    pub steps: DeliverySteps,
}

// Whether the step names two ASes that have no link.
fn is_foreign(step: &Step, graph: &Graph) -> bool
    ensures { result ≡ foreign (relation graph.now) step.now }
{
    match step.link {
        Some((from, to)) => graph.rel(to, from).is_none(),
        None => false,
    }
}

impl Deliveries {
    /// The line of the first step that names two ASes that have no link; `None` exactly where each
    /// two have one.
    pub fn first_foreign(&self, graph: &Graph) -> Option<u32>
        ensures { result ≡ first_foreign_in (relation graph.now) self.now.steps }
    {
        for step in self.steps.as_slice() {
            if is_foreign(step, graph) {
                return Some(step.line);
            }
        }
        None
    }
}
