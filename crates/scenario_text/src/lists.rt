//! Lists that a document says.
ghost use Rattle.std.specs.Prelude.{◌≡◌};

use crate::scenario::Announcement;
use net_names::{Addr, Asn};
use policy_kinds::Kind;
use std::marker::Model;

/// The leakers of a round. Contracts see their numbers.
#[derive(Drop)]
pub struct Leakers {
    pub(crate) numbers: Vec<Asn>,
}

impl Model for Leakers {
    ghost use Rattle.std.specs.Prelude.{ℕ, List};

    ghost Value = { List ℕ };

    ghost view = { λ l. l.numbers.items };
}

impl Leakers {
    /// The leakers in their order.
    pub fn as_slice(&self) -> &[Asn]
        ensures { result.now ≡ self.now }
    {
        self.numbers.as_slice()
    }
}

/// Four lists that need not be a scenario's: something may be named twice, or a limit be passed. Contracts see the lists.
#[derive(Drop)]
pub(crate) struct Lists {
    pub(crate) announcements: Vec<Announcement>,
    pub(crate) policies: Vec<(Asn, Kind)>,
    pub(crate) leaks: Vec<Leakers>,
    pub(crate) watch: Vec<Addr>,
}

impl Model for Lists {
    ghost use Rattle.scenario_text.specs.Scenarios.{ScenarioValue};

    ghost Value = { ScenarioValue };

    ghost view = { λ s. record { announcements = s.announcements.items; policies = s.policies.items; leaks = s.leaks.items; watch = s.watch.items } };
}
