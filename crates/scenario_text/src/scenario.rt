//! Scenarios: four lists.
ghost use Rattle.std.specs.Prelude.{◌≡◌, ◌≢◌, ◌<◌, ◌≤◌, ◌++◌, ◌∷◌, [], All, OnOk, OnErr, option_copied, option_and_then, slice_get, length};
ghost use Rattle.scenario_text.specs.declared.limits.TheConstants.{MOST_ANNOUNCEMENTS, MOST_LEAK_LISTS, MOST_LEAKERS, MOST_NUMBERS, MOST_PREFIXES, MOST_WATCHED};

use crate::lists::{Leakers, Lists};
use net_names::{Addr, Asn, NoMemory, Path, Prefix};
use policy_kinds::Kind;
use std::alloc::Global;
use std::marker::Model;

/// A prefix that an AS announces with a path, which starts with that AS.
#[derive(Drop)]
pub struct Announcement {
    /// The prefix.
    pub prefix: Prefix,
    /// The AS.
    pub asn: Asn,
    /// The path, as the AS hands it on.
    pub path: Path,
}

/// What is announced, which AS has which policy, who leaks in each round after the first, and which addresses are
/// watched. Contracts see the four lists.
///
/// Nothing is named twice, there are at most 64 announcements of 32 different prefixes, 64 numbers in a path, lists of
/// leakers of 3 rounds after the first, 64 leakers in a round and 16 watched addresses, and each path starts with its announcement's AS.
#[derive(Drop)]
pub struct Scenario {
    announcements: Vec<Announcement>,
    policies: Vec<(Asn, Kind)>,
    leaks: Vec<Leakers>,
    watch: Vec<Addr>,
}

impl Model for Scenario {
    ghost use Rattle.scenario_text.specs.Scenarios.{ScenarioValue, IsScenario};

    ghost Value = { ScenarioValue };

    ghost view = { λ s. record { announcements = s.announcements.items; policies = s.policies.items; leaks = s.leaks.items; watch = s.watch.items } };

    ghost invariant = { λ s. IsScenario (record { announcements = s.announcements.items; policies = s.policies.items; leaks = s.leaks.items; watch = s.watch.items }) };
}

impl Scenario {
    ghost use Rattle.scenario_text.specs.Scenarios.{nothing, announcement_name, prefix_count, StartsWith, last_leakers, with_leaker, IsScenario};

    /// The scenario with four empty lists.
    pub fn new(alloc: Global) -> Scenario
        ensures { result ≡ nothing }
    {
        Scenario {
            announcements: Vec::new(alloc),
            policies: Vec::new(alloc),
            leaks: Vec::new(alloc),
            watch: Vec::new(alloc),
        }
    }

    /// The scenario of these lists.
    pub(crate) fn from_lists(lists: Lists) -> Scenario
        requires { IsScenario lists }
        ensures { result ≡ lists }
    {
        Scenario {
            announcements: lists.announcements,
            policies: lists.policies,
            leaks: lists.leaks,
            watch: lists.watch,
        }
    }

    /// Puts an announcement at the end. Its prefix and AS are not named yet, no limit is passed with it, and its path starts
    /// with its AS. `Err` where there is not enough memory; then the scenario stays as it was.
    pub fn announce(&mut self, announcement: Announcement) -> Result<(), NoMemory>
        requires new { All (λ a. announcement_name a ≢ announcement_name announcement) self.old.announcements }
        requires room { length self.old.announcements < MOST_ANNOUNCEMENTS }
        requires few_prefixes { prefix_count (self.old.announcements ++ announcement ∷ []) ≤ MOST_PREFIXES }
        requires short { length announcement.path ≤ MOST_NUMBERS }
        requires own_path { StartsWith announcement.asn announcement.path }
        ensures ok { OnOk result (self.new ≡
            record self.old { announcements = self.old.announcements ++ announcement ∷ [] }) }
        ensures err { OnErr result (self.new ≡ self.old) }
    {
        self.announcements.push(announcement)?;
        Ok(())
    }

    /// Puts a policy at the end, of an AS that has none yet. `Err` where there is not enough memory; then the scenario stays
    /// as it was.
    pub fn set_policy(&mut self, asn: Asn, kind: Kind) -> Result<(), NoMemory>
        requires { All (λ p. p.0 ≢ asn) self.old.policies }
        ensures ok { OnOk result (self.new ≡ record self.old { policies = self.old.policies ++ (asn, kind) ∷ [] }) }
        ensures err { OnErr result (self.new ≡ self.old) }
    {
        self.policies.push((asn, kind))?;
        Ok(())
    }

    /// Puts an empty list of leakers at the end: one more round, in which nobody leaks yet. There are fewer than 3 so far.
    /// `Err` where there is not enough memory; then the scenario stays as it was.
    pub fn new_round(&mut self) -> Result<(), NoMemory>
        requires { length self.old.leaks < MOST_LEAK_LISTS }
        ensures ok { OnOk result (self.new ≡ record self.old { leaks = self.old.leaks ++ [] ∷ [] }) }
        ensures err { OnErr result (self.new ≡ self.old) }
    {
        let alloc = *self.leaks.allocator();
        self.leaks.push(Leakers {
            numbers: Vec::new(alloc),
        })?;
        Ok(())
    }

    /// Puts a leaker at the end of the last list of leakers, of which it is none yet. There is a list, and it has fewer than
    /// 64. `Err` where there is not enough memory; then the scenario stays as it was.
    pub fn leaker(&mut self, asn: Asn) -> Result<(), NoMemory>
        requires some { 0 < length self.old.leaks }
        requires new { All (λ n. n ≢ asn) (last_leakers self.old.leaks) }
        requires room { length (last_leakers self.old.leaks) < MOST_LEAKERS }
        ensures ok { OnOk result (self.new ≡ record self.old { leaks = with_leaker self.old.leaks asn }) }
        ensures err { OnErr result (self.new ≡ self.old) }
    {
        let last = self.leaks.len() - 1;
        self.leaks[last].numbers.push(asn)?;
        Ok(())
    }

    /// Puts a watched address at the end, which is not watched yet; there are fewer than 16. `Err` where there is not enough
    /// memory; then the scenario stays as it was.
    pub fn watch(&mut self, addr: Addr) -> Result<(), NoMemory>
        requires new { All (λ a. a ≢ addr) self.old.watch }
        requires room { length self.old.watch < MOST_WATCHED }
        ensures ok { OnOk result (self.new ≡ record self.old { watch = self.old.watch ++ addr ∷ [] }) }
        ensures err { OnErr result (self.new ≡ self.old) }
    {
        self.watch.push(addr)?;
        Ok(())
    }

    /// The announcement at a place, counted from 0; `None` exactly where the place is not below their number.
    pub fn announcement_at(&self, place: usize) -> Option<&Announcement>
        ensures value { option_copied result ≡ slice_get self.now.announcements place }
        ensures scenario { IsScenario self.now }
    {
        self.announcements.get(place)
    }

    /// The policy at a place, counted from 0; `None` exactly where the place is not below their number.
    pub fn policy_at(&self, place: usize) -> Option<(Asn, Kind)>
        ensures value { result ≡ slice_get self.now.policies place }
        ensures scenario { IsScenario self.now }
    {
        self.policies.get(place).copied()
    }

    /// How many rounds after the first have a list of leakers.
    pub fn leak_lists(&self) -> usize
        ensures value { result ≡ length self.now.leaks }
        ensures scenario { IsScenario self.now }
    {
        self.leaks.len()
    }

    /// The leaker at a place of a list of leakers, both counted from 0; `None` exactly where there is no such list, or the
    /// place is not below the number of its leakers. List 0 is of round 2.
    pub fn leaker_at(&self, list: usize, place: usize) -> Option<Asn>
        ensures value { result ≡ option_and_then (λ leakers. slice_get leakers place) (slice_get self.now.leaks list) }
        ensures scenario { IsScenario self.now }
    {
        match self.leaks.get(list) {
            Some(leakers) => leakers.as_slice().get(place).copied(),
            None => None,
        }
    }

    /// The watched address at a place, counted from 0; `None` exactly where the place is not below their number.
    pub fn watch_at(&self, place: usize) -> Option<Addr>
        ensures value { result ≡ slice_get self.now.watch place }
        ensures scenario { IsScenario self.now }
    {
        self.watch.get(place).copied()
    }
}

impl Scenario {
    ghost use Rattle.scenario_text.specs.Scenarios.{IsScenario};

    /// The announcements in their order.
    pub fn announcements(&self) -> &[Announcement]
        ensures value { result.now ≡ self.now.announcements }
        ensures scenario { IsScenario self.now }
    {
        self.announcements.as_slice()
    }

    /// The policies in their order.
    pub fn policies(&self) -> &[(Asn, Kind)]
        ensures value { result.now ≡ self.now.policies }
        ensures scenario { IsScenario self.now }
    {
        self.policies.as_slice()
    }

    /// The lists of leakers in their order. The first is of round 2.
    pub fn leaks(&self) -> &[Leakers]
        ensures value { result.now ≡ self.now.leaks }
        ensures scenario { IsScenario self.now }
    {
        self.leaks.as_slice()
    }

    /// The watched addresses in their order.
    pub fn watched(&self) -> &[Addr]
        ensures value { result.now ≡ self.now.watch }
        ensures scenario { IsScenario self.now }
    {
        self.watch.as_slice()
    }
}
