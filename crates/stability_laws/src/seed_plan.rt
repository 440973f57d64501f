//! Who announces what, and who leaks in which round.
ghost use Rattle.std.specs.Prelude.{◌≡◌, ◌≤◌, ◌<◌, ◌-◌, ℕ, false, IsTrue, length, take, drop, map, slice_get, option_copied, OnOk, OnErr, IsOk, vec_len, vec_capacity};
ghost use Rattle.std.specs.FinMap as fin;
ghost use Rattle.std.specs.FinMap.{IsAntisymmetric};
ghost use Rattle.std.specs.Ordering.{eq_by_cmp, nat_cmp};
ghost use Rattle.std.specs.List.{list_any};
ghost use Rattle.std.specs.List.Sorted.{IsSearchInRange, IsBinarySearchResult};
ghost use Rattle.net_names.specs.Prelude.{occurs, pair_cmp, prefix_cmp};
ghost use Rattle.stability_laws.specs.Plans.{announcement_cmp, announces, announced_path, announcer_of, empty_plan, with_announcement, with_leaker, has_prefix, leaks_in, prefixes_of, announcers_of, in_round, leakers_of, IsAnnouncer, IsSound, ListsRising};
ghost use Rattle.stability_laws.specs.PlanLists.{set_of, IsRising};

mod copied;
mod edits;
mod names;

pub use edits::SeedEdit;
use net_names::{Asn, MOST_IN_PATH, NoMemory, Path, Prefix};
use std::alloc::Global;
use std::marker::Model;

// A path, with the prefix and the AS that announce it.
#[derive(Drop)]
struct Announcement {
    prefix: Prefix,
    asn: Asn,
    path: Path,
}

/// Who announces what, and who leaks in which round. Contracts see the plan: its prefixes, the path
/// at a prefix and an AS that announces it, and the rounds with the ASes that leak in them.
#[derive(Drop)]
pub struct SeedPlan {
    prefixes: Vec<Prefix>,
    announced: Vec<Announcement>,
    announcers: Vec<Asn>,
    leakers: Vec<(u32, Asn)>,
    // The ASes of the leakers, in the same order, so that those of a round are a part of the list.
    leaking: Vec<Asn>,
}

impl Model for SeedPlan {
    ghost use Rattle.stability_laws.specs.Plans.{Plan, plan_code};

    ghost Value = { Plan };

    ghost coded = { plan_code };

    ghost use Rattle.stability_laws.specs.PlanLists.{plan_of, ArePlan};

    ghost view = { λ p. plan_of p.prefixes.items p.announced.items p.leakers.items };

    ghost invariant = { λ p. ArePlan p.prefixes.items p.announced.items p.announcers.items p.leakers.items
        p.leaking.items };
}

// Where the announcement of the prefix by the AS stands, or where it has to be put in.
fn place_of(announced: &[Announcement], prefix: Prefix, asn: Asn) -> Result<usize, usize>
    ensures bound { IsSearchInRange result (length announced.now) }
    ensures position { IsBinarySearchResult (λ x. announcement_cmp (x.prefix, x.asn) (prefix, asn))
        announced.now result }
{
    announced.binary_search_by_key(&(prefix, asn), |x| (x.prefix, x.asn))
}

// Puts the key among the rising keys, where it is not there yet. Where there is room it does not fail.
fn put_key<K: Ord + Copy>(keys: &mut Vec<K>, key: K) -> Result<(), NoMemory>
    requires exact { IsAntisymmetric K.cmp }
    requires rising { IsRising K.cmp keys.old.items }
    ensures ok { OnOk result (set_of K.cmp keys.new.items ≡ fin.insert (set_of K.cmp keys.old.items) key tt) }
    ensures rising { OnOk result (IsRising K.cmp keys.new.items) }
    ensures err { OnErr result (keys.new.items ≡ keys.old.items) }
    ensures room { vec_len keys.old < vec_capacity keys.old → IsOk result }
{
    match keys.as_slice().binary_search(&key) {
        Ok(_) => Ok(()),
        Err(at) => {
            keys.insert(at, key)?;
            Ok(())
        }
    }
}

// Where the leakers of the round begin, and where they end.
fn span_of(leakers: &[(u32, Asn)], round: u32) -> (usize, usize)
    requires { IsRising pair_cmp leakers.now }
    ensures order { result.0 ≤ result.1 }
    ensures within { result.1 ≤ length leakers.now }
    ensures span { take (result.1 - result.0) (drop result.0 (map (λ x. x.1) leakers.now)) ≡
        in_round round leakers.now }
{
    let first = leakers.partition_point(|leaker| leaker.0 < round);
    let end = leakers.partition_point(|leaker| leaker.0 <= round);
    (first, end)
}

// Whether the prefix stands in the list.
fn stands_in(prefixes: &[Prefix], prefix: Prefix) -> bool
    ensures { result ≡ list_any (eq_by_cmp prefix_cmp prefix) prefixes.now }
{
    prefixes.iter().any(|one| prefix.cmp(one).is_eq())
}

/// What holds of every plan: each announced path starts with its AS and has at most `MOST_IN_PATH` numbers,
/// its prefix is one of the plan's, and there are leakers in rounds from 2 on alone.
pub fn plans_are_sound(plan: &SeedPlan)
    ensures { IsSound plan.now }
{
    // A list of the plan is read for what its type says of every plan.
    let _announcers = plan.announcers.as_slice();
}

impl SeedPlan {
    /// The plan in which nobody announces or leaks anything.
    pub fn new(alloc: Global) -> SeedPlan
        ensures { result ≡ empty_plan }
    {
        SeedPlan {
            prefixes: Vec::new(alloc),
            announced: Vec::new(alloc),
            announcers: Vec::new(alloc),
            leakers: Vec::new(alloc),
            leaking: Vec::new(alloc),
        }
    }

    /// Makes the first AS of the path announce the path of the prefix, in every round. The path has 1
    /// to `MOST_IN_PATH` numbers, and that AS does not announce the prefix yet. `Err` where there is not
    /// enough memory; then the plan stays as it was.
    pub fn announce(&mut self, prefix: Prefix, path: Path) -> Result<(), NoMemory>
        requires some { 1 ≤ length path }
        requires short { length path ≤ MOST_IN_PATH }
        requires new { announces self.old prefix (announcer_of path) ≡ false }
        ensures ok { OnOk result (self.new ≡ with_announcement self.old prefix path) }
        ensures err { OnErr result (self.new ≡ self.old) }
    {
        let asn = path.as_slice()[0];
        // Two lists get their room before the third is written, so that a failure changes none.
        self.prefixes.reserve(1)?;
        self.announcers.reserve(1)?;
        let at = match place_of(self.announced.as_slice(), prefix, asn) {
            Ok(at) => at,
            Err(at) => at,
        };
        self.announced
            .insert(at, Announcement { prefix, asn, path })?;
        let _ = put_key(&mut self.prefixes, prefix);
        let _ = put_key(&mut self.announcers, asn);
        Ok(())
    }

    /// Makes the AS leak in that round, which is at least 2: of each prefix that it does not announce
    /// it puts in what a peer or a provider gave it in the round before. `Err` where there is not
    /// enough memory; then the plan stays as it was.
    /// Source: RFC 7908, section 3.
    pub fn leaker(&mut self, round: u32, asn: Asn) -> Result<(), NoMemory>
        requires { 2 ≤ round }
        ensures ok { OnOk result (self.new ≡ with_leaker self.old round asn) }
        ensures err { OnErr result (self.new ≡ self.old) }
    {
        let Err(at) = self.leakers.as_slice().binary_search(&(round, asn)) else {
            return Ok(());
        };
        // One list gets its room before the other is written, so that a failure changes neither.
        self.leaking.reserve(1)?;
        self.leakers.insert(at, (round, asn))?;
        let _ = self.leaking.insert(at, asn);
        Ok(())
    }

    /// Whether the AS announces the prefix.
    pub fn announces(&self, prefix: Prefix, asn: Asn) -> bool
        ensures value { result ≡ announces self.now prefix asn }
        ensures sound { IsSound self.now }
    {
        place_of(self.announced.as_slice(), prefix, asn).is_ok()
    }

    /// Whether the prefix is one of the plan.
    pub fn has_prefix(&self, prefix: Prefix) -> bool
        ensures { result ≡ has_prefix self.now prefix }
    {
        stands_in(self.prefixes(), prefix)
    }

    /// How many announcements the plan has: one for each prefix and AS that announces it.
    pub fn announcement_count(&self) -> usize
        ensures { result ≡ fin.len self.now.announced }
    {
        self.announced.len()
    }

    /// The path that the AS announces of the prefix; `None` exactly where it does not announce it. It
    /// starts with the AS and has at most `MOST_IN_PATH` numbers.
    pub fn path(&self, prefix: Prefix, asn: Asn) -> Option<&Path>
        ensures value { option_copied result ≡ announced_path self.now prefix asn }
        ensures sound { IsSound self.now }
    {
        match place_of(self.announced.as_slice(), prefix, asn) {
            Ok(at) => Some(&self.announced[at].path),
            Err(_) => None,
        }
    }

    /// The prefix at a place in their rising order of family, address and length; `None` exactly where
    /// the place is not below their number. It takes a constant time.
    pub fn prefix_at(&self, place: usize) -> Option<Prefix>
        ensures value { result ≡ slice_get (prefixes_of self.now) place }
        ensures listed { ListsRising prefix_cmp (λ prefix. IsTrue (has_prefix self.now prefix))
            (prefixes_of self.now) }
    {
        self.prefixes.get(place).copied()
    }

    /// The prefixes in their rising order of family, address and length.
    pub fn prefixes(&self) -> &[Prefix]
        ensures { result.now ≡ prefixes_of self.now }
    {
        self.prefixes.as_slice()
    }

    /// The AS at a place among the distinct ASes that announce a prefix, in rising order; `None`
    /// exactly where the place is not below their number. It takes a constant time.
    pub fn announcer_at(&self, place: usize) -> Option<Asn>
        ensures value { result ≡ slice_get (announcers_of self.now) place }
        ensures listed { ListsRising nat_cmp (IsAnnouncer self.now) (announcers_of self.now) }
    {
        self.announcers.get(place).copied()
    }

    /// The distinct ASes that announce a prefix, in rising order.
    pub fn announcers(&self) -> &[Asn]
        ensures { result.now ≡ announcers_of self.now }
    {
        self.announcers.as_slice()
    }

    /// The ASes that leak in that round, in rising order.
    pub fn leakers(&self, round: u32) -> &[Asn]
        ensures value { result.now ≡ leakers_of self.now round }
        ensures who { (a : ℕ) → occurs a result.now ≡ leaks_in self.now round a }
    {
        let (first, end) = span_of(self.leakers.as_slice(), round);
        &self.leaking[first..end]
    }

    /// The AS at a place among the ASes that leak in that round, in rising order; `None` exactly where
    /// the place is not below their number.
    pub fn leaker_at(&self, round: u32, place: usize) -> Option<Asn>
        ensures value { result ≡ slice_get (leakers_of self.now round) place }
        ensures listed { ListsRising nat_cmp (λ a. IsTrue (leaks_in self.now round a)) (leakers_of self.now round) }
    {
        self.leakers(round).get(place).copied()
    }
}
