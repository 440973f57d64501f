//! Routing trees in place of tables: where a line needs no paths.
ghost use Rattle.std.specs.Prelude.{◌≡◌, ◌<◌, ◌≤◌, ◌-◌, ℕ, true, false, Some, List, [], ◌∷◌, All, IfOk, IfSome, length, nat_eq, slice_get, slice_index};
ghost use Rattle.as_graph.specs.Prelude.{has, relation};
ghost use Rattle.as_graph.specs.declared.build.TheConstants.{MOST_ASES};
ghost use Rattle.data_trace.specs.declared.kinds.Hop.{Hop};
ghost use Rattle.leak_round.specs.declared.limits.TheConstants.{MOST_ROUNDS};
ghost use Rattle.net_names.specs.Prelude.{occurs};
ghost use Rattle.net_names.specs.Prefixes.{PrefixValue, IsPrefix};
ghost use Rattle.origin_validation.specs.Judging.{state_of};
ghost use Rattle.policy_kinds.specs.declared.kind.Kind.{Kind as AKind};
ghost use Rattle.rank_order.specs.Prelude.{rank_at};
ghost use Rattle.rank_order.specs.Ranks.{IsRankOrder};
ghost use Rattle.routing_tree.specs.Ends.{AreEnds};
ghost use Rattle.routing_tree.specs.Links.{AreLinksOf, HasLists};
ghost use Rattle.routing_tree.specs.Trees.{HasPlaces, ParentsComeFirst};
ghost use Rattle.stability_laws.specs.Book.{PolicyBook};
ghost use Rattle.stability_laws.specs.Plans.{announced_path, has_prefix, prefixes_of};
ghost use Rattle.std.specs.List.{IsDistinct};
ghost use Rattle.std.specs.List.Sorted.{IsNonDecreasingBy, IsPermutation};
ghost use Rattle.sweep.specs.declared.trial.Fate.TheVariants as fate;
ghost use Rattle.trial_world.specs.Fixed.{IsFixed};
ghost use Rattle.trial_world.specs.Trees.{AnnounceThemselves, AreEndsBy, AreKindsAt, AreLineTrees, AreRegrown, AreSeedsFor, AreTreesFor, AreTreesIn, HoldsNoneBefore, IsRegrown, IsTreeFor, LeaksNothing, NeedsNoPaths, SendByFirst, count_by_ends};

use crate::fixed::Fixed;
use as_places::AsPlaces;
use net_names::{Asn, NoMemory, Prefix};
use policy_kinds::Kind;
use policy_laws::{OriginStates, RoutePolicy};
use rank_order::placed_by_rank;
use routing_tree::{Ends, Placed, PlacedLinks, PlacedSeed, RoutingTree};
use stability_laws::{
    Book, SeedPlan, one_stable_routing, paths_go_on, plans_are_sound, right_follows,
};
use std::alloc::Global;
use sweep::Fate;

/// A prefix that holds the line's address, the ASes that announce it, and its routing tree.
#[derive(Drop)]
pub struct PrefixTree {
    pub(crate) prefix: Prefix,
    pub(crate) seeds: Vec<PlacedSeed>,
    pub(crate) tree: RoutingTree,
}

/// The routing trees of a line in the world of a trial, that of the longest prefix first, and at whom packets for the line's
/// address end. ASes stand at their places in an order by rank.
#[derive(Drop)]
pub struct LineTrees {
    pub(crate) order: AsPlaces,
    pub(crate) links: PlacedLinks,
    pub(crate) kinds: Vec<Kind>,
    pub(crate) prefixes: Vec<PrefixTree>,
    pub(crate) ends: Ends,
}

// Whether nobody leaks in the rounds from 2 to the last.
fn leaks_nothing(plan: &SeedPlan, last: u32) -> bool
    requires few { last ≤ MOST_ROUNDS }
    ensures { result ≡ true → LeaksNothing plan.now last }
{
    for round in 2..last + 1 {
        if !plan.leakers(round).is_empty() {
            return false;
        }
    }
    true
}

// Whether the AS announces nothing of the prefix, or itself alone.
fn announces_itself(plan: &SeedPlan, prefix: Prefix, asn: Asn) -> bool
    ensures { result ≡ true → (path : List ℕ) → announced_path plan.now prefix asn ≡ Some path → path ≡ asn ∷ [] }
{
    match plan.path(prefix, asn) {
        Some(path) => path.as_slice().len() == 1,
        None => true,
    }
}

// Whether all ASes that announce the prefix announce themselves alone.
fn announce_themselves(plan: &SeedPlan, prefix: Prefix) -> bool
    ensures { result ≡ true → AnnounceThemselves plan.now prefix }
{
    for asn in plan.announcers() {
        if !announces_itself(plan, prefix, *asn) {
            return false;
        }
    }
    true
}

/// Whether no round up to the line's needs a path: nobody leaks, and each announced path is its announcer alone.
pub fn needs_no_paths(fixed: &Fixed<'_>) -> bool
    requires { IsFixed fixed.now }
    ensures { result ≡ true → NeedsNoPaths fixed.now.plan fixed.now.round }
{
    plans_are_sound(&fixed.plan);
    for prefix in fixed.plan.prefixes() {
        if !announce_themselves(&fixed.plan, *prefix) {
            return false;
        }
    }
    leaks_nothing(&fixed.plan, fixed.round)
}

// An AS that announces the prefix, at its place.
fn seed_at(fixed: &Fixed<'_>, order: &AsPlaces, prefix: Prefix, asn: Asn) -> PlacedSeed
    requires few { length order.now.ases ≤ MOST_ASES }
    requires known { occurs asn order.now.ases ≡ true }
    ensures inside { result.place < length order.now.ases }
    ensures place { slice_index order.now.ases result.place ≡ asn }
    ensures state { result.state ≡ state_of fixed.now.states.payloads prefix asn }
{
    let Some(place) = order.place(asn) else {
        unreachable!();
    };
    PlacedSeed {
        place: place as u32,
        state: fixed.states.state(prefix, asn),
    }
}

// The ASes that announce the prefix, at their places.
fn seeds_at(
    fixed: &Fixed<'_>,
    order: &AsPlaces,
    prefix: Prefix,
) -> Result<Vec<PlacedSeed>, NoMemory>
    requires few { length order.now.ases ≤ MOST_ASES }
    requires fixed { IsFixed fixed.now }
    requires no_paths { NeedsNoPaths fixed.now.plan fixed.now.round }
    requires order { IsRankOrder (has fixed.now.graph.now) (rank_at fixed.now.ranks.now) order.now.ases }
    ensures { IfOk result (λ v. AreSeedsFor fixed.now order.now.ases prefix v.items) }
{
    let mut seeds = Vec::new(fixed.alloc);
    for asn in fixed.plan.announcers() {
        if fixed.plan.announces(prefix, *asn) {
            seeds.push(seed_at(fixed, order, prefix, *asn))?;
        }
    }
    Ok(seeds)
}

// A prefix with the ASes that announce it, of whose routing nothing is known.
fn blank_tree(fixed: &Fixed<'_>, order: &AsPlaces, prefix: Prefix) -> Result<PrefixTree, NoMemory>
    requires few { length order.now.ases ≤ MOST_ASES }
    requires fixed { IsFixed fixed.now }
    requires no_paths { NeedsNoPaths fixed.now.plan fixed.now.round }
    requires order { IsRankOrder (has fixed.now.graph.now) (rank_at fixed.now.ranks.now) order.now.ases }
    requires known { has_prefix fixed.now.plan prefix ≡ true }
    ensures tree { IfOk result (IsTreeFor fixed.now order.now.ases) }
    ensures prefix { IfOk result (λ t. t.prefix ≡ prefix) }
{
    // `addr` is called for its clause that no bit past the length is set.
    let _addr = prefix.addr();
    Ok(PrefixTree {
        prefix,
        seeds: seeds_at(fixed, order, prefix)?,
        tree: RoutingTree::none(fixed.alloc, order.len())?,
    })
}

// The prefixes, the longest first.
fn longest_first(alloc: Global, prefixes: &[Prefix]) -> Result<Vec<Prefix>, NoMemory>
    ensures same { IfOk result (λ v. IsPermutation prefixes.now v.items) }
    ensures falling { IfOk result (λ v. IsNonDecreasingBy (λ p. 255 - p.len) v.items) }
{
    let mut sorted = Vec::from_slice(alloc, prefixes)?;
    sorted.sort_by_key(|prefix| 255 - prefix.len())?;
    Ok(sorted)
}

// The prefixes of the line, the longest first, of whose routings nothing is known.
fn blank_trees(fixed: &Fixed<'_>, order: &AsPlaces) -> Result<Vec<PrefixTree>, NoMemory>
    requires few { length order.now.ases ≤ MOST_ASES }
    requires fixed { IsFixed fixed.now }
    requires no_paths { NeedsNoPaths fixed.now.plan fixed.now.round }
    requires order { IsRankOrder (has fixed.now.graph.now) (rank_at fixed.now.ranks.now) order.now.ases }
    ensures { IfOk result (λ v. AreTreesFor fixed.now order.now.ases v.items) }
{
    let prefixes = longest_first(fixed.alloc, fixed.plan.prefixes())?;
    let mut trees = Vec::new(fixed.alloc);
    for prefix in &prefixes {
        trees.push(blank_tree(fixed, order, *prefix)?)?;
    }
    Ok(trees)
}

// Takes the kinds of the ASes from the book, by place. Whether none of them marks.
fn take_kinds(ases: &[Asn], book: &Book<Kind>, kinds: &mut [Kind]) -> bool
    requires { length kinds.old ≡ length ases.now }
    ensures { result ≡ true → AreKindsAt ases.now book.now kinds.new }
{
    for place in 0..ases.len() {
        let kind = *book.policy_near(ases[place], place);
        if kind.marks() {
            return false;
        }
        kinds[place] = kind;
    }
    true
}

// The tree of a prefix with these policies.
fn grow_one(one: &mut PrefixTree, placed: &Placed<'_, Kind>)
    requires few { length placed.now.ases.now ≤ MOST_ASES }
    requires apart { IsDistinct nat_eq placed.now.ases.now }
    requires policies { length placed.now.policies.now ≡ length placed.now.ases.now }
    requires lists { HasLists (length placed.now.ases.now) placed.now.links.now }
    requires places { HasPlaces (length placed.now.ases.now) one.old.tree }
    requires inside { All (λ s. s.place < length placed.now.ases.now) one.old.seeds.items }
    ensures { IsRegrown placed.now one.old one.new }
{
    one.tree.grow(placed, one.seeds.as_slice());
}

// The trees of the prefixes with these policies.
fn grow_all(prefixes: &mut [PrefixTree], placed: &Placed<'_, Kind>)
    requires few { length placed.now.ases.now ≤ MOST_ASES }
    requires apart { IsDistinct nat_eq placed.now.ases.now }
    requires policies { length placed.now.policies.now ≡ length placed.now.ases.now }
    requires lists { HasLists (length placed.now.ases.now) placed.now.links.now }
    requires places { All (λ x. HasPlaces (length placed.now.ases.now) x.tree) prefixes.old }
    requires inside { All (λ x. All (λ s. s.place < length placed.now.ases.now) x.seeds.items) prefixes.old }
    ensures { AreRegrown placed.now prefixes.old prefixes.new }
{
    for one in prefixes.iter_mut() {
        grow_one(one, placed);
    }
}

// At whom packets end by these trees.
fn follow_all(ends: &mut Ends, prefixes: &[PrefixTree])
    requires few { length ends.old.ends.items ≤ MOST_ASES }
    requires places { All (λ x. HasPlaces (length ends.old.ends.items) x.tree) prefixes.now }
    requires order { All (λ x. ParentsComeFirst x.tree (length ends.old.ends.items)) prefixes.now }
    ensures count { length ends.new.ends.items ≡ length ends.old.ends.items }
    ensures none { (k : ℕ) → k < length ends.old.ends.items → slice_index ends.new.ends.items k ≡ 0 →
        HoldsNoneBefore prefixes.now (length prefixes.now) k }
    ensures ends { (next : ℕ → Hop) (ases : List ℕ) → length ases ≡ length ends.old.ends.items →
        SendByFirst next ases prefixes.now → AreEnds next ases ends.new.ends.items }
{
    ends.clear();
    for one in prefixes {
        ends.follow(&one.tree);
    }
}

// The trees and the ends with these policies, which are those of the book and do not mark.
fn renew_all(
    fixed: &Fixed<'_>,
    book: &Book<Kind>,
    placed: &Placed<'_, Kind>,
    prefixes: &mut [PrefixTree],
    ends: &mut Ends,
)
    requires fixed { IsFixed fixed.now }
    requires no_paths { NeedsNoPaths fixed.now.plan fixed.now.round }
    requires few { length placed.now.ases.now ≤ MOST_ASES }
    requires policies { length placed.now.policies.now ≡ length placed.now.ases.now }
    requires order { IsRankOrder (has fixed.now.graph.now) (rank_at fixed.now.ranks.now) placed.now.ases.now }
    requires links { AreLinksOf (relation fixed.now.graph.now) placed.now.ases.now placed.now.links.now }
    requires lists { HasLists (length placed.now.ases.now) placed.now.links.now }
    requires kinds { AreKindsAt placed.now.ases.now book.now placed.now.policies.now }
    requires trees { AreTreesFor fixed.now placed.now.ases.now prefixes.old }
    requires ends { length ends.old.ends.items ≡ length placed.now.ases.now }
    ensures { AreEndsBy fixed.now book.now placed.now.ases.now prefixes.new ends.new.ends.items }
{
    right_follows::<Kind>();
    one_stable_routing::<Kind>();
    paths_go_on::<Kind>();
    plans_are_sound(&fixed.plan);
    grow_all(prefixes, placed);
    follow_all(ends, prefixes);
}

impl LineTrees {
    /// The trees of a line that needs no paths, of which nothing is known yet.
    pub fn blank(fixed: &Fixed<'_>) -> Result<LineTrees, NoMemory>
        requires fixed { IsFixed fixed.now }
        requires no_paths { NeedsNoPaths fixed.now.plan fixed.now.round }
        ensures { IfOk result (AreLineTrees fixed.now) }
    {
        // `as_count` is called for its clause that a graph has few ASes.
        let (alloc, _count) = (fixed.alloc, fixed.graph.as_count());
        let by_rank = placed_by_rank(alloc, fixed.graph, fixed.ranks)?;
        let links = PlacedLinks::of(alloc, fixed.graph, &by_rank)?;
        let order = AsPlaces::of(alloc, by_rank.ases.as_slice())?;
        let count = order.len();
        let prefixes = blank_trees(fixed, &order)?;
        let kinds = Vec::from_elem(alloc, Kind::Plain, count)?;
        let ends = Ends::none(alloc, count)?;
        Ok(LineTrees {
            order,
            links,
            kinds,
            prefixes,
            ends,
        })
    }

    /// Takes the trees to the policies of the book, whatever they were. It takes no memory. Where an AS marks the trees cannot
    /// serve: then they stay, and the answer is false.
    pub fn renew(&mut self, fixed: &Fixed<'_>, book: &Book<Kind>) -> bool
        requires fixed { IsFixed fixed.now }
        requires line { AreLineTrees fixed.now self.old }
        ensures right { result ≡ true → AreTreesIn fixed.now book.now self.new }
        ensures stay { result ≡ false → (old : PolicyBook AKind) →
            AreTreesIn fixed.now old self.old → AreTreesIn fixed.now old self.new }
    {
        let ases = self.order.as_slice();
        if !take_kinds(ases, book, self.kinds.as_mut_slice()) {
            return false;
        }
        let placed = Placed {
            ases,
            links: &self.links,
            policies: self.kinds.as_slice(),
        };
        let prefixes = self.prefixes.as_mut_slice();
        renew_all(fixed, book, &placed, prefixes, &mut self.ends);
        true
    }

    // How many packets end at an AS.
    fn count_at(&self, asn: Asn) -> u64
        requires { length self.now.order.ases ≤ MOST_ASES }
        ensures { result ≡ count_by_ends self.now (fate.At asn) }
    {
        match self.order.place(asn) {
            Some(place) => self.ends.count(place as u32 + 1),
            None => 0,
        }
    }

    /// Of how many ASes the packets have this fate. None runs in a loop.
    pub fn count(&self, fate: Fate) -> u64
        requires { length self.now.order.ases ≤ MOST_ASES }
        ensures { result ≡ count_by_ends self.now fate }
    {
        match fate {
            Fate::At(asn) => self.count_at(asn),
            Fate::NoRoute => self.ends.count(0),
            Fate::Loop => 0,
        }
    }
}
