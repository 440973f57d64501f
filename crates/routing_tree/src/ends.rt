//! At whom the packets of each AS end.

ghost use Rattle.std.specs.Prelude.{◌≡◌, ◌↔◌, ◌<◌, ◌≤◌, ◌==◌, ℕ, List, length, set, slice_index, count_by, IfOk};
ghost use Rattle.as_graph.specs.declared.build.TheConstants.{MOST_ASES};
ghost use Rattle.data_trace.specs.declared.kinds.Hop.{Hop};
ghost use Rattle.routing_tree.specs.Ends.{AreEnds, FollowOn, SendBy, end_by};
ghost use Rattle.routing_tree.specs.Trees.{HasPlaces, IsLowAt, ParentsComeFirst};

use crate::tree::RoutingTree;
use net_names::NoMemory;
use std::alloc::Global;

/// For each AS, by its place, at whom its packets end, as far as that is known: the place of that AS and one, or 0.
#[derive(Drop)]
pub struct Ends {
    pub(crate) ends: Vec<u32>,
}

impl Ends {
    /// No end of so many is known. The only refusal is want of memory.
    pub fn none(alloc: Global, count: usize) -> Result<Ends, NoMemory>
        ensures count { IfOk result (λ e. length e.ends.items ≡ count) }
        ensures none { IfOk result (λ e. (k : ℕ) → k < count → slice_index e.ends.items k ≡ 0) }
    {
        Ok(Ends {
            ends: Vec::from_elem(alloc, 0u32, count)?,
        })
    }

    /// Forgets all ends.
    pub fn clear(&mut self)
        ensures count { length self.new.ends.items ≡ length self.old.ends.items }
        ensures none { (k : ℕ) → k < length self.old.ends.items → slice_index self.new.ends.items k ≡ 0 }
    {
        self.ends.as_mut_slice().fill(0);
    }

    // The AS at a place gets the end of its parent, or its own where it is its own parent.
    #[inline(always)]
    fn take(&mut self, tree: &RoutingTree, place: usize)
        requires few { length self.old.ends.items ≤ MOST_ASES }
        requires places { HasPlaces (length self.old.ends.items) tree.now }
        requires inside { place < length self.old.ends.items }
        requires parent { slice_index tree.now.parents.items place < length self.old.ends.items }
        ensures { self.new.ends.items ≡ set self.old.ends.items place (end_by self.old.ends.items tree.now place) }
    {
        let parent = tree.parents[place] as usize;
        self.ends[place] = if parent == place {
            place as u32 + 1
        } else {
            self.ends[parent]
        };
    }

    // The AS at a place gets an end, if it has none yet and holds an own or a customer's route. All such ASes at lower
    // places have ends.
    #[inline(always)]
    fn take_low(&mut self, tree: &RoutingTree, place: usize)
        requires few { length self.old.ends.items ≤ MOST_ASES }
        requires places { HasPlaces (length self.old.ends.items) tree.now }
        requires order { ParentsComeFirst tree.now (length self.old.ends.items) }
        requires inside { place < length self.old.ends.items }
        requires lower { (k : ℕ) → k < place → IsLowAt tree.now k → 0 < slice_index self.old.ends.items k }
        ensures on { FollowOn tree.now self.old.ends.items self.new.ends.items }
        ensures known { IsLowAt tree.now place → 0 < slice_index self.new.ends.items place }
    {
        if self.ends[place] == 0 && tree.lengths[place] != 0 && tree.lows[place] {
            self.take(tree, place);
        }
    }

    // The AS at a place gets an end, if it has none yet and holds something. All with an own or a customer's route have
    // ends, and all at higher places that hold something.
    #[inline(always)]
    fn take_high(&mut self, tree: &RoutingTree, place: usize)
        requires few { length self.old.ends.items ≤ MOST_ASES }
        requires places { HasPlaces (length self.old.ends.items) tree.now }
        requires order { ParentsComeFirst tree.now (length self.old.ends.items) }
        requires inside { place < length self.old.ends.items }
        requires low { (k : ℕ) → k < length self.old.ends.items → IsLowAt tree.now k → 0 < slice_index self.old.ends.items k }
        requires higher { (k : ℕ) → place < k → k < length self.old.ends.items →
            0 < slice_index tree.now.lengths.items k → 0 < slice_index self.old.ends.items k }
        ensures on { FollowOn tree.now self.old.ends.items self.new.ends.items }
        ensures known { 0 < slice_index tree.now.lengths.items place → 0 < slice_index self.new.ends.items place }
    {
        if self.ends[place] == 0 && tree.lengths[place] != 0 {
            self.take(tree, place);
        }
    }

    // The ends of those who have none yet and hold an own or a customer's route, the lowest first.
    fn follow_up(&mut self, tree: &RoutingTree)
        requires few { length self.old.ends.items ≤ MOST_ASES }
        requires places { HasPlaces (length self.old.ends.items) tree.now }
        requires order { ParentsComeFirst tree.now (length self.old.ends.items) }
        ensures on { FollowOn tree.now self.old.ends.items self.new.ends.items }
        ensures known { (k : ℕ) → k < length self.old.ends.items → IsLowAt tree.now k → 0 < slice_index self.new.ends.items k }
    {
        for place in 0..self.ends.len() {
            self.take_low(tree, place);
        }
    }

    // The ends of all others who have none yet and hold something, the highest first.
    fn follow_down(&mut self, tree: &RoutingTree)
        requires few { length self.old.ends.items ≤ MOST_ASES }
        requires places { HasPlaces (length self.old.ends.items) tree.now }
        requires order { ParentsComeFirst tree.now (length self.old.ends.items) }
        requires low { (k : ℕ) → k < length self.old.ends.items → IsLowAt tree.now k → 0 < slice_index self.old.ends.items k }
        ensures on { FollowOn tree.now self.old.ends.items self.new.ends.items }
        ensures known { (k : ℕ) → k < length self.old.ends.items → 0 < slice_index tree.now.lengths.items k →
            0 < slice_index self.new.ends.items k }
    {
        let mut left = self.ends.len();
        while left > 0 {
            left -= 1;
            self.take_high(tree, left);
        }
    }

    /// The ends of those who have none yet and hold something in the tree, which is that of a prefix not longer than those
    /// before.
    pub fn follow(&mut self, tree: &RoutingTree)
        requires few { length self.old.ends.items ≤ MOST_ASES }
        requires places { HasPlaces (length self.old.ends.items) tree.now }
        requires order { ParentsComeFirst tree.now (length self.old.ends.items) }
        ensures count { length self.new.ends.items ≡ length self.old.ends.items }
        ensures known { (k : ℕ) → k < length self.old.ends.items → (slice_index self.new.ends.items k ≡ 0) ↔
            ((slice_index self.old.ends.items k ≡ 0) × (slice_index tree.now.lengths.items k ≡ 0)) }
        ensures ends { (next : ℕ → Hop) (ases : List ℕ) → length ases ≡ length self.old.ends.items →
            AreEnds next ases self.old.ends.items → SendBy next ases tree.now self.old.ends.items →
            AreEnds next ases self.new.ends.items }
    {
        self.follow_up(tree);
        self.follow_down(tree);
    }

    /// How many ASes have this end: the place of an AS and one, or 0 where none is known.
    pub fn count(&self, end: u32) -> u64
        ensures { result ≡ count_by (λ e. e == end) self.now.ends.items }
    {
        self.ends.iter().filter(|one| **one == end).count() as u64
    }
}
