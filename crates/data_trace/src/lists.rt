//! Which places send to which: doubly linked lists in three arrays. The list of a place begins at its `first`, and
//! from each place in it `before` and `after` lead to its neighbours.
ghost use Rattle.std.specs.Prelude.{◌≡◌, ◌≢◌, ℕ, ◌<◌, ◌≤◌, [], ◌∷◌, ◌++◌, length, List, slice_index, nat_eq, false, vec_capacity, IfOk, IfSome, Some};
ghost use Rattle.data_trace.specs.declared.places.TheConstants.{PLACE_LIMIT};
ghost use Rattle.std.specs.List.{list_any, IsDistinct};
ghost use Rattle.data_trace.specs.Marks.{IsWithin};
ghost use Rattle.data_trace.specs.Lists.{link_at, AreBelow, LinksFirst, HasLists, AreNone};

use crate::packed::{PackedHop, hop_in};
use crate::places::{Lead, PlaceHop};
use std::alloc::{AllocError, Global};

/// Writes `value` at `at`, if that is a place.
pub fn put_link(links: &mut [Lead], at: Lead, value: Lead)
    requires { IfSome at (λ a. a < length links.old) }
    ensures this { (x : ℕ) → at ≡ Some x → link_at links.new x ≡ value }
    ensures others { (x : ℕ) → at ≢ Some x → link_at links.new x ≡ link_at links.old x }
{
    if let Some(a) = at {
        links[a as usize] = value;
    }
}

// Puts `a` at the head of the list of `b`.
fn link(first: &mut [Lead], before: &mut [Lead], after: &mut [Lead], a: u32, b: u32)
    requires a_inside { (a < length before.old) × (a < length after.old) }
    requires b_inside { b < length first.old }
    requires first_below { AreBelow first.old (length before.old) }
    ensures { LinksFirst (link_at first.old) (link_at before.old) (link_at after.old)
        (link_at first.new) (link_at before.new) (link_at after.new) a b (link_at first.old b) }
{
    let next = first[b as usize];
    first[b as usize] = Some(a);
    after[a as usize] = next;
    before[a as usize] = None;
    put_link(before, next, Some(a));
}

// Puts `a` into the list of the place that it sends to, if there is one.
fn join(hops: &[PackedHop], first: &mut [Lead], before: &mut [Lead], after: &mut [Lead], a: u32)
    requires inside { a < length hops.now }
    requires within { IsWithin hops.now }
    requires lists { (rest : List ℕ) × HasLists hops.now rest first.old before.old after.old }
    ensures { (rest : List ℕ) → HasLists hops.now (a ∷ rest) first.old before.old after.old →
        list_any (nat_eq a) rest ≡ false → HasLists hops.now rest first.new before.new after.new }
{
    let PlaceHop::To(b) = hop_in(hops, a) else {
        return;
    };
    link(first, before, after, a, b);
}

/// Puts the places of `roots`, which are in no list, into the lists of the places that they send to.
pub fn relink(
    hops: &[PackedHop],
    first: &mut [Lead],
    before: &mut [Lead],
    after: &mut [Lead],
    roots: &[u32],
)
    requires within { IsWithin hops.now }
    requires roots { (k : ℕ) → k < length roots.now → slice_index roots.now k < length hops.now }
    requires distinct { IsDistinct nat_eq roots.now }
    requires lists { HasLists hops.now roots.now first.old before.old after.old }
    ensures { HasLists hops.now [] first.new before.new after.new }
{
    'roots: for a in roots {
        join(hops, first, before, after, *a);
    }
}

/// Puts all places, which are in no list, into the lists of the places that they send to.
pub fn link_all(hops: &[PackedHop], first: &mut [Lead], before: &mut [Lead], after: &mut [Lead])
    requires within { IsWithin hops.now }
    requires few { length hops.now < PLACE_LIMIT }
    requires first { AreNone first.old (length hops.now) }
    requires before { AreNone before.old (length hops.now) }
    requires after { AreNone after.old (length hops.now) }
    ensures { HasLists hops.now [] first.new before.new after.new }
{
    'places: for place in 0..hops.len() {
        join(hops, first, before, after, place as u32);
    }
}

/// Puts a value at the end, for which there is room.
pub fn put_last<T: Copy>(values: &mut Vec<T>, value: T)
    requires { length values.old.items < vec_capacity values.old }
    ensures items { values.new.items ≡ values.old.items ++ value ∷ [] }
    ensures room { vec_capacity values.old ≤ vec_capacity values.new }
{
    if values.push(value).is_err() {
        unreachable!();
    }
}

/// So many links that lead nowhere.
pub fn none_links(alloc: Global, count: usize) -> Result<Vec<Lead>, AllocError>
    ensures { IfOk result (λ v. AreNone v.items count) }
{
    vec![in alloc; None; count]
}
