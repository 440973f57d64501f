//! Places whose next hops change, and that are unlinked from the doubly linked lists of the places that they send to.
ghost use Rattle.std.specs.Prelude.{◌≡◌, ℕ, ◌<◌, [], ◌∷◌, ◌++◌, List, length, nat_eq, true, false};
ghost use Rattle.std.specs.List.{list_any};
ghost use Rattle.net_names.specs.Prelude.{occurs};
ghost use Rattle.data_trace.specs.Marks.{IsWithin};
ghost use Rattle.data_trace.specs.Lists.{link_at, AreBelow, Unlinks, HasLists};
ghost use Rattle.data_trace.specs.Columns.{name_at};
ghost use Rattle.data_trace.specs.Sources.{HasHop};
ghost use Rattle.data_trace.specs.Detached.{CanDetach, IsDetached};

use crate::columns::Columns;
use crate::keeping::Lists;
use crate::lists::put_link;
use crate::packed::{PackedHop, hop_in, mark_in, put_hop};
use crate::places::{Lead, Mark, PlaceHop};
use crate::source::Source;
use crate::spreading::forget_place;
use as_places::AsPlaces;
use net_names::Asn;

// Takes `a` out of the list of `b`.
fn unlink(first: &mut [Lead], before: &mut [Lead], after: &mut [Lead], a: u32, b: u32)
    requires a_inside { (a < length before.old) × (a < length after.old) }
    requires b_inside { b < length first.old }
    requires before_below { AreBelow before.old (length after.old) }
    requires after_below { AreBelow after.old (length before.old) }
    ensures { Unlinks (link_at first.old) (link_at before.old) (link_at after.old)
        (link_at first.new) (link_at before.new) (link_at after.new) b (link_at before.old a) (link_at after.old a) }
{
    let previous = before[a as usize];
    let next = after[a as usize];
    put_link(after, previous, next);
    put_link(before, next, previous);
    let place = if previous.is_none() { Some(b) } else { None };
    put_link(first, place, next);
}

// Takes `a` out of its list, if it stands in one.
fn leave(hops: &[PackedHop], first: &mut [Lead], before: &mut [Lead], after: &mut [Lead], a: u32)
    requires inside { a < length hops.now }
    requires within { IsWithin hops.now }
    requires lists { (queue : List ℕ) × HasLists hops.now queue first.old before.old after.old }
    ensures { (queue : List ℕ) → HasLists hops.now queue first.old before.old after.old →
        list_any (nat_eq a) queue ≡ false → HasLists hops.now (queue ++ a ∷ []) first.new before.new after.new }
{
    let PlaceHop::To(b) = hop_in(hops, a) else {
        return;
    };
    unlink(first, before, after, a, b);
}

// Whether two next hops are the same.
fn same_hop(a: PlaceHop, b: PlaceHop) -> bool
    ensures { result ≡ true → a ≡ b }
{
    a == b
}

// Gives `a` the next hop of its AS, whose row is sought first at a place. Where that differs from the one
// that is kept, takes it out of its list and forgets its end.
fn detach_place(
    source: &Source,
    ases: &AsPlaces,
    columns: &mut Columns,
    lists: &mut Lists,
    a: u32,
    row: usize,
)
    requires inside { a < length columns.old.hops.items }
    requires can { CanDetach source.now ases.now.ases columns.old lists.old }
    ensures here { HasHop source.now ases.now.ases columns.new.hops.items a }
    ensures detached { IsDetached source.now ases.now.ases columns.old columns.new lists.old lists.new }
{
    if let Mark::Unknown = mark_in(columns.marks.as_slice(), a) {
        return;
    }
    let numbers = ases.as_slice();
    let hop = source.hop(ases, numbers[a as usize], row);
    if same_hop(hop, hop_in(columns.hops.as_slice(), a)) {
        return;
    }
    leave(
        columns.hops.as_slice(),
        lists.first.as_mut_slice(),
        lists.before.as_mut_slice(),
        lists.after.as_mut_slice(),
        a,
    );
    put_hop(columns.hops.as_mut_slice(), a, hop);
    forget_place(
        &mut columns.sums,
        numbers,
        columns.marks.as_mut_slice(),
        columns.groups.as_slice(),
        &mut lists.queue,
        a,
    );
}

/// Gives the places of these ASes the next hops of their ASes. Takes those out of their lists whose next
/// hops differ, and forgets their ends. An AS without a place is passed over. The place where the row of
/// one of them stands is a hint.
pub fn detach(
    source: &Source,
    ases: &AsPlaces,
    columns: &mut Columns,
    lists: &mut Lists,
    changed: &[Asn],
    near: usize,
)
    requires { CanDetach source.now ases.now.ases columns.old lists.old }
    ensures changed { (x : ℕ) → x < length ases.now.ases → occurs (name_at ases.now.ases x) changed.now ≡ true →
        HasHop source.now ases.now.ases columns.new.hops.items x }
    ensures detached { IsDetached source.now ases.now.ases columns.old columns.new lists.old lists.new }
{
    // `as_slice` is called for its clause that no AS stands twice, which the proof cites
    let _numbers = ases.as_slice();
    'changed: for asn in changed {
        let row = source.graph.place_near(*asn, near);
        let Some(place) = ases.place_near(*asn, row) else {
            continue 'changed;
        };
        detach_place(source, ases, columns, lists, place as u32, row);
    }
}
