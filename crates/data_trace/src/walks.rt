//! The ends of all places, by walks that mark what they pass.
ghost use Rattle.std.specs.Prelude.{◌≡◌, ◌≢◌, ℕ, ◌<◌, ◌≤◌, [], length, slice_index, vec_capacity};
ghost use Rattle.data_trace.specs.declared.places.TheConstants.{PLACE_LIMIT};
ghost use Rattle.data_trace.specs.Marks.{next_of, mark_of, end_in, IsWithin, AreRight, IsWalked, Settles};
ghost use Rattle.data_trace.specs.declared.places.PlaceEnd.TheVariants as APlaceEnd;
ghost use Rattle.data_trace.specs.Sums.{room_of};
ghost use Rattle.data_trace.specs.Counted.{AreCounted, CanCount};
ghost use Rattle.data_trace.specs.declared.places.Mark.TheVariants as AMark;

use crate::counting::put_mark;
use crate::packed::{PackedHop, PackedMark, hop_in, mark_in, write_mark};
use crate::places::{Group, Mark, PlaceEnd, PlaceHop};
use crate::sums::Sums;
use net_names::Asn;

// Walks from `from` to a place whose end is known, and says which end that is.
fn walk(hops: &[PackedHop], marks: &mut [PackedMark], path: &mut Vec<u32>, from: u32) -> PlaceEnd
    requires within { IsWithin hops.now }
    requires len { length marks.old ≡ length hops.now }
    requires inside { from < length hops.now }
    requires right { AreRight (next_of hops.now) marks.old }
    requires empty { path.old.items ≡ [] }
    requires room { length hops.now ≤ vec_capacity path.old }
    requires below { (x y : ℕ) → mark_of marks.old x ≡ AMark.Known (APlaceEnd.At y) → y < length hops.now }
    ensures walked { IsWalked (next_of hops.now) marks.old marks.new path.new.items from result }
    ensures same { (x : ℕ) → end_in (mark_of marks.new x) ≡ end_in (mark_of marks.old x) }
    ensures below { (y : ℕ) → result ≡ APlaceEnd.At y → y < length hops.now }
    ensures room { vec_capacity path.old ≤ vec_capacity path.new }
{
    let mut at = from;
    'steps: loop {
        match mark_in(marks, at) {
            Mark::Known(end) => return end,
            Mark::Walked => return PlaceEnd::Loop,
            Mark::Unknown => {
                write_mark(marks, at, Mark::Walked);
                if path.push(at).is_err() {
                    unreachable!();
                }
                match hop_in(hops, at) {
                    PlaceHop::Here => return PlaceEnd::At(at),
                    PlaceHop::NoRoute => return PlaceEnd::NoRoute,
                    PlaceHop::To(next) => at = next,
                }
            }
        }
    }
}

// Finds the end of `from`, and of all that it passes.
fn settle(
    sums: &mut Sums,
    ases: &[Asn],
    hops: &[PackedHop],
    marks: &mut [PackedMark],
    groups: &[Group],
    path: &mut Vec<u32>,
    from: u32,
)
    requires within { IsWithin hops.now }
    requires len { length marks.old ≡ length hops.now }
    requires inside { from < length hops.now }
    requires right { AreRight (next_of hops.now) marks.old }
    requires room { length hops.now ≤ vec_capacity path.old }
    requires sums { CanCount sums.old ases.now marks.old groups.now }
    ensures settles { Settles (next_of hops.now) marks.old marks.new from }
    ensures counted { AreCounted sums.new ases.now marks.new groups.now }
    ensures room { vec_capacity path.old ≤ vec_capacity path.new }
    ensures sums_room { room_of sums.old ≤ room_of sums.new }
{
    path.clear();
    let end = walk(hops, marks, path, from);
    'path: for at in path.as_slice() {
        put_mark(sums, ases, marks, groups, *at, Mark::Known(end));
    }
}

/// Finds the ends of these places, and of all that their packets pass.
pub fn settle_each(
    sums: &mut Sums,
    ases: &[Asn],
    hops: &[PackedHop],
    marks: &mut [PackedMark],
    groups: &[Group],
    path: &mut Vec<u32>,
    places: &[u32],
)
    requires within { IsWithin hops.now }
    requires len { length marks.old ≡ length hops.now }
    requires places { (k : ℕ) → k < length places.now → slice_index places.now k < length hops.now }
    requires right { AreRight (next_of hops.now) marks.old }
    requires room { length hops.now ≤ vec_capacity path.old }
    requires sums { CanCount sums.old ases.now marks.old groups.now }
    ensures right { AreRight (next_of hops.now) marks.new }
    ensures kept { (x : ℕ) → mark_of marks.old x ≢ AMark.Unknown → mark_of marks.new x ≡ mark_of marks.old x }
    ensures known { (k : ℕ) → k < length places.now → mark_of marks.new (slice_index places.now k) ≢ AMark.Unknown }
    ensures counted { AreCounted sums.new ases.now marks.new groups.now }
    ensures room { vec_capacity path.old ≤ vec_capacity path.new }
    ensures sums_room { room_of sums.old ≤ room_of sums.new }
{
    'places: for place in places {
        settle(sums, ases, hops, marks, groups, path, *place);
    }
}

// Finds the end of `from`, and of all that it passes, of which no sums are kept.
fn find_end(hops: &[PackedHop], marks: &mut [PackedMark], path: &mut Vec<u32>, from: u32)
    requires within { IsWithin hops.now }
    requires few { length hops.now < PLACE_LIMIT }
    requires len { length marks.old ≡ length hops.now }
    requires inside { from < length hops.now }
    requires right { AreRight (next_of hops.now) marks.old }
    requires below { (x y : ℕ) → mark_of marks.old x ≡ AMark.Known (APlaceEnd.At y) → y < length hops.now }
    requires room { length hops.now ≤ vec_capacity path.old }
    ensures settles { Settles (next_of hops.now) marks.old marks.new from }
    ensures below { (x y : ℕ) → mark_of marks.new x ≡ AMark.Known (APlaceEnd.At y) → y < length hops.now }
    ensures room { vec_capacity path.old ≤ vec_capacity path.new }
{
    path.clear();
    let end = walk(hops, marks, path, from);
    'path: for at in path.as_slice() {
        write_mark(marks, *at, Mark::Known(end));
    }
}

/// Finds the ends of all places.
pub fn find_all(hops: &[PackedHop], marks: &mut [PackedMark], path: &mut Vec<u32>)
    requires within { IsWithin hops.now }
    requires few { length hops.now < PLACE_LIMIT }
    requires len { length marks.old ≡ length hops.now }
    requires right { AreRight (next_of hops.now) marks.old }
    requires below { (x y : ℕ) → mark_of marks.old x ≡ AMark.Known (APlaceEnd.At y) → y < length hops.now }
    requires room { length hops.now ≤ vec_capacity path.old }
    ensures right { AreRight (next_of hops.now) marks.new }
    ensures len { length marks.new ≡ length hops.now }
    ensures all_known { (x : ℕ) → x < length hops.now → mark_of marks.new x ≢ AMark.Unknown }
    ensures below { (x y : ℕ) → mark_of marks.new x ≡ AMark.Known (APlaceEnd.At y) → y < length hops.now }
{
    'places: for from in 0..hops.len() {
        find_end(hops, marks, path, from as u32);
    }
}
