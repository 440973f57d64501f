//! Marks and groups of places, with the sums that count them.
ghost use Rattle.std.specs.Prelude.{◌≡◌, ℕ, ◌+◌, ◌<◌, ◌≤◌, Bool, true, length, slice_set, if◌then◌else◌, Option, IfSome, IfNone};
ghost use Rattle.data_trace.specs.declared.places.TheConstants.{PLACE_LIMIT};
ghost use Rattle.data_trace.specs.declared.kinds.End.{End as AnEnd};
ghost use Rattle.data_trace.specs.declared.places.PlaceEnd.TheVariants as APlaceEnd;
ghost use Rattle.data_trace.specs.declared.places.Mark.TheVariants as AMark;
ghost use Rattle.data_trace.specs.Marks.{mark_of};
ghost use Rattle.data_trace.specs.Sums.{total, room_of};
ghost use Rattle.data_trace.specs.Counted.{kept_end, adds, AreCounted, CanCount};

use crate::End;
use crate::packed::{PackedMark, mark_in, write_mark};
use crate::places::{Group, Mark, PlaceEnd, Standing};
use crate::sums::Sums;
use net_names::Asn;

/// The end that a mark tells, if it tells one, with the AS in place of its place.
pub fn end_told(ases: &[Asn], mark: Mark) -> Option<End>
    requires { (y : ℕ) → mark ≡ AMark.Known (APlaceEnd.At y) → y < length ases.now }
    ensures { result ≡ kept_end ases.now mark }
{
    match mark {
        Mark::Known(end) => match end {
            PlaceEnd::At(place) => Some(End::At(ases[place as usize])),
            PlaceEnd::NoRoute => Some(End::NoRoute),
            PlaceEnd::Loop => Some(End::Loop),
        },
        Mark::Unknown => None,
        Mark::Walked => None,
    }
}

// The end under which an AS with this end and these groups is counted, and whether it is counted as one
// without customers; `None` if it is not counted.
fn counted(end: Option<End>, group: Group) -> Option<(End, bool)>
    ensures some { IfSome result (λ k. (p : AnEnd → Bool → ℕ → Bool) →
        adds p end group ≡ (if p k.0 k.1 group.label then 1 else 0)) }
    ensures none { IfNone result ((p : AnEnd → Bool → ℕ → Bool) → adds p end group ≡ 0) }
{
    let end = end?;
    match group.standing {
        Standing::Gone => None,
        Standing::Stub => Some((end, true)),
        Standing::Transit => Some((end, false)),
    }
}

// Counts an AS with this end and these groups.
fn join(sums: &mut Sums, end: Option<End>, group: Group)
    requires room { total (λ e s l. true) sums.old + adds (λ e s l. true) end group ≤ room_of sums.old }
    requires few { total (λ e s l. true) sums.old + adds (λ e s l. true) end group < PLACE_LIMIT }
    ensures added { (p : AnEnd → Bool → ℕ → Bool) → total p sums.new ≡ total p sums.old + adds p end group }
    ensures room { room_of sums.old ≤ room_of sums.new }
{
    if let Some((end, stub)) = counted(end, group) {
        sums.add(end, stub, group.label);
    }
}

// Counts an AS with this end and these groups no more.
fn leave(sums: &mut Sums, end: Option<End>, group: Group)
    requires { (p : AnEnd → Bool → ℕ → Bool) → adds p end group ≤ total p sums.old }
    ensures taken { (p : AnEnd → Bool → ℕ → Bool) → total p sums.new + adds p end group ≡ total p sums.old }
    ensures room { room_of sums.old ≤ room_of sums.new }
{
    if let Some((end, stub)) = counted(end, group) {
        sums.take(end, stub, group.label);
    }
}

/// Marks a place.
pub fn put_mark(
    sums: &mut Sums,
    ases: &[Asn],
    marks: &mut [PackedMark],
    groups: &[Group],
    place: u32,
    mark: Mark,
)
    requires inside { place < length ases.now }
    requires below { (y : ℕ) → mark ≡ AMark.Known (APlaceEnd.At y) → y < length ases.now }
    requires sums { CanCount sums.old ases.now marks.old groups.now }
    ensures marks { marks.new ≡ slice_set marks.old place mark }
    ensures counted { AreCounted sums.new ases.now marks.new groups.now }
    ensures room { room_of sums.old ≤ room_of sums.new }
{
    let group = groups[place as usize];
    leave(sums, end_told(ases, mark_in(marks, place)), group);
    write_mark(marks, place, mark);
    join(sums, end_told(ases, mark), group);
}

/// Puts a place into its groups.
pub fn put_group(
    sums: &mut Sums,
    ases: &[Asn],
    marks: &[PackedMark],
    groups: &mut [Group],
    place: u32,
    group: Group,
)
    requires inside { place < length ases.now }
    requires sums { CanCount sums.old ases.now marks.now groups.old }
    ensures groups { groups.new ≡ slice_set groups.old place group }
    ensures counted { AreCounted sums.new ases.now marks.now groups.new }
    ensures room { room_of sums.old ≤ room_of sums.new }
{
    let end = end_told(ases, mark_in(marks, place));
    leave(sums, end, groups[place as usize]);
    groups[place as usize] = group;
    let end = end_told(ases, mark_in(marks, place));
    join(sums, end, groups[place as usize]);
}

/// Counts all places, of which none is counted yet.
pub fn count_all(sums: &mut Sums, ases: &[Asn], marks: &[PackedMark], groups: &[Group])
    requires few { length ases.now < PLACE_LIMIT }
    requires marks_len { length marks.now ≡ length ases.now }
    requires groups_len { length groups.now ≡ length ases.now }
    requires below { (x y : ℕ) → mark_of marks.now x ≡ AMark.Known (APlaceEnd.At y) → y < length ases.now }
    requires none { (p : AnEnd → Bool → ℕ → Bool) → total p sums.old ≡ 0 }
    requires room { length ases.now ≤ room_of sums.old }
    ensures { AreCounted sums.new ases.now marks.now groups.now }
{
    'places: for place in 0..ases.len() {
        let end = end_told(ases, mark_in(marks, place as u32));
        join(sums, end, groups[place]);
    }
}
