//! Places whose ends are sought anew, and all whose packets pass them.
ghost use Rattle.std.specs.Prelude.{◌≡◌, ◌+◌, ◌<◌, ◌≤◌, count_by, take, length, vec_capacity, IfSome, Some, None, if◌then◌else◌};
ghost use Rattle.data_trace.specs.Marks.{is_known};
ghost use Rattle.data_trace.specs.Lists.{link_at, AreBelow};
ghost use Rattle.data_trace.specs.Spreads.{IsFront, HasSpread, Forgets};
ghost use Rattle.data_trace.specs.Sums.{room_of};
ghost use Rattle.data_trace.specs.Counted.{AreCounted, CanCount};

use crate::counting::put_mark;
use crate::packed::{PackedMark, mark_in};
use crate::places::{Group, Lead, Mark};
use crate::sums::Sums;
use net_names::Asn;

/// Makes a place unknown, and puts it into the queue unless it is there already.
pub fn forget_place(
    sums: &mut Sums,
    ases: &[Asn],
    marks: &mut [PackedMark],
    groups: &[Group],
    queue: &mut Vec<u32>,
    x: u32,
)
    requires inside { x < length marks.old }
    requires queued { length queue.old.items + count_by is_known marks.old ≤ vec_capacity queue.old }
    requires sums { CanCount sums.old ases.now marks.old groups.now }
    ensures forgets { Forgets (Some x) marks.old queue.old.items marks.new queue.new.items }
    ensures counted { AreCounted sums.new ases.now marks.new groups.now }
    ensures room { vec_capacity queue.old ≤ vec_capacity queue.new }
    ensures sums_room { room_of sums.old ≤ room_of sums.new }
{
    let is_new = mark_in(marks, x) != Mark::Unknown;
    put_mark(sums, ases, marks, groups, x, Mark::Unknown);
    if is_new && queue.push(x).is_err() {
        unreachable!();
    }
}

// Makes `x`, if it is a place, unknown, and puts it into the queue unless it is there already.
fn forget(
    sums: &mut Sums,
    ases: &[Asn],
    marks: &mut [PackedMark],
    groups: &[Group],
    queue: &mut Vec<u32>,
    x: Lead,
)
    requires inside { IfSome x (λ a. a < length marks.old) }
    requires queued { length queue.old.items + count_by is_known marks.old ≤ vec_capacity queue.old }
    requires sums { CanCount sums.old ases.now marks.old groups.now }
    ensures forgets { Forgets x marks.old queue.old.items marks.new queue.new.items }
    ensures counted { AreCounted sums.new ases.now marks.new groups.now }
    ensures room { vec_capacity queue.old ≤ vec_capacity queue.new }
    ensures sums_room { room_of sums.old ≤ room_of sums.new }
{
    if let Some(a) = x {
        forget_place(sums, ases, marks, groups, queue, a);
    }
}

// The place after `at` in its list; a root stands in no list.
fn behind(after: &[Lead], at: usize, is_root: bool) -> Lead
    requires { at < length after.now }
    ensures { result ≡ (if is_root then None else link_at after.now at) }
{
    if is_root { None } else { after[at] }
}

/// Forgets the ends of all whose packets pass a place of the queue.
pub fn spread(
    sums: &mut Sums,
    ases: &[Asn],
    marks: &mut [PackedMark],
    groups: &[Group],
    first: &[Lead],
    after: &[Lead],
    queue: &mut Vec<u32>,
)
    requires first { AreBelow first.now (length marks.old) }
    requires after { AreBelow after.now (length marks.old) }
    requires first_len { length first.now ≡ length marks.old }
    requires after_len { length after.now ≡ length marks.old }
    requires front { IsFront marks.old marks.old queue.old.items }
    requires room { length marks.old ≤ vec_capacity queue.old }
    requires sums { CanCount sums.old ases.now marks.old groups.now }
    ensures front { IsFront marks.old marks.new queue.new.items }
    ensures spread { HasSpread (link_at first.now) (link_at after.now) marks.new queue.new.items
        (length queue.old.items) (length queue.new.items) }
    ensures roots { take (length queue.old.items) queue.new.items ≡ queue.old.items }
    ensures counted { AreCounted sums.new ases.now marks.new groups.now }
    ensures room { vec_capacity queue.old ≤ vec_capacity queue.new }
    ensures sums_room { room_of sums.old ≤ room_of sums.new }
{
    let roots = queue.len();
    let mut done = 0;
    'spread: while done < queue.len() {
        let at = queue[done] as usize;
        forget(sums, ases, marks, groups, queue, first[at]);
        let is_root = done < roots;
        let next = behind(after, at, is_root);
        forget(sums, ases, marks, groups, queue, next);
        done += 1;
    }
}
