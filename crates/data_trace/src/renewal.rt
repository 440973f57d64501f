//! New next hops, and the ends that they change.
ghost use Rattle.std.specs.Prelude.{◌≡◌, ℕ, ◌<◌, ◌≤◌, true, false, length, vec_capacity};
ghost use Rattle.net_names.specs.Prelude.{occurs};
ghost use Rattle.as_graph.specs.Prelude.{has};
ghost use Rattle.stability_laws.specs.Prelude.{policy_at};
ghost use Rattle.data_trace.specs.Marks.{next_of, hop_at, IsWithin, AreEnds};
ghost use Rattle.data_trace.specs.Keeping.{HasRoom, AreKept};
ghost use Rattle.data_trace.specs.Sums.{room_of};
ghost use Rattle.data_trace.specs.Counted.{AreCounted, CanCount};
ghost use Rattle.data_trace.specs.Columns.{named, name_at, group_at, AreHops, IsGroup};
ghost use Rattle.data_trace.specs.Sources.{sends};

use crate::columns::{Columns, group_now};
use crate::counting::put_group;
use crate::differing::Differing;
use crate::keeping::Lists;
use crate::leaving::detach;
use crate::lists::relink;
use crate::source::Source;
use crate::spreading::spread;
use crate::walks::settle_each;
use as_graph::Graph;
use as_places::AsPlaces;
use net_names::Asn;
use policy_laws::Labelled;
use stability_laws::Book;

/// Puts the places of these ASes into their groups. An AS without a place is passed over. The place
/// where the row of one of them stands is a hint.
pub fn regroup<P: Labelled>(
    ases: &AsPlaces,
    columns: &mut Columns,
    graph: &Graph,
    book: &Book<P>,
    regrouped: &[Asn],
    near: usize,
)
    requires sums { CanCount columns.old.sums ases.now.ases columns.old.marks.items columns.old.groups.items }
    ensures regrouped { (x : ℕ) → x < length ases.now.ases → occurs (name_at ases.now.ases x) regrouped.now ≡ true →
        IsGroup graph.now (λ a. P.label_of (policy_at book.now a)) (name_at ases.now.ases x)
        (group_at columns.new.groups.items x) }
    ensures others { (x : ℕ) → x < length ases.now.ases → occurs (name_at ases.now.ases x) regrouped.now ≡ false →
        group_at columns.new.groups.items x ≡ group_at columns.old.groups.items x }
    ensures counted { AreCounted columns.new.sums ases.now.ases columns.new.marks.items columns.new.groups.items }
    ensures hops { columns.new.hops ≡ columns.old.hops }
    ensures marks { columns.new.marks ≡ columns.old.marks }
    ensures groups_room { vec_capacity columns.new.groups ≡ vec_capacity columns.old.groups }
    ensures sums_room { room_of columns.old.sums ≤ room_of columns.new.sums }
{
    let sums = &mut columns.sums;
    let marks = columns.marks.as_slice();
    let groups = columns.groups.as_mut_slice();
    'regrouped: for asn in regrouped {
        let row = graph.place_near(*asn, near);
        let Some(place) = ases.place_near(*asn, row) else {
            continue 'regrouped;
        };
        let group = group_now(graph, book, *asn, row);
        put_group(sums, ases.as_slice(), marks, groups, place as u32, group);
    }
}

/// Gives the places of these ASes their new next hops, and finds the ends that this may change. The place
/// where the row of one of them stands is a hint.
pub fn renew(
    source: &Source,
    ases: &AsPlaces,
    columns: &mut Columns,
    lists: &mut Lists,
    differing: &Differing<'_>,
    near: usize,
)
    requires listed { (a : ℕ) → has source.now.graph.now a ≡ true → occurs a ases.now.ases ≡ true }
    requires len { length columns.old.hops.items ≡ length ases.now.ases }
    requires within { IsWithin columns.old.hops.items }
    requires others { (x : ℕ) → x < length ases.now.ases →
        occurs (name_at ases.now.ases x) differing.now.hops.now ≡ false →
        occurs (name_at ases.now.ases x) differing.now.groups.now ≡ false →
        named ases.now.ases (hop_at columns.old.hops.items x) ≡ sends source.now (name_at ases.now.ases x) }
    requires ends { AreEnds (next_of columns.old.hops.items) (length columns.old.hops.items) columns.old.marks.items }
    requires lists { AreKept columns.old.hops.items (length ases.now.ases) lists.old }
    requires sums { CanCount columns.old.sums ases.now.ases columns.old.marks.items columns.old.groups.items }
    ensures hops { AreHops (sends source.now) ases.now.ases columns.new.hops.items }
    ensures within { IsWithin columns.new.hops.items }
    ensures ends { AreEnds (next_of columns.new.hops.items) (length columns.new.hops.items) columns.new.marks.items }
    ensures lists { (n : ℕ) → HasRoom n lists.old → AreKept columns.new.hops.items n lists.new }
    ensures counted { AreCounted columns.new.sums ases.now.ases columns.new.marks.items columns.new.groups.items }
    ensures groups { columns.new.groups ≡ columns.old.groups }
    ensures sums_room { room_of columns.old.sums ≤ room_of columns.new.sums }
    ensures hops_room { vec_capacity columns.new.hops ≡ vec_capacity columns.old.hops }
    ensures marks_room { vec_capacity columns.new.marks ≡ vec_capacity columns.old.marks }
{
    lists.queue.clear();
    detach(source, ases, columns, lists, differing.hops, near);
    detach(source, ases, columns, lists, differing.groups, near);
    let count = lists.queue.len();
    let numbers = ases.as_slice();
    spread(
        &mut columns.sums,
        numbers,
        columns.marks.as_mut_slice(),
        columns.groups.as_slice(),
        lists.first.as_slice(),
        lists.after.as_slice(),
        &mut lists.queue,
    );
    let places = lists.queue.as_slice();
    let roots = &places[..count];
    let hops = columns.hops.as_slice();
    relink(
        hops,
        lists.first.as_mut_slice(),
        lists.before.as_mut_slice(),
        lists.after.as_mut_slice(),
        roots,
    );
    settle_each(
        &mut columns.sums,
        numbers,
        hops,
        columns.marks.as_mut_slice(),
        columns.groups.as_slice(),
        &mut lists.path,
        places,
    );
}
