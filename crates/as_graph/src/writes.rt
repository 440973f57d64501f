//! Writes of the rows of a graph.
ghost use Rattle.std.specs.Prelude.{◌≡◌, ◌≢◌, ◌≤◌, ◌&&◌, ℕ, length, nat_eq, true, None, Some, vec_capacity, IsOk, OnOk};
ghost use Rattle.std.specs.List.Sorted.{IsStrictlyIncreasing};
ghost use Rattle.indexmap.specs.IndexMap.{ContainsKey, IsUnique, index_map_len};
ghost use Rattle.net_names.specs.Prelude.{converse, occurs};
ghost use Rattle.as_graph.specs.Graphs.{rel_of, is_there, IsGraph};
ghost use Rattle.as_graph.specs.Writes.{has_room_at, HasRoomFor, KeepsRows, SetsEnd, SetsLink, SetsMark};

use crate::order::unlist;
use crate::places::Places;
use crate::row::Row;
use indexmap::IndexMap;
use net_names::{Asn, Rel};
use std::alloc::{AllocError, Global};

/// Makes a row for an AS that has none, and a place for it in the order.
pub fn make_row(
    rows: &mut IndexMap<Asn, Row>,
    order: &mut Vec<Asn>,
    alloc: Global,
    asn: Asn,
) -> Result<(), AllocError>
    requires { IsUnique nat_eq rows.old }
    ensures keeps { KeepsRows rows.old rows.new }
    ensures there { OnOk result (ContainsKey nat_eq rows.new asn) }
    ensures order { order.new.items ≡ order.old.items }
    ensures places { index_map_len rows.old ≤ vec_capacity order.old → index_map_len rows.new ≤ vec_capacity order.new }
    ensures succeeds { ContainsKey nat_eq rows.old asn → IsOk result }
{
    if rows.contains_key(&asn) {
        return Ok(());
    }
    let Some(count) = rows.len().checked_add(1) else {
        return Err(AllocError);
    };
    order.reserve(count.saturating_sub(order.len()))?;
    rows.insert(asn, Row::new(alloc))?;
    Ok(())
}

// Makes room for one more neighbour in the row of an AS.
fn reserve_end(rows: &mut IndexMap<Asn, Row>, asn: Asn) -> Result<(), AllocError>
    requires { ContainsKey nat_eq rows.old asn }
    ensures keeps { KeepsRows rows.old rows.new }
    ensures count { index_map_len rows.new ≡ index_map_len rows.old }
    ensures room { OnOk result (has_room_at rows.new asn ≡ true) }
    ensures succeeds { has_room_at rows.old asn ≡ true → IsOk result }
{
    let Some(row) = rows.get_mut(&asn) else {
        unreachable!();
    };
    row.reserve()
}

/// Makes rows of two ASes, each with room for one more neighbour.
pub fn make_ends(
    rows: &mut IndexMap<Asn, Row>,
    order: &mut Vec<Asn>,
    alloc: Global,
    a: Asn,
    b: Asn,
) -> Result<(), AllocError>
    requires { IsUnique nat_eq rows.old }
    ensures keeps { KeepsRows rows.old rows.new }
    ensures room { OnOk result ((has_room_at rows.new a ≡ true) × (has_room_at rows.new b ≡ true)) }
    ensures order { order.new.items ≡ order.old.items }
    ensures places { index_map_len rows.old ≤ vec_capacity order.old → index_map_len rows.new ≤ vec_capacity order.new }
    ensures succeeds { has_room_at rows.old a ≡ true → has_room_at rows.old b ≡ true → IsOk result }
{
    make_row(rows, order, alloc, a)?;
    reserve_end(rows, a)?;
    make_row(rows, order, alloc, b)?;
    reserve_end(rows, b)
}

/// Makes room for one more place in the list of each of two rows, as far as memory serves.
pub fn reserve_places(
    rows: &IndexMap<Asn, Row>,
    places: &mut Places,
    alloc: Global,
    a: Asn,
    b: Asn,
) {
    places.reserve(alloc, rows.get_index_of(&a));
    places.reserve(alloc, rows.get_index_of(&b));
}

// Sets what a neighbour is, in one row. Returns the place of a new neighbour.
fn put_end(rows: &mut IndexMap<Asn, Row>, a: Asn, b: Asn, rel: Rel) -> Option<usize>
    requires there { ContainsKey nat_eq rows.old a }
    requires room { rel_of rows.old a b ≡ None → has_room_at rows.old a ≡ true }
    ensures { SetsEnd rows.old rows.new a b (Some rel) }
{
    let Some(row) = rows.get_mut(&a) else {
        unreachable!();
    };
    row.put(b, rel)
}

// Takes a neighbour out of one row. Returns the place where it was.
fn take_end(rows: &mut IndexMap<Asn, Row>, a: Asn, b: Asn) -> Option<usize>
    requires { rel_of rows.old a b ≢ None }
    ensures sets { SetsEnd rows.old rows.new a b None }
    ensures freed { has_room_at rows.new a ≡ true }
{
    let Some(row) = rows.get_mut(&a) else {
        unreachable!();
    };
    row.take(b)
}

/// Sets the link of two ASes: `rel` is what `b` is to `a`.
pub fn put_link(rows: &mut IndexMap<Asn, Row>, places: &mut Places, a: Asn, b: Asn, rel: Rel)
    requires differ { a ≢ b }
    requires graph { IsGraph rows.old }
    requires first { ContainsKey nat_eq rows.old a }
    requires second { ContainsKey nat_eq rows.old b }
    requires room { HasRoomFor rows.old a b }
    ensures { SetsLink rows.old rows.new a b (Some rel) }
{
    let at_a = put_end(rows, a, b, rel);
    let at_b = put_end(rows, b, a, rel.converse());
    places.put(rows.get_index_of(&a), at_a, rows.get_index_of(&b));
    places.put(rows.get_index_of(&b), at_b, rows.get_index_of(&a));
}

/// Takes the link of two ASes away.
pub fn take_link(rows: &mut IndexMap<Asn, Row>, places: &mut Places, a: Asn, b: Asn)
    requires graph { IsGraph rows.old }
    requires linked { rel_of rows.old a b ≢ None }
    ensures sets { SetsLink rows.old rows.new a b None }
    ensures first { has_room_at rows.new a ≡ true }
    ensures second { has_room_at rows.new b ≡ true }
{
    let at_a = take_end(rows, a, b);
    let at_b = take_end(rows, b, a);
    places.take(rows.get_index_of(&a), at_a);
    places.take(rows.get_index_of(&b), at_b);
}

/// Marks the AS of a row, or takes its mark away.
pub fn set_mark(rows: &mut IndexMap<Asn, Row>, asn: Asn, mark: bool)
    requires { ContainsKey nat_eq rows.old asn }
    ensures { SetsMark rows.old rows.new asn mark }
{
    let Some(row) = rows.get_mut(&asn) else {
        unreachable!();
    };
    row.set_mark(mark);
}

/// Takes an AS out of the order, where its row is not needed any more.
pub fn unlist_lone(rows: &IndexMap<Asn, Row>, order: &mut Vec<Asn>, asn: Asn)
    requires { IsStrictlyIncreasing order.old.items }
    ensures this { occurs asn order.new.items ≡ (is_there rows.now asn && occurs asn order.old.items) }
    ensures others { (a : ℕ) → a ≢ asn → occurs a order.new.items ≡ occurs a order.old.items }
    ensures rising { IsStrictlyIncreasing order.new.items }
    ensures len { length order.new.items ≤ length order.old.items }
    ensures places { vec_capacity order.new ≡ vec_capacity order.old }
{
    match rows.get(&asn) {
        Some(row) if row.is_needed() => {}
        _ => unlist(order, asn),
    }
}
