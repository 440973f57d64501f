//! Tables of a round, and the seeds of a table, worked by hand.
use super::worlds::{main_prefix, number, prefix};
use net_names::{Asn, Class, Prefix};
use path_pool::PathPool;
use route_choice::{Held, Overlay, RoundTables, SeedHeld, SeedIds, Table};
use std::alloc::Global;
use std::process::Abort;

// The table of the prefix in which only this AS holds something.
fn one_holds(rt: &impl Abort, alloc: Global, prefix: Prefix, asn: Asn, held: &Held) -> Table {
    let mut overlay = Overlay::new(alloc);
    overlay.room(1).expect(rt, "memory");
    overlay.put(asn, Some(*held));
    Table::from_changes(prefix, overlay)
}

fn expect_held(
    rt: &impl Abort,
    tables: &RoundTables,
    prefix: Prefix,
    asn: Asn,
    held: Option<Held>,
) {
    let table = tables.table(prefix).expect(rt, "a table");
    assert!(rt; table.prefix() == prefix && table.get(asn) == held);
}

// Puts the table in place of that of the prefix.
fn put_in(rt: &impl Abort, tables: &mut RoundTables, prefix: Prefix, changed: Table) {
    let table = tables.table_mut(prefix).expect(rt, "a table");
    *table = changed;
}

#[test]
fn each_of_two_prefixes_has_a_table_of_its_own(rt: HostRuntime) {
    let (one, other) = (main_prefix(&rt), prefix(&rt, b"2001:db8::/32"));
    let five = number(&rt, 5);
    let mut pool = PathPool::new(rt.alloc(), 1);
    pool.reserve(1).expect(&rt, "room");
    let held = Held {
        class: Class::Origin,
        path: pool.cons(five, None),
        otc: None,
    };
    let (empty, silent) = (Table::new(rt.alloc(), one), Table::new(rt.alloc(), other));
    let changed = one_holds(&rt, rt.alloc(), other, five, &held);
    let mut tables = RoundTables::new(rt.alloc());
    tables.push(empty).expect(&rt, "memory");
    assert!(rt; tables.table(other).is_none());
    tables.push(silent).expect(&rt, "memory");
    put_in(&rt, &mut tables, other, changed);
    expect_held(&rt, &tables, one, five, None);
    expect_held(&rt, &tables, other, five, Some(held));
}

#[test]
fn the_seed_of_an_as_is_found(rt: HostRuntime) {
    let (two, four) = (number(&rt, 2), number(&rt, 4));
    let mut pool = PathPool::new(rt.alloc(), 1);
    pool.reserve(1).expect(&rt, "room");
    let seed = SeedHeld {
        path: pool.cons(four, None),
        otc: Some(two),
    };
    let mut seeds = SeedIds::new(rt.alloc());
    seeds.put(four, seed).expect(&rt, "memory");
    assert!(rt; seeds.get(four) == Some(seed) && seeds.get(two).is_none());
}
