//! Choices of ASes, and changes of tables, worked by hand.

ghost use Rattle.std.specs.Prelude.{◌≡◌, ◌<◌, IfOk};
ghost use Rattle.route_choice.specs.Prelude.{CanStep};

use super::worlds::{graph_of, main_prefix, number};
use as_graph::Graph;
use net_names::{Asn, Class, Prefix};
use path_pool::PathPool;
use policy_kinds::Kind;
use policy_laws::NoStates;
use route_choice::{
    Choice, Held, Overlay, Part, PrefixWorld, SeedHeld, SeedIds, Steps, Table, evaluate, settle,
};
use stability_laws::Book;
use std::alloc::Global;
use std::marker::Brand;
use std::sync::ledger::{Blank, Ledger};
use std::test::Fail;

// What steps work on.
#[derive(Drop)]
struct Desk {
    pool: PathPool,
    seeds: SeedIds,
    table: Table,
    overlay: Overlay,
}

// A desk on which AS 4 announces the prefix, with room for 16 steps.
fn set_up(alloc: Global, prefix: Prefix, four: Asn) -> Result<Desk, Fail>
    ensures { IfOk result (λ d. CanStep d.pool d.seeds d.table d.overlay 16) }
{
    let mut pool = PathPool::new(alloc, 40);
    pool.reserve(20)?;
    let path = pool.cons(four, None);
    let mut seeds = SeedIds::new(alloc);
    seeds.put(four, SeedHeld { path, otc: None })?;
    let mut overlay = Overlay::new(alloc);
    overlay.room(16)?;
    let table = Table::new(alloc, prefix);
    Ok(Desk {
        pool,
        seeds,
        table,
        overlay,
    })
}

// What an AS chooses.
fn chosen<L: Ledger>(
    graph: &Graph,
    book: &Book<Kind>,
    desk: &Desk,
    asn: Asn,
    part: Part,
    steps: &mut Steps<L>,
) -> Choice
    requires { CanStep desk.now.pool desk.now.seeds desk.now.table desk.now.overlay 1 }
{
    let at = PrefixWorld {
        graph,
        book,
        states: &NoStates,
        seeds: &desk.seeds,
        table: &desk.table,
    };
    evaluate(&at, &desk.pool, &desk.overlay, asn, part, steps)
}

// Whether an AS that is to hold nothing holds another entry than before.
fn is_emptied(graph: &Graph, book: &Book<Kind>, desk: &mut Desk, asn: Asn) -> bool
    requires { CanStep desk.old.pool desk.old.seeds desk.old.table desk.old.overlay 1 }
{
    let at = PrefixWorld {
        graph,
        book,
        states: &NoStates,
        seeds: &desk.seeds,
        table: &desk.table,
    };
    settle(&at, &mut desk.pool, &mut desk.overlay, asn, Choice::Nothing)
}

// What AS 4 and AS 2 choose before anyone holds anything, and whether nothing is another entry.
fn choices<L: Ledger>(
    alloc: Global,
    graph: &Graph,
    prefix: Prefix,
    two: Asn,
    four: Asn,
    blank: Blank,
) -> Result<(Choice, Choice, bool), Fail>
    requires name { blank.name ≡ L.name }
    requires parts { blank.parts ≡ L.parts }
    requires some { 0 < L.parts }
{
    let mut desk = set_up(alloc, prefix, four)?;
    let book = Book::new(alloc, Kind::Plain);
    let mut steps = Steps::<L>::new(blank);
    let of_four = chosen(graph, &book, &desk, four, Part::Up, &mut steps);
    let of_two = chosen(graph, &book, &desk, two, Part::Whole, &mut steps);
    let changed = is_emptied(graph, &book, &mut desk, two);
    Ok((of_four, of_two, changed))
}

#[test]
fn a_seed_is_chosen_and_nothing_where_nobody_offers(rt: HostRuntime) -> Result<(), Fail> {
    let (two, four) = (number(&rt, 2), number(&rt, 4));
    let graph = graph_of(&rt, rt.alloc(), b"2|4|-1\n");
    let found = choices::<Brand>(
        rt.alloc(),
        &graph,
        main_prefix(&rt),
        two,
        four,
        Blank::new(1),
    )?;
    assert!(rt; found == (Choice::Seed, Choice::Nothing, false));
    Ok(())
}

#[test]
fn changes_stand_in_the_order_put_and_are_undone(rt: HostRuntime) -> Result<(), Fail> {
    let (two, four) = (number(&rt, 2), number(&rt, 4));
    let mut pool = PathPool::new(rt.alloc(), 3);
    pool.reserve(1)?;
    let held = Held {
        class: Class::Origin,
        path: pool.cons(four, None),
        otc: None,
    };
    let mut overlay = Overlay::new(rt.alloc());
    overlay.room(2)?;
    overlay.put(four, None);
    overlay.put(four, Some(held));
    assert!(rt; overlay.len() == 1 && overlay.at(0) == Some(four) && overlay.at(1).is_none());
    assert!(rt; overlay.get(four) == Some(Some(held)) && overlay.get(two).is_none());
    overlay.undo(&mut pool);
    assert!(rt; pool.live() == 0);
    Ok(())
}
