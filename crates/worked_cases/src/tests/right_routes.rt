//! What is right at an AS, policies by AS, and what goes along a link, worked by hand.
ghost use Rattle.std.specs.Prelude.{◌≤◌, length};

use super::worlds::{graph_of, main_prefix, number, path_of};
use as_graph::{Graph, Neighbour};
use net_names::{Asn, Class, Path, Prefix, Rel};
use policy_kinds::Kind;
use policy_laws::NoStates;
use stability_laws::{
    Book, Entry, Routing, Seed, Seeds, World, Wrong, check_at, offered_view, right_entry,
};
use std::alloc::Global;
use std::process::Abort;
use std::test::Fail;

// AS 1 is the provider of 2 and 3, which are peers and the providers of 4.
pub(super) const DIAMOND: &[u8] = b"1|2|-1\n1|3|-1\n2|3|0\n2|4|-1\n3|4|-1\n";

// Makes the first AS of the path hold it, by an entry of this class.
pub(super) fn hold(
    rt: &impl Abort,
    alloc: Global,
    routing: &mut Routing,
    class: Class,
    path: &[Asn],
)
    requires some { 1 ≤ length path.now }
    requires short { length path.now ≤ 64 }
{
    let entry = Entry {
        class,
        path: path_of(rt, alloc, path),
        otc: None,
    };
    routing.put(path[0], entry).expect(rt, "memory");
}

// The seed of an AS that announces a prefix by its own number.
pub(super) fn seed_at(rt: &impl Abort, alloc: Global, asn: Asn) -> Seeds {
    let mut seeds = Seeds::new(alloc);
    let path = path_of(rt, alloc, &[asn]);
    seeds
        .put(asn, Seed { path, otc: None })
        .expect(rt, "memory");
    seeds
}

// The diamond with what its ASes hold, where AS 4 announces the prefix and all have the plain policy.
#[derive(Drop)]
struct PlainDiamond {
    graph: Graph,
    book: Book<Kind>,
    seeds: Seeds,
    held: Routing,
}

fn diamond(rt: &impl Abort, alloc: Global, held: Routing) -> PlainDiamond {
    PlainDiamond {
        graph: graph_of(rt, alloc, DIAMOND),
        book: Book::new(alloc, Kind::Plain),
        seeds: seed_at(rt, alloc, number(rt, 4)),
        held,
    }
}

fn told(at: &PlainDiamond, prefix: Prefix, asn: Asn) -> Result<(), Wrong> {
    let world = World {
        graph: &at.graph,
        book: &at.book,
        states: &NoStates,
    };
    check_at(&world, prefix, &at.seeds, &at.held, asn)
}

// What the stable routing has.
fn stable(rt: &impl Abort, alloc: Global) -> Routing {
    let (one, two) = (number(rt, 1), number(rt, 2));
    let (three, four) = (number(rt, 3), number(rt, 4));
    let mut held = Routing::new(alloc);
    hold(rt, alloc, &mut held, Class::Customer, &[one, two, four]);
    hold(rt, alloc, &mut held, Class::Customer, &[two, four]);
    hold(rt, alloc, &mut held, Class::Customer, &[three, four]);
    hold(rt, alloc, &mut held, Class::Origin, &[four]);
    held
}

fn expect_right(rt: &impl Abort, at: &PlainDiamond) {
    let prefix = main_prefix(rt);
    for n in 1..6u32 {
        assert!(rt; told(at, prefix, number(rt, n)) == Ok(()));
    }
}

// AS 2 lacks its entry.
fn expect_absent(rt: &impl Abort, at: &PlainDiamond) {
    let (prefix, three, four) = (main_prefix(rt), number(rt, 3), number(rt, 4));
    let better = Err(Wrong::NotBest { by: three });
    assert!(rt; told(at, prefix, number(rt, 1)) == better);
    assert!(rt; told(at, prefix, number(rt, 2)) == Err(Wrong::Absent { by: four }));
    assert!(rt; told(at, prefix, three) == Ok(()));
}

#[test]
fn a_missing_entry_is_told_with_who_makes_the_best_offer(rt: HostRuntime) {
    let routes = stable(&rt, rt.alloc());
    let mut at = diamond(&rt, rt.alloc(), routes);
    expect_right(&rt, &at);
    at.held.clear(number(&rt, 2));
    expect_absent(&rt, &at);
}

// What nobody gave to AS 1, AS 3, AS 4 and AS 5.
fn unfounded(rt: &impl Abort, alloc: Global) -> Routing {
    let (one, two, three) = (number(rt, 1), number(rt, 2), number(rt, 3));
    let (four, five) = (number(rt, 4), number(rt, 5));
    let mut held = Routing::new(alloc);
    hold(rt, alloc, &mut held, Class::Customer, &[one, two, four]);
    hold(rt, alloc, &mut held, Class::Peer, &[three, two, four]);
    hold(rt, alloc, &mut held, Class::Customer, &[four]);
    hold(rt, alloc, &mut held, Class::Provider, &[five, one]);
    held
}

fn expect_unfounded(rt: &impl Abort, at: &PlainDiamond) {
    let (prefix, four) = (main_prefix(rt), number(rt, 4));
    assert!(rt; told(at, prefix, number(rt, 1)) == Err(Wrong::Unexpected));
    assert!(rt; told(at, prefix, number(rt, 3)) == Err(Wrong::NotBest { by: four }));
    assert!(rt; told(at, prefix, four) == Err(Wrong::SeedNotHeld));
    assert!(rt; told(at, prefix, number(rt, 5)) == Err(Wrong::Unexpected));
}

#[test]
fn entries_that_nobody_gave_are_told(rt: HostRuntime) {
    let routes = unfounded(&rt, rt.alloc());
    let at = diamond(&rt, rt.alloc(), routes);
    expect_unfounded(&rt, &at);
}

// The path of the entry with which an AS is right.
fn expect_best(rt: &impl Abort, alloc: Global, at: &PlainDiamond, asn: Asn, path: &[Asn]) {
    let world = World {
        graph: &at.graph,
        book: &at.book,
        states: &NoStates,
    };
    let prefix = main_prefix(rt);
    let right = right_entry(alloc, &world, prefix, &at.seeds, &at.held, asn);
    match right.expect(rt, "memory") {
        Some(entry) => assert!(rt; entry.path.as_slice() == path),
        None => assert!(rt; path.is_empty()),
    }
}

#[test]
fn what_is_right_is_the_seed_the_best_offer_or_nothing(rt: HostRuntime) {
    let (one, two, four) = (number(&rt, 1), number(&rt, 2), number(&rt, 4));
    let mut at = diamond(&rt, rt.alloc(), Routing::new(rt.alloc()));
    expect_best(&rt, rt.alloc(), &at, two, &[]);
    expect_best(&rt, rt.alloc(), &at, four, &[four]);
    hold(&rt, rt.alloc(), &mut at.held, Class::Customer, &[two, four]);
    expect_best(&rt, rt.alloc(), &at, one, &[one, two, four]);
}

#[test]
fn entries_are_put_and_cleared_in_rising_order(rt: HostRuntime) {
    let alloc = rt.alloc();
    let (two, three, four) = (number(&rt, 2), number(&rt, 3), number(&rt, 4));
    let mut held = Routing::new(alloc);
    hold(&rt, alloc, &mut held, Class::Peer, &[three, four]);
    hold(&rt, alloc, &mut held, Class::Peer, &[two, four]);
    hold(&rt, alloc, &mut held, Class::Customer, &[two, three, four]);
    let last = held.get(two).expect(&rt, "an entry");
    assert!(rt; last.path.as_slice() == [two, three, four].as_slice());
    assert!(rt; held.next(None) == Some(two) && held.next(Some(three)).is_none());
    held.clear(two);
    assert!(rt; held.next(None) == Some(three) && held.get(two).is_none());
}

#[test]
fn a_named_as_has_its_own_policy_until_it_is_cleared(rt: HostRuntime) -> Result<(), Fail> {
    let seven = number(&rt, 7);
    let mut book = Book::new(rt.alloc(), Kind::Otc);
    assert!(rt; *book.policy(seven) == Kind::Otc);
    book.room(seven)?;
    book.set(seven, Kind::Plain);
    assert!(rt; *book.policy(seven) == Kind::Plain);
    book.clear(seven);
    assert!(rt; *book.policy(seven) == Kind::Otc);
    Ok(())
}

#[test]
fn an_entry_without_a_path_is_not_offered(rt: HostRuntime) {
    let entry = Entry {
        class: Class::Origin,
        path: Path::new(rt.alloc()),
        otc: None,
    };
    let kind = Kind::Plain;
    let peer = Neighbour {
        asn: number(&rt, 1),
        rel: Rel::Peer,
    };
    let (prefix, nine) = (main_prefix(&rt), number(&rt, 9));
    assert!(rt; offered_view(&kind, &kind, &NoStates, prefix, &peer, nine, &entry).is_none());
}
