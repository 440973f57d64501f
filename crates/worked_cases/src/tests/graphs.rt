//! Several cycles, of which any may be told, and the ASes of a graph by number, by place and by rank.
use super::worlds::{graph_of, number, ranks_of};
use as_graph::Graph;
use cycle_check::find_cycle;
use net_names::Rel;
use rank_order::by_rank;
use std::process::Abort;

#[test]
fn one_of_two_cycles_is_told(rt: HostRuntime) {
    let links = b"30|10|-1\n10|20|-1\n20|30|-1\n6|4|-1\n4|5|-1\n5|6|-1\n";
    let graph = graph_of(&rt, rt.alloc(), links);
    let found = find_cycle(rt.alloc(), &graph).expect(&rt, "memory");
    let cycle = found.expect(&rt, "a cycle");
    let told = cycle.as_slice();
    assert!(rt; told.len() == 3);
    let numbers = (told[0].get(), told[1].get(), told[2].get());
    assert!(rt; numbers == (10, 20, 30) || numbers == (4, 5, 6));
}

fn expect_ases(rt: &impl Abort, graph: &Graph) {
    let (two, five, nine) = (number(rt, 2), number(rt, 5), number(rt, 9));
    assert!(rt; graph.ases() == [two, five, nine].as_slice());
    assert!(rt; graph.next(None) == Some(two) && graph.next(Some(nine)).is_none());
    assert!(rt; graph.next(Some(five)) == Some(nine) && graph.has(five));
    assert!(rt; graph.as_count() == 3 && graph.link_count() == 2);
}

fn expect_neighbours(rt: &impl Abort, graph: &Graph) {
    let (two, nine) = (number(rt, 2), number(rt, 9));
    let neighbours = graph.neighbours(two);
    assert!(rt; neighbours.len() == 2);
    assert!(rt; neighbours[0].asn.get() == 5 && neighbours[0].rel == Rel::Peer);
    assert!(rt; neighbours[1].asn.get() == 9 && neighbours[1].rel == Rel::Provider);
    assert!(rt; graph.rel(nine, two) == Some(Rel::Customer) && graph.rel(two, two).is_none());
}

// Hints may miss.
fn expect_places(rt: &impl Abort, graph: &Graph) {
    let (two, nine) = (number(rt, 2), number(rt, 9));
    assert!(rt; graph.place_near(nine, 0) == 2 && graph.place_near(two, 2) == 0);
    assert!(rt; graph.neighbours_near(two, 2) == graph.neighbours(two));
    assert!(rt; graph.rows().len() == 3 && graph.neighbour_places(2) == [0].as_slice());
}

#[test]
fn ases_and_neighbours_come_in_rising_order_and_are_found_by_hints(rt: HostRuntime) {
    let graph = graph_of(&rt, rt.alloc(), b"9|2|-1\n5|2|0\n");
    expect_ases(&rt, &graph);
    expect_neighbours(&rt, &graph);
    expect_places(&rt, &graph);
}

#[test]
fn each_as_comes_behind_its_customers(rt: HostRuntime) {
    let (one, two, three) = (number(&rt, 1), number(&rt, 2), number(&rt, 3));
    let graph = graph_of(&rt, rt.alloc(), b"1|2|-1\n2|3|-1\n");
    let ranks = ranks_of(&rt, rt.alloc(), &graph);
    let ases = by_rank(rt.alloc(), &graph, &ranks).expect(&rt, "memory");
    assert!(rt; ases.as_slice() == [three, two, one].as_slice());
    assert!(rt; ranks.rank(one) == 2 && ranks.rank(number(&rt, 7)) == 0);
}
