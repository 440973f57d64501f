//! Plans of two prefixes, and the seeds of a round.
use super::right_routes::hold;
use super::worlds::{main_prefix, number, path_of, prefix};
use net_names::{Asn, Class, Prefix};
use stability_laws::{Entry, Routing, SeedPlan, Seeds, seeds_at};
use std::alloc::Global;
use std::process::Abort;

// The plan in which AS 6 announces one prefix by the path 6 4 and AS 5 the other, and ASes leak in two rounds.
fn plan_of(rt: &impl Abort, alloc: Global, one: Prefix, other: Prefix) -> SeedPlan {
    let (three, four, five) = (number(rt, 3), number(rt, 4), number(rt, 5));
    let (six, seven, nine) = (number(rt, 6), number(rt, 7), number(rt, 9));
    let mut plan = SeedPlan::new(alloc);
    assert!(rt; !plan.announces(one, six));
    let path = path_of(rt, alloc, &[six, four]);
    plan.announce(one, path).expect(rt, "memory");
    assert!(rt; !plan.announces(other, five));
    let path = path_of(rt, alloc, &[five]);
    plan.announce(other, path).expect(rt, "memory");
    plan.leaker(3, seven).expect(rt, "memory");
    plan.leaker(2, nine).expect(rt, "memory");
    plan.leaker(2, three).expect(rt, "memory");
    plan.leaker(2, nine).expect(rt, "memory");
    plan
}

#[test]
fn a_plan_lists_prefixes_announcers_and_leakers_in_order(rt: HostRuntime) {
    let (one, other) = (main_prefix(&rt), prefix(&rt, b"10.0.0.0/8"));
    let plan = plan_of(&rt, rt.alloc(), one, other);
    assert!(rt; plan.prefixes() == [other, one].as_slice());
    assert!(rt; plan.announcers() == [number(&rt, 5), number(&rt, 6)].as_slice());
    let (first, second) = (plan.leaker_at(2, 0), plan.leaker_at(2, 1));
    assert!(rt; first == Asn::new(3) && second == Asn::new(9));
    assert!(rt; plan.leaker_at(2, 2).is_none() && plan.leaker_at(1, 0).is_none());
    assert!(rt; plan.leakers(2) == [number(&rt, 3), number(&rt, 9)].as_slice());
    assert!(rt; plan.leakers(3) == [number(&rt, 7)].as_slice() && plan.leakers(1).is_empty());
}

#[test]
fn an_entry_once_more_is_the_same(rt: HostRuntime) {
    let (four, six) = (number(&rt, 4), number(&rt, 6));
    let entry = Entry {
        class: Class::Peer,
        path: path_of(&rt, rt.alloc(), &[six, four]),
        otc: Some(four),
    };
    let copy = entry.copied(rt.alloc()).expect(&rt, "memory");
    assert!(rt; copy.class == Class::Peer && copy.otc == Some(four));
    assert!(rt; copy.path.as_slice() == [six, four].as_slice());
}

// What three leakers of round 2 or 3 held in the round before: AS 9 has its route from a customer.
fn held_before(rt: &impl Abort, alloc: Global) -> Routing {
    let (three, four, six) = (number(rt, 3), number(rt, 4), number(rt, 6));
    let (seven, nine) = (number(rt, 7), number(rt, 9));
    let mut held = Routing::new(alloc);
    hold(rt, alloc, &mut held, Class::Provider, &[three, six, four]);
    hold(rt, alloc, &mut held, Class::Peer, &[seven, six, four]);
    hold(rt, alloc, &mut held, Class::Customer, &[nine, six, four]);
    held
}

// AS 6 puts in its announced path, and AS 3 what it held.
fn expect_seeds(rt: &impl Abort, seeds: &Seeds) {
    let (three, four, six) = (number(rt, 3), number(rt, 4), number(rt, 6));
    let announced = seeds.get(six).expect(rt, "a seed");
    assert!(rt; announced.path.as_slice() == [six, four].as_slice());
    let leaked = seeds.get(three).expect(rt, "a seed");
    assert!(rt; leaked.path.as_slice() == [three, six, four].as_slice());
    for n in [5, 7, 9] {
        assert!(rt; seeds.get(number(rt, n)).is_none());
    }
}

#[test]
fn leakers_put_in_what_others_than_customers_gave_them(rt: HostRuntime) {
    let (one, other) = (main_prefix(&rt), prefix(&rt, b"10.0.0.0/8"));
    let plan = plan_of(&rt, rt.alloc(), one, other);
    let held = held_before(&rt, rt.alloc());
    let seeds = seeds_at(rt.alloc(), &plan, 2, one, &held).expect(&rt, "memory");
    expect_seeds(&rt, &seeds);
}
