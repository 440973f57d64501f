//! What worlds lend, with what is kept of them and without.
use super::worlds::{number, prefix};
use caida_reader::read_links;
use data_trace::{End, Which};
use net_names::{Addr, Asn, State, read_addr};
use origin_validation::state;
use policy_kinds::Kind;
use roa_table::{Vrps, read};
use scenario_text::{Scenario, read_scenario};
use sim_core::{Base, LoadError, QueryError, Sim, kept_are_stable};
use stability_laws::Seeds;
use std::alloc::Global;
use std::process::Abort;

// AS 3 leaks what it has from a provider.
pub(super) const LEAK: &[u8] = b"1|3|-1\n2|3|-1\n1|5|-1\n1|2|0\n";

pub(super) const LEAKING: &[u8] =
    br#"{"announcements":[{"prefix":"10.0.0.0/8","as":5}],"leaks":[[3]],"watch":["10.0.0.1"]}"#;

fn scenario_of(rt: &impl Abort, alloc: Global, text: &[u8]) -> Scenario {
    assert!(rt; text.len() < 1000);
    match read_scenario(alloc, text) {
        Ok(scenario) => scenario,
        Err(_) => panic!(rt; "a scenario"),
    }
}

fn no_payloads(rt: &impl Abort, alloc: Global) -> Vrps {
    read(alloc, b"").expect(rt, "payloads")
}

fn leak(rt: &impl Abort, alloc: Global) -> Sim {
    let links = read_links(alloc, LEAK).expect(rt, "links");
    let (vrps, scenario) = (no_payloads(rt, alloc), scenario_of(rt, alloc, LEAKING));
    match Sim::load(alloc, links, vrps, scenario) {
        Ok(sim) => sim,
        Err(_) => panic!(rt; "a simulation"),
    }
}

fn loaded(
    rt: &impl Abort,
    alloc: Global,
    links: &[u8],
    scenario: &[u8],
) -> Result<Base, LoadError> {
    let links = read_links(alloc, links).expect(rt, "links");
    let (vrps, scenario) = (no_payloads(rt, alloc), scenario_of(rt, alloc, scenario));
    Base::load(alloc, links, vrps, scenario)
}

// The world of these links and this scenario, of which nothing is kept.
pub(super) fn base_of(rt: &impl Abort, alloc: Global, links: &[u8], scenario: &[u8]) -> Base {
    match loaded(rt, alloc, links, scenario) {
        Ok(base) => base,
        Err(_) => panic!(rt; "a world"),
    }
}

fn expect_seed(rt: &impl Abort, seeds: &Seeds, asn: Asn, path: &[Asn]) {
    let seed = seeds.get(asn).expect(rt, "a seed");
    assert!(rt; seed.path.as_slice() == path);
}

// In round 1 AS 5 alone puts something in, and in round 2 AS 3 puts in what it held.
fn expect_seeds(rt: &impl Abort, alloc: Global, sim: &Sim) {
    let announced = prefix(rt, b"10.0.0.0/8");
    let (one, three, five) = (number(rt, 1), number(rt, 3), number(rt, 5));
    let first = sim.seeds(alloc, 1, announced).expect(rt, "seeds");
    expect_seed(rt, &first, five, &[five]);
    assert!(rt; first.get(three).is_none());
    let second = sim.seeds(alloc, 2, announced).expect(rt, "seeds");
    expect_seed(rt, &second, five, &[five]);
    expect_seed(rt, &second, three, &[three, one, five]);
    assert!(rt; second.get(one).is_none());
}

// Round 3 isn't there, nor is the other prefix.
fn expect_refusals(rt: &impl Abort, alloc: Global, sim: &Sim) {
    let (announced, other) = (prefix(rt, b"10.0.0.0/8"), prefix(rt, b"11.0.0.0/8"));
    let round = Some(QueryError::UnknownRound { round: 3 });
    let unknown = Some(QueryError::UnknownPrefix { prefix: other });
    assert!(rt; sim.seeds(alloc, 3, announced).err() == round);
    assert!(rt; sim.seeds(alloc, 3, other).err() == round);
    assert!(rt; sim.seeds(alloc, 2, other).err() == unknown);
}

fn address(rt: &impl Abort, text: &[u8]) -> Addr {
    read_addr(text).expect(rt, "an address")
}

// The packets of all four ASes are delivered in both rounds; there is no round 3, and no other address is watched.
fn expect_watched(rt: &impl Abort, sim: &Sim) {
    let (watched, other) = (address(rt, b"10.0.0.1"), address(rt, b"10.0.0.2"));
    let five = number(rt, 5);
    for round in 1..3 {
        let watch = sim.watched(round, watched).expect(rt, "a watch");
        assert!(rt; watch.ases(Which::All) == 4);
        assert!(rt; watch.count(Which::All, End::At(five)) == 4);
    }
    assert!(rt; sim.watched(3, watched).is_none() && sim.watched(0, watched).is_none());
    assert!(rt; sim.watched(1, other).is_none());
}

// The state of the prefix with AS 5, by these payloads.
fn state_in(rt: &impl Abort, vrps: &Vrps) -> State {
    state(vrps, prefix(rt, b"10.0.0.0/8"), number(rt, 5))
}

fn expect_lent(rt: &impl Abort, sim: &Sim) {
    let (two, three) = (number(rt, 2), number(rt, 3));
    kept_are_stable();
    assert!(rt; sim.graph().as_count() == 4 && sim.rounds() == 2);
    assert!(rt; sim.ranks().rank(two) == 1 && *sim.book().policy(two) == Kind::Plain);
    assert!(rt; sim.plan().leaker_at(2, 0) == Some(three));
    assert!(rt; state_in(rt, sim.vrps()) == State::NotFound);
}

#[test]
fn a_simulation_lends_its_world_and_the_seeds_of_its_rounds(rt: HostRuntime) {
    let sim = leak(&rt, rt.alloc());
    expect_lent(&rt, &sim);
    expect_seeds(&rt, rt.alloc(), &sim);
    expect_refusals(&rt, rt.alloc(), &sim);
    expect_watched(&rt, &sim);
}

fn expect_base(rt: &impl Abort, base: &Base) {
    let (two, three) = (number(rt, 2), number(rt, 3));
    assert!(rt; base.graph().as_count() == 4 && base.rounds() == 2);
    assert!(rt; *base.book().policy(two) == Kind::Plain);
    assert!(rt; base.plan().leaker_at(2, 0) == Some(three));
    assert!(rt; state_in(rt, base.vrps()) == State::NotFound);
}

#[test]
fn a_world_of_which_nothing_is_kept_lends_the_same(rt: HostRuntime) {
    let base = base_of(&rt, rt.alloc(), LEAK, LEAKING);
    expect_base(&rt, &base);
}

#[test]
fn a_world_with_a_provider_cycle_is_refused_without_routings(rt: HostRuntime) {
    let cycle = [number(&rt, 1), number(&rt, 2), number(&rt, 3)];
    match loaded(&rt, rt.alloc(), b"1|2|-1\n2|3|-1\n3|1|-1\n", LEAKING) {
        Err(LoadError::ProviderCycle(found)) => {
            assert!(rt; found.as_slice() == cycle.as_slice());
        }
        _ => assert!(rt; false),
    }
}
