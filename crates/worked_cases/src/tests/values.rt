//! Ranges of numbers, addresses and payloads, shorter prefixes, and links.
use super::worlds::{number, prefix};
use net_names::{Addr, Asn, Family, Links, Path, Rel, Vrp};

#[test]
fn values_keep_their_ranges(rt: HostRuntime) {
    let prefix = prefix(&rt, b"192.0.2.0/24");
    let addr = Addr::new(Family::V6, 1 << 32).expect(&rt, "an address");
    let vrp = Vrp::new(prefix, 32, 0).expect(&rt, "a payload");
    assert!(rt; Asn::new(0).is_none() && number(&rt, 4294967295).get() == 4294967295);
    assert!(rt; Addr::new(Family::V4, 1 << 32).is_none());
    assert!(rt; addr.family() == Family::V6 && addr.bits() == 1 << 32);
    assert!(rt; Family::V4.width() == 32 && Family::V6.width() == 128);
    assert!(rt; Vrp::new(prefix, 23, 1).is_none() && Vrp::new(prefix, 33, 1).is_none());
    assert!(rt; vrp.prefix() == prefix && vrp.max() == 32 && vrp.asn() == 0);
}

#[test]
fn shortening_clears_the_last_bits(rt: HostRuntime) {
    let long = prefix(&rt, b"2001:db8:ffff::/48");
    assert!(rt; long.len() == 48);
    assert!(rt; long.shortened(33) == prefix(&rt, b"2001:db8:8000::/33"));
    assert!(rt; long.shortened(0) == prefix(&rt, b"::/0"));
}

#[test]
fn links_stand_in_rising_order_and_are_seen_from_both_ends(rt: HostRuntime) {
    let (one, two, three) = (number(&rt, 1), number(&rt, 2), number(&rt, 3));
    let mut links = Links::new(rt.alloc());
    assert!(rt; links.is_empty() && one != two && one != three);
    links.set(three, one, Rel::Provider).expect(&rt, "memory");
    links.set(one, two, Rel::Peer).expect(&rt, "memory");
    links.set(two, one, Rel::Provider).expect(&rt, "memory");
    assert!(rt; links.get(one, three) == Some(Rel::Customer) && links.len() == 2);
    assert!(rt; links.get(three, one) == Some(Rel::Provider));
    assert!(rt; links.get(two, three).is_none() && links.at(2).is_none());
    let first = links.at(0).expect(&rt, "a link");
    assert!(rt; first.lo == one && first.hi == two && first.rel == Rel::Customer);
}

#[test]
fn a_path_is_its_numbers_in_order(rt: HostRuntime) {
    let (one, three) = (number(&rt, 1), number(&rt, 3));
    let mut path = Path::new(rt.alloc());
    path.push(three).expect(&rt, "memory");
    path.push(one).expect(&rt, "memory");
    assert!(rt; path.as_slice() == [three, one].as_slice());
}
