//! The table of the kinds, worked by hand.
use super::worlds::{likes, takes, view};
use net_names::{Asn, Class, Rel, State};
use policy_kinds::Kind;
use policy_laws::RoutePolicy;

#[test]
fn kinds_rank_as_their_table_says(rt: HostRuntime) {
    let customer = view(&rt, Rel::Customer, 9, 5, State::Invalid, None);
    let peer = view(&rt, Rel::Peer, 8, 2, State::Valid, None);
    let provider = view(&rt, Rel::Provider, 7, 2, State::Valid, None);
    let shorter = view(&rt, Rel::Peer, 9, 1, State::NotFound, None);
    let lower = view(&rt, Rel::Peer, 2, 2, State::Valid, None);
    for kind in [
        Kind::Plain,
        Kind::DropInvalid,
        Kind::PreferValid,
        Kind::ProviderFirst,
        Kind::Otc,
        Kind::DropInvalidOtc,
    ] {
        assert!(rt; likes(&kind, &customer, &peer));
        assert!(rt; likes(&kind, &customer, &provider));
        assert!(rt; likes(&kind, &lower, &peer));
    }
    assert!(rt; likes(&Kind::Plain, &peer, &provider));
    assert!(rt; likes(&Kind::ProviderFirst, &provider, &peer));
    assert!(rt; likes(&Kind::Plain, &shorter, &peer));
    assert!(rt; likes(&Kind::PreferValid, &peer, &shorter));
}

#[test]
fn kinds_accept_and_export_as_their_table_says(rt: HostRuntime) {
    let eight = Asn::new(8);
    let nine = Asn::new(9);
    let invalid = view(&rt, Rel::Provider, 8, 2, State::Invalid, None);
    let not_found = view(&rt, Rel::Provider, 8, 2, State::NotFound, None);
    let leaked = view(&rt, Rel::Customer, 8, 2, State::NotFound, nine);
    let own = view(&rt, Rel::Peer, 8, 2, State::NotFound, eight);
    let other = view(&rt, Rel::Peer, 8, 2, State::NotFound, nine);
    assert!(rt; !takes(&Kind::DropInvalid, &invalid) && takes(&Kind::DropInvalid, &not_found));
    assert!(rt; takes(&Kind::PreferValid, &invalid) && takes(&Kind::Plain, &leaked));
    assert!(rt;
        !takes(&Kind::Otc, &leaked) && !takes(&Kind::Otc, &other) && takes(&Kind::Otc, &own)
    );
    assert!(rt; !takes(&Kind::DropInvalidOtc, &invalid) && !takes(&Kind::DropInvalidOtc, &leaked));
    assert!(rt; Kind::Plain.exports(Class::Customer, nine, Rel::Provider));
    assert!(rt; !Kind::Plain.exports(Class::Peer, None, Rel::Peer));
    assert!(rt; Kind::Plain.exports(Class::Provider, None, Rel::Customer));
    assert!(rt; !Kind::Otc.exports(Class::Origin, nine, Rel::Peer));
    assert!(rt; Kind::Otc.exports(Class::Origin, None, Rel::Peer));
    assert!(rt; Kind::Otc.marks() && !Kind::Plain.marks());
    assert!(rt; Kind::PreferValid.reads_state() && !Kind::ProviderFirst.reads_state());
}
