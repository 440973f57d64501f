//! The places of ASes in a rising list.
ghost use Rattle.std.specs.Prelude.{◌≡◌, ◌≤◌, length};
ghost use Rattle.std.specs.List.Sorted.{IsStrictlyIncreasing};
ghost use Rattle.cycle_check.specs.Places.{place_in};

use net_names::Asn;

/// The place of an AS in a rising list, or the list's length where it isn't there.
pub fn place_in(ases: &[Asn], asn: Asn) -> usize
    requires { IsStrictlyIncreasing ases.now }
    ensures place { result ≡ place_in ases.now asn }
    ensures inside { result ≤ length ases.now }
{
    match ases.binary_search(&asn) {
        Ok(place) => place,
        Err(_) => ases.len(),
    }
}

/// The place of an AS in a rising list, as `place_in` gives it, sought first at a place, which is a hint.
pub fn place_near(ases: &[Asn], asn: Asn, near: usize) -> usize
    requires { IsStrictlyIncreasing ases.now }
    ensures place { result ≡ place_in ases.now asn }
    ensures inside { result ≤ length ases.now }
{
    if near < ases.len() && ases[near] == asn {
        return near;
    }
    place_in(ases, asn)
}
