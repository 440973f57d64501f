//! Comparisons of entries.
ghost use Rattle.std.specs.Prelude.{◌≡◌, ◌↔◌, ◌∷◌, IsTrue};
ghost use Rattle.stability_laws.specs.Entries.{seed_entry};

use crate::entry::{Entry, Seed};
use net_names::{Asn, Class};

/// Whether both classes are the same.
pub fn same_class(a: Class, b: Class) -> bool
    ensures { IsTrue result ↔ (a ≡ b) }
{
    a == b
}

/// Whether both paths have the same numbers.
pub fn same_path(a: &[Asn], b: &[Asn]) -> bool
    ensures { IsTrue result ↔ (a.now ≡ b.now) }
{
    a == b
}

/// Whether both are the same number, or none.
pub fn same_number(a: Option<Asn>, b: Option<Asn>) -> bool
    ensures { IsTrue result ↔ (a ≡ b) }
{
    a == b
}

// Whether the path is `a`, followed by the rest.
fn is_longer(path: &[Asn], a: Asn, rest: &[Asn]) -> bool
    ensures { IsTrue result ↔ (path.now ≡ a ∷ rest.now) }
{
    match path {
        [] => false,
        [first, tail @ ..] => *first == a && same_path(tail, rest),
    }
}

/// Whether it is the entry of an AS with the seed.
pub fn is_of_seed(entry: &Entry, seed: &Seed) -> bool
    ensures { IsTrue result ↔ (entry.now ≡ seed_entry seed.now) }
{
    same_class(entry.class, Class::Origin)
        && same_number(entry.otc, seed.otc)
        && same_path(entry.path.as_slice(), seed.path.as_slice())
}

/// Whether it is the entry with this class, the path of `a` and then the rest, and this number.
pub(crate) fn has_parts(entry: &Entry, class: Class, a: Asn, rest: &[Asn], otc: Option<Asn>) -> bool
    ensures { IsTrue result ↔ (entry.now ≡ record { class = class; path = a ∷ rest.now; otc = otc }) }
{
    same_class(entry.class, class)
        && same_number(entry.otc, otc)
        && is_longer(entry.path.as_slice(), a, rest)
}
