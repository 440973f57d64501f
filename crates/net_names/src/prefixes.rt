//! Prefixes of both families.
ghost use Rattle.std.specs.Prelude.{◌≡◌, ◌≤◌};

use crate::addresses::Family;
use crate::coverage::without_last;
use std::marker::Model;

/// A prefix of a family: an address with no bit past the length set.
/// Source: RFC 4632, section 3.1, and RFC 4291, section 2.3.
/// Prefixes are ordered by family, then by address, then by length.
#[derive(Clone, Copy, Debug, PartialEq, Eq, PartialOrd, Ord, Hash)]
pub struct Prefix {
    pub(crate) family: Family,
    pub(crate) addr: u128,
    pub(crate) len: u8,
}

impl Model for Prefix {
    ghost use Rattle.net_names.specs.Prefixes.{PrefixValue, IsPrefix};

    ghost Value = { PrefixValue };

    ghost view = { λ p. record { family = p.family; addr = p.addr; len = p.len } };

    ghost invariant = { λ p. IsPrefix p.family p.addr p.len };

    ghost inverse = { λ p. record { family = p.family; addr = p.addr; len = p.len } };
}

impl Prefix {
    ghost use Rattle.net_names.specs.Addresses.{FitsFamily};
    ghost use Rattle.net_names.specs.Prefixes.{prefix_at, PrefixValue, IsPrefix};
    ghost use Rattle.net_names.specs.Coverage.{shortened as shortened_of};

    /// The prefix of that address and length; `None` exactly where the address does not fit the
    /// family, the length is above the family's width, or a bit past the length is set.
    pub fn new(family: Family, addr: u128, len: u8) -> Option<Prefix>
        ensures { result ≡ prefix_at family addr len }
    {
        if family == Family::V4 && addr >= 1 << 32 {
            return None;
        }
        if len > family.width() {
            return None;
        }
        let spare = family.width() - len;
        if spare == 128 {
            if addr == 0 {
                Some(Prefix { family, addr, len })
            } else {
                None
            }
        } else if addr % (1 << spare) == 0 {
            Some(Prefix { family, addr, len })
        } else {
            None
        }
    }

    /// The family.
    pub fn family(self) -> Family
        ensures { result ≡ self.family }
    {
        self.family
    }

    /// The bits of the lowest address.
    pub fn addr(self) -> u128
        ensures value { result ≡ self.addr }
        ensures fits { FitsFamily self.family result }
        ensures prefix { IsPrefix self.family self.addr self.len }
    {
        self.addr
    }

    /// The length in bits, at most the family's width.
    pub fn len(self) -> u8
        ensures { result ≡ self.len }
    {
        self.len
    }
    /// The prefix of this length that covers it: the bits past the length are cleared.
    pub fn shortened(self, len: u8) -> Prefix
        requires { len ≤ self.len }
        ensures { result ≡ shortened_of self len }
    {
        let addr = without_last(self.addr, self.family.width() - len);
        Prefix {
            family: self.family,
            addr,
            len,
        }
    }
}
