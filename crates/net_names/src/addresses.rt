//! Addresses of both families.
ghost use Rattle.std.specs.Prelude.{◌≡◌};

use std::marker::Model;

/// The two families of addresses.
#[derive(Clone, Copy, Debug, PartialEq, Eq, PartialOrd, Ord, Hash)]
pub enum Family {
    /// IPv4, with 32 bits (RFC 791).
    V4,
    /// IPv6, with 128 bits (RFC 4291).
    V6,
}

impl Family {
    ghost use Rattle.net_names.specs.Addresses.{width};

    /// How many bits an address of the family has: 32 or 128.
    pub fn width(self) -> u8
        ensures { result ≡ width self }
    {
        match self {
            Family::V4 => 32,
            Family::V6 => 128,
        }
    }
}

/// An address of a family, a number below 2 to the power of the family's width. Addresses are
/// ordered by family, and then by number.
#[derive(Clone, Copy, Debug, PartialEq, Eq, PartialOrd, Ord, Hash)]
pub struct Addr {
    family: Family,
    bits: u128,
}

impl Model for Addr {
    ghost use Rattle.net_names.specs.Addresses.{AddrValue, FitsFamily};

    ghost Value = { AddrValue };

    ghost view = { λ a. record { family = a.family; bits = a.bits } };

    ghost invariant = { λ a. FitsFamily a.family a.bits };

    ghost inverse = { λ a. record { family = a.family; bits = a.bits } };
}

impl Addr {
    ghost use Rattle.net_names.specs.Addresses.{addr_at, AddrValue, FitsFamily};

    /// The address of those bits; `None` exactly where they do not fit the family.
    pub fn new(family: Family, bits: u128) -> Option<Addr>
        ensures { result ≡ addr_at family bits }
    {
        if family == Family::V4 && bits >= 1 << 32 {
            None
        } else {
            Some(Addr { family, bits })
        }
    }

    /// The family.
    pub fn family(self) -> Family
        ensures { result ≡ self.family }
    {
        self.family
    }

    /// The bits, the first of them highest.
    pub fn bits(self) -> u128
        ensures value { result ≡ self.bits }
        ensures fits { FitsFamily self.family result }
    {
        self.bits
    }
}
