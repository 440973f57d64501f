//! Validated ROA payloads.
ghost use Rattle.std.specs.Prelude.{◌≡◌};

use crate::addresses::Family;
use crate::prefixes::Prefix;
use std::cmp::Ordering;
use std::marker::Model;

/// A validated ROA payload (RFC 6811, section 2): a prefix, the greatest length of a route that it
/// allows, and the number of the AS that may originate it, where 0 allows none (RFC 6483, section 4). Payloads
/// are ordered by prefix, then by greatest length, then by number.
// Millions of them are kept: in this order the fields take 32 bytes.
#[derive(Clone, Copy, Debug, PartialEq, Eq, Hash)]
pub struct Vrp {
    addr: u128,
    asn: u32,
    family: Family,
    len: u8,
    max: u8,
}

impl Model for Vrp {
    ghost use Rattle.net_names.specs.Payloads.{VrpValue, IsVrp};

    ghost Value = { VrpValue };

    ghost view = { λ v. record { prefix = record { family = v.family; addr = v.addr; len = v.len }; max = v.max; asn = v.asn } };

    ghost invariant = { λ v. IsVrp v.family v.addr v.len v.max };

    ghost inverse = { λ v. record { addr = v.prefix.addr; asn = v.asn; family = v.prefix.family; len = v.prefix.len; max = v.max } };
}

impl Vrp {
    ghost use Rattle.net_names.specs.Payloads.{vrp_at, IsMax, IsVrp};

    /// The payload of those; `None` exactly where the greatest length is below the prefix's length or
    /// above the family's width.
    pub fn new(prefix: Prefix, max: u8, asn: u32) -> Option<Vrp>
        ensures { result ≡ vrp_at prefix max asn }
    {
        if max < prefix.len() || max > prefix.family().width() {
            None
        } else {
            Some(Vrp {
                addr: prefix.addr(),
                asn,
                family: prefix.family(),
                len: prefix.len(),
                max,
            })
        }
    }

    /// The prefix.
    pub fn prefix(self) -> Prefix
        ensures { result ≡ self.prefix }
    {
        Prefix {
            family: self.family,
            addr: self.addr,
            len: self.len,
        }
    }

    /// The greatest length, from the prefix's length to the family's width.
    pub fn max(self) -> u8
        ensures value { result ≡ self.max }
        ensures range { IsMax self.prefix result }
        ensures sound { IsVrp self.prefix.family self.prefix.addr self.prefix.len self.max }
    {
        self.max
    }

    /// The number of the AS, from 0 to 4294967295.
    pub fn asn(self) -> u32
        ensures { result ≡ self.asn }
    {
        self.asn
    }
}

impl Ord for Vrp {
    ghost use Rattle.net_names.specs.Payloads.{vrp_cmp};
    ghost use Rattle.net_names.specs.Orders.{vrp_total, vrp_eq_is_tie};
    ghost use Rattle.std.proofs.Common.{rules};
    ghost use Rattle.std.specs.Cmp.Rules.{comparing};

    ghost cmp = { vrp_cmp };

    ghost total = { vrp_total };

    ghost matches_partial_cmp = { Prim.search (comparing, rules) };

    ghost matches_eq = { vrp_eq_is_tie };

    fn cmp(&self, other: &Vrp) -> Ordering {
        let prefix = self
            .family
            .cmp(&other.family)
            .then(self.addr.cmp(&other.addr).then(self.len.cmp(&other.len)));
        prefix.then(self.max.cmp(&other.max).then(self.asn.cmp(&other.asn)))
    }
}

impl PartialOrd for Vrp {
    ghost use Rattle.net_names.specs.Payloads.{vrp_cmp};
    ghost use Rattle.net_names.specs.Orders.{vrp_total, vrp_eq_is_tie};
    ghost use Rattle.std.specs.Prelude.{refl};
    ghost use Rattle.std.specs.Cmp.{partial_order_from_agreeing_total};
    ghost use Rattle.std.specs.Ordering.{as_partial_cmp};

    ghost partial_cmp = { as_partial_cmp vrp_cmp };

    ghost laws = { partial_order_from_agreeing_total vrp_cmp vrp_total (λ x y. refl) vrp_eq_is_tie };

    fn partial_cmp(&self, other: &Vrp) -> Option<Ordering> {
        Some(self.cmp(other))
    }
}
