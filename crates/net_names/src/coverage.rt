//! What prefixes cover and hold.
ghost use Rattle.std.specs.Prelude.{◌≡◌, ◌≤◌, ◌*◌, ◌/◌, ◌^◌};
ghost use Rattle.net_names.specs.Coverage.{has_bits, covers as covers_of, holds as holds_of};

use crate::addresses::Addr;
use crate::prefixes::Prefix;

/// The bits with so many of the last ones cleared.
pub(crate) fn without_last(bits: u128, last: u8) -> u128
    requires { last ≤ 128 }
    ensures { result ≡ bits / 2 ^ last * 2 ^ last }
{
    if last == 128 {
        0
    } else {
        (bits >> last) << last
    }
}

// Whether the first bits are those of the prefix, as many as the prefix is long.
fn starts_as(prefix: Prefix, bits: u128) -> bool
    ensures { result ≡ has_bits prefix bits }
{
    let own = prefix.addr();
    own == without_last(bits, prefix.family().width() - prefix.len())
}

/// Whether the outer prefix covers the inner one: both are of one family, the outer one is no longer,
/// and the first bits agree, as many as the outer one is long. Each prefix covers itself.
/// Source: RFC 6811, section 2.
pub fn covers(outer: Prefix, inner: Prefix) -> bool
    ensures { result ≡ covers_of outer inner }
{
    outer.family() == inner.family() && outer.len() <= inner.len() && starts_as(outer, inner.addr())
}

/// Whether the prefix holds the address: both are of one family, and the first bits agree, as many
/// as the prefix is long. Source: RFC 4632, section 3.1, and RFC 4291, section 2.3.
pub fn holds(prefix: Prefix, addr: Addr) -> bool
    ensures { result ≡ holds_of prefix addr }
{
    prefix.family() == addr.family() && starts_as(prefix, addr.bits())
}
