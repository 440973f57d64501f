//! Texts to values.
ghost use Rattle.std.specs.Prelude.{◌≡◌, ◌^◌, ◌<◌, ◌≤◌, ◌&&◌, ◌==◌, nat_le, nat_lt, None, bytes_eq, decimal, option_map, if◌then◌else◌, IfSome, length, position};
ghost use Rattle.std.specs.Int.{w32, w128, from_be_bytes};
ghost use Rattle.std.specs.Net.Addr.{octets_of};
ghost use Rattle.std.specs.Net.Reader.{whole_value, read_ipv4, read_ipv6, dot};
ghost use Rattle.net_names.specs.Numbers.{occurs};
ghost use Rattle.net_names.specs.Steps.{option_filter};
ghost use Rattle.net_names.specs.Texts.{cut_at, class_named, numeral, asn_of, addr_of, prefix_of, vrp_asn_of, after};

use crate::addresses::{Addr, Family};
use crate::numbers::Asn;
use crate::prefixes::Prefix;
use crate::routes::Class;
use std::net::{Ipv4Addr, Ipv6Addr};

fn find(text: &[u8], byte: u8) -> Option<usize>
    ensures place { result ≡ position (λ b. b == byte) text.now }
    ensures within { IfSome result (λ i. i < length text.now) }
{
    text.iter().position(|b| *b == byte)
}

/// The text before the first such byte, and the text after it.
pub fn cut(text: &[u8], byte: u8) -> Option<(&[u8], &[u8])>
    ensures { option_map (λ p. (p.0.now, p.1.now)) result ≡ cut_at byte text.now }
{
    let i = find(text, byte)?;
    Some((&text[..i], &text[i + 1..]))
}

#[tactic(auto, unfolding(crate::specs::Texts::numeral))]
/// The number that 1 to `most` digits write.
pub fn number(text: &[u8], radix: u8, most: usize) -> Option<u64>
    requires low { 2 ≤ radix }
    requires high { radix ≤ 16 }
    requires short { most ≤ 10 }
    ensures value { result ≡ numeral radix most text.now }
    ensures small { IfSome result (λ n. n < radix ^ most) }
{
    if text.is_empty() || text.len() > most {
        return None;
    }
    let mut number: u64 = 0;
    for byte in text {
        let digit = (*byte as char).to_digit(radix as u32)?;
        number = number * radix as u64 + digit as u64;
    }
    Some(number)
}

// Up to 3 digits without a leading zero, at most the limit.
fn plain(text: &[u8], limit: u8) -> Option<u8>
    ensures { result ≡ option_filter (λ n. bytes_eq text.now (decimal n) && nat_le n limit) (numeral 10 3 text.now) }
{
    let n = number(text, 10, 3)?;
    if (text.len() > 1 && text[0] == b'0') || n > limit as u64 {
        None
    } else {
        Some(n as u8)
    }
}

// The number that 1 to 10 digits write, where it is at most 4294967295.
fn number_of_32_bits(text: &[u8]) -> Option<u32>
    ensures { result ≡ option_filter (λ n. nat_lt n (2 ^ 32)) (numeral 10 10 text.now) }
{
    let n = number(text, 10, 10)?;
    if n > u32::MAX as u64 {
        None
    } else {
        Some(n as u32)
    }
}

/// None exactly where the text isn't 1 to 10 digits that say 1 to 4294967295.
#[tactic(auto, unfolding(crate::specs::Texts::asn_of))]
pub fn read_asn(text: &[u8]) -> Option<Asn>
    ensures { result ≡ asn_of text.now }
{
    Asn::new(number_of_32_bits(text)?)
}

/// The class of that word; `None` exactly where the text is none of `origin`, `customer`, `peer` and `provider`. The words
/// are this project's own.
#[tactic(auto, unfolding(crate::specs::Texts::class_named))]
pub fn read_class(text: &[u8]) -> Option<Class>
    ensures { result ≡ class_named text.now }
{
    if text == b"origin".as_slice() {
        Some(Class::Origin)
    } else if text == b"customer".as_slice() {
        Some(Class::Customer)
    } else if text == b"peer".as_slice() {
        Some(Class::Peer)
    } else if text == b"provider".as_slice() {
        Some(Class::Provider)
    } else {
        None
    }
}

fn read_v4(text: &[u8]) -> Option<u32>
    ensures { result ≡ option_map (from_be_bytes w32) (whole_value (read_ipv4 text.now)) }
{
    match Ipv4Addr::parse_ascii(text) {
        Ok(addr) => Some(addr.to_bits()),
        Err(_) => None,
    }
}

// A dotted end is not read.
fn read_v6(text: &[u8]) -> Option<u128>
    ensures { result ≡ (if occurs dot text.now then None else
        option_map (λ groups. from_be_bytes w128 (octets_of groups)) (whole_value (read_ipv6 text.now))) }
{
    if text.contains(&b'.') {
        return None;
    }
    match Ipv6Addr::parse_ascii(text) {
        Ok(addr) => Some(addr.to_bits()),
        Err(_) => None,
    }
}

/// What stands after these bytes, where the text begins with them.
pub fn strip<'a>(text: &'a [u8], front: &[u8]) -> Option<&'a [u8]>
    ensures { option_map (λ r. r.now) result ≡ after front.now text.now }
{
    if text.starts_with(front) {
        Some(&text[front.len()..])
    } else {
        None
    }
}

/// After the letters `AS`, where they are there: None exactly where it isn't 1 to 10 digits that say at most 4294967295.
#[tactic(auto, unfolding(crate::specs::Texts::vrp_asn_of))]
pub fn read_vrp_asn(text: &[u8]) -> Option<u32>
    ensures { result ≡ vrp_asn_of text.now }
{
    number_of_32_bits(strip(text, b"AS").unwrap_or(text))
}

#[tactic(auto, unfolding(crate::specs::Texts::addr_of))]
/// None exactly where the text is no address of either family.
pub fn read_addr(text: &[u8]) -> Option<Addr>
    ensures { result ≡ addr_of text.now }
{
    match read_v4(text) {
        Some(bits) => Addr::new(Family::V4, bits as u128),
        None => match read_v6(text) {
            Some(bits) => Addr::new(Family::V6, bits),
            None => None,
        },
    }
}

/// None exactly where the text is no prefix of either family.
#[tactic(auto, unfolding(crate::specs::Texts::prefix_of))]
pub fn read_prefix(text: &[u8]) -> Option<Prefix>
    ensures { result ≡ prefix_of text.now }
{
    let (front, back) = cut(text, b'/')?;
    let addr = read_addr(front)?;
    let len = plain(back, addr.family().width())?;
    Prefix::new(addr.family(), addr.bits(), len)
}
