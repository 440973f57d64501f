//! Values to texts. A text is made whole before it is appended, so where room is refused nothing has changed.
ghost use Rattle.std.specs.Prelude.{◌≡◌, ℕ, ◌^◌, ◌<◌, ◌≤◌, ◌++◌, decimal, List, IfSome, OnOk, OnErr, Some};
ghost use Rattle.net_names.specs.Addresses.{AddrValue, FitsFamily};
ghost use Rattle.net_names.specs.Prefixes.{PrefixValue, IsPrefix};
ghost use Rattle.net_names.specs.declared.addresses.Family.TheVariants.{V4, V6};
ghost use Rattle.net_names.specs.declared.routes.Class.{Class};
ghost use Rattle.net_names.specs.Texts.{asn_of, class_named, class_word, addr_of, addr_text, prefix_of, prefix_text};

use crate::addresses::{Addr, Family};
use crate::numbers::{Asn, NoMemory};
use crate::prefixes::Prefix;
use itoa::Buffer;
use std::fmt::{Display, InlineText, Write};
use std::net::{Ipv4Addr, Ipv6Addr};

/// The most bytes that a text takes: eight groups of four digits, seven colons, a slash and three digits.
const MOST_BYTES: usize = 43;

/// Appends the bytes. Where memory is wanting, nothing changes.
pub fn put_bytes(out: &mut Vec<u8>, bytes: &[u8]) -> Result<(), NoMemory>
    ensures ok { OnOk result (out.new.items ≡ out.old.items ++ bytes.now) }
    ensures err { OnErr result (out.new.items ≡ out.old.items) }
{
    out.extend_from_slice(bytes)?;
    Ok(())
}

/// Appends the number in decimal digits. Where memory is wanting, nothing changes.
pub fn put_number(out: &mut Vec<u8>, number: u64) -> Result<(), NoMemory>
    ensures ok { OnOk result (out.new.items ≡ out.old.items ++ decimal number) }
    ensures err { OnErr result (out.new.items ≡ out.old.items) }
{
    let mut digits = Buffer::new();
    put_bytes(out, digits.format(number).as_bytes())
}

/// Appends the number of the AS in decimal digits. Where memory is wanting, nothing changes.
pub fn put_asn(out: &mut Vec<u8>, asn: Asn) -> Result<(), NoMemory>
    ensures ok { OnOk result (out.new.items ≡ out.old.items ++ decimal asn) }
    ensures err { OnErr result (out.new.items ≡ out.old.items) }
{
    let mut digits = Buffer::new();
    put_bytes(out, digits.format(asn.get()).as_bytes())
}

// Appends the text of the value, which is at most `MOST_BYTES` long.
fn put<D: Display + Drop>(out: &mut Vec<u8>, value: D) -> Result<(), NoMemory>
    ensures ok { OnOk result (IfSome (D.output value) (λ text. out.new.items ≡ out.old.items ++ text)) }
    ensures err { OnErr result (out.new.items ≡ out.old.items) }
{
    let mut text = InlineText::<MOST_BYTES>::new();
    if text.write(value).is_err() {
        return Err(NoMemory);
    }
    out.extend_from_slice(text.as_str().as_bytes())?;
    Ok(())
}

/// What is read as an IPv4 address is the one text of that address, and that text is read again.
pub fn v4_has_one_text()
    ensures found { (text : List ℕ) (bits : ℕ) → addr_of text ≡ Some (record { family = V4; bits = bits }) →
        (text ≡ addr_text (record { family = V4; bits = bits })) × (bits < 2 ^ 32) }
    ensures again { (bits : ℕ) → bits < 2 ^ 32 → addr_of (addr_text (record { family = V4; bits = bits })) ≡
        Some (record { family = V4; bits = bits }) }
{}

/// An IPv6 address may be written in several ways. Its one printed text is read again as the address.
pub fn v6_has_one_text()
    ensures again { (bits : ℕ) → bits < 2 ^ 128 → addr_of (addr_text (record { family = V6; bits = bits })) ≡
        Some (record { family = V6; bits = bits }) }
{}

/// The printed text of a class, an AS number, an address or a prefix is read again as that value.
pub fn texts_are_read_again()
    ensures class { (c : Class) → class_named (class_word c) ≡ Some c }
    ensures asn { (n : ℕ) → 1 ≤ n → n < 2 ^ 32 → asn_of (decimal n) ≡ Some n }
    ensures addr { (a : AddrValue) → FitsFamily a.family a.bits → addr_of (addr_text a) ≡ Some a }
    ensures prefix { (p : PrefixValue) → IsPrefix p.family p.addr p.len → prefix_of (prefix_text p) ≡ Some p }
{}

/// Appends the one printed text of the address. Where memory is wanting, nothing changes.
pub fn put_addr(out: &mut Vec<u8>, addr: Addr) -> Result<(), NoMemory>
    ensures ok { OnOk result (out.new.items ≡ out.old.items ++ addr_text addr) }
    ensures err { OnErr result (out.new.items ≡ out.old.items) }
{
    match addr.family() {
        Family::V4 => put(out, Ipv4Addr::from_bits(addr.bits() as u32)),
        Family::V6 => put(out, Ipv6Addr::from_bits(addr.bits()).hex_groups()),
    }
}

/// Appends the one printed text of the prefix. Where memory is wanting, nothing changes.
pub fn put_prefix(out: &mut Vec<u8>, prefix: Prefix) -> Result<(), NoMemory>
    ensures ok { OnOk result (out.new.items ≡ out.old.items ++ prefix_text prefix) }
    ensures err { OnErr result (out.new.items ≡ out.old.items) }
{
    let len = prefix.len();
    match prefix.family() {
        Family::V4 => {
            let addr = Ipv4Addr::from_bits(prefix.addr() as u32);
            put(out, format_args!("{addr}/{len}"))
        }
        Family::V6 => {
            let addr = Ipv6Addr::from_bits(prefix.addr()).hex_groups();
            put(out, format_args!("{addr}/{len}"))
        }
    }
}
