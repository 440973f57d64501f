//! One line of a relationship file.
//!
//! A line that lies whole in a piece is judged where it stands: its two numbers by one pass over the bytes, and then `-1`
//! or `0` with a bar or a line feed behind it. Other lines are cut at their bars.
ghost use Rattle.std.specs.Prelude.{◌≡◌, ◌∷◌, ◌++◌, ◌≤◌, ℕ, List, codes, option_map, unwrap_or, IfSome};
ghost use Rattle.std.specs.Str.Lines.{strip_carriage_return};
ghost use Rattle.net_names.specs.Prelude.{fields, rel_of};
ghost use Rattle.caida_reader.specs.Plain.{BeginsWithFields, BeginsWithLine, BeginsWithRel};
ghost use Rattle.caida_reader.specs.Says.{link, said_by, says, IsRising};

use crate::digits::read_asn_field;
use net_names::{Asn, Rel, cut, read_asn};

/// What a line says: nothing where it is skipped, and else a link, unless it is faulty by itself.
#[derive(Clone, Copy, Debug, PartialEq, Eq)]
pub(crate) enum Line {
    /// It is empty or a comment.
    Skipped,
    /// It doesn't have the form.
    Unreadable,
    /// It gives a link of an AS with itself.
    SelfLink,
    /// It gives this link, whose lower end comes first.
    Link { lo: Asn, hi: Asn, rel: Rel },
}

#[tactic(auto, unfolding(net_names::specs::Texts::rel_of))]
fn read_rel(text: &[u8]) -> Option<Rel>
    ensures { result ≡ rel_of text.now }
{
    match text {
        b"-1" => Some(Rel::Customer),
        b"0" => Some(Rel::Peer),
        _ => None,
    }
}

// The link of two ASes, of which the second is this to the first.
fn make_link(a: Asn, b: Asn, rel: Rel) -> Line
    ensures value { result ≡ link a b rel }
    ensures rising { IsRising result }
{
    if a == b {
        return Line::SelfLink;
    }
    if a < b {
        return Line::Link { lo: a, hi: b, rel };
    }
    Line::Link {
        lo: b,
        hi: a,
        rel: rel.converse(),
    }
}

// The link of two numbers, of which the second is this to the first, where it is known what.
fn make_said(a: u32, b: u32, rel: Option<Rel>) -> Line
    requires first { 1 ≤ a }
    requires second { 1 ≤ b }
    ensures value { result ≡ unwrap_or (option_map (link a b) rel) Line.Unreadable }
    ensures rising { IsRising result }
{
    let Some(rel) = rel else {
        return Line::Unreadable;
    };
    let (Some(a), Some(b)) = (Asn::new(a), Asn::new(b)) else {
        unreachable!();
    };
    make_link(a, b, rel)
}

// The field before the first `|`, or the whole text where there is none.
#[tactic(auto, using(crate::proofs::Cutting::cutting))]
fn first_field(text: &[u8]) -> &[u8]
    ensures { (further : List (List ℕ)) × (fields 124 text.now ≡ result.now ∷ further) }
{
    match cut(text, b'|') {
        Some((field, _)) => field,
        None => text,
    }
}

#[tactic(auto, using(crate::proofs::Cutting::cutting))]
fn read_fields(text: &[u8]) -> Line
    ensures value { result ≡ said_by (fields 124 text.now) }
    ensures rising { IsRising result }
{
    let Some((first, rest)) = cut(text, b'|') else {
        return Line::Unreadable;
    };
    let Some((second, rest)) = cut(rest, b'|') else {
        return Line::Unreadable;
    };
    match (
        read_asn(first),
        read_asn(second),
        read_rel(first_field(rest)),
    ) {
        (Some(a), Some(b), Some(rel)) => make_link(a, b, rel),
        _ => Line::Unreadable,
    }
}

// A line without a carriage return at its end.
fn strip_cr(line: &[u8]) -> &[u8]
    ensures { result.now ≡ strip_carriage_return line.now }
{
    match line {
        [front @ .., b'\r'] => front,
        _ => line,
    }
}

/// What a line says.
pub(crate) fn read_line(line: &[u8]) -> Line
    ensures value { result ≡ says line.now }
    ensures rising { IsRising result }
{
    let text = strip_cr(line);
    match text {
        [] | [b'#', ..] => Line::Skipped,
        _ => read_fields(text),
    }
}

// What stands behind the relation of a customer.
#[inline(always)]
fn behind_customer(text: &[u8]) -> Option<&[u8]>
    ensures { IfSome result (λ rest. text.now ≡ codes "-1" ++ rest.now) }
{
    match text {
        [b'-', b'1', rest @ ..] => Some(rest),
        _ => None,
    }
}

// What stands behind the relation of a peer.
#[inline(always)]
fn behind_peer(text: &[u8]) -> Option<&[u8]>
    ensures { IfSome result (λ rest. text.now ≡ codes "0" ++ rest.now) }
{
    match text {
        [b'0', rest @ ..] => Some(rest),
        _ => None,
    }
}

// The relation at the head of a text, and what stands behind it.
#[inline(always)]
fn read_first_rel(text: &[u8]) -> Option<(Rel, &[u8])>
    ensures { IfSome result (λ p. BeginsWithRel text.now p.0 p.1.now) }
{
    if let Some(rest) = behind_customer(text) {
        return Some((Rel::Customer, rest));
    }
    if let Some(rest) = behind_peer(text) {
        return Some((Rel::Peer, rest));
    }
    None
}

// What stands behind a byte, where the text begins with it.
#[inline(always)]
fn behind(text: &[u8], byte: u8) -> Option<&[u8]>
    ensures { IfSome result (λ rest. text.now ≡ byte ∷ rest.now) }
{
    match text {
        [first, rest @ ..] if *first == byte => Some(rest),
        _ => None,
    }
}

// What stands behind the line feed of a line that ends here, or goes on with a further field.
#[inline(always)]
fn behind_fields(text: &[u8]) -> Option<&[u8]>
    ensures { IfSome result (λ rest. BeginsWithFields text.now rest.now) }
{
    if let Some(more) = behind(text, b'|') {
        let (_, rest) = cut(more, b'\n')?;
        return Some(rest);
    }
    behind(text, b'\n')
}

/// What the first line of a text says, and what stands behind its line feed. `None` where the line doesn't begin with two AS
/// numbers, and where no line feed ends it.
pub(crate) fn read_first_link(text: &[u8]) -> Option<(Line, &[u8])>
    ensures line { IfSome result (λ p. BeginsWithLine text.now p.0 p.1.now) }
    ensures rising { IfSome result (λ p. IsRising p.0) }
{
    let (first, one) = read_asn_field(text)?;
    let (second, two) = read_asn_field(one)?;
    if let Some((rel, end)) = read_first_rel(two) {
        if let Some(rest) = behind_fields(end) {
            return Some((make_said(first, second, Some(rel)), rest));
        }
    }
    let (end, rest) = cut(two, b'\n')?;
    let rel = read_rel(first_field(strip_cr(end)));
    Some((make_said(first, second, rel), rest))
}
