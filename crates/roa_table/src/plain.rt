//! Rows without quotes, read where they stand.
ghost use Rattle.std.specs.Prelude.{◌≡◌, ◌<◌, ◌∷◌, length, position, IfSome};
ghost use Rattle.roa_table.specs.Plain.{stops_line as stops_line_of, stops_field as stops_field_of, SplitsField, EndsLine, BeginsWith, BeginsRows};

use crate::errors::VrpError;
use crate::record::judge_texts;
use net_names::Vrp;

// Whether a byte ends a line, or is a quote.
fn stops_line(byte: u8) -> bool
    ensures { result ≡ stops_line_of byte }
{
    byte == b'"' || byte == b'\r' || byte == b'\n'
}

// Whether a byte ends a field or a line, or is a quote.
fn stops_field(byte: u8) -> bool
    ensures { result ≡ stops_field_of byte }
{
    byte == b',' || stops_line(byte)
}

// The place of the first byte that ends a field or a line or is a quote.
fn find_field_stop(text: &[u8]) -> Option<usize>
    ensures place { result ≡ position stops_field_of text.now }
    ensures within { IfSome result (λ at. at < length text.now) }
{
    text.iter().position(|byte| stops_field(*byte))
}

// The place of the first byte that ends a line or is a quote.
fn find_line_stop(text: &[u8]) -> Option<usize>
    ensures place { result ≡ position stops_line_of text.now }
    ensures within { IfSome result (λ at. at < length text.now) }
{
    text.iter().position(|byte| stops_line(*byte))
}

/// What stands behind this byte, where the text begins with it.
pub(crate) fn behind(text: &[u8], byte: u8) -> Option<&[u8]>
    ensures { IfSome result (λ rest. text.now ≡ byte ∷ rest.now) }
{
    if text.is_empty() || text[0] != byte {
        return None;
    }
    Some(&text[1..])
}

// The text up to where its first field ends, and the text from there on.
fn split_field(text: &[u8]) -> (&[u8], &[u8])
    ensures { SplitsField text.now result.0.now result.1.now }
{
    match find_field_stop(text) {
        Some(at) => (&text[..at], &text[at..]),
        None => (text, &[]),
    }
}

// The text from the line feed on that ends its first line, or nothing where the text ends the line. The line has no quote.
fn end_line(text: &[u8]) -> Option<&[u8]>
    ensures { IfSome result (λ rest. EndsLine text.now rest.now) }
{
    let Some(at) = find_line_stop(text) else {
        return Some(&[]);
    };
    if text[at] == b'\n' {
        return Some(&text[at..]);
    }
    let rest = &text[at + 1..];
    if text[at] != b'\r' || rest.is_empty() || rest[0] != b'\n' {
        return None;
    }
    Some(rest)
}

/// What the header leaves, from where its line ends on, if it has no quote.
pub(crate) fn behind_header(text: &[u8]) -> Option<&[u8]>
    ensures { IfSome result (λ left. BeginsRows text.now left.now) }
{
    // A byte order mark is no part of the header, and neither are empty lines before it.
    if text.is_empty() || text[0] == 0xef || stops_line(text[0]) {
        return None;
    }
    let left = end_line(text)?;
    Some(left)
}

/// What a row says, and what it leaves of the text.
#[derive(Clone, Copy)]
pub(crate) struct Line<'a> {
    /// Its payload, or its fault.
    pub(crate) outcome: Result<Vrp, VrpError>,
    /// The text from where its line ends on.
    pub(crate) left: &'a [u8],
}

/// The row behind a line feed, where it has no quote and at least three fields.
pub(crate) fn read_line(row: u64, text: &[u8]) -> Option<Line<'_>>
    ensures { IfSome result (λ l. BeginsWith text.now row l.outcome l.left.now) }
{
    let line = behind(text, b'\n')?;
    let (asn, one) = split_field(line);
    let (prefix, two) = split_field(behind(one, b',')?);
    let (max, more) = split_field(behind(two, b',')?);
    let left = end_line(more)?;
    Some(Line {
        outcome: judge_texts(row, asn, prefix, max),
        left,
    })
}
