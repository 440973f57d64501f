//! The forms of a printed table's rows.
ghost use Rattle.std.specs.Prelude.{◌≡◌, ◌+◌, ◌≤◌, [], length, Some, IfOk, IfSome};
ghost use Rattle.net_names.specs.Prelude.{asn_of};
ghost use Rattle.scenario_text.specs.Prelude.{form};
ghost use Rattle.table_check.specs.Forms.{numbers_of, row_of, way_of};

use net_names::{Asn, NoMemory, Path, cut, read_asn, read_class, strip};
use stability_laws::Entry;
use std::alloc::Global;

// How many bytes a number of five digits takes with the space behind it.
const BYTES_OF_FIVE_DIGITS: usize = 6;

// The number behind the word `otc`.
fn otc(text: &[u8]) -> Option<Asn>
    ensures { result ≡ form "otc " asn_of (λ m. m) text.now }
{
    let rest = strip(text, b"otc ")?;
    read_asn(rest)
}

// The empty path, with room for the numbers of the text where each has five digits or more. A path of shorter
// numbers grows.
fn room_for(alloc: Global, text: &[u8]) -> Result<Path, NoMemory>
    ensures { IfOk result (λ p. p ≡ []) }
{
    let numbers = Vec::with_capacity(alloc, text.len() / BYTES_OF_FIVE_DIGITS + 1)?;
    Ok(Path::from_vec(numbers))
}

// The numbers of a text with one space between.
fn numbers(alloc: Global, text: &[u8]) -> Result<Option<Path>, NoMemory>
    ensures value { IfOk result (λ p. p ≡ numbers_of text.now) }
    ensures few { IfOk result (λ p. IfSome p (λ ns. length ns ≤ length text.now + 1)) }
{
    let mut path = room_for(alloc, text)?;
    let mut rest = text;
    while let Some((word, more)) = cut(rest, b' ') {
        let Some(asn) = read_asn(word) else {
            return Ok(None);
        };
        path.push(asn)?;
        rest = more;
    }
    let Some(last) = read_asn(rest) else {
        return Ok(None);
    };
    path.push(last)?;
    Ok(Some(path))
}

// A path, and the number behind it where there is one.
fn way(alloc: Global, text: &[u8]) -> Result<Option<(Path, Option<Asn>)>, NoMemory>
    ensures value { IfOk result (λ w. w ≡ way_of text.now) }
    ensures few { IfOk result (λ w. IfSome w (λ x. length x.0 ≤ length text.now + 1)) }
{
    let Some((front, back)) = cut(text, b'|') else {
        return match numbers(alloc, text)? {
            Some(path) => Ok(Some((path, None))),
            None => Ok(None),
        };
    };
    let Some(path) = numbers(alloc, front)? else {
        return Ok(None);
    };
    match otc(back) {
        Some(number) => Ok(Some((path, Some(number)))),
        None => Ok(None),
    }
}

/// The AS of a row and what it holds; `None` exactly where the line has not the form. `Err` where there is not enough
/// memory.
#[tactic(auto, unfolding(crate::specs::Forms::row_of, scenario_text::specs::Forms::pair))]
pub(crate) fn row(alloc: Global, line: &[u8]) -> Result<Option<(Asn, Option<Entry>)>, NoMemory>
    ensures value { IfOk result (λ r. r ≡ row_of line.now) }
    ensures few { IfOk result (λ r. IfSome r (λ x. IfSome x.1 (λ e. length e.path ≤ length line.now + 1))) }
{
    let Some((word, text)) = cut(line, b'|') else {
        return Ok(None);
    };
    let Some(asn) = read_asn(word) else {
        return Ok(None);
    };
    if text == b"none|".as_slice() {
        return Ok(Some((asn, None)));
    }
    let Some((word, rest)) = cut(text, b'|') else {
        return Ok(None);
    };
    let Some(class) = read_class(word) else {
        return Ok(None);
    };
    match way(alloc, rest)? {
        Some((path, otc)) => Ok(Some((asn, Some(Entry { class, path, otc })))),
        None => Ok(None),
    }
}
