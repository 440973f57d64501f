//! The lines of a file that count.
ghost use Rattle.std.specs.Prelude.{◌≡◌, ℕ, ◌+◌, ◌^◌, ◌<◌, ◌≤◌, List, [], ◌∷◌, length, IfSome, IfNone, IfOk, Result, Err};
ghost use Rattle.std.specs.Str.Lines.{strip_carriage_return};
ghost use Rattle.net_names.specs.Lines.{kept_from, said_on, GivesOrFails, IsLineAndRest};
ghost use Rattle.net_names.specs.Texts.{is_skipped};

use crate::reading::cut;
use std::alloc::Global;

/// A line that isn't skipped.
#[derive(Clone, Copy)]
pub struct KeptLine<'a> {
    /// Its number.
    pub number: u32,
    /// Its bytes, without the line feed at the end and one carriage return before it.
    pub line: &'a [u8],
    /// The bytes behind it.
    pub rest: &'a [u8],
}

// One carriage return at the end doesn't count.
fn drop_cr(line: &[u8]) -> &[u8]
    ensures value { result.now ≡ strip_carriage_return line.now }
    ensures short { length result.now ≤ length line.now }
{
    if !line.is_empty() && line[line.len() - 1] == b'\r' {
        &line[..line.len() - 1]
    } else {
        line
    }
}

// The first line, and the bytes after it.
fn next_line(bytes: &[u8]) -> (&[u8], &[u8])
    requires { 0 < length bytes.now }
    ensures lines { IsLineAndRest bytes.now result.0.now result.1.now }
    ensures shorter { length result.1.now < length bytes.now }
    ensures short { length result.0.now ≤ length bytes.now }
{
    match cut(bytes, b'\n') {
        Some((line, rest)) => (drop_cr(line), rest),
        None => (drop_cr(bytes), &bytes[..0]),
    }
}

fn skips(line: &[u8]) -> bool
    ensures { result ≡ is_skipped line.now }
{
    line.is_empty() || line[0] == b'#'
}

/// The first line that isn't skipped, and what stands behind it, where the first line of the bytes has this number; `None`
/// exactly where each line is skipped. A line ends with a line feed, before which one carriage return may stand; a line
/// that is empty or begins with `#` is skipped. The format is this project's own.
pub fn next_kept(bytes: &[u8], number: u32) -> Option<KeptLine<'_>>
    requires { number + length bytes.now < 2 ^ 32 }
    ensures some { IfSome result (λ k. kept_from number bytes.now ≡
        (k.number, k.line.now) ∷ kept_from (k.number + 1) k.rest.now) }
    ensures none { IfNone result (kept_from number bytes.now ≡ []) }
    ensures later { IfSome result (λ k. number ≤ k.number) }
    ensures room { IfSome result (λ k. k.number + 1 + length k.rest.now ≤ number + length bytes.now) }
    ensures short { IfSome result (λ k. length k.line.now ≤ length bytes.now) }
    ensures shorter { IfSome result (λ k. length k.rest.now < length bytes.now) }
{
    let mut rest = bytes;
    let mut at = number;
    while !rest.is_empty() {
        let (line, more) = next_line(rest);
        if !skips(line) {
            return Some(KeptLine {
                number: at,
                line,
                rest: more,
            });
        }
        rest = more;
        at += 1;
    }
    None
}

/// What a file says, put together line by line. [`put_lines`] is the one loop over the lines.
///
/// An `impl` says what a line adds (`says`), with which faults a reading fails (`Fails`, where want of memory says
/// nothing), what holds before the line of a number is put in (`IsReady`), and how long a line is at most (`most`).
pub trait LineByLine: Sized {
    /// Why a line is refused.
    type Error;

    /// What a line that isn't skipped, with its number, says behind what was said before.
    ghost says: { Self → ℕ × List ℕ → Result Self Self.Error };

    /// A reading fails in this way.
    ghost Fails: { Self.Error → Result Self Self.Error → Type 0 };

    /// What was said stands before the line of this number.
    ghost IsReady: { ℕ → Self → Type 0 };

    /// How many bytes a line has at most.
    ghost most: { ℕ };

    /// Puts in what the line of this number says.
    fn put_line(self, alloc: Global, number: u32, line: &[u8]) -> Result<Self, Self::Error>
        requires short { length line.now ≤ most }
        requires ready { IsReady number self }
        ensures gives { GivesOrFails Fails result (says self (number, line.now)) }
        ensures ready { IfOk result (IsReady (number + 1)) };

    /// A reading that fails as another one does fails in the same way.
    ghost fails_on: { (e : Self.Error) (r s : Result Self Self.Error) →
        ((f : Self.Error) → r ≡ Err f → s ≡ Err f) → Fails e r → Fails e s };

    /// What stands before a line stands before a later one.
    ghost stays_ready: { (n m : ℕ) (s : Self) → n ≤ m → IsReady n s → IsReady m s };

    /// A line is short enough for its file to be numbered.
    ghost fits: { most + 1 < 2 ^ 32 };
}

/// Puts in what the lines of these bytes say that aren't skipped, of which the first has this number, up to the first
/// fault.
pub fn put_lines<S: LineByLine>(
    alloc: Global,
    said: S,
    number: u32,
    bytes: &[u8],
) -> Result<S, S::Error>
    requires first { 1 ≤ number }
    requires short { number + length bytes.now ≤ S.most + 1 }
    requires ready { S.IsReady number said }
    ensures gives { GivesOrFails S.Fails result (said_on S.says said (kept_from number bytes.now)) }
    ensures ready { IfOk result (S.IsReady (number + length bytes.now)) }
{
    let mut said = said;
    let mut number = number;
    let mut rest = bytes;
    'lines: while let Some(kept) = next_kept(rest, number) {
        rest = kept.rest;
        number = kept.number + 1;
        said = said.put_line(alloc, kept.number, kept.line)?;
    }
    Ok(said)
}
