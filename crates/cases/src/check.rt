//! The check of a bundle.
ghost use Rattle.std.specs.Prelude.{◌≡◌, false, true, IsTrue, IfOk, IfErr};
ghost use Rattle.asprop_run.specs.Streams.{stream_of};
ghost use Rattle.cases.specs.Reports.{are_of_bundle, IsBundle, IsChecked, IsFaultyFrom, IsReported};

use crate::case::{Bundle, Case};
use crate::judge::{OutOfMemory, judge_all};
use crate::lines::{are_one_line, have_one_lines, line_of};
use crate::read::{empty_bundle, read_bundle};
use crate::report::{all_passed, has_twice, report};
use crate::text::text_of;
use io_edge::{Failed, Sink, write_all};
use std::alloc::Global;
use std::str;

// Why a text is no bundle: from this line on it is not that of the notes and cases that it seems to have.
struct Faulty(usize);

// Whether there are cases, each with a name of its own, and each name, word and note stands in one line.
fn are_of_bundle(notes: &[String], cases: &[Case]) -> bool
    ensures { result ≡ are_of_bundle notes.now cases.now }
{
    !cases.is_empty() && !has_twice(cases) && are_one_line(notes) && have_one_lines(cases)
}

// Whether the text is that of these notes and cases, which is `whole`, and they are those of a bundle.
fn is_bundle(text: &[u8], whole: &[u8], notes: &[String], cases: &[Case]) -> bool
    ensures yes { IsTrue result → (text.now ≡ whole.now) × (are_of_bundle notes.now cases.now ≡ true) }
    ensures no { result ≡ false → text.now ≡ whole.now → are_of_bundle notes.now cases.now ≡ false }
{
    are_of_bundle(notes, cases) && text == whole
}

// The cases of a bundle.
fn bundle(alloc: Global, text: &[u8]) -> Result<Result<Vec<Case>, Faulty>, OutOfMemory>
    ensures found { IfOk result (λ found. IfOk found (λ cases. IsBundle text.now cases.items)) }
    ensures none { IfOk result (λ found. IfErr found (λ e. IsFaultyFrom text.now e.0)) }
{
    let Bundle { notes, cases } = match str::from_utf8(text) {
        Ok(text) => read_bundle(alloc, text)?,
        Err(_) => empty_bundle(alloc),
    };
    let whole = text_of(alloc, &notes, &cases)?;
    let line = line_of(text, &whole);
    if is_bundle(text, &whole, &notes, &cases) {
        Ok(Ok(cases))
    } else {
        Ok(Err(Faulty(line)))
    }
}

// Runs the cases, and writes what is said of them.
fn report_all<O: Sink>(alloc: Global, cases: &[Case], out: &mut O) -> Result<bool, OutOfMemory>
    ensures { IfOk result (λ passed.
        IsReported cases.now passed (stream_of O.written O.faults out.old out.new)) }
{
    let verdicts = judge_all(alloc, cases)?;
    let said = report(alloc, cases, &verdicts)?;
    let passed = all_passed(&verdicts);
    match write_all(out, &said) {
        Ok(()) => Ok(passed),
        Err(Failed) => Ok(false),
    }
}

/// Runs the cases of a bundle, and writes what is said of them. It answers whether all passed, and that was written.
///
/// A text that is no bundle, has no case or has a name twice is faulty, and the line is told from which on it is not as its
/// notes and cases are written.
pub fn check<O: Sink>(alloc: Global, text: &[u8], out: &mut O) -> Result<bool, OutOfMemory>
    ensures { IfOk result (λ passed.
        IsChecked text.now passed (stream_of O.written O.faults out.old out.new)) }
{
    match bundle(alloc, text)? {
        Ok(cases) => report_all(alloc, &cases, out),
        Err(Faulty(line)) => {
            let said = format!(in alloc; "faulty from line {line} on\n")?;
            let _ = write_all(out, said.as_bytes());
            Ok(false)
        }
    }
}
