//! Lines of texts.
ghost use Rattle.std.specs.Prelude.{◌≡◌, nat_eq};
ghost use Rattle.std.specs.List.{common_prefix_len, list_all};
ghost use Rattle.cases.specs.Lines.{are_named_in_one_line, are_one_line, has_one_lines, is_one_line, line_of};

use crate::case::{Case, CaseFile};

fn is_one_line(text: &str) -> bool
    ensures { result ≡ is_one_line text.now }
{
    text.as_bytes().iter().all(|byte| *byte != b'\n')
}

/// Whether each of these texts stands in one line.
pub(crate) fn are_one_line(texts: &[String]) -> bool
    ensures { result ≡ are_one_line texts.now }
{
    texts.iter().all(|text| is_one_line(text.as_str()))
}

// Whether the name of each of these files stands in one line.
fn are_named_in_one_line(files: &[CaseFile]) -> bool
    ensures { result ≡ are_named_in_one_line files.now }
{
    files.iter().all(|file| is_one_line(file.name.as_str()))
}

// Whether the name of the case, its words and the names of its files stand in one line each.
fn has_one_lines(case: &Case) -> bool
    ensures { result ≡ has_one_lines case.now }
{
    is_one_line(case.name.as_str())
        && are_one_line(&case.words)
        && are_named_in_one_line(&case.files)
}

/// Whether the names, words and names of files of each of these cases stand in one line each.
pub(crate) fn have_one_lines(cases: &[Case]) -> bool
    ensures { result ≡ list_all has_one_lines cases.now }
{
    cases.iter().all(|case| has_one_lines(case))
}

// How many bytes both texts begin with.
fn common_len(text: &[u8], other: &[u8]) -> usize
    ensures { result ≡ common_prefix_len nat_eq text.now other.now }
{
    let mut len = 0usize;
    'bytes: while len < text.len() && len < other.len() && text[len] == other[len] {
        len += 1;
    }
    len
}

/// The number of the first line in which two texts differ, counted from 1.
pub(crate) fn line_of(text: &[u8], other: &[u8]) -> usize
    ensures { result ≡ line_of text.now other.now }
{
    let front = &text[..common_len(text, other)];
    front.iter().filter(|byte| **byte == b'\n').count() + 1
}
