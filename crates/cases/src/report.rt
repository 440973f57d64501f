//! What is said of cases.
ghost use Rattle.std.specs.Prelude.{◌≡◌, ◌++◌, IfOk, OnOk, count_by, length, not};
ghost use Rattle.std.specs.List.{flat_map, list_all, zip};
ghost use Rattle.cases.specs.Reports.{failed_text, has_name, has_twice, report_text};

use crate::case::Case;
use std::alloc::{AllocError, Global};

// Whether one of the cases has this name.
fn has_name(cases: &[Case], name: &str) -> bool
    ensures { result ≡ has_name name.now cases.now }
{
    cases.iter().any(|case| case.name.as_str() == name)
}

/// Whether a name stands twice.
pub(crate) fn has_twice(cases: &[Case]) -> bool
    ensures { result ≡ has_twice cases.now }
{
    match cases {
        [] => false,
        [first, rest @ ..] => has_name(rest, first.name.as_str()) || has_twice(rest),
    }
}

fn count_passed(verdicts: &[bool]) -> usize
    ensures { result ≡ count_by (λ b. b) verdicts.now }
{
    verdicts.iter().filter(|passed| **passed).count()
}

fn count_failed(verdicts: &[bool]) -> usize
    ensures { result ≡ count_by not verdicts.now }
{
    verdicts.iter().filter(|passed| !**passed).count()
}

/// Whether all cases passed.
pub(crate) fn all_passed(verdicts: &[bool]) -> bool
    ensures { result ≡ list_all (λ b. b) verdicts.now }
{
    verdicts.iter().all(|passed| *passed)
}

// Appends a line for a case, if it failed.
fn put_verdict(out: &mut Vec<u8>, case: &Case, passed: bool) -> Result<(), AllocError>
    ensures { OnOk result (out.new.items ≡ out.old.items ++ failed_text (case.now, passed)) }
{
    if passed {
        return Ok(());
    }
    out.extend_from_slice(b"failed: ")?;
    out.extend_from_slice(case.name.as_bytes())?;
    out.extend_from_slice(b"\n")
}

// Appends a line for each case that failed.
fn put_failed(out: &mut Vec<u8>, cases: &[Case], verdicts: &[bool]) -> Result<(), AllocError>
    requires { length verdicts.now ≡ length cases.now }
    ensures { OnOk result (out.new.items ≡ out.old.items ++ flat_map failed_text (zip cases.now verdicts.now)) }
{
    for (place, case) in cases.iter().enumerate() {
        put_verdict(out, case, verdicts[place])?;
    }
    Ok(())
}

/// What is said of the cases by their verdicts.
pub(crate) fn report(
    alloc: Global,
    cases: &[Case],
    verdicts: &[bool],
) -> Result<Vec<u8>, AllocError>
    requires { length verdicts.now ≡ length cases.now }
    ensures { IfOk result (λ text. text.items ≡ report_text cases.now verdicts.now) }
{
    let mut out = Vec::new(alloc);
    put_failed(&mut out, cases, verdicts)?;
    let passed = count_passed(verdicts);
    let failed = count_failed(verdicts);
    let last = format!(in alloc; "{passed} passed, {failed} failed\n")?;
    out.extend_from_slice(last.as_bytes())?;
    Ok(out)
}
