//! The text of a bundle.
ghost use Rattle.std.specs.Prelude.{◌≡◌, ◌++◌, ◌<◌, IfOk, OnOk};
ghost use Rattle.std.specs.List.{flat_map};
ghost use Rattle.cases.specs.Texts.{bundle_text, case_text, content, digit, file_text, line, lines, run_text, shown, wanted_text, way_text};

use crate::case::{Case, CaseFile, Way};
use std::alloc::{AllocError, Global};

// A hexadecimal digit.
fn digit(value: u8) -> u8
    requires { value < 16 }
    ensures { result ≡ digit value }
{
    if value < 10 {
        b'0' + value
    } else {
        b'a' + (value - 10)
    }
}

// Appends a byte as a bundle shows it.
fn put_byte(out: &mut Vec<u8>, byte: u8) -> Result<(), AllocError>
    ensures { OnOk result (out.new.items ≡ out.old.items ++ shown byte) }
{
    match byte {
        10 => out.extend_from_slice(b"\n|"),
        32..=91 | 93..=126 => out.extend_from_slice(&[byte]),
        _ => out.extend_from_slice(&[92, digit(byte / 16), digit(byte % 16)]),
    }
}

// Appends bytes as a bundle shows them.
fn put_content(out: &mut Vec<u8>, bytes: &[u8]) -> Result<(), AllocError>
    ensures { OnOk result (out.new.items ≡ out.old.items ++ content bytes.now) }
{
    out.extend_from_slice(b"|")?;
    for byte in bytes {
        put_byte(out, *byte)?;
    }
    out.extend_from_slice(b"\n")
}

// Appends a line of a word and what it is about.
fn put_line(out: &mut Vec<u8>, word: &[u8], about: &[u8]) -> Result<(), AllocError>
    ensures { OnOk result (out.new.items ≡ out.old.items ++ line word.now about.now) }
{
    out.extend_from_slice(word)?;
    out.extend_from_slice(b" ")?;
    out.extend_from_slice(about)?;
    out.extend_from_slice(b"\n")
}

// Appends a line of this word for each of these texts.
fn put_lines(out: &mut Vec<u8>, word: &[u8], texts: &[String]) -> Result<(), AllocError>
    ensures { OnOk result (out.new.items ≡ out.old.items ++ lines word.now texts.now) }
{
    for text in texts {
        put_line(out, word, text.as_bytes())?;
    }
    Ok(())
}

// Appends a file with its name.
fn put_file(out: &mut Vec<u8>, file: &CaseFile) -> Result<(), AllocError>
    ensures { OnOk result (out.new.items ≡ out.old.items ++ file_text file.now) }
{
    put_line(out, b"file", file.name.as_bytes())?;
    put_content(out, &file.bytes)
}

fn put_files(out: &mut Vec<u8>, files: &[CaseFile]) -> Result<(), AllocError>
    ensures { OnOk result (out.new.items ≡ out.old.items ++ flat_map file_text files.now) }
{
    for file in files {
        put_file(out, file)?;
    }
    Ok(())
}

// Appends the line of a way to run.
fn put_way(alloc: Global, out: &mut Vec<u8>, way: Way) -> Result<(), AllocError>
    ensures { OnOk result (out.new.items ≡ out.old.items ++ way_text way) }
{
    let Way {
        most,
        read,
        write,
        tell,
    } = way;
    let line = format!(in alloc; "run {most} {read} {write} {tell}\n")?;
    out.extend_from_slice(line.as_bytes())
}

fn put_ways(alloc: Global, out: &mut Vec<u8>, ways: &[Way]) -> Result<(), AllocError>
    ensures { OnOk result (out.new.items ≡ out.old.items ++ flat_map way_text ways.now) }
{
    for way in ways {
        put_way(alloc, out, *way)?;
    }
    Ok(())
}

// Appends how a case is run.
fn put_run(alloc: Global, out: &mut Vec<u8>, case: &Case) -> Result<(), AllocError>
    ensures { OnOk result (out.new.items ≡ out.old.items ++ run_text case.now) }
{
    put_line(out, b"case", case.name.as_bytes())?;
    put_lines(out, b"word", &case.words)?;
    put_files(out, &case.files)?;
    put_ways(alloc, out, &case.ways)
}

// Appends the bytes that are wanted of a stream, behind the line that names it.
fn put_stream(out: &mut Vec<u8>, name: &[u8], bytes: &[u8]) -> Result<(), AllocError>
    ensures { OnOk result (out.new.items ≡ out.old.items ++ (name.now ++ content bytes.now)) }
{
    out.extend_from_slice(name)?;
    put_content(out, bytes)
}

// Appends what a case wants.
fn put_wanted(alloc: Global, out: &mut Vec<u8>, case: &Case) -> Result<(), AllocError>
    ensures { OnOk result (out.new.items ≡ out.old.items ++ wanted_text case.now) }
{
    let status = case.status;
    let number = format!(in alloc; "{status}")?;
    put_line(out, b"status", number.as_bytes())?;
    put_stream(out, b"out\n", &case.out)?;
    put_stream(out, b"err\n", &case.err)
}

#[tactic(auto, unfolding(crate::specs::Texts::case_text))]
fn put_case(alloc: Global, out: &mut Vec<u8>, case: &Case) -> Result<(), AllocError>
    ensures { OnOk result (out.new.items ≡ out.old.items ++ case_text case.now) }
{
    put_run(alloc, out, case)?;
    put_wanted(alloc, out, case)
}

fn put_cases(alloc: Global, out: &mut Vec<u8>, cases: &[Case]) -> Result<(), AllocError>
    ensures { OnOk result (out.new.items ≡ out.old.items ++ flat_map case_text cases.now) }
{
    for case in cases {
        put_case(alloc, out, case)?;
    }
    Ok(())
}

/// The text of a bundle of these notes and cases.
pub(crate) fn text_of(
    alloc: Global,
    notes: &[String],
    cases: &[Case],
) -> Result<Vec<u8>, AllocError>
    ensures { IfOk result (λ text. text.items ≡ bundle_text notes.now cases.now) }
{
    let mut out = Vec::new(alloc);
    out.extend_from_slice(b"asprop cases 1\n")?;
    put_lines(&mut out, b"#", notes)?;
    put_cases(alloc, &mut out, cases)?;
    out.extend_from_slice(b"end\n")?;
    Ok(out)
}
