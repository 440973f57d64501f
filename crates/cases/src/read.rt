//! The notes and the cases of which a text may be the bundle.
//!
//! Lines that belong to none of them are skipped: whether the text is a bundle, the text of a bundle of these notes and cases
//! decides.
ghost use Rattle.std.specs.Prelude.{◌<◌};

use crate::case::{Bundle, Case, CaseFile, Way};
use std::alloc::{AllocError, Global};

// Where the bytes of a line belong that begins with `|`.
#[derive(Clone, Copy)]
enum Place {
    Nowhere,
    File,
    Out,
    Err,
}

// The notes and cases so far, where the next bytes belong, and whether these are the first ones there.
#[derive(Drop)]
struct Reading {
    bundle: Bundle,
    place: Place,
    is_first: bool,
}

fn new_case(alloc: Global, name: &str) -> Result<Case, AllocError> {
    Ok(Case {
        name: String::from_str(alloc, name)?,
        words: Vec::new(alloc),
        files: Vec::new(alloc),
        ways: Vec::new(alloc),
        status: 0,
        out: Vec::new(alloc),
        err: Vec::new(alloc),
    })
}

fn new_file(alloc: Global, name: &str) -> Result<CaseFile, AllocError> {
    Ok(CaseFile {
        name: String::from_str(alloc, name)?,
        bytes: Vec::new(alloc),
    })
}

// Four numbers with a space between, or as many zeros for what is missing.
fn way_of(numbers: &str) -> Way {
    let mut each = numbers
        .split(' ')
        .map(|number| number.parse::<u32>().unwrap_or(0));
    Way {
        most: each.next().unwrap_or(0),
        read: each.next().unwrap_or(0),
        write: each.next().unwrap_or(0),
        tell: each.next().unwrap_or(0),
    }
}

fn digit_value(digit: u8) -> u8
    ensures { result < 16 }
{
    match digit {
        b'0'..=b'9' => digit - b'0',
        b'a'..=b'f' => digit - b'a' + 10,
        _ => 0,
    }
}

// Appends the bytes that a line shows.
fn put_shown(bytes: &mut Vec<u8>, line: &[u8]) -> Result<(), AllocError> {
    let mut rest = line;
    'bytes: loop {
        match rest {
            [] => return Ok(()),
            [92, high, low, more @ ..] => {
                bytes.push(digit_value(*high) * 16 + digit_value(*low))?;
                rest = more;
            }
            [byte, more @ ..] => {
                bytes.push(*byte)?;
                rest = more;
            }
        }
    }
}

// Appends the bytes of a line, behind a line feed where they aren't the first.
fn put_line(bytes: &mut Vec<u8>, line: &str, is_first: bool) -> Result<(), AllocError> {
    if !is_first {
        bytes.push(b'\n')?;
    }
    put_shown(bytes, line.as_bytes())
}

// Appends the bytes of a line to where they belong.
fn put_bytes(reading: &mut Reading, line: &str) -> Result<(), AllocError> {
    let is_first = reading.is_first;
    reading.is_first = false;
    let Some(case) = reading.bundle.cases.last_mut() else {
        return Ok(());
    };
    match reading.place {
        Place::Nowhere => Ok(()),
        Place::Out => put_line(&mut case.out, line, is_first),
        Place::Err => put_line(&mut case.err, line, is_first),
        Place::File => match case.files.last_mut() {
            Some(file) => put_line(&mut file.bytes, line, is_first),
            None => Ok(()),
        },
    }
}

// Adds to a case what a line of a word says.
fn add_to(alloc: Global, case: &mut Case, word: &str, about: &str) -> Result<(), AllocError> {
    if word == "word" {
        case.words.push(String::from_str(alloc, about)?)?;
    } else if word == "file" {
        case.files.push(new_file(alloc, about)?)?;
    } else if word == "run" {
        case.ways.push(way_of(about))?;
    } else if word == "status" {
        case.status = about.parse::<u8>().unwrap_or(0);
    }
    Ok(())
}

// Where the bytes behind a line of this word belong.
fn place_of(word: &str) -> Place {
    match word {
        "file" => Place::File,
        "out" => Place::Out,
        "err" => Place::Err,
        _ => Place::Nowhere,
    }
}

fn read_line(alloc: Global, reading: &mut Reading, line: &str) -> Result<(), AllocError> {
    if let Some(shown) = line.strip_prefix('|') {
        return put_bytes(reading, shown);
    }
    let (word, about) = line.split_once(' ').unwrap_or((line, ""));
    reading.place = place_of(word);
    reading.is_first = true;
    if word == "#" {
        reading.bundle.notes.push(String::from_str(alloc, about)?)?;
        return Ok(());
    }
    if word == "case" {
        reading.bundle.cases.push(new_case(alloc, about)?)?;
        return Ok(());
    }
    match reading.bundle.cases.last_mut() {
        Some(case) => add_to(alloc, case, word, about),
        None => Ok(()),
    }
}

/// A bundle that says nothing.
pub(crate) fn empty_bundle(alloc: Global) -> Bundle {
    Bundle {
        notes: Vec::new(alloc),
        cases: Vec::new(alloc),
    }
}

/// The notes and the cases that the lines of a text say.
pub(crate) fn read_bundle(alloc: Global, text: &str) -> Result<Bundle, AllocError> {
    let mut reading = Reading {
        bundle: empty_bundle(alloc),
        place: Place::Nowhere,
        is_first: true,
    };
    for line in text.split('\n') {
        read_line(alloc, &mut reading, line)?;
    }
    Ok(reading.bundle)
}
