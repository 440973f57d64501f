//! A relationship file, read in pieces.
ghost use Rattle.std.specs.Prelude.{◌≡◌, ◌+◌, ◌<◌, ◌≤◌, ◌^◌, ◌++◌, ◌∷◌, [], ℕ, List, None, length, IfErr, IfSome, IfNone, OnOk};
ghost use Rattle.caida_reader.specs.Lines.{IsOneLine};
ghost use Rattle.caida_reader.specs.Says.{says, IsRising};
ghost use Rattle.caida_reader.specs.Value.{links_of};
ghost use Rattle.caida_reader.specs.Firsts.{Judges};
ghost use Rattle.caida_reader.specs.Progress.{outcome, EndsLine, Gives, Fails, UnlessMemory, joined};

use crate::RelError;
use crate::firsts::Firsts;
use crate::line::{Line, read_first_link, read_line};
use net_names::{Links, cut};
use std::alloc::Global;
use std::marker::Model;

/// A reader of a file that comes in pieces. It judges each line once a line feed has ended it.
///
/// Contracts see where it stands, and say what the file comes to, whatever is still to come.
#[derive(Drop)]
pub struct Reader {
    table: Firsts,
    line: u64,
    rest: Vec<u8>,
    failed: Option<RelError>,
}

impl Model for Reader {
    ghost use Rattle.std.specs.Coded.{codes};
    ghost use Rattle.caida_reader.specs.Lines.{IsOneLine};
    ghost use Rattle.caida_reader.specs.Progress.{Progress};
    ghost use Rattle.caida_reader.specs.Firsts.{first_map_code};

    ghost Value = { Progress };

    ghost coded = { Prim.hlevel (codes, first_map_code) };

    ghost view = { λ a. record { table = a.table; line = a.line; rest = a.rest.items; failed = a.failed } };

    ghost invariant = { λ a. IsOneLine a.rest.items };
}

// What the line says that began with the kept bytes and ends with these. No bytes are kept then.
fn read_ended(rest: &mut Vec<u8>, end: &[u8]) -> Option<Line>
    ensures said { IfSome result (λ said. (said ≡ says (rest.old.items ++ end.now)) × IsRising said) }
    ensures rest { IfSome result (λ said. rest.new.items ≡ []) }
{
    if rest.is_empty() {
        return Some(read_line(end));
    }
    if rest.extend_from_slice(end).is_err() {
        return None;
    }
    let said = read_line(rest);
    rest.clear();
    Some(said)
}

// Judges the line that began with the kept bytes and ends with these. No bytes are kept then.
fn judge_ended(
    table: &mut Firsts,
    line: u64,
    rest: &mut Vec<u8>,
    end: &[u8],
) -> Result<(), RelError>
    ensures judges { Judges table.old table.new line (says (rest.old.items ++ end.now)) result }
    ensures rest { rest.new.items ≡ [] }
{
    match read_ended(rest, end) {
        Some(said) => table.judge(line, said),
        None => {
            rest.clear();
            Err(RelError::Memory)
        }
    }
}

impl Reader {
    /// A reader to which nothing has come.
    pub fn new(alloc: Global) -> Reader
        ensures start { (bytes : List ℕ) → outcome result bytes ≡ links_of bytes }
        ensures fresh { (result.line ≡ 1) × (result.failed ≡ None) }
    {
        Reader {
            table: Firsts::new(alloc),
            line: 1,
            rest: Vec::new(alloc),
            failed: None,
        }
    }

    // Judges the line that ends with these bytes.
    fn end_line(&mut self, end: &[u8])
        requires goes { self.old.failed ≡ None }
        requires numbers { self.old.line + 1 < 2 ^ 64 }
        requires one_line { IsOneLine end.now }
        ensures goes_on { UnlessMemory self.new.failed
            ((more : List ℕ) → outcome self.new more ≡ outcome self.old (end.now ++ 10 ∷ more)) }
        ensures line { self.new.line ≡ self.old.line + 1 }
    {
        self.failed = judge_ended(&mut self.table, self.line, &mut self.rest, end).err();
        self.line += 1;
    }

    // Judges the first line of a text, where a line feed ends it, and gives what stands behind that.
    fn end_first<'a>(&mut self, text: &'a [u8]) -> Option<&'a [u8]>
        requires goes { self.old.failed ≡ None }
        requires numbers { self.old.line + length text.now < 2 ^ 64 }
        ensures some { IfSome result (λ rest. EndsLine self.old self.new text.now rest.now) }
        ensures none { IfNone result (IsOneLine text.now × (self.new ≡ self.old)) }
    {
        if self.rest.is_empty() {
            match read_first_link(text) {
                Some(first) => {
                    self.failed = self.table.judge(self.line, first.0).err();
                    self.line += 1;
                    return Some(first.1);
                }
                None => {}
            }
        }
        let (line, rest) = cut(text, b'\n')?;
        self.end_line(line);
        Some(rest)
    }

    /// Takes the next piece, and judges each line that a line feed has ended.
    ///
    /// The error is the first fault of the first faulty line. After any error the reader answers that error to every later
    /// call.
    pub fn feed(&mut self, piece: &[u8]) -> Result<(), RelError>
        requires numbers { self.old.line + length piece.now < 2 ^ 64 }
        // Whatever follows, the file goes on from here, also after a fault.
        ensures goes_on { UnlessMemory self.new.failed
            ((more : List ℕ) → outcome self.new more ≡ outcome self.old (piece.now ++ more)) }
        ensures ok { OnOk result ((self.new.failed ≡ None)
            × ((more : List ℕ) → outcome self.new more ≡ outcome self.old (piece.now ++ more))) }
        // Whatever follows, the file comes to this fault.
        ensures fault { IfErr result (λ e. (self.new.failed ≡ Some e)
            × ((more : List ℕ) → Fails e (outcome self.old (piece.now ++ more)))) }
        // A reader that has failed stays so.
        ensures stays { IfSome self.old.failed (λ e. (result ≡ Err e) × (self.new ≡ self.old)) }
        // No line that a line feed has ended is left to be judged.
        ensures judged { IsOneLine self.new.rest }
        ensures line { self.new.line ≤ self.old.line + length piece.now }
    {
        match self.failed {
            Some(error) => return Err(error),
            None => {}
        }
        let mut left = piece;
        'lines: while let Some(rest) = self.end_first(left) {
            match self.failed {
                Some(error) => return Err(error),
                None => {}
            }
            left = rest;
        }
        if self.rest.extend_from_slice(left).is_err() {
            self.failed = Some(RelError::Memory);
            return Err(RelError::Memory);
        }
        Ok(())
    }
}

impl Reader {
    /// Judges a last line without line feed, and gives the links of all that has come, or the first fault.
    pub fn finish(mut self) -> Result<Links, RelError>
        ensures value { Gives (λ links. links) result (outcome self []) }
        // A reader that has failed stays so.
        ensures stays { IfSome self.failed (λ e. result ≡ Err e) }
    {
        match self.failed {
            Some(error) => return Err(error),
            None => {}
        }
        let said = read_line(&self.rest);
        self.table.judge(self.line, said)?;
        Ok(self.table.links(*self.rest.allocator())?)
    }
}

/// The links of a file that comes in these pieces, or its first fault, however it is cut.
pub fn read_pieces(alloc: Global, pieces: &[Vec<u8>]) -> Result<Links, RelError>
    requires { length (joined pieces.now) + 1 < 2 ^ 64 }
    ensures { Gives (λ links. links) result (links_of (joined pieces.now)) }
{
    let mut reader = Reader::new(alloc);
    'pieces: for piece in pieces {
        reader.feed(piece)?;
    }
    reader.finish()
}

/// The links of a file, or its first fault.
pub fn read_links(alloc: Global, bytes: &[u8]) -> Result<Links, RelError>
    ensures { Gives (λ links. links) result (links_of bytes.now) }
{
    let mut reader = Reader::new(alloc);
    reader.feed(bytes)?;
    reader.finish()
}
