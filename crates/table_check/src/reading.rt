//! Reading a printed table.
ghost use Rattle.std.proofs.Common.{rules};
ghost use Rattle.std.specs.Prelude.{◌≡◌, ◌+◌, ◌<◌, ◌≤◌, ◌&&◌, ◌==◌, [], IfOk, IfSome, length};
ghost use Rattle.std.specs.FinMap as map;
ghost use Rattle.std.specs.Ordering.{eq_by_cmp};
ghost use Rattle.net_names.specs.Prelude.{kept_from, prefix_cmp};
ghost use Rattle.net_names.specs.declared.limits.TheConstants.{MOST_LIST_BYTES as most_bytes};
ghost use Rattle.table_check.specs.declared.reading.TablesError.TheVariants.{Memory};
ghost use Rattle.table_check.specs.Reading.{Fails as FailsBy, fails_on as fails_alike, Gives, tables_by, with_line, with_row};

use crate::forms::row;
use crate::rows::Rows;
use crate::tables::{Starts, Tables};
use net_names::{
    Asn, LineByLine, MOST_IN_PATH, MOST_LIST_BYTES, NoMemory, Prefix, next_kept, put_lines,
};
use scenario_text::read_for;
use stability_laws::Entry;
use std::alloc::Global;

/// Why a file of a printed table is refused: the fault of its first faulty line, where it has one. Lines
/// are numbered from 1, and skipped lines count. A line is judged in the order Unreadable, Twice.
#[derive(Clone, Copy, Debug, PartialEq, Eq)]
pub enum TablesError {
    /// Memory ran out.
    Memory,
    /// The line is neither a row nor the `for` line of the next section.
    Unreadable {
        /// The number of the line.
        line: u32,
    },
    /// The section has a row of this AS already.
    Twice {
        /// The number of the line.
        line: u32,
    },
    /// Each line is skipped.
    NoFor,
}

impl From<NoMemory> for TablesError {
    ghost from_gives = { λ _ e. e ≡ Memory };

    fn from(_e: NoMemory) -> TablesError {
        TablesError::Memory
    }
}

// Whether a section of this round and prefix is the next one.
fn is_next(tables: &Tables, round: u32, prefix: Prefix) -> bool
    ensures { result ≡ (round == length tables.now.starts + 1) && eq_by_cmp prefix_cmp tables.now.prefix prefix }
{
    round as usize == tables.starts.len() as usize + 1 && tables.prefix.cmp(&prefix).is_eq()
}

// Puts in what the AS holds by its row in the line of this number.
fn put_row(
    mut tables: Tables,
    number: u32,
    asn: Asn,
    held: Option<Entry>,
) -> Result<Tables, TablesError>
    requires { IfSome held (λ e. length e.path ≤ MOST_IN_PATH) }
    ensures gives { Gives result (with_row tables number (asn, held)) }
    ensures few { IfOk result (λ t. t.starts ≡ tables.starts) }
{
    let is_new = tables.rows.put(tables.starts.len(), asn, held)?;
    if is_new {
        Ok(tables)
    } else {
        Err(TablesError::Twice { line: number })
    }
}

impl LineByLine for Tables {
    type Error = TablesError;

    ghost says = { with_line };

    ghost Fails = { FailsBy };

    ghost IsReady = { λ number tables. length tables.starts < number };

    ghost most = { most_bytes };

    fn put_line(mut self, alloc: Global, number: u32, line: &[u8]) -> Result<Tables, TablesError> {
        if let Some((round, prefix)) = read_for(line) {
            if is_next(&self, round, prefix) {
                self.starts.push(number)?;
                return Ok(self);
            }
        }
        match row(alloc, line)? {
            Some((asn, held)) => put_row(self, number, asn, held),
            None => Err(TablesError::Unreadable { line: number }),
        }
    }

    ghost fails_on = { fails_alike };

    ghost stays_ready = { Prim.search rules };

    ghost fits = { Prim.search rules };
}

// The table of this prefix that has no section yet.
fn begun(alloc: Global, prefix: Prefix) -> Tables
    ensures { result ≡ record { prefix = prefix; starts = []; rows = map.empty } }
{
    Tables {
        prefix,
        starts: Starts::new(alloc),
        rows: Rows::new(alloc),
    }
}

/// The table of a file of at most 268,435,456 bytes. A line ends with a line feed, before which one carriage return may
/// stand; a line that is empty or begins with `#` is skipped. A section begins with a line `for R P`, where the rounds R go
/// up from 1 and the prefix P is the same in all. Its rows are as a routing is printed, with any paths; an AS without a row
/// holds nothing. The format is this project's own.
///
/// `NoFor` exactly where each line is skipped; `Unreadable` exactly where the first faulty line is neither a row nor the
/// `for` line of the next section, and `Twice` exactly where it is a row of an AS that has one in its section already;
/// `Memory` where there is not enough memory.
pub fn read_tables(alloc: Global, bytes: &[u8]) -> Result<Tables, TablesError>
    requires { length bytes.now ≤ MOST_LIST_BYTES }
    ensures { Gives result (tables_by (kept_from 1 bytes.now)) }
{
    let Some(first) = next_kept(bytes, 1) else {
        return Err(TablesError::NoFor);
    };
    let Some((_, prefix)) = read_for(first.line) else {
        return Err(TablesError::Unreadable { line: first.number });
    };
    put_lines(alloc, begun(alloc, prefix), 1, bytes)
}
