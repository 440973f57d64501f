//! All payloads of a file, gathered and then sorted.
ghost use Rattle.std.specs.Prelude.{◌≡◌, ◌<◌, OnOk, IfOk, IfErr};
ghost use Rattle.net_names.specs.Prelude.{VrpValue};
ghost use Rattle.roa_table.specs.Lists.{IsRising, stands_in};
ghost use Rattle.roa_table.specs.Sets.{count, set_of};
ghost use Rattle.roa_table.specs.Files.{payloads_in};
ghost use Rattle.roa_table.specs.Plain.{BeginsRows};
ghost use Rattle.roa_table.specs.Gathering.{Gathers, StopsAt, IsTidied, EndsWith, AreAll, Explains, IsGathering, IsAtLine};
ghost use Rattle.roa_table.specs.declared.gather.Stop.TheVariants as stop;

use crate::errors::VrpError;
use crate::plain::{behind_header, read_line};
use crate::record::judge;
use crate::rows::{open, step};
use crate::table::MOST_PAYLOADS;
use csv::{ByteRecord, Reader};
use net_names::{NoMemory, Vrp};
use std::alloc::{AllocFailed, Global};

/// Where so many payloads are gathered, they are sorted, and those that stand twice are dropped.
const MANY: usize = 2 * MOST_PAYLOADS;

/// Why a file's payloads are not answered.
#[derive(Clone, Copy, Debug, PartialEq, Eq)]
pub(crate) enum Stop {
    /// Memory ran out.
    Memory,
    /// There are more than 2,000,000.
    Crowded,
    /// A row has this fault.
    Fault(VrpError),
}

impl From<NoMemory> for Stop {
    ghost from_gives = { λ _ e. e ≡ stop.Memory };

    fn from(_e: NoMemory) -> Stop {
        Stop::Memory
    }
}

impl<T: Drop> From<AllocFailed<T>> for Stop {
    ghost from_gives = { λ _ e. e ≡ stop.Memory };

    fn from(_e: AllocFailed<T>) -> Stop {
        Stop::Memory
    }
}

impl From<VrpError> for Stop {
    ghost from_gives = { λ fault e. e ≡ stop.Fault fault };

    fn from(fault: VrpError) -> Stop {
        Stop::Fault(fault)
    }
}

// Puts the payloads in rising order, each once.
fn tidy(vrps: &mut Vec<Vrp>)
    ensures rising { IsRising vrps.new.items }
    ensures members { (q : VrpValue) → stands_in vrps.new.items q ≡ stands_in vrps.old.items q }
{
    vrps.sort_unstable();
    vrps.dedup();
}

// Why the gathered payloads are not answered, where this fault came behind them.
fn fault_behind(vrps: &mut Vec<Vrp>, fault: VrpError) -> Stop
    ensures { EndsWith fault vrps.old.items result }
{
    tidy(vrps);
    if vrps.len() > MOST_PAYLOADS {
        return Stop::Crowded;
    }
    Stop::Fault(fault)
}

// Gathers the payload of a row, where it has one.
fn gather_row(vrps: &mut Vec<Vrp>, outcome: Result<Vrp, VrpError>) -> Result<(), Stop>
    ensures ok { OnOk result (Gathers outcome vrps.old.items vrps.new.items) }
    ensures err { IfErr result (StopsAt outcome vrps.old.items) }
{
    let vrp = match outcome {
        Ok(vrp) => vrp,
        Err(fault) => return Err(fault_behind(vrps, fault)),
    };
    // `max` is called for its clause that the payload is sound, which the proof cites.
    let _ = vrp.max();
    if vrps.len() >= MANY {
        tidy(vrps);
        if vrps.len() > MOST_PAYLOADS {
            return Err(Stop::Crowded);
        }
    }
    vrps.push(vrp)?;
    Ok(())
}

// The gathered payloads in rising order, unless they are too many.
fn finish(mut vrps: Vec<Vrp>) -> Result<Vec<Vrp>, Stop>
    ensures ok { IfOk result (λ vs. IsTidied vrps.items vs.items) }
    ensures err { IfErr result (λ e. (e ≡ stop.Crowded) × (MOST_PAYLOADS < count (set_of vrps.items))) }
{
    tidy(&mut vrps);
    if vrps.len() > MOST_PAYLOADS {
        return Err(Stop::Crowded);
    }
    Ok(vrps)
}

/// What has been gathered from the first rows of a file.
#[derive(Drop)]
struct Gathered<'a> {
    /// The payloads.
    vrps: Vec<Vrp>,
    /// The number of the next row.
    row: u64,
    /// The text from where the line before that row ends.
    left: &'a [u8],
}

// The payloads of the rows of a text up to one that has a quote, or fewer than three fields, or a carriage return alone
// behind it.
fn gather_lines<'a>(alloc: Global, bytes: &[u8], text: &'a [u8]) -> Result<Gathered<'a>, Stop>
    requires { BeginsRows bytes.now text.now }
    ensures ok { IfOk result (λ g. IsAtLine g.left.now bytes.now g.row g.vrps.items) }
    ensures err { IfErr result (λ e. Explains e (payloads_in bytes.now)) }
{
    let mut vrps = Vec::new(alloc);
    let mut left = text;
    for row in 2..u64::MAX {
        match read_line(row, left) {
            Some(line) => {
                gather_row(&mut vrps, line.outcome)?;
                left = line.left;
            }
            None => return Ok(Gathered { vrps, row, left }),
        }
    }
    Err(Stop::Memory)
}

// The payloads that have been gathered and those of the records that are left.
fn gather_records<'a>(
    alloc: Global,
    bytes: &[u8],
    mut reader: Reader<&'a [u8]>,
    first: u64,
    mut vrps: Vec<Vrp>,
) -> Result<Vec<Vrp>, Stop>
    requires { IsGathering reader bytes.now first vrps.items }
    ensures ok { IfOk result (λ vs. AreAll vs.items (payloads_in bytes.now)) }
    ensures err { IfErr result (λ e. Explains e (payloads_in bytes.now)) }
{
    let mut fields = ByteRecord::new(alloc);
    for row in first..u64::MAX {
        if !step(&mut reader, &mut fields)? {
            return finish(vrps);
        }
        gather_row(&mut vrps, judge(row, &fields))?;
    }
    Err(Stop::Memory)
}

// All payloads of a file, in rising order, where each record is read by the reader of records.
fn gather_by_records(alloc: Global, bytes: &[u8]) -> Result<Vec<Vrp>, Stop>
    ensures ok { IfOk result (λ vs. AreAll vs.items (payloads_in bytes.now)) }
    ensures err { IfErr result (λ e. Explains e (payloads_in bytes.now)) }
{
    let mut reader = open(alloc, bytes);
    let mut fields = ByteRecord::new(alloc);
    let vrps = Vec::new(alloc);
    if !step(&mut reader, &mut fields)? {
        return Ok(vrps);
    }
    gather_records(alloc, bytes, reader, 2, vrps)
}

/// All payloads of a file, in rising order.
pub(crate) fn gather(alloc: Global, bytes: &[u8]) -> Result<Vec<Vrp>, Stop>
    ensures ok { IfOk result (λ vs. AreAll vs.items (payloads_in bytes.now)) }
    ensures err { IfErr result (λ e. Explains e (payloads_in bytes.now)) }
{
    match behind_header(bytes) {
        Some(text) => {
            let gathered = gather_lines(alloc, bytes, text)?;
            let reader = open(alloc, gathered.left);
            gather_records(alloc, bytes, reader, gathered.row, gathered.vrps)
        }
        None => gather_by_records(alloc, bytes),
    }
}
