//! The rows of a trial.
ghost use Rattle.std.specs.Prelude.{◌≡◌, ◌==◌, ◌++◌, ◌∷◌, [], true, OnOk, codes, decimal, if◌then◌else◌};
ghost use Rattle.std.specs.List.{flat_map};
ghost use Rattle.sweep.specs.Swept.{trial_text};
ghost use Rattle.sweep.specs.Texts.{delivered_row, row};

use crate::sweeps::Sweep;
use crate::trial::{Fate, Trial};
use net_names::{Asn, NoMemory, put_asn, put_bytes, put_number};

// Which trial it is: how many ASes adopt, and the trial's number.
#[derive(Clone, Copy)]
pub(crate) struct Which {
    pub k: u32,
    pub t: u32,
}

// Appends which trial it is, as each row begins.
fn put_which(out: &mut Vec<u8>, which: Which) -> Result<(), NoMemory>
    ensures { OnOk result (out.new.items ≡
        out.old.items ++ (decimal which.k ++ 124 ∷ (decimal which.t ++ 124 ∷ []))) }
{
    put_number(out, which.k as u64)?;
    put_bytes(out, b"|")?;
    put_number(out, which.t as u64)?;
    put_bytes(out, b"|")
}

// Appends the count, as each row ends.
fn put_count(out: &mut Vec<u8>, count: u64) -> Result<(), NoMemory>
    ensures { OnOk result (out.new.items ≡ out.old.items ++ (124 ∷ (decimal count ++ 10 ∷ []))) }
{
    put_bytes(out, b"|")?;
    put_number(out, count)?;
    put_bytes(out, b"\n")
}

// Appends a row.
fn append_row(out: &mut Vec<u8>, which: Which, what: &[u8], count: u64) -> Result<(), NoMemory>
    ensures { OnOk result (out.new.items ≡ out.old.items ++ row which.k which.t what.now count) }
{
    put_which(out, which)?;
    put_bytes(out, what)?;
    put_count(out, count)
}

// Appends the row of an AS at which packets are delivered, if some are.
fn append_some(out: &mut Vec<u8>, which: Which, asn: Asn, count: u64) -> Result<(), NoMemory>
    ensures { OnOk result (out.new.items ≡
        out.old.items ++ (if count == 0 then [] else row which.k which.t (codes "to " ++ decimal asn) count)) }
{
    if count == 0 {
        return Ok(());
    }
    put_which(out, which)?;
    put_bytes(out, b"to ")?;
    put_asn(out, asn)?;
    put_count(out, count)
}

// Appends the row of an AS at which packets are delivered, if some are.
fn append_delivered<T: Trial>(
    out: &mut Vec<u8>,
    trial: &T,
    line: &Sweep,
    which: Which,
    asn: Asn,
) -> Result<(), NoMemory>
    requires watched { T.is_watched (T.base trial.now) line.now.round line.now.addr ≡ true }
    requires right { T.IsRight trial.now }
    ensures { OnOk result (out.new.items ≡
        out.old.items ++ delivered_row which.k which.t (T.numbers trial.now line.now.round line.now.addr) asn) }
{
    append_some(
        out,
        which,
        asn,
        trial.count(line.round, line.addr, Fate::At(asn)),
    )
}

// Appends the rows of the announcing ASes at which packets are delivered.
fn append_all_delivered<T: Trial>(
    out: &mut Vec<u8>,
    trial: &T,
    line: &Sweep,
    which: Which,
) -> Result<(), NoMemory>
    requires watched { T.is_watched (T.base trial.now) line.now.round line.now.addr ≡ true }
    requires right { T.IsRight trial.now }
    ensures { OnOk result (out.new.items ≡ out.old.items ++
        flat_map (delivered_row which.k which.t (T.numbers trial.now line.now.round line.now.addr))
        (T.announcers (T.base trial.now))) }
{
    let mut place: usize = 0;
    'places: while let Some(asn) = trial.announcer_at(place) {
        append_delivered(out, trial, line, which, asn)?;
        place += 1;
    }
    Ok(())
}

/// Appends the rows of a trial, by the numbers of the world as it is now.
#[tactic(auto, unfolding(crate::specs::Swept::trial_text))]
pub(crate) fn append_trial<T: Trial>(
    out: &mut Vec<u8>,
    trial: &T,
    line: &Sweep,
    which: Which,
) -> Result<(), NoMemory>
    requires watched { T.is_watched (T.base trial.now) line.now.round line.now.addr ≡ true }
    requires right { T.IsRight trial.now }
    ensures rows { OnOk result (out.new.items ≡ out.old.items ++ trial_text (T.announcers (T.base trial.now))
        which.k which.t (T.numbers trial.now line.now.round line.now.addr)) }
    ensures numbers { T.AreNumbers (T.base trial.now) (T.kinds trial.now) line.now.round line.now.addr
        (T.numbers trial.now line.now.round line.now.addr) }
{
    let no_route = trial.count(line.round, line.addr, Fate::NoRoute);
    append_all_delivered(out, trial, line, which)?;
    append_row(out, which, b"no-route", no_route)?;
    append_row(
        out,
        which,
        b"loop",
        trial.count(line.round, line.addr, Fate::Loop),
    )
}
