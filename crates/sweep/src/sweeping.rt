//! All trials of a line.
ghost use Rattle.std.specs.Prelude.{◌≡◌, ℕ, ◌≤◌, true, List, All, IfErr, IfOk, OnOk, OnErr, drop, length, map, take};
ghost use Rattle.std.specs.List.{flat_map};
ghost use Rattle.std.specs.FinMap as fin;
ghost use Rattle.io_edge.specs.Bytes.{Appends, AppendsFront};
ghost use Rattle.io_edge.specs.Prelude.{HasCause, HasRisen};
ghost use Rattle.net_names.specs.Prelude.{IsDistinct};
ghost use Rattle.policy_kinds.specs.declared.kind.Kind.{Kind as AKind};
ghost use Rattle.sweep.specs.Trials.{adopted as with_adopters, with_kinds};
ghost use Rattle.sweep.specs.Swept.{IsBegun, IsInWorld, IsSwept};
ghost use Rattle.sweep.specs.Texts.{AreGrown, AreNone, HaveTrials, IsTrialText, text_at};
ghost use Rattle.sweep.specs.Written.{Stops, Writes};

use crate::drawing::{next_word, order_of};
use crate::error::RowsError;
use crate::rows::{Which, append_trial};
use crate::standing::standing_of;
use crate::stepping::{change, shift};
use crate::sweeps::Sweep;
use crate::trial::Trial;
use io_edge::{Failed, Sink, write_all};
use net_names::{Asn, NoMemory};
use policy_kinds::Kind;
use rand_core::SeedableRng;
use rand_xoshiro::SplitMix64;
use std::alloc::Global;

// So many texts, all empty.
fn no_texts(alloc: Global, count: usize) -> Result<Vec<Vec<u8>>, NoMemory>
    ensures { IfOk result (λ v. AreNone count v.items) }
{
    let mut texts = Vec::new(alloc);
    for _i in 0..count {
        texts.push(Vec::new(alloc))?;
    }
    Ok(texts)
}

// The first number, or 0 where there is none.
fn first_of(ks: &[u32]) -> usize
    ensures { (n : ℕ) → All (λ k. k ≤ n) ks.now → result ≤ n }
{
    match ks.first() {
        Some(k) => *k as usize,
        None => 0,
    }
}

// The worlds of one trial: puts the adopters of the trial before back, and appends the rows of a trial for each number of
// adopters to its text. It says how many of the first ASes of the order have the kind at last.
fn run_trial<T: Trial>(
    alloc: Global,
    trial: &mut T,
    line: &Sweep,
    t: u32,
    adopted: &[(Asn, Kind)],
    order: &[(Asn, Kind)],
    texts: &mut Vec<Vec<u8>>,
) -> Result<usize, NoMemory>
    requires watched { T.is_watched (T.base trial.old) line.now.round line.now.addr ≡ true }
    requires few { All (λ k. k ≤ length order.now) line.now.ks }
    requires texts { length texts.old.items ≡ length line.now.ks }
    requires back { All (λ c. fin.contains_key (T.ases (T.base trial.old)) c.0 ≡ true) adopted.now }
    requires known { All (λ c. fin.contains_key (T.ases (T.base trial.old)) c.0 ≡ true) order.now }
    requires apart { IsDistinct (map (λ c. c.0) order.now) }
    requires right { T.IsRight trial.old }
    ensures held { IfOk result (λ held. held ≤ length order.now) }
    ensures kinds { IfOk result (λ held. (f : ℕ → AKind) (xs ys : List ℕ) → order.now ≡ with_kinds f xs →
        adopted.now ≡ with_kinds f ys → ((a : ℕ) → T.kinds trial.old a ≡ with_adopters f line.now.kind ys a) →
        (a : ℕ) → T.kinds trial.new a ≡ with_adopters f line.now.kind (take held xs) a) }
    ensures texts { OnOk result ((f : ℕ → AKind) (xs ys : List ℕ) → order.now ≡ with_kinds f xs →
        adopted.now ≡ with_kinds f ys → ((a : ℕ) → T.kinds trial.old a ≡ with_adopters f line.now.kind ys a) →
        AreGrown (T.announcers (T.base trial.old))
        (λ k. T.AreNumbers (T.base trial.old) (with_adopters f line.now.kind (take k xs)) line.now.round line.now.addr)
        t line.now.ks texts.old.items texts.new.items) }
    ensures len { length texts.new.items ≡ length texts.old.items }
    ensures base { T.base trial.new ≡ T.base trial.old }
    ensures right { T.IsRight trial.new }
{
    let ks = line.ks.as_slice();
    let mut held = first_of(ks);
    change(alloc, trial, adopted, &order[..held], line.kind)?;
    'numbers: for i in 0..ks.len() {
        let k = ks[i];
        shift(alloc, trial, order, held, k as usize, line.kind)?;
        held = k as usize;
        append_trial(&mut texts[i], trial, line, Which { k, t })?;
    }
    Ok(held)
}

// How many bytes stand in the first text; none where there is no text.
fn first_len(texts: &[Vec<u8>]) -> usize
    ensures { result ≡ length (text_at texts.now 0) }
{
    match texts.first() {
        Some(first) => first.len(),
        None => 0,
    }
}

// Writes what stands in the first text from a place on.
fn write_first<O: Sink>(texts: &[Vec<u8>], from: usize, out: &mut O) -> Result<(), Failed>
    requires { from ≤ length (text_at texts.now 0) }
    ensures ok { OnOk result (Appends (O.written out.old) (O.written out.new) (drop from (text_at texts.now 0))) }
    ensures err { OnErr result
        (AppendsFront (O.written out.old) (O.written out.new) (drop from (text_at texts.now 0))) }
    ensures cause { HasCause (O.faults out.old) (O.faults out.new) result }
{
    match texts.first() {
        Some(first) => write_all(out, &first[from..]),
        None => Ok(()),
    }
}

// All trials of a line: appends their rows to the texts, one for each number of adopters, and writes those of the first
// number as they come. At the end all have their kinds again.
fn sweep_all<T: Trial, O: Sink>(
    alloc: Global,
    trial: &mut T,
    line: &Sweep,
    standing: &[(Asn, Kind)],
    texts: &mut Vec<Vec<u8>>,
    out: &mut O,
) -> Result<(), RowsError>
    requires standing { standing.now ≡ with_kinds (T.kinds trial.old) (fin.keys (T.ases (T.base trial.old))) }
    requires in_world { IsInWorld (T.ases (T.base trial.old)) (T.is_watched (T.base trial.old)) line.now }
    requires right { T.IsRight trial.old }
    requires texts { AreNone (length line.now.ks) texts.old.items }
    ensures texts { OnOk result (HaveTrials (IsTrialText (T.ases (T.base trial.old)) (T.announcers (T.base trial.old))
        (λ kinds. T.AreNumbers (T.base trial.old) kinds line.now.round line.now.addr) (T.kinds trial.old) line.now)
        line.now.trials line.now.ks texts.new.items) }
    ensures ok { OnOk result (Appends (O.written out.old) (O.written out.new) (text_at texts.new.items 0)) }
    ensures err { IfErr result (Stops (IsBegun (T.ases (T.base trial.old)) (T.announcers (T.base trial.old))
        (λ kinds. T.AreNumbers (T.base trial.old) kinds line.now.round line.now.addr) (T.kinds trial.old) line.now)
        (O.written out.old) (O.written out.new) (HasRisen (O.faults out.old) (O.faults out.new))) }
    ensures later { O.faults out.old ≤ O.faults out.new }
    ensures kinds { OnOk result ((a : ℕ) → T.kinds trial.new a ≡ T.kinds trial.old a) }
    ensures base { T.base trial.new ≡ T.base trial.old }
    ensures right { T.IsRight trial.new }
{
    let mut rng = SplitMix64::seed_from_u64(line.seed as u64);
    let mut last: Vec<(Asn, Kind)> = Vec::new(alloc);
    let mut held: usize = 0;
    let ks = line.ks.as_slice();
    let mut draws: Vec<u64> = Vec::new(alloc);
    'trials: for t in 0..line.trials {
        let word = next_word(&mut rng);
        let order = order_of(alloc, standing, word, ks, &mut draws)?;
        let adopted = &last.as_slice()[..held];
        let from = first_len(texts);
        held = run_trial(alloc, trial, line, t + 1, adopted, order.as_slice(), texts)?;
        last = order;
        write_first(texts, from, out)?;
    }
    change(alloc, trial, &last.as_slice()[..held], &[], line.kind)?;
    Ok(())
}

// Writes the texts behind the first, one after the other.
fn write_others<O: Sink>(texts: &[Vec<u8>], out: &mut O) -> Result<(), Failed>
    ensures ok { OnOk result
        (Appends (O.written out.old) (O.written out.new) (flat_map (λ v. v.items) (drop 1 texts.now))) }
    ensures err { OnErr result
        (AppendsFront (O.written out.old) (O.written out.new) (flat_map (λ v. v.items) (drop 1 texts.now))) }
    ensures cause { HasCause (O.faults out.old) (O.faults out.new) result }
{
    'texts: for i in 1..texts.len() {
        write_all(out, texts[i].as_slice())?;
    }
    Ok(())
}

/// Writes the text of a sweep: for each number of adopters in the line's order, and for each trial of it from 1 on, the
/// rows `K|t|to A|n` for each announcing AS at which the packets of n ASes, at least 1, are delivered, `K|t|no-route|n` and
/// `K|t|loop|n`. The adopters are the ASes with the least draws. The line is in the world: its round and its watched address
/// are there, and no number of adopters is above that of the ASes. Afterwards the kinds are as before. Where memory runs
/// out, the rows of some trials from the first on were written, and where a write fails a front of such rows; the kinds may
/// then be those of some adopters. The format is this project's own.
///
/// The worlds of a trial follow one another in the line's order, each made of the one before by one call that changes
/// the ASes between the two numbers of adopters alone; the first of a trial is made by one call from the last of the trial
/// before. The rows of the first number of adopters are written when a trial is done, and those of the others, which stand
/// behind all of them, once all trials are done.
pub fn sweep_rows<T: Trial, O: Sink>(
    alloc: Global,
    trial: &mut T,
    line: &Sweep,
    out: &mut O,
) -> Result<(), RowsError>
    requires in_world { IsInWorld (T.ases (T.base trial.old)) (T.is_watched (T.base trial.old)) line.now }
    requires right { T.IsRight trial.old }
    ensures ok { OnOk result (Writes (IsSwept (T.ases (T.base trial.old)) (T.announcers (T.base trial.old))
        (λ kinds. T.AreNumbers (T.base trial.old) kinds line.now.round line.now.addr) (T.kinds trial.old) line.now)
        (O.written out.old) (O.written out.new)) }
    ensures err { IfErr result (Stops (IsBegun (T.ases (T.base trial.old)) (T.announcers (T.base trial.old))
        (λ kinds. T.AreNumbers (T.base trial.old) kinds line.now.round line.now.addr) (T.kinds trial.old) line.now)
        (O.written out.old) (O.written out.new) (HasRisen (O.faults out.old) (O.faults out.new))) }
    ensures later { O.faults out.old ≤ O.faults out.new }
    ensures kinds { OnOk result ((a : ℕ) → T.kinds trial.new a ≡ T.kinds trial.old a) }
    ensures base { T.base trial.new ≡ T.base trial.old }
    ensures right { T.IsRight trial.new }
{
    let standing = standing_of(alloc, trial)?;
    let mut texts = no_texts(alloc, line.ks.as_slice().len())?;
    sweep_all(alloc, trial, line, standing.as_slice(), &mut texts, out)?;
    write_others(texts.as_slice(), out)?;
    Ok(())
}
