//! Runs of cases, and whether they leave what the cases want.
ghost use Rattle.std.specs.Prelude.{◌≡◌, ◌<◌, ℕ, IfOk, length};
ghost use Rattle.std.specs.List.{AllZip};
ghost use Rattle.cases.specs.Runs.{IsJudged, IsTried, Ran, inputs_of, sink_of, wanted, ways_of};

use crate::case::{Case, CaseFile, USUAL_WAYS, Way};
use crate::report::all_passed;
use asprop_run::run;
use io_edge::{MemInputs, MemSink};
use std::alloc::{AllocError, AllocFailed, Global};

/// Memory ran out.
#[derive(Clone, Copy, Debug, PartialEq, Eq)]
pub(crate) struct OutOfMemory;

impl From<AllocError> for OutOfMemory {
    fn from(_: AllocError) -> OutOfMemory {
        OutOfMemory
    }
}

impl From<AllocFailed<bool>> for OutOfMemory {
    fn from(_: AllocFailed<bool>) -> OutOfMemory {
        OutOfMemory
    }
}

/// What a run left: the number of its status, its output and its fault text.
#[derive(Drop)]
struct Left {
    status: u8,
    out: MemSink,
    err: MemSink,
}

// The files of a case in memory.
fn inputs_of(alloc: Global, files: &[CaseFile], way: Way) -> Result<MemInputs, OutOfMemory>
    ensures { IfOk result (λ inputs. inputs ≡ inputs_of files.now way) }
{
    let mut inputs = MemInputs::new(alloc);
    for file in files {
        inputs.file(file.name.as_str(), &file.bytes)?;
    }
    inputs.fail_at(u64::from(way.read))?;
    inputs.most(way.most.max(1) as usize);
    Ok(inputs)
}

// A sink with room for one byte more than is wanted.
fn sink_for(alloc: Global, wanted: &[u8], most: u32, call: u32) -> Result<MemSink, OutOfMemory>
    ensures { IfOk result (λ sink. (room : ℕ) × (length wanted.now < room) × (sink ≡ sink_of room most call)) }
{
    let mut sink = MemSink::new(alloc, Vec::with_capacity(alloc, wanted.len() + 1)?);
    sink.fail_at(u64::from(call))?;
    sink.most(most.max(1) as usize);
    Ok(sink)
}

// Runs the words of a case over its files.
fn run_case(alloc: Global, case: &Case, way: Way) -> Result<Left, OutOfMemory>
    ensures { IfOk result (λ left. Ran case.now way left) }
{
    let mut inputs = inputs_of(alloc, &case.files, way)?;
    let mut out = sink_for(alloc, &case.out, way.most, way.write)?;
    let mut err = sink_for(alloc, &case.err, way.most, way.tell)?;
    let status = run(alloc, &case.words, &mut inputs, &mut out, &mut err).number();
    Ok(Left { status, out, err })
}

// What is wanted of a stream of which this call fails.
fn wanted(bytes: &[u8], most: u32, call: u32) -> &[u8]
    ensures { result.now ≡ wanted bytes.now most call }
{
    if call == 0 {
        return bytes;
    }
    let count = u64::from(call - 1) * u64::from(most.max(1));
    &bytes[..bytes.len().min(count as usize)]
}

// Whether a run left what the case wants.
fn try_way(alloc: Global, case: &Case, way: Way) -> Result<bool, OutOfMemory>
    ensures { IfOk result (IsTried case.now way) }
{
    let left = run_case(alloc, case, way)?;
    Ok(
        left.status == case.status
            && left.out.bytes() == wanted(&case.out, way.most, way.write)
            && left.err.bytes() == wanted(&case.err, way.most, way.tell),
    )
}

// The ways to run a case.
fn ways_of(case: &Case) -> &[Way]
    ensures { result.now ≡ ways_of case.now }
{
    if case.ways.is_empty() {
        &USUAL_WAYS
    } else {
        &case.ways
    }
}

/// Whether each run of a case leaves what the case wants.
pub(crate) fn judge(alloc: Global, case: &Case) -> Result<bool, OutOfMemory>
    ensures { IfOk result (IsJudged case.now) }
{
    let mut passed = Vec::new(alloc);
    for way in ways_of(case) {
        passed.push(try_way(alloc, case, *way)?)?;
    }
    Ok(all_passed(&passed))
}

/// Whether each run of a case leaves what it wants, for each of these cases.
pub(crate) fn judge_all(alloc: Global, cases: &[Case]) -> Result<Vec<bool>, OutOfMemory>
    ensures { IfOk result (λ verdicts. AllZip IsJudged cases.now verdicts.items) }
{
    let mut verdicts = Vec::new(alloc);
    for case in cases {
        verdicts.push(judge(alloc, case)?)?;
    }
    Ok(verdicts)
}
