//! Whole files and whole pieces, over any inputs and any sink.
ghost use Rattle.std.specs.Prelude.{◌≡◌, ◌+◌, ◌≤◌, ◌<◌, ℕ, List, Option, IsOk, OnOk, OnErr, IfOk, IfSome, IsErrOf, Some, length, take, drop, []};
ghost use Rattle.std.specs.Io.KnownBytes.{Keeps};
ghost use Rattle.io_edge.specs.Faults.{HasRisen, HasCause, KeepsNames};
ghost use Rattle.io_edge.specs.Bytes.{Appends, AppendsFront};
ghost use Rattle.io_edge.specs.Whole.{NoCallFailed, IsReadOf, Takes};
ghost use Rattle.io_edge.specs.declared.whole.ReadAllError.TheVariants.{Memory, ReadFault};

use crate::{Failed, Inputs, Sink};
use std::alloc::{AllocError, Global};

/// Why a file wasn't read whole.
#[derive(Clone, Copy, Debug, PartialEq, Eq)]
pub enum ReadAllError {
    /// Memory ran out.
    Memory,
    /// A call on the inputs failed.
    ReadFault,
    /// The file has more bytes than the limit.
    TooLong,
}

impl From<AllocError> for ReadAllError {
    ghost from_gives = { λ _ e. e ≡ Memory };

    fn from(_e: AllocError) -> ReadAllError {
        ReadAllError::Memory
    }
}

impl From<Failed> for ReadAllError {
    ghost from_gives = { λ _ e. e ≡ ReadFault };

    fn from(_e: Failed) -> ReadAllError {
        ReadAllError::ReadFault
    }
}

/// The whole file of this name, if it has at most `limit` bytes.
///
/// It takes at most `limit` plus one bytes, and exactly so many where it answers [`ReadAllError::TooLong`].
/// [`ReadAllError::ReadFault`] comes only where the count of faults rose and the name wasn't sound.
pub fn read_all<I: Inputs>(
    alloc: Global,
    inputs: &mut I,
    name: &str,
    limit: usize,
) -> Result<Vec<u8>, ReadAllError>
    requires { limit < 4294967295 }
    ensures whole { IfOk result
        (λ bytes. (length bytes.items ≤ limit) × Keeps (I.holds inputs.old name.now) (Some bytes.items)) }
    // The file is longer, and one byte past the limit was taken.
    ensures too_long { IsErrOf result ReadAllError.TooLong →
        IfSome (I.holds inputs.old name.now)
        (λ file. (limit < length file) × (I.left inputs.new ≡ Some (drop (limit + 1) file))) }
    ensures fault { IsErrOf result ReadAllError.ReadFault →
        HasRisen (I.faults inputs.old) (I.faults inputs.new) × (I.is_sound inputs.old name.now → ⊥) }
    // Where no call failed, only want of memory stands against the answer that the file asks for.
    ensures exact { NoCallFailed (I.faults inputs.old) (I.faults inputs.new) (I.is_sound inputs.old name.now) →
        IfSome (I.holds inputs.old name.now) (λ file. IsReadOf file limit result) }
    ensures taken { Takes (I.holds inputs.old name.now) (I.left inputs.new) limit result }
    ensures keeps { KeepsNames I.holds I.is_sound I.faults inputs.old inputs.new }
{
    inputs.begin(name)?;
    let mut bytes: Vec<u8> = Vec::new(alloc);
    let mut room = [0u8; 4096];
    'pieces: while bytes.len() <= limit {
        let want = (limit + 1 - bytes.len()).min(4096);
        match inputs.take(&mut room[..want])? {
            0 => return Ok(bytes),
            count => bytes.extend_from_slice(&room[..count])?,
        }
    }
    Err(ReadAllError::TooLong)
}

/// Appends the whole piece. It takes no memory of its own.
///
/// It answers [`Failed`] only where the count of faults rose; then a front of the piece was appended.
pub fn write_all<S: Sink>(sink: &mut S, piece: &[u8]) -> Result<(), Failed>
    ensures whole { OnOk result (Appends (S.written sink.old) (S.written sink.new) piece.now) }
    ensures front { AppendsFront (S.written sink.old) (S.written sink.new) piece.now }
    ensures cause { HasCause (S.faults sink.old) (S.faults sink.new) result }
{
    let mut done = 0usize;
    'pieces: while done < piece.len() {
        let count = sink.put(&piece[done..])?;
        done += count;
    }
    Ok(())
}
