//! What the program asks of the outside.
ghost use Rattle.std.specs.Prelude.{◌≡◌, ◌≤◌, ◌<◌, ℕ, List, Option, IsOk, OnOk, OnErr, IfOk, length, take, []};
ghost use Rattle.std.specs.Io.{ReadsAtMost};
ghost use Rattle.std.specs.Io.KnownBytes.{Keeps, ReadConsumes, IsAtEnd};
ghost use Rattle.io_edge.specs.Faults.{HasCause, KeepsNames};
ghost use Rattle.io_edge.specs.Bytes.{Appends};

/// A call on the outside failed. The object that was called has counted it.
#[derive(Clone, Copy, Debug, PartialEq, Eq)]
pub struct Failed;

/// Files by name, of which one is read at a time.
///
/// No call changes what the names hold, and a name that is sound stays sound.
pub trait Inputs {
    // what each name holds, where that is told
    ghost holds: { Self → List ℕ → Option (List ℕ) };

    // what is left of the file that was begun, where that is told
    ghost left: { Self → Option (List ℕ) };

    // how many faults were counted
    ghost faults: { Self → ℕ };

    // no call that reads this name fails
    ghost is_sound: { Self → List ℕ → Type 0 };

    // no call that reads on in the file that was begun fails
    ghost is_sound_begun: { Self → Type 0 };

    /// Makes the named file the one to be read, from its start.
    ///
    /// It answers [`Failed`] only where the count of faults rose, and never for a sound name; then nothing is begun.
    fn begin(&mut self, name: &str) -> Result<(), Failed>
        ensures begun { OnOk result (Keeps (holds self.old name.now) (left self.new)) }
        ensures nothing_begun { OnErr result (IsAtEnd (left self.new)) }
        ensures sound { is_sound self.old name.now → IsOk result × is_sound_begun self.new }
        ensures keeps { KeepsNames holds is_sound faults self.old self.new }
        ensures cause { HasCause (faults self.old) (faults self.new) result };

    /// Puts the next bytes into `room`, and answers how many.
    ///
    /// The answer is 0 exactly where `room` is empty, nothing was begun or nothing is left. It is [`Failed`] only where the
    /// count of faults rose, and never in a sound file; then nothing was taken.
    fn take(&mut self, room: &mut [u8]) -> Result<usize, Failed>
        ensures bound { ReadsAtMost result room.new }
        ensures bytes { ReadConsumes (left self.old) (left self.new) result room.new }
        ensures sound { is_sound_begun self.old → IsOk result × is_sound_begun self.new }
        ensures keeps { KeepsNames holds is_sound faults self.old self.new }
        ensures cause { HasCause (faults self.old) (faults self.new) result };
}

/// A stream to write to.
pub trait Sink {
    // the bytes written, where they are told
    ghost written: { Self → Option (List ℕ) };

    // how many faults were counted
    ghost faults: { Self → ℕ };

    /// Appends a front of `piece`, and answers its length, at least 1 where `piece` isn't empty.
    ///
    /// It answers [`Failed`] only where the count of faults rose; then nothing of `piece` was appended.
    fn put(&mut self, piece: &[u8]) -> Result<usize, Failed>
        ensures bound { IfOk result (λ n. n ≤ length piece.now) }
        ensures goes_on { 0 < length piece.now → IfOk result (λ n. 0 < n) }
        ensures appends { IfOk result (λ n. Appends (written self.old) (written self.new) (take n piece.now)) }
        ensures nothing { OnErr result (Appends (written self.old) (written self.new) []) }
        ensures cause { HasCause (faults self.old) (faults self.new) result };
}
