//! The real streams. What is written to them is told nowhere.
ghost use Rattle.std.specs.Prelude.{◌≡◌, ◌≤◌, ◌<◌, None, length, IfOk};
ghost use Rattle.std.specs.Io.KnownBytes.{WriteAppends};
ghost use Rattle.io_edge.specs.Faults.{HasCause};

use crate::{Failed, Sink};
use std::io::{ErrorKind, Write};
use std::marker::Model;

/// A stream of the system, as standard output.
///
/// Contracts see it as its count of faults and what the stream holds, where its type tells that. Streams of the system
/// tell nothing.
#[derive(Drop)]
pub struct StdSink<W: Write + Drop> {
    stream: W,
    faults: u64,
}

impl<W: Write + Drop> Model for StdSink<W> {
    ghost use Rattle.io_edge.specs.Streams.{Writing};

    ghost Value = { Writing };

    ghost view = { λ a. record { held = W.contents a.stream; faults = a.faults } };
}

impl<W: Write + Drop> StdSink<W> {
    /// A sink over this stream.
    pub fn new(stream: W) -> StdSink<W>
        ensures { result ≡ record { held = W.contents stream; faults = 0 } }
    {
        StdSink { stream, faults: 0 }
    }
}

impl<W: Write + Drop> Sink for StdSink<W> {
    ghost written = { λ _. None };

    ghost faults = { λ s. s.faults };

    fn put(&mut self, piece: &[u8]) -> Result<usize, Failed>
        ensures stream { WriteAppends self.old.held self.new.held result piece.now }
        ensures bound { IfOk result (λ n. n ≤ length piece.now) }
        ensures goes_on { 0 < length piece.now → IfOk result (λ n. 0 < n) }
        ensures cause { HasCause self.old.faults self.new.faults result }
    {
        if piece.is_empty() {
            return Ok(0);
        }
        match write_some(&mut self.stream, piece) {
            Ok(count) => Ok(count),
            Err(Failed) => {
                self.faults = self.faults.saturating_add(1);
                Err(Failed)
            }
        }
    }
}

// Writes again where a signal came between. A stream that takes nothing has failed.
fn write_some<W: Write>(stream: &mut W, piece: &[u8]) -> Result<usize, Failed>
    ensures bound { IfOk result (λ n. (0 < n) × (n ≤ length piece.now)) }
    ensures bytes { WriteAppends (W.contents stream.old) (W.contents stream.new) result piece.now }
{
    'tries: for _ in 0..u64::MAX {
        match stream.write(piece) {
            Ok(0) => break,
            Ok(count) => return Ok(count),
            Err(error) => {
                if error.kind() != ErrorKind::Interrupted {
                    break;
                }
            }
        }
    }
    Err(Failed)
}
