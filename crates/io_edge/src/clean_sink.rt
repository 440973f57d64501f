//! A sink in memory that never fails.
ghost use Rattle.std.specs.Prelude.{◌≡◌, [], length, true, vec_capacity};
ghost use Rattle.io_edge.specs.Room.{told, with_bytes};

use crate::{Failed, Sink};
use std::marker::Model;

/// A sink over a buffer, whose reserved room it doesn't exceed. It takes no memory and never fails.
///
/// It tells the bytes written while all of them have fitted. From the first byte that doesn't fit, it keeps no more.
#[derive(Drop)]
pub struct CleanSink {
    kept: Vec<u8>,
    // how many bytes fit
    room: usize,
    // whether all that was written has fitted
    whole: bool,
}

impl Model for CleanSink {
    ghost use Rattle.std.specs.Prelude.{◌≡◌, ◌≤◌, vec_len, vec_capacity, false};
    ghost use Rattle.io_edge.specs.Room.{Room};

    ghost Value = { Room };

    ghost view = { λ a. record { room = a.room; kept = a.kept.items; whole = a.whole } };

    ghost invariant = { λ a. (vec_len a.kept ≤ a.room) × (a.room ≤ vec_capacity a.kept) × (a.whole ≡ false → vec_len a.kept ≡ a.room) };
}

impl CleanSink {
    /// A sink over an empty buffer.
    pub fn new(room: Vec<u8>) -> CleanSink
        requires { room.items ≡ [] }
        ensures { result ≡ record { room = vec_capacity room; kept = []; whole = true } }
    {
        let most = room.capacity();
        CleanSink {
            kept: room,
            room: most,
            whole: true,
        }
    }

    /// The bytes that it keeps.
    pub fn bytes(&self) -> &[u8]
        ensures { result.now ≡ self.now.kept }
    {
        self.kept.as_slice()
    }
}

impl Sink for CleanSink {
    ghost written = { told };

    ghost faults = { λ _. 0 };

    #[tactic(auto, using(crate::proofs::RoomLemmas::fitting))]
    fn put(&mut self, piece: &[u8]) -> Result<usize, Failed>
        ensures all { result ≡ Ok (length piece.now) }
        ensures kept { self.new ≡ with_bytes self.old piece.now }
    {
        let fits = piece.len().min(self.room - self.kept.len());
        let _ = self.kept.extend_from_slice(&piece[..fits]);
        self.whole &= fits == piece.len();
        Ok(piece.len())
    }
}
