//! The real files. What they hold is told nowhere, and no name is sound.
ghost use Rattle.std.specs.Prelude.{◌≡◌, None, Some, []};
ghost use Rattle.std.specs.Io.{ReadsAtMost};
ghost use Rattle.std.specs.Io.KnownBytes.{ReadConsumes};

use crate::{Failed, Inputs};
use std::fs;
use std::io::{ErrorKind, Read};
use std::marker::Model;
use std::rt::Files;

/// Files of the system, by path.
///
/// Contracts see it as its count of faults and what is left of the file that was begun, where its type of files tells that.
/// Files of the system tell nothing.
#[derive(Drop)]
pub struct DirInputs<R: Files + Drop>
where
    R::File: Drop,
{
    rt: R,
    file: Option<R::File>,
    faults: u64,
}

impl<R: Files + Drop> Model for DirInputs<R>
where
    R::File: Drop,
{
    ghost use Rattle.io_edge.specs.Streams.{Reading, left_of};

    ghost Value = { Reading };

    ghost view = { λ a. record { left = left_of R.File.remaining a.file; faults = a.faults } };
}

impl<R: Files + Drop> DirInputs<R>
where
    R::File: Drop,
{
    /// Files of this runtime, of which none is begun.
    pub fn new(rt: R) -> DirInputs<R>
        ensures { result ≡ record { left = Some []; faults = 0 } }
    {
        DirInputs {
            rt,
            file: None,
            faults: 0,
        }
    }
}

impl<R: Files + Drop> Inputs for DirInputs<R>
where
    R::File: Drop,
{
    ghost holds = { λ _ _. None };

    ghost left = { λ s. s.left };

    ghost faults = { λ s. s.faults };

    ghost is_sound = { λ _ _. ⊥ };

    ghost is_sound_begun = { λ _. ⊥ };

    fn begin(&mut self, name: &str) -> Result<(), Failed> {
        match fs::open(&self.rt, name) {
            Ok(file) => {
                self.file = Some(file);
                Ok(())
            }
            Err(_) => {
                self.file = None;
                self.faults = self.faults.saturating_add(1);
                Err(Failed)
            }
        }
    }

    fn take(&mut self, room: &mut [u8]) -> Result<usize, Failed> {
        let Some(file) = &mut self.file else {
            return Ok(0);
        };
        match read_some(file, room) {
            Ok(count) => Ok(count),
            Err(Failed) => {
                self.faults = self.faults.saturating_add(1);
                Err(Failed)
            }
        }
    }
}

// Reads again where a signal came between.
fn read_some<F: Read>(file: &mut F, room: &mut [u8]) -> Result<usize, Failed>
    ensures bound { ReadsAtMost result room.new }
    ensures bytes { ReadConsumes (F.remaining file.old) (F.remaining file.new) result room.new }
{
    'tries: for _ in 0..u64::MAX {
        match file.read(room) {
            Ok(count) => return Ok(count),
            Err(error) => {
                if error.kind() != ErrorKind::Interrupted {
                    break;
                }
            }
        }
    }
    Err(Failed)
}
