//! Files in memory, which are read without a fault.
ghost use Rattle.std.specs.Prelude.{◌≡◌, ℕ, List, Some, [], ◌∷◌, length, take, drop, min, IfOk, IsOk, OnOk, OnErr};
ghost use Rattle.io_edge.specs.Files.{bytes_under};

use crate::files::NamedFiles;
use crate::{Failed, Inputs};
use std::alloc::{AllocError, Global};
use std::marker::Model;

/// Files in memory, which are read without a fault. A name that isn't there holds nothing.
///
/// Contracts see it as its files and what is left of the one that was begun.
#[derive(Drop)]
pub struct CleanInputs {
    files: NamedFiles,
}

impl Model for CleanInputs {
    ghost use Rattle.io_edge.specs.Files.{KeptFiles};

    ghost Value = { KeptFiles };

    ghost view = { λ a. a.files };
}

impl CleanInputs {
    /// No files.
    pub fn new(alloc: Global) -> CleanInputs
        ensures { result ≡ record { files = []; left = [] } }
    {
        CleanInputs {
            files: NamedFiles::new(alloc),
        }
    }

    /// Puts in a file. A later call for the same name replaces the bytes, and what is left of a file that was begun stays.
    pub fn file(&mut self, name: &str, bytes: &[u8]) -> Result<(), AllocError>
        ensures ok { OnOk result
            (self.new ≡ record self.old { files = record { name = name.now; bytes = bytes.now } ∷ self.old.files }) }
        ensures err { OnErr result (self.new ≡ self.old) }
    {
        self.files.put(name, bytes)
    }
}

impl Inputs for CleanInputs {
    ghost holds = { λ s name. Some (bytes_under s.files name) };

    ghost left = { λ s. Some s.left };

    ghost faults = { λ _. 0 };

    ghost is_sound = { λ _ _. Unit {0} };

    ghost is_sound_begun = { λ _. Unit {0} };

    fn begin(&mut self, name: &str) -> Result<(), Failed>
        ensures ok { IsOk result }
        ensures begun { self.new ≡ record self.old { left = bytes_under self.old.files name.now } }
    {
        let _ = self.files.begin(name);
        Ok(())
    }

    fn take(&mut self, room: &mut [u8]) -> Result<usize, Failed>
        ensures count { result ≡ Ok (min (length room.new) (length self.old.left)) }
        ensures bytes { IfOk result (λ n. take n room.new ≡ take n self.old.left) }
        ensures left { IfOk result (λ n. self.new ≡ record self.old { left = drop n self.old.left }) }
    {
        Ok(self.files.take(room, usize::MAX))
    }
}
