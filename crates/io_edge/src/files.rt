//! Named files in memory, of which one is begun.
ghost use Rattle.std.specs.Prelude.{◌≡◌, ◌≤◌, ◌<◌, ◌-◌, ◌+◌, ◌↔◌, ℕ, List, [], ◌∷◌, length, take, drop, min, OnOk, OnErr, IfSome, IsTrue, IsSome, ◌^◌};
ghost use Rattle.std.specs.Option.{option_map};
ghost use Rattle.io_edge.specs.Files.{held, bytes_under};
ghost use Rattle.io_edge.specs.Kept.{place_of};

use std::alloc::{AllocError, Global};
use std::marker::Model;

#[derive(Drop)]
pub(crate) struct MemFile {
    pub(crate) name: String,
    pub(crate) bytes: Vec<u8>,
}

/// Files by name, of which the first of a name counts, and how much of one of them was taken.
#[derive(Drop)]
pub(crate) struct NamedFiles {
    all: Vec<MemFile>,
    // the place of the file that was begun
    begun: Option<usize>,
    // how much of it was taken
    at: usize,
}

impl Model for NamedFiles {
    ghost use Rattle.std.specs.Prelude.{map};
    ghost use Rattle.io_edge.specs.Files.{KeptFiles};

    ghost Value = { KeptFiles };

    ghost use Rattle.io_edge.specs.Kept.{seen, left_of, IsWithin};

    ghost view = { λ a. record { files = map seen a.all.items; left = left_of a.all.items a.begun a.at } };

    ghost invariant = { λ a. IsWithin a.all.items a.begun };
}

impl NamedFiles {
    pub(crate) fn new(alloc: Global) -> NamedFiles
        ensures { result ≡ record { files = []; left = [] } }
    {
        NamedFiles {
            all: Vec::new(alloc),
            begun: None,
            at: 0,
        }
    }

    /// Puts a file in front. What is left of the file that was begun stays.
    pub(crate) fn put(&mut self, name: &str, bytes: &[u8]) -> Result<(), AllocError>
        ensures ok { OnOk result
            (self.new ≡ record self.old { files = record { name = name.now; bytes = bytes.now } ∷ self.old.files }) }
        ensures err { OnErr result (self.new ≡ self.old) }
    {
        let alloc = self.all.allocator();
        let name = String::from_str(*alloc, name)?;
        let bytes = Vec::from_slice(*alloc, bytes)?;
        self.all.insert(0, MemFile { name, bytes })?;
        self.begun = next_place(self.begun);
        Ok(())
    }

    /// Begins the first file of this name, if there is one, and else nothing.
    pub(crate) fn begin(&mut self, name: &str) -> bool
        ensures found { IsTrue result ↔ IsSome (held self.old.files name.now) }
        ensures left { self.new ≡ record self.old { left = bytes_under self.old.files name.now } }
    {
        self.begun = place(&self.all, name);
        self.at = 0;
        self.begun.is_some()
    }

    /// Begins nothing.
    pub(crate) fn end(&mut self)
        ensures { self.new ≡ record self.old { left = [] } }
    {
        self.begun = None;
    }

    /// Takes the next bytes, at most `most` of them.
    pub(crate) fn take(&mut self, room: &mut [u8], most: usize) -> usize
        ensures count { result ≡ min most (min (length room.new) (length self.old.left)) }
        ensures bytes { take result room.new ≡ take result self.old.left }
        ensures left { self.new ≡ record self.old { left = drop result self.old.left } }
    {
        let Some(place) = self.begun else {
            return 0;
        };
        let bytes = self.all[place].bytes.as_slice();
        if self.at >= bytes.len() {
            return 0;
        }
        let count = copy_front(&bytes[self.at..], room, most);
        self.at += count;
        count
    }
}

// The place of a file once another was put in front.
fn next_place(begun: Option<usize>) -> Option<usize>
    requires { IfSome begun (λ place. place + 1 < 2 ^ 64) }
    ensures { result ≡ option_map (λ place. place + 1) begun }
{
    match begun {
        Some(place) => Some(place + 1),
        None => None,
    }
}

// Where the first file of this name stands.
fn place(files: &[MemFile], name: &str) -> Option<usize>
    ensures { result ≡ place_of files.now name.now }
{
    files.iter().position(|file| file.name.as_str() == name)
}

// Copies what fits of the front, at most `most` bytes.
fn copy_front(from: &[u8], room: &mut [u8], most: usize) -> usize
    ensures count { result ≡ min most (min (length from.now) (length room.old)) }
    ensures bytes { take result room.new ≡ take result from.now }
{
    let count = from.len().min(room.len()).min(most);
    room[..count].copy_from_slice(&from[..count]);
    count
}
