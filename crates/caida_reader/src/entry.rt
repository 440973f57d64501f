//! A pair with its first line, in twelve bytes.
ghost use Rattle.std.specs.Prelude.{◌≡◌, ◌<◌};
ghost use Rattle.caida_reader.specs.Entries.{rel_at as rel_of_code, first_in, entry_of};
ghost use Rattle.caida_reader.specs.Runs.{link_of, turned};

use crate::firsts::First;
use net_names::{Asn, Link, Rel};

/// Lines from this number on don't fit into an entry.
pub(crate) const LINES: u64 = 0x4000_0000;

/// A pair with its first line.
#[derive(Clone, Copy, Debug, PartialEq, Eq)]
pub(crate) struct Entry {
    pub(crate) a: Asn,
    pub(crate) b: Asn,
    // Four times the number of the line, and the code of its relation.
    first: u32,
}

fn code_of(rel: Rel) -> u32
    ensures rel { rel_of_code result ≡ rel }
    ensures few { result < 4 }
{
    match rel {
        Rel::Customer => 0,
        Rel::Peer => 1,
        Rel::Provider => 2,
    }
}

fn rel_at(code: u32) -> Rel
    ensures { result ≡ rel_of_code code }
{
    match code {
        0 => Rel::Customer,
        1 => Rel::Peer,
        _ => Rel::Provider,
    }
}

impl Entry {
    /// The entry of a pair and its first line.
    pub(crate) fn new(a: Asn, b: Asn, first: First) -> Entry
        requires { first.line < LINES }
        ensures { entry_of result ≡ ((a, b), first) }
    {
        let line = first.line as u32;
        Entry {
            a,
            b,
            first: line * 4 + code_of(first.rel),
        }
    }

    /// The first line of the pair.
    pub(crate) fn first(&self) -> First
        ensures { result ≡ first_in self.now.first }
    {
        First {
            rel: rel_at(self.first % 4),
            line: u64::from(self.first / 4),
        }
    }

    /// The link of the pair.
    pub(crate) fn link(&self) -> Link
        ensures { result ≡ link_of (entry_of self.now) }
    {
        Link {
            lo: self.a,
            hi: self.b,
            rel: self.first().rel,
        }
    }

    /// The link of the pair where its ends are exchanged.
    pub(crate) fn turned_link(&self) -> Link
        ensures { result ≡ link_of (turned (entry_of self.now)) }
    {
        Link {
            lo: self.b,
            hi: self.a,
            rel: self.first().rel,
        }
    }
}
