//! Numbers of ASes, and lists of them.
ghost use Rattle.std.specs.Prelude.{◌≡◌, ℕ, ◌≤◌, ◌++◌, ◌∷◌, [], List, IfOk, OnOk, OnErr};
ghost use Rattle.std.specs.Option.{SomeIff};

use std::alloc::{AllocError, AllocFailed, Global};
use std::marker::Model;

/// The number of an AS, from 1 to 4294967295 (RFC 6793; RFC 7607 rules out 0). Contracts see the number.
#[derive(Clone, Copy, Debug, PartialEq, Eq, PartialOrd, Ord, Hash)]
pub struct Asn {
    number: u32,
}

impl Model for Asn {
    ghost Value = { ℕ };

    ghost view = { λ a. a.number };

    ghost invariant = { λ a. 1 ≤ a.number };

    ghost inverse = { λ n. record { number = n } };
}

impl Asn {
    /// The AS of that number; `None` exactly for 0.
    pub fn new(number: u32) -> Option<Asn>
        ensures { SomeIff result (1 ≤ number) number }
    {
        if number == 0 {
            None
        } else {
            Some(Asn { number })
        }
    }

    /// The number, at least 1.
    pub fn get(self) -> u32
        ensures value { result ≡ self }
        ensures positive { 1 ≤ result }
    {
        self.number
    }
}

/// There was not enough memory.
#[derive(Clone, Copy, Debug, PartialEq, Eq)]
pub struct NoMemory;

impl From<AllocError> for NoMemory {
    fn from(_e: AllocError) -> NoMemory {
        NoMemory
    }
}

impl<T: Drop> From<AllocFailed<T>> for NoMemory {
    fn from(_e: AllocFailed<T>) -> NoMemory {
        NoMemory
    }
}

/// A list of ASes, as the path of a route: the nearest AS first, the origin last (RFC 4271, section
/// 4.3). Contracts see the list of their numbers.
#[derive(Drop)]
pub struct Path {
    numbers: Vec<Asn>,
}

impl Model for Path {
    ghost Value = { List ℕ };

    ghost view = { λ p. p.numbers.items };
}

impl Path {
    /// The empty list.
    pub fn new(alloc: Global) -> Path
        ensures { result ≡ [] }
    {
        Path {
            numbers: Vec::new(alloc),
        }
    }

    /// The list of these ASes.
    pub fn from_vec(numbers: Vec<Asn>) -> Path
        ensures { result ≡ numbers.items }
    {
        Path { numbers }
    }

    /// The list of these ASes. The only refusal is want of memory.
    pub fn of(alloc: Global, numbers: &[Asn]) -> Result<Path, NoMemory>
        ensures { IfOk result (λ p. p ≡ numbers.now) }
    {
        let numbers = Vec::from_slice(alloc, numbers)?;
        Ok(Path { numbers })
    }

    /// The same list once more. The only refusal is want of memory.
    pub fn copied(&self, alloc: Global) -> Result<Path, NoMemory>
        ensures { IfOk result (λ p. p ≡ self.now) }
    {
        Path::of(alloc, self.as_slice())
    }

    /// The list of an AS and these behind it. The only refusal is want of memory.
    pub fn with_front(alloc: Global, first: Asn, rest: &[Asn]) -> Result<Path, NoMemory>
        ensures { IfOk result (λ p. p ≡ first ∷ rest.now) }
    {
        let mut numbers = Vec::with_capacity(alloc, rest.len() + 1)?;
        numbers.push(first)?;
        numbers.extend_from_slice(rest)?;
        Ok(Path { numbers })
    }

    /// Puts an AS at the end. `Err` where there is not enough memory; then the list stays as it was.
    pub fn push(&mut self, asn: Asn) -> Result<(), NoMemory>
        ensures ok { OnOk result (self.new ≡ self.old ++ asn ∷ []) }
        ensures err { OnErr result (self.new ≡ self.old) }
    {
        self.numbers.push(asn)?;
        Ok(())
    }

    /// The ASes in their order.
    pub fn as_slice(&self) -> &[Asn]
        ensures { result.now ≡ self.now }
    {
        self.numbers.as_slice()
    }
}
