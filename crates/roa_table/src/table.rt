//! Sets of payloads.
ghost use Rattle.std.specs.Prelude.{◌≡◌, ◌≤◌, ◌<◌, ◌↔◌, false, suc, not, length, take as take_front, drop, Err, OnOk, OnErr, IfOk};
ghost use Rattle.std.specs.List.Sorted.{IsStrictlySortedBy};
ghost use Rattle.roa_table.specs.Sets.{no_payloads, has, added, taken, items, count, set_of, AreSound};
ghost use Rattle.roa_table.specs.Lists.{IsRising};
ghost use Rattle.roa_table.specs.Gathering.{AllSound};
ghost use Rattle.roa_table.specs.Cover.{of_prefix, covering as covering_of, cover_cmp, rows_below};

use crate::chunk::Chunk;
use crate::chunks::{chunked, payloads_from, put, row_of, stands, take};
use crate::covering::Covering;
use crate::errors::AddError;
use net_names::{NoMemory, Prefix, Vrp};
use std::alloc::{AllocError, Global};
use std::marker::Model;

/// How many payloads a set has at most.
pub const MOST_PAYLOADS: usize = 2_000_000;

/// A finite set of payloads, of at most 2,000,000. Contracts see the set.
///
/// It takes 32 bytes a payload, and finds one by two searches in rising order.
#[derive(Drop)]
pub struct Vrps {
    chunks: Vec<Chunk>,
    count: usize,
}

impl Model for Vrps {
    ghost use Rattle.roa_table.specs.Sets.{Payloads, payloads_code, set_of};
    ghost use Rattle.roa_table.specs.Chunks.{all_of, IsTable};

    ghost Value = { Payloads };

    ghost coded = { payloads_code };

    ghost view = { λ a. set_of (all_of a.chunks.items) };

    ghost invariant = { λ a. IsTable a.chunks.items a.count };
}

impl Vrps {
    /// The empty set.
    pub fn new(alloc: Global) -> Vrps
        ensures { result ≡ no_payloads }
    {
        Vrps {
            chunks: Vec::new(alloc),
            count: 0,
        }
    }

    /// The set of payloads that stand in rising order.
    pub(crate) fn from_sorted(alloc: Global, vrps: Vec<Vrp>) -> Result<Vrps, AllocError>
        requires rising { IsRising vrps.items }
        requires few { length vrps.items ≤ MOST_PAYLOADS }
        requires sound { AllSound vrps.items }
        ensures { IfOk result (λ s. s ≡ set_of vrps.items) }
    {
        let count = vrps.len();
        let chunks = chunked(alloc, vrps)?;
        Ok(Vrps { chunks, count })
    }

    /// How many payloads there are, at most 2,000,000.
    pub fn len(&self) -> usize
        ensures value { result ≡ count self.now }
        ensures bound { result ≤ MOST_PAYLOADS }
    {
        self.count
    }

    /// Whether the payload is in the set.
    pub fn has(&self, vrp: Vrp) -> bool
        ensures { result ≡ has self.now vrp }
    {
        stands(self.chunks.as_slice(), vrp)
    }

    /// Puts the payload in, and tells whether it is new. `TooMany` exactly where it is new and 2,000,000
    /// payloads stand; after an error the set is as it was.
    pub fn add(&mut self, vrp: Vrp) -> Result<bool, AddError>
        ensures ok { OnOk result (self.new ≡ added self.old vrp) }
        ensures is_new { IfOk result (λ b. b ≡ not (has self.old vrp)) }
        ensures too_many { (result ≡ Err AddError.TooMany)
            ↔ ((has self.old vrp ≡ false) × (count self.old ≡ MOST_PAYLOADS)) }
        ensures err { OnErr result (self.new ≡ self.old) }
    {
        // `max` is called for its clause that the payload is sound, which the proof cites.
        let _ = vrp.max();
        let known = self.has(vrp);
        let count = self.count;
        if known {
            return Ok(false);
        }
        if count >= MOST_PAYLOADS {
            return Err(AddError::TooMany);
        }
        let alloc = *self.chunks.allocator();
        put(&mut self.chunks, alloc, vrp)?;
        self.count = count + 1;
        Ok(true)
    }

    /// Takes the payload out, and tells whether it was there. It takes no memory.
    pub fn take(&mut self, vrp: Vrp) -> bool
        ensures gone { self.new ≡ taken self.old vrp }
        ensures found { result ≡ has self.old vrp }
    {
        let found = take(&mut self.chunks, vrp);
        if found {
            self.count -= 1;
        }
        found
    }

    /// The payloads of this very prefix, in rising order of maximum length and number. It takes no memory.
    pub fn of_prefix(&self, prefix: Prefix) -> &[Vrp]
        ensures { result.now ≡ of_prefix self.now prefix }
    {
        row_of(self.chunks.as_slice(), prefix)
    }

    /// Payloads from this place on, in rising order: those that stand side by side, at least one where one
    /// stands there. It takes no memory.
    pub fn payloads_from(&self, place: usize) -> &[Vrp]
        ensures next { result.now ≡ take_front (length result.now) (drop place (items self.now)) }
        ensures some { place < count self.now → 0 < length result.now }
    {
        payloads_from(self.chunks.as_slice(), place)
    }

    /// What covers a prefix are the payloads of the prefixes to which it is shortened, one length after
    /// the other, and they stand in the order of `covering`. It does nothing, and is called for its clauses.
    pub fn rows_cover(&self, prefix: Prefix)
        ensures rows { rows_below self.now prefix (suc prefix.len) ≡ covering_of self.now prefix }
        ensures order { IsStrictlySortedBy cover_cmp (covering_of self.now prefix) }
    {
        let _ = &self.chunks;
    }

    /// Each payload has a maximum length from its prefix's length to the family's width. It does nothing, and is
    /// called for its clause.
    pub fn are_sound(&self)
        ensures { AreSound self.now }
    {
        let _ = &self.chunks;
    }

    /// The payloads that cover the prefix, in rising order of prefix length, maximum length and number.
    pub fn covering(&self, alloc: Global, prefix: Prefix) -> Result<Covering, NoMemory>
        ensures value { IfOk result (λ c. c ≡ covering_of self.now prefix) }
        ensures order { IfOk result (λ c. IsStrictlySortedBy cover_cmp c) }
    {
        let mut vrps = Vec::new(alloc);
        for len in 0..prefix.len() + 1 {
            vrps.extend_from_slice(self.of_prefix(prefix.shortened(len)))?;
        }
        self.rows_cover(prefix);
        Ok(Covering::of(vrps))
    }
}
