//! A Bloom filter of pairs. Where the pairs that stand are marked, one that isn't needs no search.
ghost use Rattle.std.specs.Prelude.{◌≡◌, ◌↔◌, ℕ, All, IsTrue, OnOk, OnErr};
ghost use Rattle.caida_reader.specs.Marks.{word_of, bits_of, IsMarked};

use crate::entry::Entry;
use net_names::{Asn, NoMemory};
use std::alloc::Global;
use std::marker::Model;

/// For how many pairs there is a word when the marks are made.
const PAIRS_A_WORD: usize = 4;

/// How many words stand together for the pairs of one lower AS. They are a line of memory.
const GROUP: u64 = 8;

/// A number times this one has upper bits that depend on all of its bits: 2 ^ 64 by the golden ratio.
const GOLDEN: u64 = 0x9e37_79b9_7f4a_7c15;

/// Marks of pairs: at first all pairs, and then those that were marked, and a few others. A pair is marked by
/// up to three bits of one word.
#[derive(Drop)]
pub(crate) struct PairFilter {
    words: Vec<u64>,
}

impl Model for PairFilter {
    ghost use Rattle.std.specs.Prelude.{ℕ, List};

    ghost Value = { List ℕ };

    ghost view = { λ a. a.words.items };
}

/// Where a pair is marked.
#[derive(Clone, Copy, Debug, PartialEq, Eq)]
struct Spot {
    word: usize,
    bits: u64,
}

// Where a pair is marked, among so many words. The lower AS says in which group, the last bits of the higher AS
// in which word of it, and three times six bits of the mixed higher AS which bits of the word.
#[tactic(auto, unfolding(crate::specs::Marks::word_of, crate::specs::Marks::bits_of))]
#[inline(always)]
fn spot_of(count: usize, lo: Asn, hi: Asn) -> Spot
    ensures word { result.word ≡ word_of count (lo, hi) }
    ensures bits { result.bits ≡ bits_of (lo, hi) }
{
    let mixed_lo = (lo.get() as u64).wrapping_mul(GOLDEN);
    let group = (mixed_lo >> 32).wrapping_mul(count as u64 / GROUP);
    let mixed_hi = (hi.get() as u64).wrapping_mul(GOLDEN);
    Spot {
        word: (group >> 32) as usize * GROUP as usize + (hi.get() % GROUP as u32) as usize,
        bits: (1 << ((mixed_hi >> 58) % 64))
            | (1 << ((mixed_hi >> 52) % 64))
            | (1 << ((mixed_hi >> 46) % 64)),
    }
}

// Words without a mark.
fn make_words(alloc: Global, count: usize) -> Result<Vec<u64>, NoMemory> {
    Ok(vec![in alloc; 0; count]?)
}

impl PairFilter {
    /// Marks of all pairs, which take no memory.
    pub(crate) fn new(alloc: Global) -> PairFilter
        ensures { (pair : ℕ × ℕ) → IsMarked result pair }
    {
        PairFilter {
            words: Vec::new(alloc),
        }
    }

    /// Whether the pair is marked.
    #[inline(always)]
    pub(crate) fn has(&self, lo: Asn, hi: Asn) -> bool
        ensures { IsTrue result ↔ IsMarked self.now (lo, hi) }
    {
        let spot = spot_of(self.words.len(), lo, hi);
        if spot.word >= self.words.len() {
            return true;
        }
        self.words[spot.word] & spot.bits == spot.bits
    }

    /// Marks the pair. What was marked stays so.
    #[inline(always)]
    pub(crate) fn mark(&mut self, lo: Asn, hi: Asn)
        ensures marked { IsMarked self.new (lo, hi) }
        ensures kept { (pair : ℕ × ℕ) → IsMarked self.old pair → IsMarked self.new pair }
    {
        let spot = spot_of(self.words.len(), lo, hi);
        if spot.word < self.words.len() {
            self.words[spot.word] |= spot.bits;
        }
    }

    /// Marks these pairs, in place of what was marked.
    pub(crate) fn mark_only(&mut self, entries: &[Entry]) -> Result<(), NoMemory>
        ensures marked { OnOk result (All (λ e. IsMarked self.new (e.a, e.b)) entries.now) }
        ensures err { OnErr result (self.new ≡ self.old) }
    {
        self.words = make_words(*self.words.allocator(), entries.len() / PAIRS_A_WORD)?;
        'entries: for entry in entries {
            self.mark(entry.a, entry.b);
        }
        Ok(())
    }
}
