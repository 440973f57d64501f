//! Entries of ASes that have no place: of a few, or of many. It is a small map that turns into a sparse set.

ghost use Rattle.std.specs.Prelude.{◌≡◌, ◌≢◌, ◌⊎◌, ℕ, ◌+◌, ◌^◌, ◌<◌, ◌≤◌, [], ◌∷◌, ◌++◌, length, slice_get, Some, None, IsSome, IsOk, IfOk, IfSome, OnOk, nat_eq, unwrap_or};
ghost use Rattle.std.specs.Map.{keys_of, lookup};
ghost use Rattle.route_choice.specs.Slots.{use_of, uses_in};
ghost use Rattle.route_choice.specs.Few.{few_entries};
ghost use Rattle.route_choice.specs.Beside.{beside_entries, beside_spare};

use crate::Held;
use crate::dense::Dense;
use crate::first::Few;
use as_places::AsPlaces;
use net_names::{Asn, NoMemory};
use std::alloc::Global;
use std::rc::Rc;

/// Few ASes are less than one in so many of a list.
const SHARE: usize = 64;

/// Entries, or none, at ASes that have no place. Once there are many, they are found through a list of ASes.
#[derive(Drop)]
pub(crate) struct Beside {
    pub alloc: Global,
    pub few: Few,
    pub many: Option<Box<Dense>>,
}

// Entries of many ASes, which begin with those of a few.
fn begun(alloc: Global, list: &Rc<AsPlaces>, few: &Few, n: usize) -> Result<Dense, NoMemory>
    ensures entries { IfOk result (λ d. d.entries ≡ few_entries few.now) }
    ensures room { IfOk result (λ d. n ≤ d.spare) }
{
    let mut dense = Dense::new(alloc, list)?;
    for index in 0..few.len() {
        let Some(pair) = few.at(index) else {
            unreachable!();
        };
        dense.reserve(1)?;
        match dense.get(pair.0, 0) {
            None => dense.push(pair.0, 0, pair.1),
            Some(_) => return Err(NoMemory),
        }
    }
    dense.reserve(n)?;
    Ok(dense)
}

// Entries of many ASes, where a few have become many of a list, and there is memory. Who has them among its
// locals clears them at each call, so that they have a function of their own.
#[cold]
#[inline(never)]
fn many_of(alloc: Global, list: &Option<Rc<AsPlaces>>, few: &Few, n: usize) -> Option<Box<Dense>>
    ensures entries { IfSome result (λ d. d.value.entries ≡ few_entries few.now) }
    ensures room { IfSome result (λ d. n ≤ d.value.spare) }
{
    let Some(ases) = list else {
        return None;
    };
    if few.len() < ases.len() / SHARE {
        return None;
    }
    match begun(alloc, ases, few, n) {
        Ok(dense) => match Box::new(alloc, dense) {
            Ok(many) => Some(many),
            Err(_) => None,
        },
        Err(_) => None,
    }
}

impl Beside {
    /// No AS.
    pub fn new(alloc: Global) -> Beside
        ensures { beside_entries result ≡ [] }
    {
        Beside {
            alloc,
            few: Few::new(alloc),
            many: None,
        }
    }

    /// No AS, and room for so many.
    pub fn with_room(alloc: Global, n: usize) -> Result<Beside, NoMemory>
        ensures none { IfOk result (λ b. beside_entries b ≡ []) }
        ensures room { IfOk result (λ b. n ≤ beside_spare b) }
    {
        let mut few = Few::new(alloc);
        few.room(n)?;
        Ok(Beside {
            alloc,
            few,
            many: None,
        })
    }

    /// How many ASes there are.
    pub fn len(&self) -> usize
        ensures len { result ≡ length (beside_entries self.now) }
        ensures small { result ≤ 2 ^ 63 }
    {
        match &self.many {
            Some(many) => many.len(),
            None => self.few.len(),
        }
    }

    // Makes room for `n` more ASes, where it may be wanting.
    #[inline(never)]
    fn more_room(&mut self, list: &Option<Rc<AsPlaces>>, n: usize) -> Result<(), NoMemory>
        ensures room { OnOk result (n ≤ beside_spare self.new) }
        ensures more { beside_spare self.old ≤ beside_spare self.new }
        ensures succeeds { n ≤ beside_spare self.old → IsOk result }
        ensures same { beside_entries self.new ≡ beside_entries self.old }
    {
        if let Some(many) = &mut self.many {
            return many.reserve(n);
        }
        if self.few.has_room(n) {
            return Ok(());
        }
        match many_of(self.alloc, list, &self.few, n) {
            Some(many) => {
                self.many = Some(many);
                self.few = Few::new(self.alloc);
                Ok(())
            }
            None => self.few.room(n),
        }
    }

    /// Makes room for `n` more ASes. The entries stay, also after a refusal. Where they become many of a list,
    /// they are found through it from then on.
    #[inline(always)]
    pub fn room(&mut self, list: &Option<Rc<AsPlaces>>, n: usize) -> Result<(), NoMemory>
        ensures room { OnOk result (n ≤ beside_spare self.new) }
        ensures more { beside_spare self.old ≤ beside_spare self.new }
        ensures succeeds { n ≤ beside_spare self.old → IsOk result }
        ensures same { beside_entries self.new ≡ beside_entries self.old }
    {
        match self.many {
            None if self.few.has_room(n) => Ok(()),
            _ => self.more_room(list, n),
        }
    }

    /// The AS at an index, and what stands at it.
    #[inline(always)]
    pub fn at(&self, index: usize) -> Option<(Asn, Option<Held>)>
        ensures { result ≡ slice_get (beside_entries self.now) index }
    {
        match &self.many {
            Some(many) => many.pair_at(index),
            None => self.few.at(index),
        }
    }

    /// What stands at an AS, sought first at a place.
    #[inline(always)]
    pub fn get(&self, asn: Asn, near: usize) -> Option<Option<Held>>
        ensures { result ≡ lookup (nat_eq asn) (beside_entries self.now) }
    {
        match &self.many {
            Some(many) => many.get(asn, near),
            None => self.few.get(asn),
        }
    }

    /// Where the AS at an index may stand in a table. It is a hint.
    pub fn near(&self, index: usize) -> usize {
        match &self.many {
            Some(many) => many.hint(index),
            None => self.few.near(),
        }
    }

    /// Puts an entry, or none, at an AS, which may stand at that place in a table. Returns what stood
    /// there.
    #[inline(never)]
    pub fn exchange(&mut self, asn: Asn, near: usize, entry: Option<Held>) -> Option<Held>
        requires { IsSome (lookup (nat_eq asn) (beside_entries self.old)) ⊎ (0 < beside_spare self.old) }
        ensures old { result ≡ unwrap_or (lookup (nat_eq asn) (beside_entries self.old)) None }
        ensures this { lookup (nat_eq asn) (beside_entries self.new) ≡ Some entry }
        ensures others { (a : ℕ) → a ≢ asn →
            lookup (nat_eq a) (beside_entries self.new) ≡ lookup (nat_eq a) (beside_entries self.old) }
        ensures uses { (k : ℕ) → uses_in (beside_entries self.new) k + use_of k result
            ≡ uses_in (beside_entries self.old) k + use_of k entry }
        ensures spare { beside_spare self.old ≤ beside_spare self.new + 1 }
        ensures kept { IsSome (lookup (nat_eq asn) (beside_entries self.old)) →
            keys_of (beside_entries self.new) ≡ keys_of (beside_entries self.old) }
        ensures kept_spare { IsSome (lookup (nat_eq asn) (beside_entries self.old)) →
            beside_spare self.new ≡ beside_spare self.old }
        ensures new_place { lookup (nat_eq asn) (beside_entries self.old) ≡ None →
            keys_of (beside_entries self.new) ≡ keys_of (beside_entries self.old) ++ asn ∷ [] }
    {
        if let Some(many) = &mut self.many {
            return many.put(asn, near, entry);
        }
        self.few.put_in(asn, near, entry)
    }

    /// Takes the entry at an AS away, which may stand at that place in a table. An AS that is there stays,
    /// without an entry.
    #[inline(never)]
    pub fn take(&mut self, asn: Asn, near: usize) -> Option<Held>
        ensures taken { result ≡ unwrap_or (lookup (nat_eq asn) (beside_entries self.old)) None }
        ensures none { unwrap_or (lookup (nat_eq asn) (beside_entries self.new)) None ≡ None }
        ensures others { (a : ℕ) → a ≢ asn →
            lookup (nat_eq a) (beside_entries self.new) ≡ lookup (nat_eq a) (beside_entries self.old) }
        ensures uses { (k : ℕ) → uses_in (beside_entries self.new) k + use_of k result
            ≡ uses_in (beside_entries self.old) k }
        ensures kept { IsSome (lookup (nat_eq asn) (beside_entries self.old)) →
            IsSome (lookup (nat_eq asn) (beside_entries self.new)) }
        ensures keys { keys_of (beside_entries self.new) ≡ keys_of (beside_entries self.old) }
        ensures spare { beside_spare self.new ≡ beside_spare self.old }
    {
        match self.get(asn, near) {
            Some(Some(held)) => {
                let _held = self.exchange(asn, near, None);
                Some(held)
            }
            Some(None) => None,
            None => None,
        }
    }
}
