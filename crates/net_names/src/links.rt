//! Links between ASes.
ghost use Rattle.std.specs.Prelude.{◌≡◌, ◌≢◌, ◌<◌, ◌≤◌, ◌↔◌, ◌-◌, IsTrue, length, slice_get, option_map, IfOk, IfErr, OnOk, OnErr, IfSome};
ghost use Rattle.std.specs.FinMap as map;
ghost use Rattle.std.specs.declared.cmp.Ordering.TheVariants.{Less};
ghost use Rattle.std.specs.List.{HoldsAt};
ghost use Rattle.std.specs.List.Sorted.{IsSearchInRange, IsBinarySearchResult};
ghost use Rattle.net_names.specs.Links.{pair_cmp, between, with_relation};
ghost use Rattle.net_names.specs.LinkLists.{entry_of, map_of, AreLinks};
ghost use Rattle.net_names.specs.declared.links.LinksError.TheVariants.{Memory};

use crate::dealing::Numbered;
use crate::numbers::Asn;
use crate::routes::Rel;
use std::alloc::{AllocFailed, Global};
use std::marker::Model;

/// A link of two ASes.
#[derive(Clone, Copy, Debug, PartialEq, Eq)]
pub struct Link {
    /// The end with the lower number.
    pub lo: Asn,
    /// The end with the higher number.
    pub hi: Asn,
    /// What the higher end is to the lower one.
    pub rel: Rel,
}

impl Numbered for Link {
    ghost number_of = { λ l. l.lo };

    fn number(&self) -> Asn {
        self.lo
    }
}

/// Why a link is refused.
#[derive(Clone, Copy, Debug, PartialEq, Eq)]
pub enum LinksError {
    /// There is not enough memory.
    Memory,
    /// The pair has no link yet, and there are 1,500,000 links.
    TooMany,
}

impl<T: Drop> From<AllocFailed<T>> for LinksError {
    ghost from_gives = { λ _ e. e ≡ Memory };

    fn from(_e: AllocFailed<T>) -> LinksError {
        LinksError::Memory
    }
}

/// How many links there are at most.
pub const MOST_LINKS: usize = 1_500_000;

/// Links between ASes, at most 1,500,000 and one for each pair. Contracts see the finite map that has
/// at the pair of a lower and a higher AS what the higher one is to the lower one.
#[derive(Drop)]
pub struct Links {
    items: Vec<Link>,
}

impl Model for Links {
    ghost use Rattle.net_names.specs.Links.{LinkMap, link_map_code};
    ghost use Rattle.net_names.specs.LinkLists.{map_of, AreLinks};

    ghost Value = { LinkMap };

    ghost coded = { link_map_code };

    ghost view = { λ l. map_of l.items.items };

    ghost invariant = { λ l. AreLinks l.items.items };
}

// Whether the pair is above all of the links, where they rise.
fn is_past(links: &[Link], lo: Asn, hi: Asn) -> bool
    ensures { IsTrue result → (0 < length links.now) ×
        HoldsAt (λ l. pair_cmp (l.lo, l.hi) (lo, hi) ≡ Less) links.now (length links.now - 1) }
{
    match links.last() {
        Some(last) => (last.lo, last.hi) < (lo, hi),
        None => false,
    }
}

// Where the pair stands among the links, or where it has to be put in. A pair above the last one is
// not searched for.
fn place_of(links: &[Link], lo: Asn, hi: Asn) -> Result<usize, usize>
    ensures bound { IsSearchInRange result (length links.now) }
    ensures position { IsBinarySearchResult (λ l. pair_cmp (l.lo, l.hi) (lo, hi)) links.now result }
{
    if is_past(links, lo, hi) {
        return Err(links.len());
    }
    links.binary_search_by_key(&(lo, hi), |l| (l.lo, l.hi))
}

// Whether the links are at most 1,500,000, each has its lower end first, and their pairs rise.
fn are_rising(links: &[Link]) -> bool
    ensures { IsTrue result ↔ AreLinks links.now }
{
    if links.len() > MOST_LINKS {
        return false;
    }
    let mut count = 0usize;
    while count < links.len() {
        let link = links[count];
        if link.lo >= link.hi {
            return false;
        }
        match place_of(&links[..count], link.lo, link.hi) {
            Ok(_) => return false,
            Err(at) => {
                if at != count {
                    return false;
                }
            }
        }
        count += 1;
    }
    true
}

impl Links {
    /// No links.
    pub fn new(alloc: Global) -> Links
        ensures { result ≡ map.empty }
    {
        Links {
            items: Vec::new(alloc),
        }
    }

    /// The links of a list, exactly where they are at most 1,500,000, each has its lower end first, and
    /// their pairs rise; else the list again. It takes no memory.
    pub fn from_rising(links: Vec<Link>) -> Result<Links, Vec<Link>>
        ensures ok { IfOk result (λ made. made ≡ map_of links.items) }
        ensures rising { OnOk result (AreLinks links.items) }
        ensures err { IfErr result (λ again. (again ≡ links) × (AreLinks links.items → ⊥)) }
    {
        if are_rising(links.as_slice()) {
            Ok(Links { items: links })
        } else {
            Err(links)
        }
    }

    /// Makes `b` to `a` what `rel` says, in place of what it was. Where the pairs of lower and higher
    /// number come in rising order, this takes a constant time.
    ///
    /// `TooMany` exactly where the pair has no link and there are 1,500,000; `Memory` where there is
    /// not enough memory. After either the links stay as they were.
    pub fn set(&mut self, a: Asn, b: Asn, rel: Rel) -> Result<(), LinksError>
        requires { a ≢ b }
        ensures ok { OnOk result (self.new ≡ with_relation self.old a b rel) }
        ensures too_many { (result ≡ Err LinksError.TooMany) ↔
            ((between self.old a b ≡ None) × (map.len self.old ≡ MOST_LINKS)) }
        ensures err { OnErr result (self.new ≡ self.old) }
    {
        if a < b {
            self.put(a, b, rel)
        } else {
            self.put(b, a, rel.converse())
        }
    }

    fn put(&mut self, lo: Asn, hi: Asn, rel: Rel) -> Result<(), LinksError>
        requires { lo < hi }
        ensures ok { OnOk result (self.new ≡ map.insert self.old (lo, hi) rel) }
        ensures too_many { (result ≡ Err LinksError.TooMany) ↔
            ((map.get self.old (lo, hi) ≡ None) × (map.len self.old ≡ MOST_LINKS)) }
        ensures err { OnErr result (self.new ≡ self.old) }
    {
        match place_of(self.items.as_slice(), lo, hi) {
            Ok(at) => {
                self.items[at].rel = rel;
                Ok(())
            }
            Err(at) => {
                if self.items.len() == MOST_LINKS {
                    return Err(LinksError::TooMany);
                }
                self.items.insert(at, Link { lo, hi, rel })?;
                Ok(())
            }
        }
    }

    /// What `b` is to `a`; `None` exactly where they have no link.
    pub fn get(&self, a: Asn, b: Asn) -> Option<Rel>
        ensures { result ≡ between self.now a b }
    {
        if a < b {
            self.find(a, b)
        } else if b < a {
            match self.find(b, a) {
                Some(rel) => Some(rel.converse()),
                None => None,
            }
        } else {
            None
        }
    }

    fn find(&self, lo: Asn, hi: Asn) -> Option<Rel>
        ensures { result ≡ map.get self.now (lo, hi) }
    {
        match place_of(self.items.as_slice(), lo, hi) {
            Ok(at) => Some(self.items[at].rel),
            Err(_) => None,
        }
    }

    /// How many links there are, at most 1,500,000.
    pub fn len(&self) -> usize
        ensures value { result ≡ map.len self.now }
        ensures few { result ≤ MOST_LINKS }
    {
        self.items.len()
    }

    /// Whether there are none.
    pub fn is_empty(&self) -> bool
        ensures { IsTrue result ↔ (map.len self.now ≡ 0) }
    {
        self.len() == 0
    }

    /// The link at a place in the rising order of their pairs; `None` exactly where the place is not
    /// below their number. It takes a constant time.
    pub fn at(&self, place: usize) -> Option<Link>
        ensures value { option_map entry_of result ≡ slice_get (map.entries self.now) place }
        ensures lower { IfSome result (λ l. l.lo < l.hi) }
    {
        if place < self.items.len() {
            Some(self.items[place])
        } else {
            None
        }
    }
}
