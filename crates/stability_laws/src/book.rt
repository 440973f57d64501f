//! Which policy an AS has.
ghost use Rattle.std.specs.Prelude.{◌≡◌, ◌==◌, IsTrue, OnOk, OnErr, IfSome, Some, nat_eq, position};
ghost use Rattle.std.specs.List.{IsDistinct};
ghost use Rattle.std.specs.FinMap as map;
ghost use Rattle.std.specs.FinSet as set;
ghost use Rattle.indexmap.specs.IndexMap.{keys, get};
ghost use Rattle.stability_laws.specs.Book.{policy_at, with_room, with_policy, without_policy};

use indexmap::IndexMap;
use net_names::{Asn, NoMemory};
use std::alloc::Global;
use std::marker::Model;

/// Up to this number of named ASes, one is found by looking at each, which is quicker than by a hash.
pub const FEW_NAMED: usize = 4;

// Where the row of an AS stands, if it has one.
fn row_of<P>(named: &IndexMap<Asn, Option<P>>, asn: Asn) -> Option<usize>
    ensures place { result ≡ position (λ a. asn == a) (keys named.now) }
    ensures once { IsDistinct nat_eq (keys named.now) }
{
    let ases = named.keys().as_slice();
    if ases.len() > FEW_NAMED {
        return named.get_index_of(&asn);
    }
    ases.iter().position(|a| asn == *a)
}

// The row at a place, where it is that of the AS.
#[inline(always)]
fn row_near<P>(named: &IndexMap<Asn, Option<P>>, asn: Asn, place: usize) -> Option<&Option<P>>
    ensures row { IfSome result (λ kept. get nat_eq named.now asn ≡ Some kept.now) }
    ensures once { IsDistinct nat_eq (keys named.now) }
{
    // It says that each AS has one row.
    let _ = named.keys();
    match named.get_index(place) {
        Some((found, kept)) if *found == asn => Some(kept),
        _ => None,
    }
}

/// A policy for each AS: that of the named ones, and one for the rest. Contracts see the policy of the
/// rest, the finite map of the named ones, and the set of the ASes that can be named without memory.
#[derive(Drop)]
pub struct Book<P> {
    rest: P,
    named: IndexMap<Asn, Option<P>>,
}

impl<P> Model for Book<P> {
    ghost use Rattle.stability_laws.specs.Book.{PolicyBook, book_code};
    ghost use Rattle.stability_laws.specs.Rows.{book_of};

    ghost Value = { PolicyBook P };

    ghost coded = { book_code P.code };

    ghost view = { λ b. book_of b.rest b.named.entries };
}

impl<P> Book<P> {
    /// The book that has this policy for every AS.
    pub fn new(alloc: Global, rest: P) -> Book<P>
        ensures rest { result.rest ≡ rest }
        ensures named { result.named ≡ map.empty }
        ensures room { result.room ≡ set.empty }
    {
        Book {
            rest,
            named: IndexMap::new(alloc),
        }
    }

    /// The policy of an AS. It costs next to nothing where no AS has ever been named.
    #[inline(always)]
    pub fn policy(&self, asn: Asn) -> &P
        ensures { result.now ≡ policy_at self.now asn }
    {
        if self.named.is_empty() {
            return &self.rest;
        }
        self.policy_by_row(asn)
    }

    /// The policy of an AS, as `policy` gives it, sought first at a place among the ASes for which there is room. The
    /// place is a hint.
    #[inline(always)]
    pub fn policy_near(&self, asn: Asn, place: usize) -> &P
        ensures { result.now ≡ policy_at self.now asn }
    {
        if self.named.is_empty() {
            return &self.rest;
        }
        let Some(kept) = row_near(&self.named, asn, place) else {
            return self.policy_by_row(asn);
        };
        match kept {
            Some(policy) => policy,
            None => &self.rest,
        }
    }

    // The policy of an AS, where some are named.
    fn policy_by_row(&self, asn: Asn) -> &P
        ensures { result.now ≡ policy_at self.now asn }
    {
        let Some(row) = row_of(&self.named, asn) else {
            return &self.rest;
        };
        let Some((_, kept)) = self.named.get_index(row) else {
            return &self.rest;
        };
        match kept {
            Some(policy) => policy,
            None => &self.rest,
        }
    }
}

impl<P: Drop> Book<P> {
    /// Makes room for an AS: from then on it can be named, and named otherwise, without memory. `Err`
    /// where there is not enough memory; then the book stays as it was.
    pub fn room(&mut self, asn: Asn) -> Result<(), NoMemory>
        ensures ok { OnOk result (self.new ≡ with_room self.old asn) }
        ensures err { OnErr result (self.new ≡ self.old) }
    {
        if self.named.get_index_of(&asn).is_some() {
            return Ok(());
        }
        self.named.insert(asn, None)?;
        Ok(())
    }

    /// Names an AS with this policy, in place of an earlier one. It takes no memory and keeps the room.
    pub fn set(&mut self, asn: Asn, policy: P)
        requires { IsTrue (set.contains self.old.room asn) }
        ensures { self.new ≡ with_policy self.old asn policy }
    {
        let _ = self.named.insert(asn, Some(policy));
    }

    /// Gives an AS the policy of the rest again. It takes no memory and keeps the room.
    pub fn clear(&mut self, asn: Asn)
        ensures { self.new ≡ without_policy self.old asn }
    {
        if self.named.get_index_of(&asn).is_none() {
            return;
        }
        let _ = self.named.insert(asn, None);
    }
}
