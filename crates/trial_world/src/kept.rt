//! What is kept of the line's round in the world of a trial.
ghost use Rattle.std.specs.Prelude.{◌≡◌, IfOk, OnOk, OnErr};
ghost use Rattle.policy_kinds.specs.declared.kind.Kind.{Kind as AKind};
ghost use Rattle.stability_laws.specs.Book.{PolicyBook};
ghost use Rattle.trial_world.specs.Fixed.{IsFixed};
ghost use Rattle.trial_world.specs.Sweeps.{end_of as the_end_of};
ghost use Rattle.trial_world.specs.Trials.{AreKeptBefore, AreKeptIn, StayKept, count_in};

use crate::fixed::Fixed;
use crate::tables::{LineTables, tables_by};
use crate::trees::{LineTrees, needs_no_paths};
use data_trace::{End, Which};
use net_names::{Asn, NoMemory};
use policy_kinds::Kind;
use policy_laws::RoutePolicy;
use stability_laws::Book;
use sweep::{Fate, Sweep};

// Where at least so many ASes adopt, trees that are grown anew cost less than tables that are edited. An edit of 100 ASes
// takes as long as trees over 75,000 ASes.
const FEWEST: u32 = 100;

/// The tables of the line's rounds, or routing trees where no path is needed.
#[derive(Drop)]
pub enum Kept {
    /// The tables, with the watch for the line's address.
    Tables(LineTables),
    /// The trees, with the ends of packets for the line's address.
    Trees(LineTrees),
}

// Whether trees may pay: where many adopt in some trial, and the kind that they adopt does not mark.
fn adopt_many(line: &Sweep) -> bool {
    !line.kind.marks() && line.ks.as_slice().iter().any(|k| *k >= FEWEST)
}

// How the traces of the packets with a fate end.
fn end_of(fate: Fate) -> End
    ensures { result ≡ the_end_of fate }
{
    match fate {
        Fate::At(asn) => End::At(asn),
        Fate::NoRoute => End::NoRoute,
        Fate::Loop => End::Loop,
    }
}

/// What is kept for a line where the ASes have the policies of the book.
pub fn kept_for(fixed: &Fixed<'_>, book: &Book<Kind>, line: &Sweep) -> Result<Kept, NoMemory>
    requires { IsFixed fixed.now }
    ensures { IfOk result (AreKeptIn fixed.now book.now) }
{
    if adopt_many(line) && needs_no_paths(fixed) {
        let mut trees = LineTrees::blank(fixed)?;
        if trees.renew(fixed, book) {
            return Ok(Kept::Trees(trees));
        }
    }
    Ok(Kept::Tables(tables_by(fixed, book)?))
}

impl Kept {
    /// Takes what is kept to the policies of the book, from those of a book in which the ASes of the list had the policies
    /// beside them, and all others those of this one. Where memory runs out it stays what it was.
    pub fn follow(
        &mut self,
        fixed: &Fixed<'_>,
        book: &Book<Kind>,
        before: &[(Asn, Kind)],
    ) -> Result<(), NoMemory>
        requires fixed { IsFixed fixed.now }
        requires from { AreKeptBefore fixed.now book.now before.now self.old }
        ensures ok { OnOk result (AreKeptIn fixed.now book.now self.new) }
        ensures err { OnErr result (StayKept fixed.now self.old self.new) }
    {
        match self {
            Kept::Tables(tables) => return tables.follow(fixed, book, before),
            Kept::Trees(trees) => {
                if trees.renew(fixed, book) {
                    return Ok(());
                }
            }
        }
        let tables = tables_by(fixed, book)?;
        *self = Kept::Tables(tables);
        Ok(())
    }

    /// Of how many ASes the packets have this fate.
    pub fn count(&self, fixed: &Fixed<'_>, fate: Fate) -> u64
        requires { (book : PolicyBook AKind) × AreKeptIn fixed.now book self.now }
        ensures { result ≡ count_in self.now fate }
    {
        match self {
            Kept::Tables(tables) => tables.watch.count(Which::All, end_of(fate)),
            Kept::Trees(trees) => trees.count(fate),
        }
    }
}
