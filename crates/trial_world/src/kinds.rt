//! The kinds of the ASes of a trial.
ghost use Rattle.std.specs.Prelude.{◌≡◌, ℕ, IsTrue, All, IfOk, OnOk, ◌==◌, map, if◌then◌else◌};
ghost use Rattle.std.specs.FinSet as set;
ghost use Rattle.net_names.specs.Prelude.{occurs};
ghost use Rattle.policy_kinds.specs.declared.kind.Kind.TheVariants as kind;
ghost use Rattle.stability_laws.specs.Prelude.{policy_at};
ghost use Rattle.sweep.specs.Prelude.{changed, with_kinds};

use net_names::{Asn, NoMemory};
use policy_kinds::Kind;
use stability_laws::Book;
use std::alloc::Global;

/// Makes room for the ASes of the changes. Their kinds stay, whatever the result.
pub fn room_for(book: &mut Book<Kind>, changes: &[(Asn, Kind)]) -> Result<(), NoMemory>
    ensures room { OnOk result (All (λ c. IsTrue (set.contains book.new.room c.0)) changes.now) }
    ensures same { (a : ℕ) → policy_at book.new a ≡ policy_at book.old a }
{
    for change in changes {
        book.room(change.0)?;
    }
    Ok(())
}

/// Gives the ASes their kinds, one after the other. There is room for them. It takes no memory.
pub fn give_all(book: &mut Book<Kind>, changes: &[(Asn, Kind)])
    requires { All (λ c. IsTrue (set.contains book.old.room c.0)) changes.now }
    ensures kinds { (a : ℕ) → policy_at book.new a ≡ changed (policy_at book.old) changes.now a }
    ensures room { book.new.room ≡ book.old.room }
{
    for change in changes {
        book.set(change.0, change.1);
    }
}

/// The ASes of the changes, each with the kind that it has.
pub fn kinds_of(
    alloc: Global,
    book: &Book<Kind>,
    changes: &[(Asn, Kind)],
) -> Result<Vec<(Asn, Kind)>, NoMemory>
    ensures { IfOk result (λ v. v.items ≡ with_kinds (policy_at book.now) (map (λ c. c.0) changes.now)) }
{
    let mut kinds = Vec::new(alloc);
    for change in changes {
        kinds.push((change.0, *book.policy(change.0)))?;
    }
    Ok(kinds)
}

// Gives an AS a kind, for which room is made.
fn give(book: &mut Book<Kind>, asn: Asn, kind: Kind) -> Result<(), NoMemory>
    ensures { OnOk result ((a : ℕ) → policy_at book.new a ≡ (if asn == a then kind else policy_at book.old a)) }
{
    book.room(asn)?;
    book.set(asn, kind);
    Ok(())
}

/// The book in which these ASes have the kinds that they have in another one, and the rest has the plain one. There is
/// room for them, in their order.
pub fn copy_at(alloc: Global, book: &Book<Kind>, ases: &[Asn]) -> Result<Book<Kind>, NoMemory>
    ensures { IfOk result (λ copy. (a : ℕ) →
        policy_at copy a ≡ (if occurs a ases.now then policy_at book.now a else kind.Plain)) }
{
    let mut copy = Book::new(alloc, Kind::Plain);
    for asn in ases {
        give(&mut copy, *asn, *book.policy(*asn))?;
    }
    Ok(copy)
}
