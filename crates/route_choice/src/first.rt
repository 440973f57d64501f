//! Entries of a few ASes: of the one that came first, and of the others.

ghost use Rattle.std.specs.Prelude.{◌≡◌, [], None};

use crate::Held;
use indexmap::IndexMap;
use net_names::Asn;

/// An entry, or none, at an AS, and where the AS may stand in a table, which is a hint.
#[derive(Clone, Copy)]
pub(crate) struct First {
    pub asn: Asn,
    pub entry: Option<Held>,
    pub near: usize,
}

/// Entries, or none, at a few ASes. The AS that came first stands by itself and takes no memory. The
/// others stand in a hash table.
#[derive(Drop)]
pub(crate) struct Few {
    pub first: Option<First>,
    pub others: IndexMap<Asn, Option<Held>>,
    pub ghost after: { first ≡ None → others.entries ≡ [] },
}
