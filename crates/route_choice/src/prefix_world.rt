//! What the steps of the ASes rest on, lent.

use crate::{SeedIds, Table};
use as_graph::Graph;
use stability_laws::Book;

/// The world at one prefix, lent to the steps of its ASes: the links, the policies and the states, and of the
/// prefix the seeds and the table.
#[derive(Drop)]
pub struct PrefixWorld<'a, P, V> {
    /// The ASes and their links.
    pub graph: &'a Graph,
    /// The policy of each AS.
    pub book: &'a Book<P>,
    /// The validation states (RFC 6811, section 2).
    pub states: &'a V,
    /// What ASes announce by themselves.
    pub seeds: &'a SeedIds,
    /// What each AS holds where no change is in place. It has the prefix.
    pub table: &'a Table,
}
