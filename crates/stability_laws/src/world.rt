//! What the routings of all prefixes rest on, lent.
use crate::book::Book;
use as_graph::Graph;

/// The ASes with their links, the policy of each AS, and the states of prefixes with their origins, lent to
/// what is asked of a routing.
#[derive(Drop)]
pub struct World<'a, P, V> {
    /// The ASes and their links.
    pub graph: &'a Graph,
    /// The policy of each AS.
    pub book: &'a Book<P>,
    /// The validation states (RFC 6811, section 2).
    pub states: &'a V,
}
