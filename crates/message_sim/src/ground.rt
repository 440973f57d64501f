//! The world of a net.
use as_graph::Graph;
use net_names::Prefix;
use stability_laws::{Book, Seeds};

/// The world of a net at one prefix, which no delivery changes.
#[derive(Drop)]
pub struct Ground<'a, P, V> {
    /// The ASes and their links.
    pub(crate) graph: &'a Graph,
    /// The policy of each AS.
    pub(crate) book: &'a Book<P>,
    /// The validation states (RFC 6811, section 2).
    pub(crate) states: &'a V,
    /// The prefix that the net is about.
    pub(crate) prefix: Prefix,
    /// What each AS puts in by itself.
    pub(crate) seeds: &'a Seeds,
}
