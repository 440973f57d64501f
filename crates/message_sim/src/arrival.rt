//! A message that is about to be received.
use crate::ground::Ground;
use crate::line::Line;
use crate::route::Route;
use indexmap::IndexMap;
use net_names::Asn;

/// A message that an AS is about to receive from another one, with the world of their net and what its links
/// have received before.
#[derive(Drop)]
pub struct Arrival<'a, P, V> {
    /// The world of the net.
    pub(crate) ground: &'a Ground<'a, P, V>,
    /// What each link received last.
    pub(crate) lines: &'a IndexMap<(Asn, Asn), Line>,
    /// The AS that sent the message.
    pub(crate) from: Asn,
    /// The AS that is about to receive it.
    pub(crate) to: Asn,
    /// The message.
    pub(crate) message: Option<&'a Route>,
}
