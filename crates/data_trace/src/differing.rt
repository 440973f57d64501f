//! The ASes of which a watch may have kept what no longer holds.
use net_names::Asn;

/// The ASes of which a watch may have kept what no longer holds, lent. Each list may name an AS more than
/// once, ASes where nothing changed, and ASes that are nowhere.
#[derive(Drop)]
pub struct Differing<'a> {
    /// Those whose entry or announcement changed.
    pub hops: &'a [Asn],
    /// Those whose policy, customers or presence changed.
    pub groups: &'a [Asn],
}
