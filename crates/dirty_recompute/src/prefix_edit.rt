//! An edit, as it is at one prefix.

use net_names::Asn;
use route_choice::SeedIds;

/// What an edit comes to at one prefix.
#[derive(Drop)]
pub struct PrefixEdit<'a> {
    /// The seeds after the edit.
    pub seeds: &'a SeedIds,
    /// The ASes that may hold something else than what is right after it.
    pub touched: &'a [Asn],
}
