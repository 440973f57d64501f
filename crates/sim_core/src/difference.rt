//! In what a world differs after an edit.
use leak_round::Touched;
use net_names::Asn;
use stability_laws::SeedEdit;

/// In what a world differs after an edit, as far as its routings rest on it, lent.
#[derive(Drop)]
pub struct Difference<'a> {
    /// The ASes whose presence, links, policy or announcement is edited.
    pub ends: &'a [Asn],
    /// The ASes whose entries may be wrong, prefix by prefix.
    pub touched: &'a Touched,
    /// Whether all ranks stay. If not, they are looked for.
    pub kept: bool,
    /// The edit of announcements, if there is one.
    pub edit: Option<&'a SeedEdit>,
}
