//! Ranks that stay where the link of two ASes is edited.
ghost use Rattle.std.specs.Prelude.{◌≡◌, ◌↔◌, suc, IsTrue};
ghost use Rattle.rank_order.specs.Ranks.{rank_at};
ghost use Rattle.rank_order.specs.Staying.{RanksStay, StayWith};

use crate::ranks::Ranks;
use net_names::{Asn, Rel};

/// All ranks stay where only the link of two ASes is edited, and the ranks of both bear it.
pub fn ranks_stay()
    ensures { RanksStay }
{}

// Whether a rank is just one more than another.
fn is_next(x: u32, y: u32) -> bool
    ensures { IsTrue result ↔ (x ≡ suc y) }
{
    u64::from(x) == u64::from(y) + 1
}

// Whether the ranks of two ASes bear that the second, so far `old` to the first, becomes `new`.
fn bear(x: u32, y: u32, old: Option<Rel>, new: Option<Rel>) -> bool
    ensures { IsTrue result ↔ StayWith x y old new }
{
    let fit = match new {
        Some(Rel::Customer) => y < x,
        Some(Rel::Provider) => x < y,
        Some(Rel::Peer) | None => true,
    };
    let far = match old {
        Some(Rel::Customer) => !is_next(x, y),
        Some(Rel::Provider) => !is_next(y, x),
        Some(Rel::Peer) | None => true,
    };
    fit && far
}

impl Ranks {
    /// Whether the ranks of two ASes bear that the second, so far `old` to the first, becomes `new`: the
    /// provider's is above the customer's, and so far it was not just one more. Then all ranks stay (`ranks_stay`).
    pub fn bear(&self, a: Asn, b: Asn, old: Option<Rel>, new: Option<Rel>) -> bool
        ensures { IsTrue result ↔ StayWith (rank_at self.now a) (rank_at self.now b) old new }
    {
        bear(self.rank(a), self.rank(b), old, new)
    }
}
