//! The tables whose seeds an edit leaves as they are.

ghost use Rattle.std.specs.Prelude.{◌≡◌, ◌⊎◌, ◌-◌, ◌≤◌, IsTrue};
ghost use Rattle.leak_round.specs.Findings.{AreSeedsKept, IsNoneIn};

use crate::changes::Change;
use crate::finding::Finding;
use crate::round_prefix::RoundPrefix;
use net_names::Prefix;

// Whether the change at a place is of the table of a prefix in a round, and is none.
fn is_none_at(changes: &[Change], place: usize, round: u32, prefix: Prefix) -> bool
    ensures { IsTrue result → IsNoneIn changes.now round prefix }
{
    let Some(change) = changes.get(place) else {
        return false;
    };
    if change.round == round && change.prefix == prefix {
        return change.overlay.len() == 0;
    }
    false
}

// Whether the table of a prefix in the round before, if there is one, has no change. Its change was added so many
// changes before as there are prefixes.
fn is_none_before(changes: &[Change], prefixes: usize, at: &RoundPrefix) -> bool
    requires { 1 ≤ at.now.round }
    ensures { IsTrue result → (at.now.round ≡ 1) ⊎ IsNoneIn changes.now (at.now.round - 1) at.now.prefix }
{
    if at.round == 1 {
        return true;
    }
    if changes.len() < prefixes {
        return false;
    }
    is_none_at(changes, changes.len() - prefixes, at.round - 1, at.prefix)
}

// Whether no announcement is edited, and the table of the prefix in the round before, if there is one, has no change.
// Then the seeds of the table stay as they are.
pub fn keeps_seeds<P, V>(finding: &Finding<'_, P, V>, at: &RoundPrefix, changes: &[Change]) -> bool
    requires { 1 ≤ at.now.round }
    ensures { IsTrue result → AreSeedsKept finding.now at.now changes.now }
{
    if finding.edited.is_some() {
        return false;
    }
    is_none_before(changes, finding.plan.prefixes().len(), at)
}
