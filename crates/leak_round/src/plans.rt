//! Plans of changes of rounds, and what is told of them.

ghost use Rattle.std.specs.Prelude.{◌≡◌, []};

use crate::changes::Change;
use crate::edited::EditedSeeds;
use net_names::Asn;

/// Changes of the tables of rounds after an edit, which can be put in place or given up without memory.
/// They are a plan for the rounds that they were made of, until one of the two is done.
#[derive(Drop)]
pub struct RoundsPlan {
    pub(crate) changes: Vec<Change>,
    pub(crate) edited: Option<EditedSeeds>,
    pub(crate) done: RoundsDone,
    /// How many cells were live before the plan.
    pub(crate) before: usize,
}

/// What changes of the tables of rounds came to: how many entries changed, and which ASes have a changed
/// entry.
#[derive(Drop)]
pub struct RoundsDone {
    pub(crate) count: u64,
    pub(crate) changed: Vec<Vec<Asn>>,
    // the ASes of a round that is not there
    pub(crate) none: Vec<Asn>,
    ghost empty: { none.items ≡ [] },
}

impl RoundsDone {
    ghost use Rattle.leak_round.specs.Plans.{count_told, ases_told};

    /// How many entries changed: triples of round, prefix and AS with different entries before and
    /// after, where an entry and no entry differ.
    pub fn count(&self) -> u64
        ensures { result ≡ count_told self.now }
    {
        self.count
    }

    /// The ASes with a changed entry of that round, and the AS whose announcement was edited, in rising
    /// order and each once. Of a round that is not there it is none.
    pub fn changed_in(&self, round: u32) -> &[Asn]
        ensures { result.now ≡ ases_told self.now round }
    {
        if round == 0 {
            return self.none.as_slice();
        }
        match self.changed.get(round as usize - 1) {
            Some(ases) => ases.as_slice(),
            None => self.none.as_slice(),
        }
    }
}
