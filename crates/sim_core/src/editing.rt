//! Edits of a simulation.
ghost use Rattle.std.specs.Prelude.{◌≤◌, OnOk};
ghost use Rattle.leak_round.specs.Prelude.{pool_of};
ghost use Rattle.path_pool.specs.Pool.{live_count};
ghost use Rattle.scenario_text.specs.Prelude.{IsWellFormed};
ghost use Rattle.sim_core.specs.Editing.{IsEditable, IsEditedQuickly, IsUnchanged};
ghost use Rattle.sim_core.specs.Views.{AreRight, world_seen};
ghost use Rattle.sim_core.specs.World.{HasCycle};

use crate::EditError;
use crate::parts::Parts;
use leak_round::MOST_CELLS;
use net_names::NoMemory;
use route_choice::Steps;
use scenario_text::Edit;
use std::alloc::Global;
use std::sync::ledger::Ledger;

/// What an edit changes.
#[derive(Clone, Copy, Debug, PartialEq, Eq)]
pub struct Changed {
    /// How many entries differ: for each round, prefix and AS one, where it holds another entry than before.
    pub routes: u64,
}

impl Parts {
    // Makes the pool of the paths anew where too many of its cells are live.
    pub(crate) fn tidied(&mut self, alloc: Global) -> Result<(), NoMemory>
        requires right { AreRight self.old }
        requires no_cycle { HasCycle (world_seen self.old) → ⊥ }
        ensures unchanged { IsUnchanged self.old self.new }
        ensures few_cells { OnOk result (live_count (pool_of self.new.rounds) ≤ MOST_CELLS) }
    {
        if self.rounds.pool().live() <= MOST_CELLS {
            return Ok(());
        }
        // `as_count` is called for its clause that no graph has more than 150,000 ASes.
        let _count = self.graph.as_count();
        self.rounds.tidy(alloc, self.graph.rows())
    }

    // Edits the world, where few cells are live.
    pub(crate) fn edit_tidied<L: Ledger>(
        &mut self,
        alloc: Global,
        edit: &Edit,
        steps: &mut Steps<L>,
    ) -> Result<Changed, EditError>
        requires formed { IsWellFormed edit.now }
        requires editable { IsEditable self.old }
        ensures { IsEditedQuickly self.old self.new edit.now result steps.old steps.new }
    {
        match edit {
            Edit::Link { a, b, rel } => self.edit_link(alloc, *a, *b, *rel, steps),
            Edit::Unlink { a, b } => self.edit_unlink(alloc, *a, *b, steps),
            Edit::Policy { asn, kind } => self.edit_policy(alloc, *asn, *kind, steps),
            Edit::VrpAdd { vrp } => self.add_vrp(alloc, *vrp, steps),
            Edit::VrpTake { vrp } => self.take_vrp(alloc, *vrp, steps),
            Edit::Announce { prefix, path } => self.announce(alloc, *prefix, path, steps),
            Edit::Withdraw { prefix, asn } => self.withdraw(alloc, *prefix, *asn, steps),
        }
    }
}
