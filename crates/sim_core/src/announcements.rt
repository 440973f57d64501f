//! Edits of announcements.
ghost use Rattle.std.specs.Prelude.{◌≡◌, ◌≤◌, ℕ, true, false, IfOk, length, nat_lt};
ghost use Rattle.std.specs.FinMap as fin;
ghost use Rattle.std.specs.FinSet as set;
ghost use Rattle.std.specs.Ordering.{nat_cmp};
ghost use Rattle.net_names.specs.Prelude.{PrefixValue};
ghost use Rattle.leak_round.specs.Prelude.{plan_of, touches};
ghost use Rattle.scenario_text.specs.declared.limits.TheConstants.{MOST_NUMBERS};
ghost use Rattle.scenario_text.specs.declared.acts.Edit.TheVariants.{Announce, Withdraw};
ghost use Rattle.stability_laws.specs.Prelude.{with_announcement, IsEditWithin, edit_asn, edit_prefix, edited};
ghost use Rattle.sim_core.specs.Editing.{IsEditable, IsEditedQuickly, IsSeedEdit, edit_of};
ghost use Rattle.sim_core.specs.Views.{world_seen};
ghost use Rattle.sim_core.specs.World.{named};

use crate::changing::change;
use crate::difference::Difference;
use crate::marking::{room_for, set_mark, set_mark_back};
use crate::naming::is_other;
use crate::parts::Parts;
use crate::{Changed, EditError, EditLimit};
use as_graph::{ases_are_kept, links_are_sound};
use leak_round::Touched;
use net_names::{Asn, NoMemory, Path, Prefix};
use origin_validation::States;
use policy_kinds::Kind;
use route_choice::Steps;
use scenario_text::MOST_ANNOUNCEMENTS;
use stability_laws::{SeedEdit, World, right_follows};
use std::alloc::Global;
use std::sync::ledger::Ledger;

// The AS whose announcement is edited.
fn asn_of(edit: &SeedEdit) -> Asn
    requires { IsEditWithin MOST_NUMBERS edit.now }
    ensures { result ≡ edit_asn edit.now }
{
    match edit {
        SeedEdit::Announce { prefix: _, path } => path.as_slice()[0],
        SeedEdit::Withdraw { prefix: _, asn } => *asn,
    }
}

// The prefix whose announcement is edited.
fn prefix_of(edit: &SeedEdit) -> Prefix
    ensures { result ≡ edit_prefix edit.now }
{
    match edit {
        SeedEdit::Announce { prefix, path: _ } => *prefix,
        SeedEdit::Withdraw { prefix, asn: _ } => *prefix,
    }
}

// The AS for the prefix whose announcement is edited, where nothing names the AS any more, and else none.
fn touched_unless(
    alloc: Global,
    edit: &SeedEdit,
    asn: Asn,
    is_named: bool,
) -> Result<Touched, NoMemory>
    ensures this { is_named ≡ false → IfOk result (λ t. touches t (edit_prefix edit.now) asn ≡ true) }
    ensures only { IfOk result (λ t. (p : PrefixValue) (a : ℕ) → touches t p a ≡ true →
        (is_named ≡ false) × (p ≡ edit_prefix edit.now) × (a ≡ asn)) }
{
    let mut touched = Touched::new(alloc);
    if !is_named {
        touched.add(prefix_of(edit), asn)?;
    }
    Ok(touched)
}

impl Parts {
    // Whether an announcement, a leak or a policy names the AS.
    fn is_named(&self, asn: Asn) -> bool
        ensures { result ≡ set.contains
            (set.from_list {R = nat_cmp} (named (plan_of self.now.rounds) self.now.book.named)) asn }
    {
        let by_plan = self.rounds.seed_plan().names(asn);
        by_plan | is_other(self.kind_of(asn))
    }

    // Whether an announcement, a leak or a policy names the AS whose announcement is edited, after the edit.
    fn is_named_after(&self, edit: &SeedEdit, asn: Asn) -> bool
        requires { asn ≡ edit_asn edit.now }
        ensures { result ≡ set.contains
            (set.from_list {R = nat_cmp} (named (edited (plan_of self.now.rounds) edit.now) self.now.book.named)) asn }
    {
        match edit {
            SeedEdit::Announce { prefix: _, path: _ } => true,
            SeedEdit::Withdraw { prefix, asn: _ } => {
                let by_plan = self.rounds.seed_plan().names_without(*prefix, asn);
                by_plan | is_other(self.kind_of(asn))
            }
        }
    }

    // Edits an announcement.
    fn edit_announcement<L: Ledger>(
        &mut self,
        alloc: Global,
        edit: &SeedEdit,
        steps: &mut Steps<L>,
    ) -> Result<Changed, EditError>
        requires accepted { IsSeedEdit (world_seen self.old) edit.now }
        requires editable { IsEditable self.old }
        ensures { IsEditedQuickly self.old self.new (edit_of edit.now) result steps.old steps.new }
    {
        ases_are_kept();
        links_are_sound();
        right_follows::<Kind>();
        self.is_small();
        let asn = asn_of(edit);
        let was = self.is_named(asn);
        let is = self.is_named_after(edit, asn);
        let touched = touched_unless(alloc, edit, asn, is)?;
        room_for(&mut self.graph, asn, asn)?;
        set_mark(&mut self.graph, asn, is)?;
        // `as_count` is called for its clause that no graph has more than 150,000 ASes.
        let _count = self.graph.as_count();
        let states = States::of(&self.vrps);
        let world = World {
            graph: &self.graph,
            book: &self.book,
            states: &states,
        };
        let difference = Difference {
            ends: &[asn],
            touched: &touched,
            kept: true,
            edit: Some(edit),
        };
        let (ranks, rounds, watches) = (&mut self.ranks, &mut self.rounds, &mut self.watches);
        match change(alloc, &world, &difference, ranks, rounds, watches, steps) {
            Ok(changed) => Ok(changed),
            Err(_) => {
                set_mark_back(&mut self.graph, asn, was);
                Err(EditError::Memory)
            }
        }
    }

    // Whether there are too many announcements with this one.
    fn is_one_too_many(&self, prefix: Prefix, path: &Path) -> bool
        requires { 1 ≤ length path.now }
        ensures { result ≡ nat_lt MOST_ANNOUNCEMENTS
            (fin.len (with_announcement (plan_of self.now.rounds) prefix path.now).announced) }
    {
        let plan = self.rounds.seed_plan();
        let known = plan.announces(prefix, path.as_slice()[0]);
        !known && plan.announcement_count() >= MOST_ANNOUNCEMENTS
    }

    // Announces a prefix with a path.
    pub(crate) fn announce<L: Ledger>(
        &mut self,
        alloc: Global,
        prefix: Prefix,
        path: &Path,
        steps: &mut Steps<L>,
    ) -> Result<Changed, EditError>
        requires some { 1 ≤ length path.now }
        requires short { length path.now ≤ MOST_NUMBERS }
        requires editable { IsEditable self.old }
        ensures { IsEditedQuickly self.old self.new (Announce prefix path.now) result steps.old steps.new }
    {
        self.is_small();
        if !self.rounds.seed_plan().has_prefix(prefix) {
            return Err(EditError::UnknownPrefix { prefix });
        }
        if self.is_one_too_many(prefix, path) {
            return Err(EditError::Limit {
                which: EditLimit::Announcements,
            });
        }
        let path = path.copied(alloc)?;
        self.edit_announcement(alloc, &SeedEdit::Announce { prefix, path }, steps)
    }

    // Takes an AS's announcement of a prefix away.
    pub(crate) fn withdraw<L: Ledger>(
        &mut self,
        alloc: Global,
        prefix: Prefix,
        asn: Asn,
        steps: &mut Steps<L>,
    ) -> Result<Changed, EditError>
        requires { IsEditable self.old }
        ensures { IsEditedQuickly self.old self.new (Withdraw prefix asn) result steps.old steps.new }
    {
        let plan = self.rounds.seed_plan();
        if !plan.has_prefix(prefix) {
            return Err(EditError::UnknownPrefix { prefix });
        }
        if !plan.announces(prefix, asn) {
            return Err(EditError::AbsentAnnouncement { prefix, asn });
        }
        self.edit_announcement(alloc, &SeedEdit::Withdraw { prefix, asn }, steps)
    }
}
