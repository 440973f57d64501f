//! Edits of who announces what.

ghost use Rattle.std.specs.Prelude.{◌≡◌, ◌≤◌, false, length, OnOk, IfOk, if◌then◌else◌};
ghost use Rattle.std.specs.Ordering.{eq_by_cmp};
ghost use Rattle.stability_laws.specs.Plans.{announcement_cmp, announces, announcer_of, with_announcement};
ghost use Rattle.stability_laws.specs.SeedEdits.{silent, without_announcement, edited, IsEditWithin, IsEditOf};

use super::copied::items_of;
use super::{Announcement, SeedPlan};
use net_names::{Asn, MOST_IN_PATH, NoMemory, Path, Prefix};
use std::alloc::Global;

/// An edit of who announces what, in every round.
#[derive(Drop)]
pub enum SeedEdit {
    /// The first AS of the path announces the prefix with this path, in place of any earlier one.
    Announce { prefix: Prefix, path: Path },
    /// The AS does not announce the prefix any more.
    Withdraw { prefix: Prefix, asn: Asn },
}

// Announces the same, unless it is the announcement of the prefix by the AS.
fn announce_unless(
    alloc: Global,
    one: &Announcement,
    prefix: Prefix,
    asn: Asn,
    plan: &mut SeedPlan,
) -> Result<(), NoMemory>
    requires some { 1 ≤ length one.now.path }
    requires short { length one.now.path ≤ MOST_IN_PATH }
    requires new { announces plan.old one.now.prefix (announcer_of one.now.path) ≡ false }
    ensures { OnOk result (plan.new ≡
        (if eq_by_cmp announcement_cmp (one.now.prefix, one.now.asn) (prefix, asn)
        then plan.old else with_announcement plan.old one.now.prefix one.now.path)) }
{
    if one.prefix == prefix && one.asn == asn {
        return Ok(());
    }
    let path = one.path.copied(alloc)?;
    plan.announce(one.prefix, path)
}

impl SeedPlan {
    // The plan without an announcement.
    fn silent(&self, alloc: Global) -> Result<SeedPlan, NoMemory>
        ensures { IfOk result (λ p. p ≡ silent self.now) }
    {
        Ok(SeedPlan {
            prefixes: items_of(alloc, self.prefixes.as_slice())?,
            announced: Vec::new(alloc),
            announcers: Vec::new(alloc),
            leakers: items_of(alloc, self.leakers.as_slice())?,
            leaking: items_of(alloc, self.leaking.as_slice())?,
        })
    }

    // The plan without the announcement of the prefix by the AS, if there is one.
    fn without(&self, alloc: Global, prefix: Prefix, asn: Asn) -> Result<SeedPlan, NoMemory>
        ensures { IfOk result (λ p. p ≡ without_announcement self.now prefix asn) }
    {
        let mut plan = self.silent(alloc)?;
        for one in self.announced.as_slice() {
            announce_unless(alloc, one, prefix, asn, &mut plan)?;
        }
        Ok(plan)
    }

    /// The plan after an edit, as a value of its own: the first AS of the path announces the prefix
    /// with this path, in place of any earlier one, or the AS does not announce it. The prefix is one
    /// of the plan, and stays one when its last announcement goes. `Err` where there is not enough
    /// memory.
    pub fn edited(&self, alloc: Global, edit: &SeedEdit) -> Result<SeedPlan, NoMemory>
        requires known { IsEditOf self.now edit.now }
        requires within { IsEditWithin MOST_IN_PATH edit.now }
        ensures { IfOk result (λ p. p ≡ edited self.now edit.now) }
    {
        match edit {
            SeedEdit::Announce { prefix, path } => {
                let mut plan = self.without(alloc, *prefix, path.as_slice()[0])?;
                let path = path.copied(alloc)?;
                plan.announce(*prefix, path)?;
                Ok(plan)
            }
            SeedEdit::Withdraw { prefix, asn } => self.without(alloc, *prefix, *asn),
        }
    }
}
