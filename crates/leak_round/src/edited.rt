//! Another plan of seeds beside that of the rounds.

ghost use Rattle.std.specs.Prelude.{◌≡◌, ℕ, ◌+◌, ◌≤◌, length, slice_get, IsTrue, Some, IfOk, OnOk, OnErr};
ghost use Rattle.std.specs.Option.{option_map_or};
ghost use Rattle.path_pool.specs.Pool.{IsLive, SamePaths, holds_of, count_of, live_count, limit_of};
ghost use Rattle.stability_laws.specs.Prelude.{announcer_of, has_prefix, with_announcement, edit_asn, edited, without_announcement};
ghost use Rattle.route_choice.specs.Prelude.{GivesBack};
ghost use Rattle.route_choice.specs.declared.counts.TheConstants.{MOST_COUNTED};
ghost use Rattle.dirty_recompute.specs.Resources.{IsUndone};
ghost use Rattle.leak_round.specs.declared.announced.Announced.{Announced as AnAnnouncement};
ghost use Rattle.leak_round.specs.declared.limits.TheConstants.{MOST_ANNOUNCEMENTS, MOST_NUMBERS};
ghost use Rattle.leak_round.specs.Limits.{IsWithinLimits};
ghost use Rattle.leak_round.specs.Announced.{is_of, announced_uses};
ghost use Rattle.leak_round.specs.OwnSeeds.{AreOwn, AreOwnEdited, AreOwnSeeds, AreOthersKept};
ghost use Rattle.leak_round.specs.Edited.{announced_after, edited_uses, given_up, others_of, prefix_edited, seeds_after, edit_numbers, AreHeldToo, AreMade, CanEdit, EndsWithPath, HasRoomToEdit};

use crate::announced::{Announced, announced_seeds, hold_all, release_all};
use crate::own_seeds::put_own_seeds;
use crate::reserving::reserve_numbers;
use net_names::{Asn, NoMemory, Path, Prefix};
use path_pool::PathPool;
use route_choice::SeedIds;
use stability_laws::{SeedEdit, SeedPlan};
use std::alloc::Global;

/// Another plan of seeds, with its announced paths in a pool. It owns one hold of each.
#[derive(Drop)]
pub struct EditedSeeds {
    pub plan: SeedPlan,
    pub announced: Vec<Announced>,
    /// The seeds that the announcements of the edited prefix make.
    pub own: SeedIds,
    /// The prefix of which an announcement is edited.
    pub prefix: Prefix,
    /// The AS whose announcement is edited.
    pub asn: Asn,
    /// How many numbers the newly announced path has; 0 where an announcement goes.
    pub numbers: usize,
}

// The plan of seeds after another one has taken its place, where there is one.
pub fn plan_after<'a>(edited: &'a Option<EditedSeeds>, plan: &'a SeedPlan) -> &'a SeedPlan
    ensures { result.now ≡ seeds_after edited.now plan.now }
{
    match edited {
        Some(seeds) => &seeds.plan,
        None => plan,
    }
}

// The announcements after another plan of seeds has taken the place of one, where there is one.
pub fn announcements_after<'a>(
    edited: &'a Option<EditedSeeds>,
    announced: &'a [Announced],
) -> &'a [Announced]
    ensures { result.now ≡ announced_after edited.now announced.now }
{
    match edited {
        Some(seeds) => seeds.announced.as_slice(),
        None => announced,
    }
}

// Takes the other plan of seeds, where there is one, in place of this one, and gives back the holds of the
// paths that this one announces. Of the kept seeds only those of the edited prefix become others.
pub fn take_seeds(
    edited: Option<EditedSeeds>,
    plan: &mut SeedPlan,
    announced: &mut Vec<Announced>,
    own: &mut Vec<SeedIds>,
    pool: &mut PathPool,
)
    requires held { (k : ℕ) → announced_uses announced.old.items k ≤ holds_of pool.old k }
    requires own { AreOwnSeeds plan.old announced.old.items own.old.items }
    requires prefixes { (seeds_after edited plan.old).prefixes ≡ plan.old.prefixes }
    requires others { AreOthersKept (prefix_edited edited) announced.old.items
        (announced_after edited announced.old.items) }
    requires fresh { AreOwnEdited edited }
    ensures plan { plan.new ≡ option_map_or (λ e. e.plan) edited plan.old }
    ensures announced { announced.new.items ≡ option_map_or (λ e. e.announced.items) edited announced.old.items }
    ensures own { AreOwnSeeds plan.new announced.new.items own.new.items }
    ensures holds { (k : ℕ) → holds_of pool.new k + given_up edited announced.old.items k ≡ holds_of pool.old k }
    ensures back { GivesBack pool.old pool.new }
{
    match edited {
        Some(seeds) => {
            release_all(announced.as_slice(), pool);
            put_own_seeds(plan, seeds.prefix, seeds.own, own);
            *plan = seeds.plan;
            *announced = seeds.announced;
        }
        None => {}
    }
}

// Gives back the holds of the paths that the other plan of seeds announces, where there is one.
pub fn drop_seeds(edited: Option<EditedSeeds>, pool: &mut PathPool)
    requires { (k : ℕ) → edited_uses edited k ≤ holds_of pool.old k }
    ensures holds { (k : ℕ) → holds_of pool.new k + edited_uses edited k ≡ holds_of pool.old k }
    ensures back { GivesBack pool.old pool.new }
{
    match edited {
        Some(seeds) => release_all(seeds.announced.as_slice(), pool),
        None => {}
    }
}

// Whether the announcement is that of the prefix by the AS.
fn is_of(one: &Announced, prefix: Prefix, asn: Asn) -> bool
    ensures { result ≡ is_of prefix asn one.now }
{
    one.prefix == prefix && one.asn == asn
}

// The announcements but that of the prefix by the AS.
fn others_of(
    alloc: Global,
    announced: &[Announced],
    prefix: Prefix,
    asn: Asn,
) -> Result<Vec<Announced>, NoMemory>
    ensures { IfOk result (λ v. v.items ≡ others_of prefix asn announced.now) }
{
    let mut others = Vec::new(alloc);
    for one in announced {
        if !is_of(one, prefix, asn) {
            others.push(*one)?;
        }
    }
    Ok(others)
}

// Puts a path into the pool, and its announcement behind the others, of each of which it takes one hold
// more.
fn add_path(
    prefix: Prefix,
    path: &Path,
    announced: &mut Vec<Announced>,
    pool: &mut PathPool,
) -> Result<(), NoMemory>
    requires some { 1 ≤ length path.now }
    requires live { (place : ℕ) (x : AnAnnouncement) → slice_get announced.old.items place ≡ Some x →
        IsLive pool.old x.path.0 }
    requires few { length announced.old.items ≤ MOST_ANNOUNCEMENTS }
    requires room { live_count pool.old + length path.now ≤ limit_of pool.old }
    requires counts { (k : ℕ) → count_of pool.old k ≤ MOST_COUNTED }
    ensures last { OnOk result (EndsWithPath pool.new prefix path.now announced.old.items announced.new.items) }
    ensures held { OnOk result (AreHeldToo pool.old pool.new announced.new.items (length path.now)) }
    ensures err { OnErr result (SamePaths pool.old pool.new) }
    ensures limit { limit_of pool.new ≡ limit_of pool.old }
{
    let numbers = path.as_slice();
    announced.reserve(1)?;
    reserve_numbers(pool, numbers.len())?;
    let path = pool.copy_in(numbers);
    hold_all(announced.as_slice(), pool);
    let _ = announced.push(Announced {
        prefix,
        asn: numbers[0],
        path,
    });
    Ok(())
}

// The seeds that the announcements of a prefix make. `Err` where there is not enough memory; then one hold
// of each announced path is given back.
fn seeds_or_release(
    alloc: Global,
    announced: &[Announced],
    prefix: Prefix,
    pool: &mut PathPool,
) -> Result<SeedIds, NoMemory>
    requires { (k : ℕ) → announced_uses announced.now k ≤ holds_of pool.old k }
    ensures own { IfOk result (AreOwn announced.now prefix) }
    ensures ok { OnOk result (pool.new ≡ pool.old) }
    ensures holds { OnErr result ((k : ℕ) → holds_of pool.new k + announced_uses announced.now k ≡
        holds_of pool.old k) }
    ensures back { OnErr result (GivesBack pool.old pool.new) }
    ensures limit { limit_of pool.new ≡ limit_of pool.old }
{
    match announced_seeds(alloc, announced, prefix) {
        Ok(seeds) => Ok(seeds),
        Err(_) => {
            release_all(announced, pool);
            Err(NoMemory)
        }
    }
}

// The seeds after a path is announced, in place of an earlier one of the prefix by its AS.
fn announce_anew(
    alloc: Global,
    plan: &SeedPlan,
    after: SeedPlan,
    announced: &[Announced],
    prefix: Prefix,
    path: &Path,
    pool: &mut PathPool,
) -> Result<EditedSeeds, NoMemory>
    requires known { IsTrue (has_prefix plan.now prefix) }
    requires some { 1 ≤ length path.now }
    requires short { length path.now ≤ MOST_NUMBERS }
    requires after { after ≡ with_announcement plan.now prefix path.now }
    requires limits { IsWithinLimits after }
    requires room { HasRoomToEdit pool.old plan.now announced.now }
    ensures made { IfOk result (AreMade pool.old pool.new plan.now after announced.now (announcer_of path.now)
        (length path.now)) }
    ensures err { OnErr result (IsUndone pool.old pool.new) }
    ensures limit { limit_of pool.new ≡ limit_of pool.old }
{
    let numbers = path.as_slice();
    let asn = numbers[0];
    let mut others = others_of(alloc, announced, prefix, asn)?;
    add_path(prefix, path, &mut others, pool)?;
    let own = seeds_or_release(alloc, others.as_slice(), prefix, pool)?;
    Ok(EditedSeeds {
        plan: after,
        announced: others,
        own,
        prefix,
        asn,
        numbers: numbers.len(),
    })
}

// The seeds after the AS does not announce the prefix any more.
fn withdraw(
    alloc: Global,
    plan: &SeedPlan,
    after: SeedPlan,
    announced: &[Announced],
    prefix: Prefix,
    asn: Asn,
    pool: &mut PathPool,
) -> Result<EditedSeeds, NoMemory>
    requires known { IsTrue (has_prefix plan.now prefix) }
    requires after { after ≡ without_announcement plan.now prefix asn }
    requires limits { IsWithinLimits after }
    requires room { HasRoomToEdit pool.old plan.now announced.now }
    ensures made { IfOk result (AreMade pool.old pool.new plan.now after announced.now asn 0) }
    ensures err { OnErr result (IsUndone pool.old pool.new) }
    ensures limit { limit_of pool.new ≡ limit_of pool.old }
{
    let others = others_of(alloc, announced, prefix, asn)?;
    let own = announced_seeds(alloc, others.as_slice(), prefix)?;
    hold_all(others.as_slice(), pool);
    Ok(EditedSeeds {
        plan: after,
        announced: others,
        own,
        prefix,
        asn,
        numbers: 0,
    })
}

// The seeds after an edit of who announces what. The announcements that stay keep their places in the
// pool, and each gets one hold more; a new path is put in. `Err` where there is not enough memory; then
// the holds are as before.
pub fn edit_seeds(
    alloc: Global,
    plan: &SeedPlan,
    announced: &[Announced],
    edit: &SeedEdit,
    pool: &mut PathPool,
) -> Result<EditedSeeds, NoMemory>
    requires can { CanEdit plan.now edit.now }
    requires room { HasRoomToEdit pool.old plan.now announced.now }
    ensures made { IfOk result (AreMade pool.old pool.new plan.now (edited plan.now edit.now) announced.now
        (edit_asn edit.now) (edit_numbers edit.now)) }
    ensures limit { limit_of pool.new ≡ limit_of pool.old }
    ensures err { OnErr result (IsUndone pool.old pool.new) }
{
    let after = plan.edited(alloc, edit)?;
    match edit {
        SeedEdit::Announce { prefix, path } => {
            announce_anew(alloc, plan, after, announced, *prefix, path, pool)
        }
        SeedEdit::Withdraw { prefix, asn } => {
            withdraw(alloc, plan, after, announced, *prefix, *asn, pool)
        }
    }
}
