//! The entry that a choice names, put in place.

ghost use Rattle.std.specs.Prelude.{◌≡◌, ◌↔◌, ℕ, ◌<◌, ◌≤◌, IsTrue, IsSomeAnd, Some, None, false, option_map, unwrap_or, ◌∷◌};
ghost use Rattle.route_choice.specs.declared.held.Held.{Held as AHeld};
ghost use Rattle.route_choice.specs.declared.settling.Wanted.TheVariants.{Longer as ALonger};
ghost use Rattle.path_pool.specs.declared.pool.PathPool.{PathPool as APool};
ghost use Rattle.path_pool.specs.declared.pool.TheConstants.{MOST_COUNT};
ghost use Rattle.path_pool.specs.Pool.{IsLive, list_of, holds_of, count_of, live_count, spare_of};
ghost use Rattle.route_choice.specs.declared.overlay.Overlay.{Overlay as AnOverlay};
ghost use Rattle.route_choice.specs.Choices.{IsChosenGiven};
ghost use Rattle.route_choice.specs.Tables.{change_at, joined, overlay_uses, HasPlace};
ghost use Rattle.route_choice.specs.Routings.{entry_of};
ghost use Rattle.route_choice.specs.PrefixWorlds.{named_at};
ghost use Rattle.route_choice.specs.Settled.{IsSettled};
ghost use Rattle.route_choice.specs.Named.{wanted_entry, IsWantedLive, IsLonger, Takes};
ghost use Rattle.route_choice.specs.Resources.{AreLive, AreSeedsLive, CanChange, IsNameable, IsVia, Spends};

use crate::choice::Chosen;
use crate::looks::held_near;
use crate::slots::let_go;
use crate::{Choice, ChoiceNear, Held, Overlay, PlacedAs, PrefixWorld, Table};
use net_names::{Asn, Class};
use path_pool::{PathId, PathPool, paths_are_not_empty};
use policy_laws::RoutePolicy;
use stability_laws::{carried, class_from};

// The entry that a choice names, before its path is made.
#[derive(Clone, Copy)]
enum Wanted {
    // None.
    Nothing,
    // This one, with a path that is there.
    Ready(Held),
    // This one, with the AS before its path.
    Longer(Held),
}

// The entry that the choice of an AS names. The place where the AS may stand is a hint.
#[inline(always)]
fn wanted_by<P: RoutePolicy, V>(
    at: &PrefixWorld<'_, P, V>,
    asn: Asn,
    place: usize,
    chosen: Chosen,
) -> Wanted
    ensures entry { (p : APool) (o : AnOverlay) →
        IsChosenGiven (joined at.now.table.now o) chosen.near.choice chosen.given →
        wanted_entry p asn result ≡ named_at P.meaning at.now p o asn chosen.near.choice }
    ensures live { (p : APool) (o : AnOverlay) →
        IsChosenGiven (joined at.now.table.now o) chosen.near.choice chosen.given → AreLive p at.now.table.now o →
        AreSeedsLive p at.now.seeds.now → IsWantedLive p result }
    ensures via { IsLonger result → IsVia chosen.near.choice }
{
    let ChoiceNear {
        choice,
        place: from,
    } = chosen.near;
    match choice {
        Choice::Nothing => Wanted::Nothing,
        Choice::Seed => match at.seeds.get(asn) {
            Some(seed) => Wanted::Ready(Held {
                class: Class::Origin,
                path: seed.path,
                otc: seed.otc,
            }),
            None => Wanted::Nothing,
        },
        Choice::Via { neighbour, rel } => match chosen.given {
            Some(given) => {
                let sender = at.book.policy_near(neighbour, from);
                let receiver = at.book.policy_near(asn, place);
                Wanted::Longer(Held {
                    class: class_from(rel),
                    path: given.path,
                    otc: carried(sender, receiver, neighbour, rel.converse(), given.otc),
                })
            }
            None => Wanted::Nothing,
        },
    }
}

// Whether two paths have the same ASes.
#[inline(never)]
fn same_path(pool: &PathPool, a: PathId, b: PathId) -> bool
    requires first { IsLive pool.now a.0 }
    requires second { IsLive pool.now b.0 }
    ensures { IsTrue result ↔ (list_of pool.now a.0 ≡ list_of pool.now b.0) }
{
    paths_are_not_empty(pool);
    let mut x = a;
    let mut y = b;
    'cells: while x != y {
        if pool.head(x) != pool.head(y) {
            return false;
        }
        let Some(rest) = pool.tail(x) else {
            return pool.tail(y).is_none();
        };
        let Some(other) = pool.tail(y) else {
            return false;
        };
        x = rest;
        y = other;
    }
    true
}

// Whether a path is the AS and then the other path.
#[inline(never)]
fn is_longer(pool: &PathPool, path: PathId, asn: Asn, rest: PathId) -> bool
    requires first { IsLive pool.now path.0 }
    requires second { IsLive pool.now rest.0 }
    ensures { IsTrue result ↔ (list_of pool.now path.0 ≡ asn ∷ list_of pool.now rest.0) }
{
    paths_are_not_empty(pool);
    if pool.head(path) != asn {
        return false;
    }
    match pool.tail(path) {
        Some(tail) => same_path(pool, tail, rest),
        None => false,
    }
}

// Whether the class and the number are the same.
fn same_kind(a: &Held, b: &Held) -> bool
    ensures { IsTrue result ↔ ((a.now.class ≡ b.now.class) × (a.now.otc ≡ b.now.otc)) }
{
    a.class == b.class && a.otc == b.otc
}

// Whether the wanted entry is held.
#[inline(always)]
fn is_held(pool: &PathPool, asn: Asn, have: &Option<Held>, wanted: &Wanted) -> bool
    requires have { (h : AHeld) → have.now ≡ Some h → IsLive pool.now h.path.0 }
    requires wanted { IsWantedLive pool.now wanted.now }
    ensures { IsTrue result ↔ (option_map (entry_of pool.now) have.now ≡ wanted_entry pool.now asn wanted.now) }
{
    match (have, wanted) {
        (None, Wanted::Nothing) => true,
        (Some(a), Wanted::Ready(b)) => same_kind(a, b) && same_path(pool, a.path, b.path),
        (Some(a), Wanted::Longer(b)) => same_kind(a, b) && is_longer(pool, a.path, asn, b.path),
        (None, _) | (Some(_), Wanted::Nothing) => false,
    }
}

// Makes the wanted entry, with a hold of its path.
#[inline(always)]
fn made(pool: &mut PathPool, asn: Asn, wanted: Wanted) -> Option<Held>
    requires live { IsWantedLive pool.old wanted }
    requires spare { 0 < spare_of pool.old }
    requires counts { (k : ℕ) → count_of pool.old k < MOST_COUNT }
    ensures entry { option_map (entry_of pool.new) result ≡ wanted_entry pool.old asn wanted }
    ensures takes { Takes pool.old pool.new result }
    ensures live { live_count pool.old < live_count pool.new → IsLonger wanted }
{
    match wanted {
        Wanted::Nothing => None,
        Wanted::Ready(held) => {
            pool.hold(held.path);
            Some(held)
        }
        Wanted::Longer(held) => Some(Held {
            class: held.class,
            path: pool.cons(asn, Some(held.path)),
            otc: held.otc,
        }),
    }
}

// Puts the wanted entry in place, and gives back the hold of a change that was there.
#[inline(always)]
fn replace(pool: &mut PathPool, overlay: &mut Overlay, asn: Asn, place: usize, wanted: Wanted)
    requires live { IsWantedLive pool.old wanted }
    requires spare { 0 < spare_of pool.old }
    requires counts { (k : ℕ) → count_of pool.old k < MOST_COUNT }
    requires held { (k : ℕ) → overlay_uses overlay.old k ≤ holds_of pool.old k }
    requires room { HasPlace overlay.old asn }
    ensures put { IsSomeAnd (change_at overlay.new asn) (λ e. option_map (entry_of pool.new) e
        ≡ wanted_entry pool.old asn wanted) }
    ensures spent { Spends pool.old pool.new overlay.old overlay.new asn }
    ensures kept { unwrap_or (change_at overlay.old asn) None ≡ None → (k : ℕ) → IsLive pool.old k → IsLive pool.new k }
    ensures live { live_count pool.old < live_count pool.new → IsLonger wanted }
{
    let new = made(pool, asn, wanted);
    let old = overlay.exchange_near(asn, place, new);
    let_go(pool, old);
}

// Puts an entry, with the AS before its path, at an AS at which there is none.
#[inline(always)]
pub(crate) fn put_longer(
    pool: &mut PathPool,
    overlay: &mut Overlay,
    asn: Asn,
    place: usize,
    held: Held,
)
    requires live { IsLive pool.old held.path.0 }
    requires nothing { unwrap_or (change_at overlay.old asn) None ≡ None }
    requires spare { 0 < spare_of pool.old }
    requires counts { (k : ℕ) → count_of pool.old k < MOST_COUNT }
    requires held { (k : ℕ) → overlay_uses overlay.old k ≤ holds_of pool.old k }
    requires room { HasPlace overlay.old asn }
    ensures put { IsSomeAnd (change_at overlay.new asn) (λ e. option_map (entry_of pool.new) e
        ≡ wanted_entry pool.old asn (ALonger held)) }
    ensures spent { Spends pool.old pool.new overlay.old overlay.new asn }
    ensures kept { (k : ℕ) → IsLive pool.old k → IsLive pool.new k }
{
    let new = made(pool, asn, Wanted::Longer(held));
    let _none = overlay.exchange_near(asn, place, new);
}

/// Puts the entry that a choice names, as [`settle_near`] does, where it is known what the neighbour holds.
#[inline(always)]
pub(crate) fn settle_chosen<P: RoutePolicy, V>(
    at: &PrefixWorld<'_, P, V>,
    pool: &mut PathPool,
    overlay: &mut Overlay,
    placed: PlacedAs,
    chosen: Chosen,
) -> bool
    requires choice { IsNameable at.now.seeds.now at.now.table.now overlay.old placed.asn chosen.near.choice }
    requires given { IsChosenGiven (joined at.now.table.now overlay.old) chosen.near.choice chosen.given }
    requires pool { CanChange pool.old at.now.seeds.now at.now.table.now overlay.old 1 }
    requires room { HasPlace overlay.old placed.asn }
    ensures { IsSettled P.meaning at.now pool.old pool.new overlay.old overlay.new placed.asn chosen.near.choice
        result }
{
    let PlacedAs { asn, place } = placed;
    let wanted = wanted_by(at, asn, place, chosen);
    let have = held_near(at.table, overlay, asn, place);
    if is_held(pool, asn, &have, &wanted) {
        return false;
    }
    replace(pool, overlay, asn, place, wanted);
    true
}

// What the neighbour holds whose offer is chosen.
fn given_by(table: &Table, overlay: &Overlay, chosen: &ChoiceNear) -> Option<Held>
    ensures { IsChosenGiven (joined table.now overlay.now) chosen.now.choice result }
{
    match chosen.choice {
        Choice::Via { neighbour, .. } => held_near(table, overlay, neighbour, chosen.place),
        Choice::Nothing | Choice::Seed => None,
    }
}

/// Puts the entry that a choice names, and answers whether it is another one than before, by its
/// class, its path and its number of the attribute Only to Customer. Where it is the same, all
/// stays. The choice `Nothing` names no entry, `Seed` the seed, and `Via` the neighbour's entry as
/// it is passed on. The place where the AS was last found in the table is a hint. Takes no memory.
pub fn settle_near<P: RoutePolicy, V>(
    at: &PrefixWorld<'_, P, V>,
    pool: &mut PathPool,
    overlay: &mut Overlay,
    asn: Asn,
    place: usize,
    chosen: ChoiceNear,
) -> bool
    requires choice { IsNameable at.now.seeds.now at.now.table.now overlay.old asn chosen.choice }
    requires pool { CanChange pool.old at.now.seeds.now at.now.table.now overlay.old 1 }
    requires room { HasPlace overlay.old asn }
    ensures { IsSettled P.meaning at.now pool.old pool.new overlay.old overlay.new asn chosen.choice result }
{
    let given = given_by(at.table, overlay, &chosen);
    let known = Chosen {
        near: chosen,
        given,
    };
    settle_chosen(at, pool, overlay, PlacedAs { asn, place }, known)
}

/// Puts the entry that a choice names, and answers whether it is another one than before, by its
/// class, its path and its number of the attribute Only to Customer. Where it is the same, all
/// stays. The choice `Nothing` names no entry, `Seed` the seed, and `Via` the neighbour's entry as
/// it is passed on. Takes no memory.
pub fn settle<P: RoutePolicy, V>(
    at: &PrefixWorld<'_, P, V>,
    pool: &mut PathPool,
    overlay: &mut Overlay,
    asn: Asn,
    choice: Choice,
) -> bool
    requires choice { IsNameable at.now.seeds.now at.now.table.now overlay.old asn choice }
    requires pool { CanChange pool.old at.now.seeds.now at.now.table.now overlay.old 1 }
    requires room { HasPlace overlay.old asn }
    ensures { IsSettled P.meaning at.now pool.old pool.new overlay.old overlay.new asn choice result }
{
    let chosen = ChoiceNear { choice, place: 0 };
    settle_near(at, pool, overlay, asn, 0, chosen)
}
