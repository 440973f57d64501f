//! One step of an AS that holds nothing, where it takes what its providers send, and they send, as the plain policy does.
//!
//! Then the shortest of the providers' paths wins, and of the shortest that of the lowest number. No view is made.

ghost use Rattle.std.specs.Prelude.{◌≡◌, ◌+◌, ◌<◌, ◌≤◌, None};
ghost use Rattle.policy_laws.specs.Prelude.{TakesPlainly};
ghost use Rattle.stability_laws.specs.Prelude.{policy_at, offer};
ghost use Rattle.route_choice.specs.declared.choice.Part.TheVariants.{Whole as AWhole};
ghost use Rattle.route_choice.specs.Leads.{ArePlainSenders, IsLead, IsLeadWith, IsOffered};
ghost use Rattle.route_choice.specs.PrefixWorlds.{setting_at, AreGiversAt, CanStepAt, HasNoLoopsAt};
ghost use Rattle.route_choice.specs.Resources.{AreLive};
ghost use Rattle.route_choice.specs.Routings.{routing_of};
ghost use Rattle.route_choice.specs.Tables.{joined, seed_at};
ghost use Rattle.route_choice.specs.Visits.{IsVisit};

use crate::looks::slot_near;
use crate::settling::put_longer;
use crate::slot::{Slot, asn_or_none};
use crate::{Held, Overlay, PlacedAs, PrefixWorld, Steps};
use as_graph::Neighbour;
use net_names::{Asn, Class, place_at};
use path_pool::{PathId, PathPool, paths_are_not_empty};
use policy_laws::{OriginStates, RoutePolicy};
use std::sync::ledger::Ledger;

/// The best provider so far: its number behind the length of its path as one number, and what it holds. The
/// number of the attribute Only to Customer is 0 where there is none.
#[derive(Clone, Copy)]
pub(crate) struct Lead {
    pub(crate) key: u64,
    pub(crate) path: PathId,
    pub(crate) otc: u32,
}

// The key where there is no provider.
pub(crate) const NOBODY: u64 = 18_446_744_073_709_551_615;

// The lead of nobody.
#[inline(always)]
fn nobody() -> Lead
    ensures { result.key ≡ NOBODY }
{
    Lead {
        key: NOBODY,
        path: PathId(0),
        otc: 0,
    }
}

// The better one of two leads.
#[inline(always)]
fn better(old: Lead, new: Lead) -> Lead
    ensures new { new.key < old.key → result ≡ new }
    ensures old { old.key ≤ new.key → result ≡ old }
{
    if new.key < old.key { new } else { old }
}

// The lead that a provider is, if it holds something. It is sought first at the place.
#[inline(always)]
fn lead_of<P, V>(
    at: &PrefixWorld<'_, P, V>,
    pool: &PathPool,
    overlay: &Overlay,
    provider: Asn,
    place: usize,
) -> Lead
    requires { AreLive pool.now at.now.table.now overlay.now }
    ensures { IsLeadWith pool.now provider (joined at.now.table.now overlay.now provider) result }
{
    match slot_near(at.table, overlay, provider, place) {
        Slot::Full { path, otc, .. } => {
            let length = pool.length(path) as u64;
            let number = provider.get() as u64;
            Lead {
                key: length * 4_294_967_296 + number,
                path,
                otc,
            }
        }
        Slot::Empty => nobody(),
    }
}

// The lead of the provider that makes the best offer, or of nobody, where all that make one are among these
// providers. The places, in the order of the providers, are hints.
#[inline(always)]
fn best_provider<P: RoutePolicy, V: OriginStates>(
    at: &PrefixWorld<'_, P, V>,
    pool: &PathPool,
    overlay: &Overlay,
    asn: Asn,
    providers: &[Neighbour],
    places: &[u32],
) -> Lead
    requires own { TakesPlainly (P.meaning (policy_at at.now.book.now asn))
        (IsOffered (setting_at P.meaning V.state_of at.now) (routing_of pool.now at.now.table.now overlay.now) asn) }
    requires plain { ArePlainSenders (λ n. P.meaning (policy_at at.now.book.now n)) providers.now }
    requires givers { AreGiversAt P.meaning at.now pool.now overlay.now AWhole asn providers.now }
    requires live { AreLive pool.now at.now.table.now overlay.now }
    requires no_loops { HasNoLoopsAt P.meaning at.now pool.now overlay.now AWhole asn }
    ensures { IsLead
        (IsOffered (setting_at P.meaning V.state_of at.now) (routing_of pool.now at.now.table.now overlay.now) asn)
        (P.meaning (policy_at at.now.book.now asn)) pool.now (joined at.now.table.now overlay.now)
        (λ n. offer (setting_at P.meaning V.state_of at.now) (routing_of pool.now at.now.table.now overlay.now) n asn)
        result }
{
    paths_are_not_empty(pool);
    let mut lead = nobody();
    for (index, provider) in providers.iter().enumerate() {
        let place = place_at(places, index);
        lead = better(lead, lead_of(at, pool, overlay, provider.asn, place));
    }
    lead
}

/// One step of an AS that holds nothing and has no seed, as [`visit_among`](crate::visit_among) makes it for all
/// offers, where these neighbours are providers that send as the plain policy does, and the AS takes offers of the
/// states that they hold as the plain policy does. All that export to the AS what they hold are among them, and no
/// path of theirs goes through it. The places are hints.
pub fn visit_providers<P: RoutePolicy, V: OriginStates, L: Ledger>(
    at: &PrefixWorld<'_, P, V>,
    pool: &mut PathPool,
    overlay: &mut Overlay,
    placed: PlacedAs,
    providers: &[Neighbour],
    places: &[u32],
    steps: &mut Steps<L>,
) -> bool
    requires can { CanStepAt at.now pool.old overlay.old 1 }
    requires nothing { routing_of pool.old at.now.table.now overlay.old placed.asn ≡ None }
    requires unseeded { seed_at at.now.seeds.now placed.asn ≡ None }
    requires own { TakesPlainly (P.meaning (policy_at at.now.book.now placed.asn)) (IsOffered
        (setting_at P.meaning V.state_of at.now) (routing_of pool.old at.now.table.now overlay.old) placed.asn) }
    requires plain { ArePlainSenders (λ n. P.meaning (policy_at at.now.book.now n)) providers.now }
    requires givers { AreGiversAt P.meaning at.now pool.old overlay.old AWhole placed.asn providers.now }
    requires no_loops { HasNoLoopsAt P.meaning at.now pool.old overlay.old AWhole placed.asn }
    ensures cost { steps.new ≡ steps.old + 1 }
    ensures visit { IsVisit AWhole (setting_at P.meaning V.state_of at.now) at.now.seeds.now at.now.table.now
        pool.old pool.new overlay.old overlay.new placed.asn result }
{
    steps.tick();
    let PlacedAs { asn, place } = placed;
    let lead = best_provider(at, pool, overlay, asn, providers, places);
    if lead.key == NOBODY {
        return false;
    }
    let longer = Held {
        class: Class::Provider,
        path: lead.path,
        otc: asn_or_none(lead.otc),
    };
    put_longer(pool, overlay, asn, place, longer);
    true
}
