//! The states that the policies of a world read.
ghost use Rattle.std.specs.Prelude.{◌≡◌, IfOk, OnOk};

use net_names::{NoMemory, Prefix};
use origin_validation::KnownStates;
use roa_table::Vrps;
use stability_laws::SeedPlan;
use std::alloc::Global;

// Finds the states of the prefix with the origins that announce it.
fn find_states(
    states: &mut KnownStates<'_>,
    plan: &SeedPlan,
    prefix: Prefix,
) -> Result<(), NoMemory>
    ensures { OnOk result (states.new.payloads ≡ states.old.payloads) }
{
    for asn in plan.announcers() {
        if let Some(path) = plan.path(prefix, *asn) {
            if let Some(origin) = path.as_slice().last() {
                states.find(prefix, *origin)?;
            }
        }
    }
    Ok(())
}

/// The states by the payloads. Those of the plan's prefixes with the origins that announce them, which are the ones
/// that policies ask for, are found ahead.
pub fn known_states<'a>(
    alloc: Global,
    vrps: &'a Vrps,
    plan: &SeedPlan,
) -> Result<KnownStates<'a>, NoMemory>
    ensures { IfOk result (λ states. states.payloads ≡ vrps.now) }
{
    let mut states = KnownStates::of(alloc, vrps);
    for prefix in plan.prefixes() {
        find_states(&mut states, plan, *prefix)?;
    }
    Ok(states)
}
