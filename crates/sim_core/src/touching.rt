//! The ASes whose entries may be wrong after an edit.
ghost use Rattle.std.specs.Prelude.{◌≡◌, ℕ, true, false, IsTrue, IfOk, OnOk, Some, List};
ghost use Rattle.net_names.specs.Prelude.{covers as covers_it, last_or, occurs, PrefixValue};
ghost use Rattle.origin_validation.specs.Prelude.{state_of};
ghost use Rattle.roa_table.specs.Prelude.{taken};
ghost use Rattle.policy_kinds.specs.Prelude.{kind_policy};
ghost use Rattle.stability_laws.specs.Prelude.{policy_at, announced_path, has_prefix};
ghost use Rattle.leak_round.specs.Prelude.{touches};
ghost use Rattle.sim_core.specs.Ground.{AreReadersTouched, IsOrigin};

use leak_round::Touched;
use net_names::{Asn, NoMemory, Prefix, Vrp, covers};
use origin_validation::States;
use policy_kinds::Kind;
use policy_laws::{OriginStates, RoutePolicy};
use roa_table::Vrps;
use stability_laws::{Book, SeedPlan, last_of};
use std::alloc::Global;

// Touches these ASes for a prefix.
fn touch(touched: &mut Touched, prefix: Prefix, ases: &[Asn]) -> Result<(), NoMemory>
    ensures these { OnOk result ((a : ℕ) → occurs a ases.now ≡ true → touches touched.new prefix a ≡ true) }
    ensures more { (p : PrefixValue) (a : ℕ) → touches touched.old p a ≡ true → touches touched.new p a ≡ true }
    ensures only { (p : PrefixValue) (a : ℕ) → touches touched.new p a ≡ true → touches touched.old p a ≡ false →
        (p ≡ prefix) × (occurs a ases.now ≡ true) }
{
    for asn in ases {
        touched.add(prefix, *asn)?;
    }
    Ok(())
}

/// These ASes, for each prefix of the plan.
pub fn touched_ases(alloc: Global, plan: &SeedPlan, ases: &[Asn]) -> Result<Touched, NoMemory>
    ensures these { IfOk result (λ t. (prefix : PrefixValue) (a : ℕ) → IsTrue (has_prefix plan.now prefix) →
        occurs a ases.now ≡ true → touches t prefix a ≡ true) }
    ensures only { IfOk result (λ t. (prefix : PrefixValue) (a : ℕ) → touches t prefix a ≡ true →
        occurs a ases.now ≡ true) }
{
    // `prefix_at` is called for its clause that the list has all prefixes of the plan.
    let _first = plan.prefix_at(0);
    let mut touched = Touched::new(alloc);
    for prefix in plan.prefixes() {
        touch(&mut touched, *prefix, ases)?;
    }
    Ok(touched)
}

// Touches those of the ASes whose policy reads the states, for a prefix.
fn touch_readers(
    touched: &mut Touched,
    readers: &[Asn],
    book: &Book<Kind>,
    prefix: Prefix,
) -> Result<(), NoMemory>
    ensures these { OnOk result ((a : ℕ) → occurs a readers.now ≡ true →
        (kind_policy (policy_at book.now a)).reads_state ≡ true → touches touched.new prefix a ≡ true) }
    ensures more { (p : PrefixValue) (a : ℕ) → touches touched.old p a ≡ true → touches touched.new p a ≡ true }
    ensures only { (p : PrefixValue) (a : ℕ) → touches touched.new p a ≡ true → touches touched.old p a ≡ false →
        (p ≡ prefix) × ((kind_policy (policy_at book.now a)).reads_state ≡ true) }
{
    for asn in readers {
        if book.policy(*asn).reads_state() {
            touched.add(prefix, *asn)?;
        }
    }
    Ok(())
}

// The last number of the path that an AS announces of a prefix, if it announces it.
fn origin_of(plan: &SeedPlan, prefix: Prefix, asn: Asn) -> Option<Asn>
    ensures { (path : List ℕ) → announced_path plan.now prefix asn ≡ Some path → result ≡ Some (last_or 0 path) }
{
    match plan.path(prefix, asn) {
        Some(path) => last_of(path.as_slice()),
        None => None,
    }
}

// Whether the state of an origin differs with the payload and without it.
fn differs(vrps: &Vrps, vrp: Vrp, prefix: Prefix, origin: Option<Asn>) -> bool
    ensures { (o : ℕ) → origin ≡ Some o → result ≡ false →
        state_of (taken vrps.now vrp) prefix o ≡ state_of vrps.now prefix o }
{
    match origin {
        Some(origin) => {
            States::of(vrps).state(prefix, origin)
                != States::without(vrps, vrp).state(prefix, origin)
        }
        None => false,
    }
}

// Whether the state of an announced origin of the prefix differs with the payload and without it.
fn differs_at(vrps: &Vrps, vrp: Vrp, plan: &SeedPlan, prefix: Prefix) -> bool
    ensures { result ≡ false → (origin : ℕ) → IsOrigin plan.now prefix origin →
        state_of (taken vrps.now vrp) prefix origin ≡ state_of vrps.now prefix origin }
{
    // `announcer_at` is called for its clause that the list has all announcers of the plan.
    let _first = plan.announcer_at(0);
    for asn in plan.announcers() {
        if differs(vrps, vrp, prefix, origin_of(plan, prefix, *asn)) {
            return true;
        }
    }
    false
}

// Touches those of the ASes whose policy reads the states, for a prefix that the payload covers and of which the
// state of an announced origin differs with it and without it.
fn touch_covered(
    touched: &mut Touched,
    readers: &[Asn],
    book: &Book<Kind>,
    vrps: &Vrps,
    vrp: Vrp,
    plan: &SeedPlan,
    prefix: Prefix,
) -> Result<(), NoMemory>
    ensures these { OnOk result (AreReadersTouched readers.now book.now vrps.now vrp plan.now prefix
        (touches touched.new prefix)) }
    ensures more { (p : PrefixValue) (a : ℕ) → touches touched.old p a ≡ true → touches touched.new p a ≡ true }
    ensures only { (p : PrefixValue) (a : ℕ) → touches touched.new p a ≡ true → touches touched.old p a ≡ false →
        (covers_it vrp.prefix p ≡ true) × ((kind_policy (policy_at book.now a)).reads_state ≡ true) }
{
    if !covers(vrp.prefix(), prefix) {
        return Ok(());
    }
    if !differs_at(vrps, vrp, plan, prefix) {
        return Ok(());
    }
    touch_readers(touched, readers, book, prefix)
}

/// Those of the ASes whose policy reads the states, for each prefix of the plan that the payload covers and of
/// which the state of an announced origin differs with it and without it.
pub fn touched_readers(
    alloc: Global,
    readers: &[Asn],
    book: &Book<Kind>,
    vrps: &Vrps,
    vrp: Vrp,
    plan: &SeedPlan,
) -> Result<Touched, NoMemory>
    ensures these { IfOk result (λ t. (prefix : PrefixValue) → IsTrue (has_prefix plan.now prefix) →
        AreReadersTouched readers.now book.now vrps.now vrp plan.now prefix (touches t prefix)) }
    ensures only { IfOk result (λ t. (prefix : PrefixValue) (a : ℕ) → touches t prefix a ≡ true →
        (covers_it vrp.prefix prefix ≡ true) × ((kind_policy (policy_at book.now a)).reads_state ≡ true)) }
{
    // `prefix_at` is called for its clause that the list has all prefixes of the plan.
    let _first = plan.prefix_at(0);
    let mut touched = Touched::new(alloc);
    for prefix in plan.prefixes() {
        touch_covered(&mut touched, readers, book, vrps, vrp, plan, *prefix)?;
    }
    Ok(touched)
}
