//! From one world of a sweep to the next.
ghost use Rattle.std.specs.Prelude.{◌≡◌, ◌≤◌, ℕ, ◌++◌, true, All, IfOk, OnOk, List, length, map, take};
ghost use Rattle.std.specs.FinMap as fin;
ghost use Rattle.net_names.specs.Prelude.{IsDistinct};
ghost use Rattle.policy_kinds.specs.declared.kind.Kind.{Kind as AKind};
ghost use Rattle.sweep.specs.Trials.{adopted, changed, with_kinds};

use crate::trial::Trial;
use net_names::{Asn, NoMemory};
use policy_kinds::Kind;
use std::alloc::{AllocError, Global};

// The changes that put the first list's ASes back to their kinds, and then give those of the second list this kind.
fn changes_of(
    alloc: Global,
    back: &[(Asn, Kind)],
    ahead: &[(Asn, Kind)],
    kind: Kind,
) -> Result<Vec<(Asn, Kind)>, AllocError>
    ensures { IfOk result (λ v. v.items ≡ back.now ++ with_kinds (λ _. kind) (map (λ c. c.0) ahead.now)) }
{
    let mut changes = Vec::from_slice(alloc, back)?;
    for one in ahead {
        changes.push((one.0, kind))?;
    }
    Ok(changes)
}

/// Puts the ASes of the first list back to their kinds, and then gives those of the second list this kind. It takes one
/// call for both, and none where both are empty.
pub(crate) fn change<T: Trial>(
    alloc: Global,
    trial: &mut T,
    back: &[(Asn, Kind)],
    ahead: &[(Asn, Kind)],
    kind: Kind,
) -> Result<(), NoMemory>
    requires back { All (λ c. fin.contains_key (T.ases (T.base trial.old)) c.0 ≡ true) back.now }
    requires ahead { All (λ c. fin.contains_key (T.ases (T.base trial.old)) c.0 ≡ true) ahead.now }
    requires right { T.IsRight trial.old }
    ensures ok { OnOk result ((a : ℕ) → T.kinds trial.new a ≡
        adopted (changed (T.kinds trial.old) back.now) kind (map (λ c. c.0) ahead.now) a) }
    ensures base { T.base trial.new ≡ T.base trial.old }
    ensures right { T.IsRight trial.new }
{
    if back.is_empty() && ahead.is_empty() {
        return Ok(());
    }
    let changes = changes_of(alloc, back, ahead, kind)?;
    trial.adopt_all(&changes)
}

/// Where the first `held` ASes of the order have this kind, and all others theirs, makes it the first `k`. Only the kinds
/// of those between are given.
pub(crate) fn shift<T: Trial>(
    alloc: Global,
    trial: &mut T,
    order: &[(Asn, Kind)],
    held: usize,
    k: usize,
    kind: Kind,
) -> Result<(), NoMemory>
    requires held { held ≤ length order.now }
    requires k { k ≤ length order.now }
    requires apart { IsDistinct (map (λ c. c.0) order.now) }
    requires known { All (λ c. fin.contains_key (T.ases (T.base trial.old)) c.0 ≡ true) order.now }
    requires right { T.IsRight trial.old }
    ensures ok { OnOk result ((f : ℕ → AKind) (xs : List ℕ) → order.now ≡ with_kinds f xs →
        ((a : ℕ) → T.kinds trial.old a ≡ adopted f kind (take held xs) a) →
        (a : ℕ) → T.kinds trial.new a ≡ adopted f kind (take k xs) a) }
    ensures base { T.base trial.new ≡ T.base trial.old }
    ensures right { T.IsRight trial.new }
{
    if held <= k {
        change(alloc, trial, &[], &order[held..k], kind)
    } else {
        change(alloc, trial, &order[k..held], &[], kind)
    }
}
