//! Which ASes may hold something wrong after an edit: the touched ones, and those whose seed differs.

ghost use Rattle.std.specs.Prelude.{◌≡◌, ◌↔◌, IsTrue, Some, IfOk, OnOk, option_map};
ghost use Rattle.path_pool.specs.Pool.{IsLive, list_of};
ghost use Rattle.route_choice.specs.declared.held.SeedHeld.{SeedHeld as ASeed};
ghost use Rattle.route_choice.specs.Prelude.{AreSeedsLive, seed_of};
ghost use Rattle.leak_round.specs.Touched.{touches};
ghost use Rattle.leak_round.specs.Differing.{AddsDiffering, AreWrong};

use crate::touched::Touched;
use net_names::{Asn, NoMemory, Prefix};
use path_pool::{PathId, PathPool};
use route_choice::{SeedHeld, SeedIds};
use std::alloc::Global;

fn same_numbers(a: &[Asn], b: &[Asn]) -> bool
    ensures { IsTrue result ↔ (a.now ≡ b.now) }
{
    a == b
}

fn same_mark(a: Option<Asn>, b: Option<Asn>) -> bool
    ensures { IsTrue result ↔ (a ≡ b) }
{
    a == b
}

// Whether two paths of a pool have the same ASes.
fn same_path(alloc: Global, pool: &PathPool, a: PathId, b: PathId) -> Result<bool, NoMemory>
    requires a { IsLive pool.now a.0 }
    requires b { IsLive pool.now b.0 }
    ensures { IfOk result (λ same. IsTrue same ↔ (list_of pool.now a.0 ≡ list_of pool.now b.0)) }
{
    if a == b {
        return Ok(true);
    }
    let one = pool.copy_out(alloc, a)?;
    let other = pool.copy_out(alloc, b)?;
    Ok(same_numbers(one.as_slice(), other.as_slice()))
}

// Whether two seeds are the same, as a path and a number.
fn same_held(alloc: Global, pool: &PathPool, old: SeedHeld, new: SeedHeld) -> Result<bool, NoMemory>
    requires old { IsLive pool.now old.path.0 }
    requires new { IsLive pool.now new.path.0 }
    ensures { IfOk result (λ same. IsTrue same ↔ (seed_of pool.now new ≡ seed_of pool.now old)) }
{
    let path = same_path(alloc, pool, new.path, old.path)?;
    let otc = same_mark(new.otc, old.otc);
    Ok(path & otc)
}

// Whether an AS that may have a seed has the same before and after.
fn same_seed(
    alloc: Global,
    pool: &PathPool,
    old: Option<SeedHeld>,
    new: Option<SeedHeld>,
) -> Result<bool, NoMemory>
    requires old { (s : ASeed) → old ≡ Some s → IsLive pool.now s.path.0 }
    requires new { (s : ASeed) → new ≡ Some s → IsLive pool.now s.path.0 }
    ensures { IfOk result (λ same. IsTrue same ↔
        (option_map (seed_of pool.now) new ≡ option_map (seed_of pool.now) old)) }
{
    match (old, new) {
        (None, None) => Ok(true),
        (Some(before), Some(after)) => same_held(alloc, pool, before, after),
        _ => Ok(false),
    }
}

// Adds to a list those of these ASes whose seeds differ.
fn add_differing(
    alloc: Global,
    pool: &PathPool,
    old: &SeedIds,
    new: &SeedIds,
    names: &[Asn],
    ases: &mut Vec<Asn>,
) -> Result<(), NoMemory>
    requires old { AreSeedsLive pool.now old.now }
    requires new { AreSeedsLive pool.now new.now }
    ensures { OnOk result (AddsDiffering pool.now old.now new.now names.now ases.old.items ases.new.items) }
{
    for asn in names {
        let same = same_seed(alloc, pool, old.get(*asn), new.get(*asn))?;
        if !same {
            ases.push(*asn)?;
        }
    }
    Ok(())
}

// Puts the ASes that are touched for a prefix, and those whose seeds differ before and after, in place of those of
// a list.
pub fn put_wrong(
    alloc: Global,
    pool: &PathPool,
    touched: &Touched,
    prefix: Prefix,
    old: &SeedIds,
    new: &SeedIds,
    ases: &mut Vec<Asn>,
) -> Result<(), NoMemory>
    requires old { AreSeedsLive pool.now old.now }
    requires new { AreSeedsLive pool.now new.now }
    ensures { OnOk result (AreWrong (touches touched.now prefix) pool.now old.now new.now ases.new.items) }
{
    touched.put_ases(prefix, ases)?;
    add_differing(alloc, pool, old, new, old.ases(), ases)?;
    add_differing(alloc, pool, old, new, new.ases(), ases)?;
    Ok(())
}
