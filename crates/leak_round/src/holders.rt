//! The ASes that hold something in a table.

ghost use Rattle.std.specs.Prelude.{◌≡◌, ℕ, true, nat_eq, IsSome, IfOk};
ghost use Rattle.std.specs.List.{IsDistinct};
ghost use Rattle.std.specs.List.Sorted.{IsNonDecreasingBy};
ghost use Rattle.net_names.specs.Prelude.{occurs};
ghost use Rattle.route_choice.specs.Prelude.{AreEntriesLive, table_routing};
ghost use Rattle.leak_round.specs.Moved.{AreHolders, IsHolder};
ghost use Rattle.leak_round.specs.declared.holders.Holder.{Holder as AHolder};

use net_names::{Asn, NoMemory};
use path_pool::PathPool;
use route_choice::Table;
use std::alloc::Global;

/// An AS that holds something in a table.
#[derive(Clone, Copy)]
pub struct Holder {
    pub asn: Asn,
    /// Where the AS stands in a list. It is a hint.
    pub place: u32,
    /// How many ASes its path has.
    pub length: u32,
}

// An AS of the table, where it holds something.
fn holder_at(pool: &PathPool, table: &Table, asn: Asn, place: usize) -> Option<Holder>
    requires { AreEntriesLive pool.now table.now }
    ensures { IsHolder (table_routing pool.now table.now) asn result }
{
    let held = table.get_near(asn, place)?;
    Some(Holder {
        asn,
        place: u32::try_from(place).unwrap_or(0),
        length: pool.length(held.path),
    })
}

// The ASes that hold something, by rising length of their paths. All of them are among these ASes.
pub fn holders_by_length(
    alloc: Global,
    pool: &PathPool,
    table: &Table,
    ases: &[Asn],
) -> Result<Vec<Holder>, NoMemory>
    requires live { AreEntriesLive pool.now table.now }
    requires apart { IsDistinct nat_eq ases.now }
    requires among { (a : ℕ) → IsSome (table_routing pool.now table.now a) → occurs a ases.now ≡ true }
    ensures holders { IfOk result (λ v. AreHolders (table_routing pool.now table.now) v.items) }
    ensures rising { IfOk result (λ v. IsNonDecreasingBy (λ (x : AHolder). x.length) v.items) }
{
    let mut holders = Vec::new(alloc);
    for (place, asn) in ases.iter().enumerate() {
        if let Some(one) = holder_at(pool, table, *asn, place) {
            holders.push(one)?;
        }
    }
    holders.sort_unstable_by_key(|one| one.length);
    Ok(holders)
}
