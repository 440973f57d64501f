//! The trace of a packet.
ghost use Rattle.std.specs.Prelude.{IfOk};
ghost use Rattle.route_choice.specs.Prelude.{round_routing, AreAllLive};
ghost use Rattle.data_trace.specs.Hops.{next_hop as next_hop_of};
ghost use Rattle.data_trace.specs.NextHops.{hops_by};
ghost use Rattle.data_trace.specs.Traces.{IsTrace};

use crate::forwarding::Forwarding;
use crate::kinds::Trace;
use crate::{End, Hop};
use indexmap::IndexSet;
use net_names::{Addr, Asn, NoMemory, Path};
use path_pool::PathPool;
use route_choice::RoundTables;
use stability_laws::SeedPlan;
use std::alloc::Global;

// The ASes that a packet passes, as a set in their order, and how that ends.
#[derive(Drop)]
struct Walk {
    ases: IndexSet<Asn>,
    end: End,
}

// Follows next hops from an AS on.
fn follow(alloc: Global, forwarding: &Forwarding<'_>, asn: Asn) -> Result<Walk, NoMemory>
    ensures { IfOk result (λ w. IsTrace (hops_by forwarding.now) asn w.ases.keys w.end) }
{
    let mut ases = IndexSet::new(alloc);
    ases.insert(asn)?;
    let mut last = asn;
    'steps: loop {
        match forwarding.next(last, 0) {
            Hop::Here => {
                return Ok(Walk {
                    ases,
                    end: End::At(last),
                });
            }
            Hop::NoRoute => {
                return Ok(Walk {
                    ases,
                    end: End::NoRoute,
                });
            }
            Hop::To(next) => {
                if !ases.insert(next)? {
                    return Ok(Walk {
                        ases,
                        end: End::Loop,
                    });
                }
                last = next;
            }
        }
    }
}

/// The trace of a packet from an AS to the address, in the round of the tables: the longest list of
/// distinct ASes that starts at the AS and in which each next one is the next hop of the one before. It
/// ends where the packet is delivered, where there is no route, or as a loop, where the next hop is an
/// AS of the list.
///
/// The path of every entry is live. It takes time by the length of the trace times the number of
/// prefixes that hold the address. Its only refusal is want of memory.
pub fn trace(
    alloc: Global,
    tables: &RoundTables,
    pool: &PathPool,
    plan: &SeedPlan,
    asn: Asn,
    addr: Addr,
) -> Result<Trace, NoMemory>
    requires { AreAllLive pool.now tables.now }
    ensures { IfOk result (λ t.
        IsTrace (next_hop_of plan.now (round_routing pool.now tables.now) addr) asn t.walk t.end) }
{
    let forwarding = Forwarding::new(alloc, tables, pool, plan, addr)?;
    let walk = follow(alloc, &forwarding, asn)?;
    let numbers = walk.ases.as_slice().to_vec(alloc)?;
    Ok(Trace {
        walk: Path::from_vec(numbers),
        end: walk.end,
    })
}
