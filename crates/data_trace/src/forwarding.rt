//! The next hops of one round and one address.
ghost use Rattle.std.specs.Prelude.{◌≡◌, ℕ, OnOk, IfOk, length, option_and_then, option_copied};
ghost use Rattle.route_choice.specs.Prelude.{AreAllLive, held_at};
ghost use Rattle.data_trace.specs.Best.{better_of, best_in, holding};
ghost use Rattle.data_trace.specs.Candidates.{best_among};
ghost use Rattle.data_trace.specs.Announcers.{AreAnnouncers};

use crate::Hop;
use crate::announcers::announcers_of;
use crate::best::Best;
use crate::candidate::Candidate;
use net_names::{Addr, Asn, NoMemory, Prefix, holds};
use path_pool::PathPool;
use route_choice::{Marks, RoundTables, Table};
use stability_laws::SeedPlan;
use std::alloc::Global;

/// The tables of a round, of which those that an address needs are sought once.
#[derive(Drop)]
pub struct Forwarding<'a> {
    tables: &'a RoundTables,
    pool: &'a PathPool,
    plan: &'a SeedPlan,
    addr: Addr,
    candidates: Vec<Candidate<'a>>,
    announcers: Marks<4096>,
    ghost live: { AreAllLive pool.now tables.now },
    ghost best: { (a : ℕ) → best_among candidates.items a ≡ best_in tables.now a (holding plan.now addr) },
    ghost announcing: { AreAnnouncers announcers plan.now },
}

// Puts a prefix with its table, if it has one, at the end.
fn add_candidate<'a>(
    candidates: &mut Vec<Candidate<'a>>,
    prefix: Prefix,
    table: Option<&'a Table>,
) -> Result<(), NoMemory>
    ensures { OnOk result ((a : ℕ) →
        best_among candidates.new.items a ≡ better_of (best_among candidates.old.items a) prefix
        (option_and_then (λ t. held_at t a) (option_copied table.entry))) }
{
    let Some(table) = table else {
        return Ok(());
    };
    match candidates.push(Candidate { prefix, table }) {
        Ok(()) => Ok(()),
        Err(_) => Err(NoMemory),
    }
}

// The prefixes of the plan that hold the address, with their tables.
fn candidates_of<'a>(
    alloc: Global,
    tables: &'a RoundTables,
    plan: &SeedPlan,
    addr: Addr,
) -> Result<Vec<Candidate<'a>>, NoMemory>
    ensures { IfOk result (λ v. (a : ℕ) → best_among v.items a ≡ best_in tables.now a (holding plan.now addr)) }
{
    let mut candidates = Vec::new(alloc);
    for prefix in plan.prefixes() {
        if holds(*prefix, addr) {
            add_candidate(&mut candidates, *prefix, tables.table(*prefix))?;
        }
    }
    Ok(candidates)
}

// The best entry of an AS in these tables, which is sought first at a place.
fn best_at(candidates: &[Candidate], asn: Asn, place: usize) -> Option<Best>
    ensures { result ≡ best_among candidates.now asn }
{
    let mut best = None;
    for candidate in candidates {
        best = Best::better(best, candidate.prefix, candidate.table.get_near(asn, place));
    }
    best
}

impl<'a> Forwarding<'a> {
    ghost use Rattle.data_trace.specs.NextHops.{hops_by};

    /// The next hops to the address.
    pub fn new(
        alloc: Global,
        tables: &'a RoundTables,
        pool: &'a PathPool,
        plan: &'a SeedPlan,
        addr: Addr,
    ) -> Result<Forwarding<'a>, NoMemory>
        requires { AreAllLive pool.now tables.now }
        ensures tables { IfOk result (λ f. f.tables.now ≡ tables.now) }
        ensures pool { IfOk result (λ f. f.pool.now ≡ pool.now) }
        ensures plan { IfOk result (λ f. f.plan.now ≡ plan.now) }
        ensures addr { IfOk result (λ f. f.addr ≡ addr) }
    {
        let candidates = candidates_of(alloc, tables, plan, addr)?;
        Ok(Forwarding {
            tables,
            pool,
            plan,
            addr,
            candidates,
            announcers: announcers_of(plan),
        })
    }

    // Where an AS sends a packet where there is one table.
    fn next_in_one(&self, asn: Asn, place: usize) -> Hop
        requires { length self.now.candidates.items ≡ 1 }
        ensures { result ≡ hops_by self.now asn }
    {
        let one = &self.candidates[0];
        let best = Best::better(None, one.prefix, one.table.get_near(asn, place));
        Best::hop(self.pool, self.plan, asn, self.announcers.has(asn), best)
    }

    /// Where an AS sends a packet, whose entries are sought first at a place.
    pub fn next(&self, asn: Asn, place: usize) -> Hop
        ensures { result ≡ hops_by self.now asn }
    {
        if self.candidates.len() == 1 {
            return self.next_in_one(asn, place);
        }
        Best::hop(
            self.pool,
            self.plan,
            asn,
            self.announcers.has(asn),
            best_at(self.candidates.as_slice(), asn, place),
        )
    }
}
