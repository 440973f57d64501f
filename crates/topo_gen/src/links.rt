//! The links of a generated input.
ghost use Rattle.topo_gen.specs.declared.demo.TheConstants.{MOST_DRAWN};
ghost use Rattle.std.specs.Prelude.{◌≡◌, ◌+◌, ◌-◌, ◌%◌, ◌==◌, ◌<◌, ◌≤◌, if◌then◌else◌, ℕ, List, ◌++◌, map, OnOk, IfOk, min};
ghost use Rattle.std.specs.FinMap as fin;
ghost use Rattle.std.specs.Fn.{iterate};
ghost use Rattle.std.specs.List.{range_with_len};
ghost use Rattle.topo_gen.specs.Drawn.{first_peers, joined, drawn_links, picked, with_as};

use crate::draw::draw;
use crate::pairs::Pairs;
use net_names::{Asn, Links, NoMemory, Rel};
use rand_xoshiro::SplitMix64;
use rand_xoshiro::rand_core::SeedableRng;
use std::alloc::Global;

/// The AS of a number that isn't 0.
pub fn as_of(number: u32) -> Asn
    requires { 1 ≤ number }
    ensures { result ≡ number }
{
    let Some(asn) = Asn::new(number) else {
        unreachable!();
    };
    asn
}

// Joins the pair, unless it has a link: `b` becomes this to `a`.
fn join(links: &mut Pairs, a: u32, b: u32, rel: Rel) -> Result<(), NoMemory>
    requires first { 1 ≤ a }
    requires rising { a < b }
    ensures { OnOk result (links.new ≡ joined a b rel links.old) }
{
    links.join(as_of(a), as_of(b), rel)
}

// Makes the ASes below `a` its peers.
fn join_below(links: &mut Pairs, a: u32) -> Result<(), NoMemory>
    requires { 1 ≤ a }
    ensures { OnOk result ((es : List ((ℕ × ℕ) × Rel)) → links.old ≡ fin.from_entries es
        → links.new ≡ fin.from_entries (es ++ map (λ b. ((b, a), Rel.Peer)) (range_with_len 1 (a - 1)))) }
{
    'below: for k in 0..a - 1 {
        join(links, k + 1, a, Rel::Peer)?;
    }
    Ok(())
}

// Makes peers of all pairs of the first ASes.
fn first_links(alloc: Global, count: u32) -> Result<Pairs, NoMemory>
    requires { count ≤ 8 }
    ensures { IfOk result (λ links. links ≡ first_peers count) }
{
    let mut links = Pairs::new(alloc);
    'first: for k in 0..count {
        join_below(&mut links, k + 1)?;
    }
    Ok(links)
}

// The AS below `a` that a word picks.
fn pick(a: u32, word: u64) -> u32
    requires { 2 ≤ a }
    ensures value { result ≡ 1 + word % (a - 1) }
    ensures least { 1 ≤ result }
    ensures most { result < a }
{
    1 + (word % u64::from(a - 1)) as u32
}

// Draws an AS, to which `a` becomes this.
fn join_picked(links: &mut Pairs, rng: &mut SplitMix64, a: u32, rel: Rel) -> Result<(), NoMemory>
    requires { 2 ≤ a }
    ensures { OnOk result ((links.new, rng.new) ≡ picked a rel (links.old, rng.old)) }
{
    let word = draw(rng);
    join(links, pick(a, word), a, rel)
}

// Draws so many ASes, to which `a` becomes this.
fn join_all(
    links: &mut Pairs,
    rng: &mut SplitMix64,
    a: u32,
    rel: Rel,
    count: u64,
) -> Result<(), NoMemory>
    requires least { 2 ≤ a }
    requires few { count ≤ 3 }
    ensures { OnOk result ((links.new, rng.new) ≡ iterate (picked a rel) count (links.old, rng.old)) }
{
    'picked: for _k in 0..count {
        join_picked(links, rng, a, rel)?;
    }
    Ok(())
}

// How many peers a word gives an AS: one where 4 divides it, and else none.
fn peer_count(word: u64) -> u64
    ensures { result ≡ (if word % 4 == 0 then 1 else 0) }
{
    if word % 4 == 0 { 1 } else { 0 }
}

// Draws the links of one more AS.
fn join_as(links: &mut Pairs, rng: &mut SplitMix64, a: u32) -> Result<(), NoMemory>
    requires { 2 ≤ a }
    ensures { OnOk result ((links.new, rng.new) ≡ with_as (links.old, rng.old) a) }
{
    let count = 1 + draw(rng) % 3;
    join_all(links, rng, a, Rel::Customer, count)?;
    let more = peer_count(draw(rng));
    join_all(links, rng, a, Rel::Peer, more)
}

/// The links of a generated input of so many ASes.
pub fn generate_links(alloc: Global, n: u32) -> Result<Links, NoMemory>
    requires { n ≤ MOST_DRAWN }
    ensures { IfOk result (λ links. links ≡ drawn_links n) }
{
    let mut links = first_links(alloc, n.min(8))?;
    let mut rng = SplitMix64::seed_from_u64(u64::from(n));
    'ases: for k in 0..n.saturating_sub(8) {
        join_as(&mut links, &mut rng, k + 9)?;
    }
    links.in_order(alloc)
}
