//! Lines that are in a world.
ghost use Rattle.std.specs.Prelude.{◌≡◌, nat_le};
ghost use Rattle.std.specs.List.{list_all};
ghost use Rattle.sim_core.specs.Prelude.{base_world, has_round};
ghost use Rattle.trial_world.specs.Sweeps.{is_inside as is_inside_world};

use sim_core::Base;
use sweep::Sweep;

// Whether the world has the round.
fn has_round(base: &Base, round: u32) -> bool
    ensures { result ≡ has_round (base_world base.now) round }
{
    round >= 1 && round <= base.rounds()
}

// Whether no number is above the most.
fn are_few(numbers: &[u32], most: usize) -> bool
    ensures { result ≡ list_all (λ k. nat_le k most) numbers.now }
{
    numbers.iter().all(|k| *k as usize <= most)
}

/// Whether the line is in the world: its round and its watched address are there, and none of its numbers of adopters is
/// above that of the ASes.
pub fn is_inside(base: &Base, line: &Sweep) -> bool
    ensures { result ≡ is_inside_world (base_world base.now) line.now }
{
    has_round(base, line.round)
        && base.is_watched(line.addr)
        && are_few(line.ks.as_slice(), base.graph().as_count())
}
