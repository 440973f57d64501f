//! Words of the generator.
ghost use Rattle.std.specs.Prelude.{◌≡◌};
ghost use Rattle.rand_xoshiro.specs.SplitMix64.{mix_u64};

use rand_xoshiro::SplitMix64;
use rand_xoshiro::rand_core::utils::NextWord;

/// The next 64-bit word.
pub fn draw(rng: &mut SplitMix64) -> u64
    ensures word { result ≡ (mix_u64 rng.old).0 }
    ensures state { rng.new ≡ (mix_u64 rng.old).1 }
{
    rng.next_word()
}
