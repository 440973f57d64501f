//! Marks of AS numbers: a bit by remainder, so that most numbers that are in no set need no look-up.

ghost use Rattle.std.specs.Prelude.{◌≡◌, ℕ, ◌<◌, ◌%◌, ◌||◌, ◌==◌, false};

use net_names::Asn;

/// Marks for AS numbers by their remainders when divided by `N`: a number whose remainder isn't marked is
/// none of those that were added.
#[derive(Drop)]
pub struct Marks<const N: usize> {
    marks: [bool; N],
    ghost divides: { 0 < N },
}

#[tactic(auto, unfolding(crate::specs::Marks::is_marked))]
impl<const N: usize> Marks<N> {
    ghost use Rattle.route_choice.specs.Marks.{is_marked};

    /// No mark.
    pub fn none() -> Marks<N>
        requires { 0 < N }
        ensures { (a : ℕ) → is_marked result a ≡ false }
    {
        Marks { marks: [false; N] }
    }

    /// Whether the remainder of a number is marked.
    #[inline(always)]
    pub fn has(&self, asn: Asn) -> bool
        ensures { result ≡ is_marked self.now asn }
    {
        self.marks[asn.get() as usize % N]
    }

    /// Marks the remainder of a number, and no other.
    pub fn add(&mut self, asn: Asn)
        ensures { (a : ℕ) → is_marked self.new a ≡ (is_marked self.old a || (a % N == asn % N)) }
    {
        self.marks[asn.get() as usize % N] = true;
    }
}
