//! Which ends of an edited link may hold something wrong.

ghost use Rattle.std.specs.Prelude.{◌≡◌, ◌⊎◌, ℕ, true, IsTrue, IfOk};
ghost use Rattle.net_names.specs.Prelude.{PrefixValue};
ghost use Rattle.stability_laws.specs.Prelude.{has_prefix};
ghost use Rattle.leak_round.specs.Rounds.{plan_of};
ghost use Rattle.leak_round.specs.Staying.{IsSettled};
ghost use Rattle.leak_round.specs.Touched.{touches};

use super::Rounds;
use crate::ends::touch_end;
use crate::touched::Touched;
use net_names::{Asn, NoMemory};
use policy_laws::{OriginStates, RoutePolicy};
use route_choice::SeedIds;
use stability_laws::World;
use std::alloc::Global;

impl Rounds {
    /// The ends of an edited link that may hold something wrong, prefix by prefix. The world is that after the edit. An
    /// end that is not touched for a prefix is in the graph, and it holds in each round what is right there, if it did
    /// before the edit.
    ///
    /// It looks at no more than two offers for each end, prefix and round, however many neighbours an end has. `Err`
    /// where there is not enough memory.
    pub fn touched_ends<P: RoutePolicy, V: OriginStates>(
        &self,
        alloc: Global,
        world: &World<'_, P, V>,
        a: Asn,
        b: Asn,
    ) -> Result<Touched, NoMemory>
        ensures first { IfOk result (λ t. (prefix : PrefixValue) → IsTrue (has_prefix (plan_of self.now) prefix) →
            IsSettled P.meaning V.state_of world.now self.now t prefix a b) }
        ensures second { IfOk result (λ t. (prefix : PrefixValue) → IsTrue (has_prefix (plan_of self.now) prefix) →
            IsSettled P.meaning V.state_of world.now self.now t prefix b a) }
        ensures only { IfOk result (λ t. (prefix : PrefixValue) (x : ℕ) → touches t prefix x ≡ true →
            (x ≡ a) ⊎ (x ≡ b)) }
    {
        // `prefix_at` is called for its clause that the prefixes are listed.
        let _first = self.plan.prefix_at(0);
        let seeds = SeedIds::new(alloc);
        let mut touched = Touched::new(alloc);
        for prefix in self.plan.prefixes() {
            touch_end(&mut touched, world, self, &seeds, *prefix, a, b)?;
            touch_end(&mut touched, world, self, &seeds, *prefix, b, a)?;
        }
        Ok(touched)
    }
}
