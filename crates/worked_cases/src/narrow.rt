//! The narrow policy.
ghost use Rattle.std.specs.Prelude.{◌≡◌};
ghost use Rattle.worked_cases.specs.Narrows.{class_place as place_of_class};

use net_names::{Asn, Class, Rel, State};
use policy_laws::{RoutePolicy, Stance, View};

/// Takes offers whose paths have at most three numbers, the AS's own included; customers before the
/// others, then the shorter path, then the higher neighbour number. It hands its own routes to all,
/// customers' routes to customers and peers, and the rest to customers. It reads no validation state
/// and marks nothing.
#[derive(Clone, Copy, Debug, PartialEq, Eq)]
pub struct Narrow;

const LONGEST: u32 = 3;

fn class_place(rel: Rel) -> u8
    ensures { result ≡ place_of_class rel }
{
    match rel {
        Rel::Customer => 0,
        Rel::Peer | Rel::Provider => 1,
    }
}

impl RoutePolicy for Narrow {
    ghost use Rattle.worked_cases.specs.Narrows.{narrow_policy};
    ghost use Rattle.worked_cases.specs.NarrowLaws.{narrow_ranks_offers, narrow_prefers_customers, narrow_exports_down_only, narrow_ignores_state};

    ghost meaning = { λ p. narrow_policy };

    fn accepts(&self, v: &View) -> bool {
        v.length <= LONGEST
    }

    fn before(&self, x: &View, y: &View) -> bool {
        let (class_x, class_y) = (class_place(x.rel), class_place(y.rel));
        (class_x, x.length, y.neighbour) < (class_y, y.length, x.neighbour)
    }

    fn exports(&self, held: Class, _otc: Option<Asn>, to: Rel) -> bool {
        match held {
            Class::Origin => true,
            Class::Customer => to != Rel::Provider,
            Class::Peer | Class::Provider => to == Rel::Customer,
        }
    }

    fn reads_state(&self) -> bool {
        false
    }

    fn marks(&self) -> bool {
        false
    }

    fn stance(&self, _all: Option<State>) -> Stance {
        Stance::Other
    }

    #[tactic(auto, using(crate::specs::NarrowLaws::narrow_sends))]
    fn sends_plainly(&self) -> bool {
        true
    }

    #[tactic(auto, using(crate::specs::NarrowLaws::narrow_is_not_plain))]
    fn is_plain(&self) -> bool {
        false
    }

    ghost ranks_offers = { λ p. narrow_ranks_offers };

    ghost prefers_customers = { λ p. narrow_prefers_customers };

    ghost exports_down_only = { λ p. narrow_exports_down_only };

    ghost ignores_state = { λ p. narrow_ignores_state };
}
