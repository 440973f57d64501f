//! Validation states of routes.
ghost use Rattle.std.specs.Prelude.{◌≡◌, ℕ};
ghost use Rattle.net_names.specs.Prelude.{PrefixValue};
ghost use Rattle.net_names.specs.declared.routes.State.{State as StateValue};

use net_names::{Asn, Prefix, State};

/// The validation state of each prefix with each origin (RFC 6811, section 2). No call takes memory.
pub trait OriginStates {
    /// The state of a prefix with the number of an origin.
    ghost state_of: { Self → PrefixValue → ℕ → StateValue };

    /// The state of the prefix with this origin.
    fn state(&self, prefix: Prefix, origin: Asn) -> State
        ensures { result ≡ state_of self.now prefix origin };
}

/// States without any payload: each is NotFound.
#[derive(Clone, Copy, Debug, PartialEq, Eq)]
pub struct NoStates;

impl OriginStates for NoStates {
    ghost use Rattle.net_names.specs.declared.routes.State.TheVariants.{NotFound};

    ghost state_of = { λ s prefix origin. NotFound };

    fn state(&self, _prefix: Prefix, _origin: Asn) -> State {
        State::NotFound
    }
}
