//! What a neighbour is to an AS, how a route came to an AS, and what payloads say of a route.

/// What a neighbour is to an AS (RFC 9234, section 4).
#[derive(Clone, Copy, Debug, PartialEq, Eq)]
pub enum Rel {
    /// The AS provides transit to the neighbour.
    Customer,
    /// The two exchange their customers' routes.
    Peer,
    /// The neighbour provides transit to the AS.
    Provider,
}

impl Rel {
    ghost use Rattle.std.specs.Prelude.{◌≡◌};
    ghost use Rattle.net_names.specs.Links.{converse};

    /// What the AS is to the neighbour.
    pub fn converse(self) -> Rel
        ensures { result ≡ converse self }
    {
        match self {
            Rel::Customer => Rel::Provider,
            Rel::Peer => Rel::Peer,
            Rel::Provider => Rel::Customer,
        }
    }
}

/// How a route came to the AS that holds it (Gao and Rexford, "Stable Internet routing without
/// global coordination", 2001, has the last three).
#[derive(Clone, Copy, Debug, PartialEq, Eq)]
pub enum Class {
    /// The AS announces it by itself.
    Origin,
    /// A customer exported it.
    Customer,
    /// A peer exported it.
    Peer,
    /// A provider exported it.
    Provider,
}

/// What the payloads say of a prefix and an origin (RFC 6811, section 2).
#[derive(Clone, Copy, Debug, PartialEq, Eq)]
pub enum State {
    /// No payload covers the prefix.
    NotFound,
    /// A payload that covers the prefix matches the route.
    Valid,
    /// Payloads cover the prefix, and none matches the route.
    Invalid,
}
