//! The kinds and their answers.
ghost use denote.Enum.Bare.{sameb};
ghost use Rattle.std.specs.Prelude.{◌≡◌, ◌&&◌, not};
ghost use Rattle.net_names.specs.contracts.routes.Rel.{the_type as rel_type};
ghost use Rattle.net_names.specs.contracts.routes.State.{the_type as state_type};
ghost use Rattle.net_names.specs.declared.routes.Rel.TheVariants.{Customer};
ghost use Rattle.net_names.specs.declared.routes.State.TheVariants.{Invalid};
ghost use Rattle.policy_laws.specs.Prelude.{is_own_or_customers as is_of_own_or_customers};
ghost use Rattle.policy_kinds.specs.Kinds.{is_leak as is_route_leak};
ghost use Rattle.policy_kinds.specs.Stances.{stance_of as the_stance};

use crate::rows::Row;
use net_names::{Asn, Class, Rel, State};
use policy_laws::{Labelled, RoutePolicy, Stance, View};

/// A kind of policy. Each takes a customer's offer before others, and hands what peers and providers
/// gave on to customers only.
#[derive(Clone, Copy, Debug, PartialEq, Eq)]
pub enum Kind {
    /// Takes every offer; customers before peers before providers, then the shorter path, then the
    /// lower neighbour number.
    Plain,
    /// As `Plain`, but takes no offer whose state is Invalid (RFC 6811, section 3).
    DropInvalid,
    /// As `Plain`, but puts Valid offers of a class before the others (RFC 6811, section 3).
    PreferValid,
    /// As `Plain`, but puts providers before peers.
    ProviderFirst,
    /// As `Plain`, but marks routes and refuses leaked ones (RFC 9234, section 5).
    Otc,
    /// As `Otc`, but takes no offer whose state is Invalid.
    DropInvalidOtc,
}

// Whether an offer with this state is taken, where those whose state is Invalid are dropped or not.
fn state_passes(drops: bool, state: State) -> bool
    ensures { result ≡ not (drops && sameb state_type state Invalid) }
{
    !drops || state != State::Invalid
}

// Whether the offer is a route leak (RFC 9234, section 5, rules 1 and 2 on receipt).
fn is_leak(v: &View) -> bool
    ensures { result ≡ is_route_leak v.now }
{
    match (v.rel, v.otc) {
        (Rel::Customer, Some(_)) => true,
        (Rel::Peer, Some(number)) => number != v.neighbour,
        _ => false,
    }
}

// Whether a neighbour that is this is a customer.
fn is_customer(to: Rel) -> bool
    ensures { result ≡ sameb rel_type to Customer }
{
    to == Rel::Customer
}

// Whether an entry of this class is the AS's own or a customer's.
fn is_own_or_customers(held: Class) -> bool
    ensures { result ≡ is_of_own_or_customers held }
{
    match held {
        Class::Origin | Class::Customer => true,
        Class::Peer | Class::Provider => false,
    }
}

// What a kind does with the offers of providers if all their states are this one, or any.
fn stance_of(kind: Kind, all: Option<State>) -> Stance
    ensures { result ≡ the_stance kind all }
{
    match (kind, all) {
        (Kind::Plain | Kind::ProviderFirst, _) => Stance::Plain,
        (Kind::DropInvalid | Kind::DropInvalidOtc, Some(State::Invalid)) => Stance::Nothing,
        (Kind::DropInvalid | Kind::PreferValid, Some(_)) => Stance::Plain,
        _ => Stance::Other,
    }
}

impl RoutePolicy for Kind {
    ghost use Rattle.policy_kinds.specs.Kinds.{kind_policy};
    ghost use Rattle.policy_kinds.specs.KindLaws.{kind_ranks_offers, kind_prefers_customers, kind_exports_down_only, kind_ignores_state};

    ghost meaning = { kind_policy };

    fn accepts(&self, v: &View) -> bool {
        let row = Row::of(*self);
        state_passes(row.drops_invalid, v.state) && !(row.marks && is_leak(v))
    }

    fn before(&self, x: &View, y: &View) -> bool {
        let row = Row::of(*self);
        let (class_x, class_y) = (row.class_place(x), row.class_place(y));
        let (state_x, state_y) = (row.valid_place(x), row.valid_place(y));
        (class_x, state_x, x.length, x.neighbour) < (class_y, state_y, y.length, y.neighbour)
    }

    fn exports(&self, held: Class, otc: Option<Asn>, to: Rel) -> bool {
        is_customer(to) || is_own_or_customers(held) && !(Row::of(*self).marks && otc.is_some())
    }

    fn reads_state(&self) -> bool {
        let row = Row::of(*self);
        row.drops_invalid || row.valid_first
    }

    fn marks(&self) -> bool {
        Row::of(*self).marks
    }

    #[tactic(auto, using(crate::specs::Stances::kind_stance))]
    fn stance(&self, all: Option<State>) -> Stance {
        stance_of(*self, all)
    }

    #[tactic(auto, using(crate::specs::Stances::kind_sends))]
    fn sends_plainly(&self) -> bool {
        !Row::of(*self).marks
    }

    #[tactic(auto, using(crate::specs::KindLaws::plain_alone))]
    fn is_plain(&self) -> bool {
        *self == Kind::Plain
    }

    ghost ranks_offers = { kind_ranks_offers };

    ghost prefers_customers = { kind_prefers_customers };

    ghost exports_down_only = { kind_exports_down_only };

    ghost ignores_state = { kind_ignores_state };
}

impl Labelled for Kind {
    ghost use Rattle.policy_kinds.specs.Kinds.{label};

    ghost label_of = { label };

    fn label(&self) -> u8 {
        match self {
            Kind::Plain => 0,
            Kind::DropInvalid => 1,
            Kind::PreferValid => 2,
            Kind::ProviderFirst => 3,
            Kind::Otc => 4,
            Kind::DropInvalidOtc => 5,
        }
    }
}
