//! Policies and what they see.
ghost use Rattle.std.specs.Prelude.{◌≡◌, ◌↔◌, ℕ, IsTrue};
ghost use Rattle.policy_laws.specs.Policy.{Policy, RanksOffers, PrefersCustomers, ExportsDownOnly, IgnoresState};
ghost use Rattle.policy_laws.specs.Plain.{IsPlain as IsPlainPolicy, IsStance, SendsPlainly};

use net_names::{Asn, Class, Rel, State};

/// What a policy sees of an offer (RFC 4271, section 9.1.1; RFC 6811, section 2; RFC 9234, section 5).
#[derive(Clone, Copy, Debug, PartialEq, Eq)]
pub struct View {
    /// What the neighbour that makes the offer is to the AS.
    pub rel: Rel,
    /// The neighbour.
    pub neighbour: Asn,
    /// How many numbers the path has from the AS itself on.
    pub length: u32,
    /// The validation state of the prefix with the path's last number.
    pub state: State,
    /// The number that the route carries in the attribute Only to Customer, where it has one.
    pub otc: Option<Asn>,
}

/// What a policy does with the offers of providers.
#[derive(Clone, Copy, Debug, PartialEq, Eq)]
pub enum Stance {
    /// It takes them as the plain policy does: the shortest path first, then the lowest neighbour.
    Plain,
    /// It takes none of them.
    Nothing,
    /// It does neither.
    Other,
}

/// A routing policy of an AS: what it takes, what it likes better, and what it hands on. No call
/// takes memory.
pub trait RoutePolicy {
    /// What the policy answers, as functions of plain data.
    ghost meaning: { Self → Policy };

    /// Whether the AS takes an offer with this view.
    fn accepts(&self, v: &View) -> bool
        ensures { result ≡ (meaning self.now).accepts v.now };

    /// Whether an offer with the view `x` is liked better than one with the view `y`.
    fn before(&self, x: &View, y: &View) -> bool
        ensures { result ≡ (meaning self.now).before x.now y.now };

    /// Whether the AS hands a route that it holds with this class and number on to a neighbour that
    /// is `to` to it.
    fn exports(&self, held: Class, otc: Option<Asn>, to: Rel) -> bool
        ensures { result ≡ (meaning self.now).exports held otc to };

    /// Whether the validation state may change an answer of `accepts` or `before`.
    fn reads_state(&self) -> bool
        ensures { result ≡ (meaning self.now).reads_state };

    /// Whether the AS marks routes with the attribute Only to Customer, as RFC 9234, section 5, says.
    fn marks(&self) -> bool
        ensures { result ≡ (meaning self.now).marks };

    /// What the policy does with the offers of providers if all their states are this one, or if
    /// they are any states where none is given.
    fn stance(&self, all: Option<State>) -> Stance
        ensures { IsStance (meaning self.now) all result };

    /// Whether the policy hands every route to customers, and sets no mark.
    fn sends_plainly(&self) -> bool
        ensures { IsTrue result ↔ SendsPlainly (meaning self.now) };

    /// Whether this is the plain policy of Gao and Rexford (2001).
    fn is_plain(&self) -> bool
        ensures { IsTrue result ↔ IsPlainPolicy (meaning self.now) };

    /// It ranks the offers of different neighbours strictly.
    ghost ranks_offers: { (p : Self) → RanksOffers (meaning p) };

    /// It puts customers' offers first.
    ghost prefers_customers: { (p : Self) → PrefersCustomers (meaning p) };

    /// It hands on what peers and providers gave to customers only.
    ghost exports_down_only: { (p : Self) → ExportsDownOnly (meaning p) };

    /// Where it does not read the state, the state changes nothing.
    ghost ignores_state: { (p : Self) → IgnoresState (meaning p) };
}

/// A group of policies that are counted together. No call takes memory.
pub trait Labelled {
    /// The number of the policy's group.
    ghost label_of: { Self → ℕ };

    /// The number of the group.
    fn label(&self) -> u8
        ensures { result ≡ label_of self.now };
}
