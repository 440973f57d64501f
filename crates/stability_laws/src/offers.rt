//! Which offer one AS makes to another.
ghost use Rattle.std.specs.Prelude.{◌≡◌, ◌<◌, ◌-◌, ◌^◌, Some, length, option_map, slice_get};
ghost use Rattle.net_names.specs.Prelude.{last_or};
ghost use Rattle.stability_laws.specs.Entries.{class_of as class_of_rel};
ghost use Rattle.stability_laws.specs.Offers.{marked, offer_given};
ghost use Rattle.stability_laws.specs.Carried.{number_carried};

use crate::entry::Entry;
use as_graph::Neighbour;
use net_names::{Asn, Class, Prefix, Rel};
use policy_laws::{OriginStates, RoutePolicy, View};

/// The class of an entry that a neighbour gave, which names what the neighbour is.
pub fn class_from(rel: Rel) -> Class
    ensures { result ≡ class_of_rel rel }
{
    match rel {
        Rel::Customer => Class::Customer,
        Rel::Peer => Class::Peer,
        Rel::Provider => Class::Provider,
    }
}

/// The number that `n` sends along with an entry to an AS that is `to` to it: the one that the entry has,
/// else its own where it marks and the receiver is its customer or its peer, else none. It takes no
/// memory.
/// Source: RFC 9234, section 5, rule 1 on sending.
pub fn number_sent(marks: bool, n: Asn, to: Rel, otc: Option<Asn>) -> Option<Asn>
    ensures { result ≡ marked marks n to otc }
{
    match otc {
        Some(number) => Some(number),
        None => match to {
            Rel::Customer | Rel::Peer => if marks { Some(n) } else { None },
            Rel::Provider => None,
        },
    }
}

/// The number that the receiver, which is `to` to the sender `from`, keeps of an entry that the sender
/// holds with this number in the attribute Only to Customer (RFC 9234, section 5). It takes no memory.
pub fn carried<P: RoutePolicy>(
    sender: &P,
    receiver: &P,
    from: Asn,
    to: Rel,
    otc: Option<Asn>,
) -> Option<Asn>
    ensures { result ≡ number_carried (P.meaning sender.now) (P.meaning receiver.now) from to otc }
{
    let sent = number_sent(sender.marks(), from, to, otc);
    number_sent(receiver.marks(), from, to, sent)
}

/// The last number of a path, where it has one. It takes no memory.
pub fn last_of(path: &[Asn]) -> Option<Asn>
    ensures { result ≡ option_map (λ _. last_or 0 path.now) (slice_get path.now 0) }
{
    path.last().copied()
}

/// The view of the offer that a neighbour of `a` makes to it of an entry that it holds; `None` exactly
/// where it makes none: where its policy does not export the entry, the path is empty or goes through
/// `a`, or the policy of `a` does not accept the view. It takes no memory.
pub fn offered_view<P: RoutePolicy, V: OriginStates>(
    sender: &P,
    receiver: &P,
    states: &V,
    prefix: Prefix,
    neighbour: &Neighbour,
    a: Asn,
    held: &Entry,
) -> Option<View>
    requires { length held.now.path < 2 ^ 32 - 1 }
    ensures { result ≡ option_map (λ o. o.view)
        (offer_given (P.meaning sender.now) (P.meaning receiver.now) (V.state_of states.now prefix)
        neighbour.now.asn a (Some neighbour.now.rel) (Some held.now)) }
{
    let Neighbour { asn, rel } = *neighbour;
    let path = held.path.as_slice();
    let to = rel.converse();
    if !sender.exports(held.class, held.otc, to) {
        return None;
    }
    let Some(origin) = last_of(path) else {
        return None;
    };
    if path.contains(&a) {
        return None;
    }
    let view = View {
        rel,
        neighbour: asn,
        length: path.len() as u32 + 1,
        state: states.state(prefix, origin),
        otc: number_sent(sender.marks(), asn, to, held.otc),
    };
    if receiver.accepts(&view) {
        Some(view)
    } else {
        None
    }
}
