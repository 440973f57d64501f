//! A course with what is known of the policies along it.

ghost use Rattle.std.specs.Prelude.{◌≡◌, ◌↔◌, IsTrue, IfOk};
ghost use Rattle.net_names.specs.declared.routes.Rel.TheVariants.{Provider as AProvider};
ghost use Rattle.policy_laws.specs.Prelude.{SendsPlainly};
ghost use Rattle.stability_laws.specs.Prelude.{policy_at};
ghost use Rattle.route_choice.specs.Prelude.{ArePlainSenders};
ghost use Rattle.three_pass.specs.Courses.{IsCourse};
ghost use Rattle.three_pass.specs.Ways.{IsWay};

use crate::course::Course;
use crate::stances::Stances;
use as_graph::Neighbour;
use net_names::{NoMemory, Rel, place_at};
use policy_laws::RoutePolicy;
use stability_laws::{Book, World};

/// A course, and for each place of its order what the policy there does with the offers of providers. It is the same
/// for all prefixes and rounds, as long as the policies stay.
#[derive(Drop)]
pub struct Way<'a> {
    pub(crate) course: &'a Course,
    pub(crate) stances: Stances,
}

// Whether a neighbour is a provider, and sends as the plain policy does. The place is a hint.
fn is_plain_sender<P: RoutePolicy>(book: &Book<P>, neighbour: &Neighbour, place: usize) -> bool
    ensures { IsTrue result ↔ ((neighbour.now.rel ≡ AProvider) ×
        SendsPlainly (P.meaning (policy_at book.now neighbour.now.asn))) }
{
    neighbour.rel == Rel::Provider && book.policy_near(neighbour.asn, place).sends_plainly()
}

// Whether these neighbours are providers, and send as the plain policy does. The places are hints.
fn are_plain_senders<P: RoutePolicy>(
    book: &Book<P>,
    providers: &[Neighbour],
    places: &[u32],
) -> bool
    ensures { IsTrue result ↔ ArePlainSenders (λ a. P.meaning (policy_at book.now a)) providers.now }
{
    for (index, provider) in providers.iter().enumerate() {
        let place = place_at(places, index);
        if !is_plain_sender(book, provider, place) {
            return false;
        }
    }
    true
}

impl<'a> Way<'a> {
    /// The way along a course of the world's graph, with the policies of the world. The only refusal is want of
    /// memory.
    pub fn of<P: RoutePolicy, V>(
        world: &World<'_, P, V>,
        course: &'a Course,
    ) -> Result<Way<'a>, NoMemory>
        requires { IsCourse world.now.graph.now course.now }
        ensures course { IfOk result (λ w. w.course.now ≡ course.now) }
        ensures way { IfOk result (IsWay P.meaning world.now) }
    {
        let mut stances = Stances::none(course.alloc);
        for place in 0..course.order.ases.len() {
            let asn = course.order.ases[place];
            let providers = course.above.list(place);
            let above = are_plain_senders(world.book, providers, course.above.places(place));
            stances.push(world.book.policy_near(asn, place), above)?;
        }
        Ok(Way { course, stances })
    }
}
