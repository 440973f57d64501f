//! The entry with which an AS is right.
ghost use Rattle.std.specs.Prelude.{◌≡◌, ℕ, IfOk};
ghost use Rattle.std.specs.FinMap as map;
ghost use Rattle.stability_laws.specs.Book.{policy_at};
ghost use Rattle.stability_laws.specs.Offers.{passed_on};
ghost use Rattle.stability_laws.specs.Entries.{seed_entry};
ghost use Rattle.stability_laws.specs.Answers.{IsRightWith};
ghost use Rattle.stability_laws.specs.World.{setting_in};

use crate::book::Book;
use crate::check::best_view;
use crate::entry::{Entry, Seed};
use crate::offers::{carried, class_from};
use crate::routing::{Routing, Seeds};
use crate::world::World;
use net_names::{Asn, Class, NoMemory, Path, Prefix};
use policy_laws::{OriginStates, RoutePolicy, View};
use std::alloc::Global;

// The entry of an AS with the seed.
fn entry_of_seed(alloc: Global, seed: &Seed) -> Result<Entry, NoMemory>
    ensures { IfOk result (λ e. e ≡ seed_entry seed.now) }
{
    Ok(Entry {
        class: Class::Origin,
        path: seed.path.copied(alloc)?,
        otc: seed.otc,
    })
}

// The entry that the AS holds of the offer with this view, where the neighbour holds the given entry.
fn entry_given<P: RoutePolicy>(
    alloc: Global,
    book: &Book<P>,
    asn: Asn,
    view: &View,
    given: &Entry,
) -> Result<Entry, NoMemory>
    ensures { let policy = λ (a : ℕ). P.meaning (policy_at book.now a) in IfOk result (λ e. e ≡ passed_on
        (policy view.now.neighbour).marks (policy asn).marks view.now.neighbour asn view.now.rel given.now) }
{
    let sender = book.policy(view.neighbour);
    let to = view.rel.converse();
    let otc = carried(sender, book.policy(asn), view.neighbour, to, given.otc);
    let path = Path::with_front(alloc, asn, given.path.as_slice())?;
    Ok(Entry {
        class: class_from(view.rel),
        path,
        otc,
    })
}

/// The entry with which the routing would be right at the AS, or `None` where it is right with none:
/// its seed's entry; without a seed the entry of the best offer that its neighbours make; without
/// an offer none (RFC 4271, section 9.1.2). `Err` where there is not enough memory.
pub fn right_entry<P: RoutePolicy, V: OriginStates>(
    alloc: Global,
    world: &World<'_, P, V>,
    prefix: Prefix,
    seeds: &Seeds,
    routing: &Routing,
    asn: Asn,
) -> Result<Option<Entry>, NoMemory>
    ensures { IfOk result (IsRightWith (setting_in P.meaning V.state_of world.now prefix) (map.get seeds.now)
        (map.get routing.now) asn) }
{
    if let Some(seed) = seeds.get(asn) {
        let entry = entry_of_seed(alloc, seed)?;
        return Ok(Some(entry));
    }
    let Some(view) = best_view(world, prefix, routing, asn) else {
        return Ok(None);
    };
    let Some(given) = routing.get(view.neighbour) else {
        unreachable!();
    };
    let entry = entry_given(alloc, world.book, asn, &view, given)?;
    Ok(Some(entry))
}
