//! What an AS holds, with a path that one AS more can be put before.
ghost use Rattle.std.specs.Prelude.{◌≡◌, ◌↔◌, ◌∷◌, ◌<◌, ◌-◌, ◌^◌, length, IsTrue, IfOk, Some};
ghost use Rattle.stability_laws.specs.Prelude.{seed_entry};

use net_names::{Asn, Class, MOST_IN_PATH, NoMemory, Path};
use stability_laws::{Entry, Seed, same_class, same_number, same_path};
use std::alloc::Global;
use std::marker::Model;
use std::rc::Rc;

/// An entry whose path has at most 4294967294 numbers. Its copies share it, so that none takes memory.
#[derive(Drop)]
pub struct Route {
    entry: Rc<Entry>,
}

impl Model for Route {
    ghost use Rattle.std.specs.Prelude.{◌<◌, ◌-◌, ◌^◌, length};
    ghost use Rattle.stability_laws.specs.declared.entry.Entry.{Entry as AnEntry};
    ghost use Rattle.stability_laws.specs.contracts.entry.Entry as entry_contract;

    ghost Value = { AnEntry };

    ghost coded = { entry_contract.the_row.coded };

    ghost view = { λ h. h.entry.value };

    ghost invariant = { λ h. length h.entry.value.path < 2 ^ 32 - 1 };
}

impl Route {
    /// The entry.
    pub fn entry(&self) -> &Entry
        ensures value { result.now ≡ self.now }
        ensures short { length self.now.path < 2 ^ 32 - 1 }
    {
        self.entry.as_ref()
    }

    /// The same entry once more.
    pub(crate) fn copy(&self) -> Result<Route, NoMemory>
        ensures { IfOk result (λ h. h ≡ self.now) }
    {
        let entry = self.entry.clone()?;
        Ok(Route { entry })
    }

    /// What an AS with the seed holds.
    pub(crate) fn of_seed(alloc: Global, seed: &Seed) -> Result<Route, NoMemory>
        requires { length seed.now.path < 2 ^ 32 - 1 }
        ensures { IfOk result (λ h. h ≡ seed_entry seed.now) }
    {
        let path = seed.path.copied(alloc)?;
        let entry = Entry {
            class: Class::Origin,
            path,
            otc: seed.otc,
        };
        Ok(Route {
            entry: Rc::new(alloc, entry)?,
        })
    }

    /// The entry with this class, the path of `first` and then the rest, and this number. A path that
    /// has no room for one AS more counts as one that no memory is found for.
    pub(crate) fn put_before(
        alloc: Global,
        class: Class,
        first: Asn,
        rest: &[Asn],
        otc: Option<Asn>,
    ) -> Result<Route, NoMemory>
        ensures { IfOk result (λ h. h ≡ record { class = class; path = first ∷ rest.now; otc = otc }) }
    {
        if rest.len() >= MOST_IN_PATH {
            return Err(NoMemory);
        }
        let path = Path::with_front(alloc, first, rest)?;
        let entry = Entry { class, path, otc };
        Ok(Route {
            entry: Rc::new(alloc, entry)?,
        })
    }
}

fn same_entry(a: &Entry, b: &Entry) -> bool
    ensures { IsTrue result ↔ (a.now ≡ b.now) }
{
    let class = same_class(a.class, b.class);
    let path = same_path(a.path.as_slice(), b.path.as_slice());
    let otc = same_number(a.otc, b.otc);
    class & path & otc
}

/// Whether the same is held.
pub(crate) fn same_route(a: &Option<Route>, b: &Option<Route>) -> bool
    ensures { IsTrue result ↔ (a.now ≡ b.now) }
{
    match (a, b) {
        (None, None) => true,
        (Some(a), Some(b)) => same_entry(a.entry(), b.entry()),
        (Some(_), None) | (None, Some(_)) => false,
    }
}
