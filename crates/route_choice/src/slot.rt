//! One entry, or none, in twelve bytes.

ghost use Rattle.std.specs.Prelude.{◌≡◌};
ghost use Rattle.route_choice.specs.Rows.{entry_in, number_in};

use crate::Held;
use net_names::{Asn, Class};
use path_pool::PathId;

/// An entry, or none. The number of the attribute Only to Customer is 0 where there is none.
#[derive(Clone, Copy)]
pub(crate) enum Slot {
    Empty,
    Full {
        class: Class,
        path: PathId,
        otc: u32,
    },
}

impl Slot {
    /// The slot of an entry, or of none.
    #[inline(always)]
    pub(crate) fn of(entry: Option<Held>) -> Slot
        ensures { entry_in result ≡ entry }
    {
        match entry {
            Some(held) => Slot::Full {
                class: held.class,
                path: held.path,
                otc: number_or_none(held.otc),
            },
            None => Slot::Empty,
        }
    }

    /// The entry, or none.
    #[inline(always)]
    pub(crate) fn entry(self) -> Option<Held>
        ensures { result ≡ entry_in self }
    {
        match self {
            Slot::Full { class, path, otc } => Some(Held {
                class,
                path,
                otc: asn_or_none(otc),
            }),
            Slot::Empty => None,
        }
    }
}

// The number, or 0 for none.
#[inline(always)]
fn number_or_none(asn: Option<Asn>) -> u32
    ensures { number_in result ≡ asn }
{
    match asn {
        Some(asn) => asn.get(),
        None => 0,
    }
}

/// The AS of a number, or none for 0.
#[inline(always)]
pub(crate) fn asn_or_none(number: u32) -> Option<Asn>
    ensures { result ≡ number_in number }
{
    Asn::new(number)
}
