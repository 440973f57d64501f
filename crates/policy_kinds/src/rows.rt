//! The table of the kinds.
ghost use Rattle.std.specs.Prelude.{◌≡◌, slice_index};
ghost use Rattle.policy_kinds.specs.Kinds.{kind_row, offer_key};

use crate::kind::Kind;
use net_names::{Rel, State};
use policy_laws::View;

/// A row of the table: what a kind does.
#[derive(Clone, Copy)]
pub(crate) struct Row {
    /// The place of providers among the classes; customers have place 0, and peers place 2.
    pub provider: u8,
    /// It takes no offer whose state is Invalid (RFC 6811, section 3).
    pub drops_invalid: bool,
    /// It puts Valid offers of a class before the others (RFC 6811, section 3).
    pub valid_first: bool,
    /// It marks routes, and looks at marks (RFC 9234, section 5).
    pub marks: bool,
}

const PLAIN: Row = Row {
    provider: 3,
    drops_invalid: false,
    valid_first: false,
    marks: false,
};

impl Row {
    /// The row of a kind: what it has other than the plain one.
    pub fn of(kind: Kind) -> Row
        ensures { result ≡ (kind_row kind).1 }
    {
        match kind {
            Kind::Plain => PLAIN,
            Kind::DropInvalid => Row {
                drops_invalid: true,
                ..PLAIN
            },
            Kind::PreferValid => Row {
                valid_first: true,
                ..PLAIN
            },
            Kind::ProviderFirst => Row {
                provider: 1,
                ..PLAIN
            },
            Kind::Otc => Row {
                marks: true,
                ..PLAIN
            },
            Kind::DropInvalidOtc => Row {
                drops_invalid: true,
                marks: true,
                ..PLAIN
            },
        }
    }

    /// The place of an offer's class.
    pub fn class_place(self, v: &View) -> u8
        ensures { result ≡ slice_index (offer_key self v.now) 0 }
    {
        match v.rel {
            Rel::Customer => 0,
            Rel::Peer => 2,
            Rel::Provider => self.provider,
        }
    }

    /// The place of an offer's validation state.
    pub fn valid_place(self, v: &View) -> u8
        ensures { result ≡ slice_index (offer_key self v.now) 1 }
    {
        if self.valid_first && v.state != State::Valid {
            1
        } else {
            0
        }
    }
}
