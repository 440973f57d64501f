//! The payloads that cover a prefix.
ghost use Rattle.std.specs.Prelude.{◌≡◌};

use net_names::Vrp;
use std::marker::Model;

/// The payloads that cover a prefix, in rising order of prefix length, maximum length and number.
/// Contracts see their list.
#[derive(Drop)]
pub struct Covering {
    vrps: Vec<Vrp>,
}

impl Model for Covering {
    ghost use Rattle.std.specs.Prelude.{List};
    ghost use Rattle.std.specs.Coded.{coded_list};
    ghost use Rattle.net_names.specs.Prelude.{VrpValue, vrp_code};

    ghost Value = { List VrpValue };

    ghost coded = { coded_list vrp_code };

    ghost view = { λ c. c.vrps.items };
}

impl Covering {
    /// The list of these payloads.
    pub(crate) fn of(vrps: Vec<Vrp>) -> Covering
        ensures { result ≡ vrps.items }
    {
        Covering { vrps }
    }

    /// The payloads in their order.
    pub fn as_slice(&self) -> &[Vrp]
        ensures { result.now ≡ self.now }
    {
        self.vrps.as_slice()
    }
}
