//! The states that routing policies read.
ghost use Rattle.std.specs.Prelude.{◌≡◌};
ghost use Rattle.roa_table.specs.Prelude.{taken};

use crate::judging::judge;
use net_names::{Asn, Prefix, State, Vrp};
use policy_laws::OriginStates;
use roa_table::Vrps;
use std::marker::Model;

/// The states over a set of payloads, or over a set without one payload. Contracts see the set that counts.
#[derive(Drop)]
pub struct States<'a> {
    vrps: &'a Vrps,
    but: Option<Vrp>,
}

impl<'a> Model for States<'a> {
    ghost use Rattle.roa_table.specs.Prelude.{Payloads, payloads_code};
    ghost use Rattle.origin_validation.specs.Leaving.{less};

    ghost Value = { Payloads };

    ghost coded = { payloads_code };

    ghost view = { λ s. less s.vrps.now s.but };
}

impl<'a> States<'a> {
    /// The states over the whole set.
    pub fn of(vrps: &'a Vrps) -> States<'a>
        ensures { result ≡ vrps.now }
    {
        States { vrps, but: None }
    }

    /// The states over the set without the payload, whether it has it or not. The set stays as it is.
    pub fn without(vrps: &'a Vrps, vrp: Vrp) -> States<'a>
        ensures { result ≡ taken vrps.now vrp }
    {
        States {
            vrps,
            but: Some(vrp),
        }
    }
}

impl<'a> OriginStates for States<'a> {
    ghost use Rattle.origin_validation.specs.Judging.{state_of as state_in};

    ghost state_of = { λ s prefix origin. state_in s prefix origin };

    fn state(&self, prefix: Prefix, origin: Asn) -> State {
        judge(self.vrps, &self.but, prefix, origin)
    }
}
