//! The states that routing policies read, with those of some prefixes and origins found ahead.
ghost use Rattle.std.specs.Prelude.{◌≡◌, [], OnOk, OnErr};
ghost use Rattle.origin_validation.specs.Known.{with_route};

use crate::judging::judge;
use net_names::{Asn, NoMemory, Prefix, State};
use policy_laws::OriginStates;
use roa_table::Vrps;
use std::alloc::Global;
use std::marker::Model;

/// A state that was found.
#[derive(Clone, Copy)]
struct Found {
    prefix: Prefix,
    origin: Asn,
    state: State,
}

/// The states over a set of payloads, with those of some prefixes and origins found ahead: asking for one of
/// those searches no set. Contracts see the set, and the prefixes and origins in the order in which they were found.
///
/// A kept state is looked for among all of them, so it pays to keep few, as 64.
#[derive(Drop)]
pub struct KnownStates<'a> {
    vrps: &'a Vrps,
    found: Vec<Found>,
}

impl<'a> Model for KnownStates<'a> {
    ghost use Rattle.std.specs.Prelude.{map};
    ghost use Rattle.origin_validation.specs.Known.{Known, known_code};

    ghost Value = { Known };

    ghost coded = { known_code };

    ghost use Rattle.origin_validation.specs.Found.{route_of, AreStates};

    ghost view = { λ s. record { payloads = s.vrps.now; routes = map route_of s.found.items } };

    ghost invariant = { λ s. AreStates s.vrps.now s.found.items };
}

impl<'a> KnownStates<'a> {
    /// The states over the whole set, with none found ahead. The set stays as it is.
    pub fn of(alloc: Global, vrps: &'a Vrps) -> KnownStates<'a>
        ensures payloads { result.payloads ≡ vrps.now }
        ensures routes { result.routes ≡ [] }
    {
        KnownStates {
            vrps,
            found: Vec::new(alloc),
        }
    }

    /// Finds the state of the prefix with the origin, and keeps it. `Err` where there is not enough memory; then
    /// nothing changes.
    pub fn find(&mut self, prefix: Prefix, origin: Asn) -> Result<(), NoMemory>
        ensures ok { OnOk result (self.new ≡ with_route self.old prefix origin) }
        ensures err { OnErr result (self.new ≡ self.old) }
    {
        let state = judge(self.vrps, &None, prefix, origin);
        self.found.push(Found {
            prefix,
            origin,
            state,
        })?;
        Ok(())
    }
}

impl<'a> OriginStates for KnownStates<'a> {
    ghost use Rattle.origin_validation.specs.Judging.{state_of as state_in};

    ghost state_of = { λ s prefix origin. state_in s.payloads prefix origin };

    fn state(&self, prefix: Prefix, origin: Asn) -> State {
        for found in &self.found {
            if found.origin == origin && found.prefix == prefix {
                return found.state;
            }
        }
        judge(self.vrps, &None, prefix, origin)
    }
}
