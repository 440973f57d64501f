//! What the policies along a course do with the offers of providers.

ghost use Rattle.std.specs.Prelude.{◌≡◌, IsTrue, Option, [], OnOk};
ghost use Rattle.net_names.specs.declared.routes.State.{State as StateValue};
ghost use Rattle.three_pass.specs.Stances.{stances_of, lowered as the_lowered, IsStanceMore, IsStanceUnder};

use net_names::{NoMemory, State};
use policy_laws::{RoutePolicy, Stance};
use std::alloc::Global;

/// For each place of an order the stance of the AS there, in each of four cases: the origins of a prefix are all
/// not found, all valid or all invalid, or they have any states.
#[derive(Drop)]
pub(crate) struct Stances {
    not_found: Vec<Stance>,
    valid: Vec<Stance>,
    invalid: Vec<Stance>,
    any: Vec<Stance>,
}

// The stance of an AS by that of its policy, and by whether all its providers send as the plain policy does.
#[inline(always)]
fn lowered(stance: Stance, above: bool) -> Stance
    ensures { result ≡ the_lowered stance above }
{
    match stance {
        Stance::Plain if above => Stance::Plain,
        Stance::Nothing => Stance::Nothing,
        _ => Stance::Other,
    }
}

// The stance of an AS with this policy in a case.
#[inline(always)]
fn stance_under<P: RoutePolicy>(policy: &P, all: Option<State>, above: bool) -> Stance
    ensures { IsStanceUnder (P.meaning policy.now) all (IsTrue above) result }
{
    lowered(policy.stance(all), above)
}

impl Stances {
    /// The stances of no place.
    pub fn none(alloc: Global) -> Stances
        ensures { (all : Option StateValue) → stances_of result all ≡ [] }
    {
        Stances {
            not_found: Vec::new(alloc),
            valid: Vec::new(alloc),
            invalid: Vec::new(alloc),
            any: Vec::new(alloc),
        }
    }

    /// Puts the stances of one place more behind the others: those of an AS with this policy, whose providers all
    /// send as the plain policy does, or don't.
    pub fn push<P: RoutePolicy>(&mut self, policy: &P, above: bool) -> Result<(), NoMemory>
        ensures { OnOk result ((all : Option StateValue) →
            IsStanceMore (P.meaning policy.now) above all (stances_of self.old all) (stances_of self.new all)) }
    {
        let not_found = stance_under(policy, Some(State::NotFound), above);
        let valid = stance_under(policy, Some(State::Valid), above);
        let invalid = stance_under(policy, Some(State::Invalid), above);
        let any = stance_under(policy, None, above);
        self.not_found.push(not_found)?;
        self.valid.push(valid)?;
        self.invalid.push(invalid)?;
        self.any.push(any)?;
        Ok(())
    }

    /// The stances of all places in a case.
    pub fn of(&self, all: Option<State>) -> &[Stance]
        ensures { result.now ≡ stances_of self.now all }
    {
        match all {
            Some(State::NotFound) => self.not_found.as_slice(),
            Some(State::Valid) => self.valid.as_slice(),
            Some(State::Invalid) => self.invalid.as_slice(),
            None => self.any.as_slice(),
        }
    }
}
