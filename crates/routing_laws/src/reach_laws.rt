//! Who is reached.
//!
//! Each law is a function without a body, for every policy type: who needs it calls it, and has its
//! clause.
ghost use Rattle.routing_laws.specs.ReachLaws.{ValleyFreeWaysReach, ProvidersAreReached, ConesAreImmune, CarefulWaysReach, CarefulChainsReach};

use policy_laws::RoutePolicy;

/// Where what is put in spreads freely and all policies are open, an AS holds a route exactly if a way
/// without a valley leads from it to an AS that puts something in (Gao and Rexford 2001).
pub fn valley_free_ways_reach<P: RoutePolicy>()
    ensures { ValleyFreeWaysReach P.meaning }
{}

/// Where what is put in spreads freely and all policies are open, an AS holds an own or a customer's route
/// exactly if it puts something in, or is a direct or indirect provider of an AS that does (Gao and
/// Rexford 2001).
pub fn providers_are_reached<P: RoutePolicy>()
    ensures { ProvidersAreReached P.meaning }
{}

/// Where what is put in spreads freely and all policies are open, an AS that puts something in, or is a
/// direct or indirect provider of one that does, holds a route that came from itself or from a direct or
/// indirect customer (Gao and Rexford 2001).
pub fn cones_are_immune<P: RoutePolicy>()
    ensures { ConesAreImmune P.meaning }
{}

/// Whoever else puts in what: an AS from which a way without a valley leads to one that puts something
/// in, along careful ASes, holds a route with an origin as theirs.
pub fn careful_ways_reach<P: RoutePolicy>()
    ensures { CarefulWaysReach P.meaning }
{}

/// Whoever else puts in what: an AS from which a way leads down, from provider to customer, to one that
/// puts something in, along careful ASes, holds an own or a customer's route with an origin as theirs.
pub fn careful_chains_reach<P: RoutePolicy>()
    ensures { CarefulChainsReach P.meaning }
{}
