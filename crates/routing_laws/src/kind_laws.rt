//! The laws at the six kinds of policy.
ghost use Rattle.routing_laws.specs.KindLaws.{KindsMeet, KindsStopLeaks, DroppingIsIdle, DroppersWallOff, KindsReach, KindsShieldCones, DroppersGuardWays, DroppersKeepCustomersRoutes};
ghost use Rattle.routing_laws.specs.InvalidReach.{InvalidsReach, DroppersShrinkReach};
ghost use Rattle.routing_laws.specs.Harm.{DroppingMayHarm};
ghost use Rattle.routing_laws.specs.Order.{OrderIsFree};
ghost use Rattle.routing_laws.specs.Seeds.{OrdinaryIsFree};

/// What the kinds do of what the laws ask of policies.
pub fn kinds_meet()
    ensures { KindsMeet }
{}

/// Where each leaker is of a kind that looks at marks, or each of its peers and providers is, the
/// routing of each round is that of round 1, but for the class of what a leaker holds while it leaks
/// (RFC 9234).
pub fn kinds_stop_leaks()
    ensures { KindsStopLeaks }
{}

/// Where no announced path of a prefix has an invalid origin, it changes nothing in any round which
/// ASes drop invalid routes (RFC 6811, section 3).
pub fn dropping_is_idle()
    ensures { DroppingIsIdle }
{}

/// Where each AS with a link to one that puts an invalid route in drops invalid routes, no other AS
/// holds one, and the routing of all others is that of the world in which those that put them in have
/// no links and put nothing in (RFC 6811, section 3).
pub fn droppers_wall_off()
    ensures { DroppersWallOff }
{}

/// Whatever the kinds, where what is put in spreads freely and has no invalid origin, an AS holds a
/// route exactly if a way without a valley leads from it to an AS that puts something in (Gao and
/// Rexford 2001).
pub fn kinds_reach()
    ensures { KindsReach }
{}

/// Whatever the kinds, where what is put in spreads freely and has no invalid origin: the route of an AS
/// that puts something in, or is a direct or indirect provider of one that does, came from itself or from
/// such a customer (Gao and Rexford 2001).
pub fn kinds_shield_cones()
    ensures { KindsShieldCones }
{}

/// Whatever invalid routes others put in: a way of droppers to an AS that announces a route that is not
/// invalid guards the ASes on it (RFC 6811, section 3).
pub fn droppers_guard_ways()
    ensures { DroppersGuardWays }
{}

/// Where ASes change kinds, none that prefers valid routes, and nobody stops dropping invalid ones: who
/// held an own or a customer's route that is not invalid holds such a one, and no longer one.
pub fn droppers_keep_customers_routes()
    ensures { DroppersKeepCustomersRoutes }
{}

/// Dropping may harm others: there is a world in which an AS that begins to drop invalid routes makes
/// another, which held a route that is not invalid, hold an invalid one (RFC 6811, section 3).
pub fn dropping_may_harm()
    ensures { DroppingMayHarm }
{}

/// Of a prefix all of whose announced origins are invalid: an AS holds a route exactly if a way without
/// a valley leads from it to an announcer, along ASes that don't drop invalid routes or announce
/// themselves (Gao and Rexford 2001; RFC 6811, section 3).
pub fn invalids_reach()
    ensures { InvalidsReach }
{}

/// Of a prefix all of whose announced origins are invalid: whoever holds a route where more ASes drop
/// invalid routes holds one where fewer do (RFC 6811, section 3).
pub fn droppers_shrink_reach()
    ensures { DroppersShrinkReach }
{}

/// What ASes of the world announce as their own spreads freely.
pub fn ordinary_is_free()
    ensures { OrdinaryIsFree }
{}

/// In which order announcements, leakers, links and policies are put in makes no difference.
pub fn order_is_free()
    ensures { OrderIsFree }
{}
