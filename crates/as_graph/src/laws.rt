//! What follows from the definitions of links, provider cycles and ranks.
ghost use Rattle.as_graph.specs.Edits.{LinksAreSound, LinksAreSet, LinksAreTaken, EditsAreUndone, AsesAreKept};
ghost use Rattle.as_graph.specs.Hierarchy.{FittingAreRanks, RanksFit, OneRank};

/// Numbers are the ranks where each is 0 at an AS without customers, and else one more than the
/// greatest number of its customers.
pub fn fitting_are_ranks()
    ensures { FittingAreRanks }
{}

/// In a graph without a provider cycle the ranks are such numbers.
pub fn ranks_fit()
    ensures { RanksFit }
{}

/// An AS has at most one rank.
pub fn one_rank()
    ensures { OneRank }
{}

/// A link is seen alike from both ends, joins ASes of the graph, and none joins an AS with itself.
pub fn links_are_sound()
    ensures { LinksAreSound }
{}

/// A new link of two ASes is what it says, and every other pair keeps what it had.
pub fn links_are_set()
    ensures { LinksAreSet }
{}

/// Without its link a pair has none, and every other pair keeps what it had.
pub fn links_are_taken()
    ensures { LinksAreTaken }
{}

/// An edit that puts back what there was undoes the one before it.
pub fn edits_are_undone()
    ensures { EditsAreUndone }
{}

/// Which ASes there are after an edit: the ends of a new link and a marked AS are there, and an edit
/// takes away or brings no other AS.
pub fn ases_are_kept()
    ensures { AsesAreKept }
{}
