//! What the links of a file are, said of all its lines at once.
ghost use Rattle.caida_reader.specs.Laws.{AcceptedExactly, GivenExactly, AnyOrder, FirstFaulty, HasCause};

/// The links of a relationship file are those that its lines give: a file has links exactly where its lines are readable,
/// join two ASes and agree, and its pairs are few enough; a pair has a relation exactly where some line gives it; the order
/// of the lines makes no difference; a fault names the first line at which the lines up to it have no links, and what it
/// says of that line is so.
pub fn links_are_those_given()
    ensures accepted { AcceptedExactly }
    ensures given { GivenExactly }
    ensures any_order { AnyOrder }
    ensures first_faulty { FirstFaulty }
    ensures cause { HasCause }
{}
