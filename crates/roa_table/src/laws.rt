//! What the payloads of a file are, said of all its rows at once.
ghost use Rattle.roa_table.specs.Laws.{AcceptedExactly, GivenExactly, FirstFaulty};

/// The payloads of a file are those that its rows give: a file has payloads exactly where each row gives one and there are
/// 2,000,000 different ones at most; a payload is among them exactly where some row gives it; a fault names the first row
/// at which the rows up to it have no payloads.
pub fn payloads_are_those_given()
    ensures accepted { AcceptedExactly }
    ensures given { GivenExactly }
    ensures first_faulty { FirstFaulty }
{}
