//! When a scenario and a script are accepted, said of all their parts at once.
ghost use Rattle.scenario_text.specs.Laws.{AcceptedExactly, ScriptAcceptedExactly, LinesAreThose};

/// The scenario of a text is the one that the text says: a text is accepted, with these four lists, exactly where it is
/// JSON, each value is of its type and in its grammar, the lists are those that the text says, nothing is named twice, no
/// limit is passed and each path starts with its announcement's AS.
pub fn scenarios_are_those_said()
    ensures { AcceptedExactly }
{}

/// The lines of a script are those that it says: a script is accepted exactly where each line that isn't skipped has one of
/// the forms and these are at most 100,000; then its lines are those, in their order, each with its number in the file and
/// what its text asks for.
pub fn lines_are_those_said()
    ensures accepted { ScriptAcceptedExactly }
    ensures lines { LinesAreThose }
{}
