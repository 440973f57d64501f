//! What a file of activations says, said of all its lines at once.
ghost use Rattle.activations.specs.Laws.{ActsAreThoseSaid};

/// What a file says is what its lines say: it is accepted exactly where the first line that isn't skipped
/// names a round and a prefix, and the others say first what ASes hold, of each AS once, and then which
/// ASes are activated, at most 1,000,000 in all. Each AS holds what its line says, the ASes are activated
/// in the order of the file, and those that lines name are these with the numbers of the lines.
pub fn acts_are_those_said()
    ensures { ActsAreThoseSaid }
{}
