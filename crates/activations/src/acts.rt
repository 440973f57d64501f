//! What a file of activations says.
ghost use Rattle.std.specs.Prelude.{◌≡◌, ℕ, true, [], ◌∷◌, ◌++◌, IfNone, OnOk, OnErr};
ghost use Rattle.net_names.specs.Prelude.{occurs};
ghost use Rattle.as_graph.specs.Prelude.{has};
ghost use Rattle.activations.specs.Named.{asns_of, first_foreign_in};

use as_graph::Graph;
use net_names::{Asn, NoMemory, Path, Prefix};
use stability_laws::Routing;
use std::alloc::Global;
use std::marker::Model;

/// The ASes that the lines of a file name, each with the number of the line, in the order of the file.
/// Contracts see the list of the numbers of lines and ASes.
#[derive(Drop)]
pub struct NamedAses {
    items: Vec<(u32, Asn)>,
}

impl Model for NamedAses {
    ghost use Rattle.std.specs.Prelude.{ℕ, List};

    ghost Value = { List (ℕ × ℕ) };

    ghost view = { λ s. s.items.items };
}

impl NamedAses {
    /// None.
    pub(crate) fn new(alloc: Global) -> NamedAses
        ensures { result ≡ [] }
    {
        NamedAses {
            items: Vec::new(alloc),
        }
    }

    /// Puts an AS at the end. `Err` where there is not enough memory; then the list stays as it was.
    pub(crate) fn push(&mut self, line: u32, asn: Asn) -> Result<(), NoMemory>
        ensures ok { OnOk result (self.new ≡ self.old ++ (line, asn) ∷ []) }
        ensures err { OnErr result (self.new ≡ self.old) }
    {
        self.items.push((line, asn))?;
        Ok(())
    }

    // The line of the first one that is no AS of the graph; `None` exactly where each is one.
    fn first_foreign(&self, graph: &Graph) -> Option<u32>
        ensures value { result ≡ first_foreign_in (has graph.now) self.now }
        ensures none { IfNone result ((a : ℕ) → occurs a (asns_of self.now) ≡ true → has graph.now a ≡ true) }
    {
        for (line, asn) in self.items.as_slice() {
            if !graph.has(*asn) {
                return Some(*line);
            }
        }
        None
    }
}

/// What a file of activations says. Lines are numbered from 1, and skipped lines count.
#[derive(Drop)]
pub struct Acts {
    /// The number of the line that names the round and the prefix.
    pub for_line: u32,
    /// The round.
    pub round: u32,
    /// The prefix.
    pub prefix: Prefix,
    /// What ASes hold before the first activation.
    pub held: Routing,
    /// The ASes that are activated, in turn.
    pub list: Path,
    /// The ASes that hold something or are activated.
    pub named: NamedAses,
}

impl Acts {
    /// The first line that names what is no AS of the graph; `None` exactly where each AS that a line
    /// names is one.
    pub fn first_foreign(&self, graph: &Graph) -> Option<u32>
        ensures value { result ≡ first_foreign_in (has graph.now) self.now.named }
        ensures none { IfNone result ((a : ℕ) → occurs a (asns_of self.now.named) ≡ true → has graph.now a ≡ true) }
    {
        self.named.first_foreign(graph)
    }
}
