//! The lines of a script.
ghost use Rattle.std.specs.Prelude.{◌≡◌, [], ◌∷◌, ◌++◌, OnOk, OnErr, option_copied, slice_get};
ghost use Rattle.scenario_text.specs.LineValues.{IsSoundAct, AreSoundLines};

use crate::acts::Act;
use net_names::NoMemory;
use std::alloc::Global;
use std::marker::Model;

/// A line of a script that isn't skipped. Contracts see its two fields.
#[derive(Drop)]
pub struct Line {
    /// The number of the line in its file, where the first line has number 1 and skipped lines count.
    pub number: u32,
    /// What it asks for.
    pub act: Act,
}

impl Model for Line {
    ghost use Rattle.scenario_text.specs.LineValues.{LineValue};

    ghost Value = { LineValue };

    ghost view = { λ l. record { number = l.number; act = l.act } };

    ghost inverse = { λ l. record { number = l.number; act = l.act } };
}

/// The lines of a script that aren't skipped, in their order. Contracts see the list of them. A link that one of them
/// makes has two different ends, and a path that one of them announces has 1 to 64 numbers.
#[derive(Drop)]
pub struct Lines {
    items: Vec<Line>,
}

impl Model for Lines {
    ghost use Rattle.std.specs.Prelude.{List};
    ghost use Rattle.scenario_text.specs.LineValues.{LineValue};

    ghost Value = { List LineValue };

    ghost use Rattle.scenario_text.specs.LineValues.{AreSoundLines};

    ghost view = { λ l. l.items.items };

    ghost invariant = { λ l. AreSoundLines l.items.items };
}

impl Lines {
    /// No lines.
    pub fn new(alloc: Global) -> Lines
        ensures { result ≡ [] }
    {
        Lines {
            items: Vec::new(alloc),
        }
    }

    /// Puts a line at the end, which makes no link of an AS with itself, and announces no path but of 1 to 64 numbers. `Err`
    /// where there is not enough memory; then the list stays as it was.
    pub fn push(&mut self, line: Line) -> Result<(), NoMemory>
        requires { IsSoundAct line.act }
        ensures ok { OnOk result (self.new ≡ self.old ++ line ∷ []) }
        ensures err { OnErr result (self.new ≡ self.old) }
    {
        self.items.push(line)?;
        Ok(())
    }

    /// The line at a place, counted from 0; `None` exactly where the place is not below their number.
    pub fn at(&self, place: usize) -> Option<&Line>
        ensures { option_copied result ≡ slice_get self.now place }
    {
        self.items.get(place)
    }

    /// The lines in their order.
    pub fn as_slice(&self) -> &[Line]
        ensures value { result.now ≡ self.now }
        ensures sound { AreSoundLines self.now }
    {
        self.items.as_slice()
    }
}
