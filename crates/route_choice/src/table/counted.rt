//! How many entries a table has.

ghost use Rattle.std.specs.Prelude.{ℕ};
ghost use Rattle.route_choice.specs.Counted.{AreUsesCounted};

use super::Table;

/// What holds of every table: no path is used by more entries than there are ASes that hold
/// something.
pub fn uses_are_counted(table: &Table)
    ensures { (k : ℕ) → AreUsesCounted table.now k }
{
    // `len` is called for its clause that no AS stands twice, which the proof cites.
    let _count = table.slots.len();
}
