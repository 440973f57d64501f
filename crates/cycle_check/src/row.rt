//! The list of providers at a place.
ghost use Rattle.std.specs.Prelude.{◌≡◌, ◌<◌};
ghost use Rattle.cycle_check.specs.Rows.{AreRows, count_of, row};

// The list at a place.
pub fn row<'a>(starts: &[u32], items: &'a [u32], place: usize) -> &'a [u32]
    requires rows { AreRows starts.now items.now }
    requires place { place < count_of starts.now }
    ensures { result.now ≡ row starts.now items.now place }
{
    let start = starts[place] as usize;
    let end = starts[place + 1] as usize;
    &items[start..end]
}
