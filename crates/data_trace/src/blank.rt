//! Columns before any end is sought.
ghost use Rattle.std.specs.Prelude.{IfOk};
ghost use Rattle.data_trace.specs.Blank.{IsBlank};

use crate::packed::PackedMark;
use crate::places::Mark;
use crate::sums::Sums;
use net_names::Asn;
use std::alloc::{AllocError, Global};

/// The marks of places of which no end is known, the sums that count none, and room for a walk.
#[derive(Drop)]
pub struct Blank {
    pub marks: Vec<PackedMark>,
    pub sums: Sums,
    pub path: Vec<u32>,
}

impl Blank {
    /// Those of these places.
    pub fn of(alloc: Global, ases: &[Asn]) -> Result<Blank, AllocError>
        ensures { IfOk result (λ b. IsBlank ases.now b) }
    {
        let marks = vec![in alloc; PackedMark::of(Mark::Unknown); ases.len()]?;
        let path = Vec::with_capacity(alloc, ases.len())?;
        let sums = Sums::with_room(alloc, ases.len())?;
        Ok(Blank { marks, sums, path })
    }
}
