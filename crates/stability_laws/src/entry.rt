//! What an AS holds, and what it puts in by itself.
ghost use Rattle.std.specs.Prelude.{◌≡◌, IfOk};

use net_names::{Asn, Class, NoMemory, Path};
use std::alloc::Global;

/// What an AS holds for a prefix.
#[derive(Drop)]
pub struct Entry {
    /// How it came to the AS.
    pub class: Class,
    /// The ASes that it came through: the AS itself first, the origin last.
    pub path: Path,
    /// The number that it carries in the attribute Only to Customer, where it has one.
    /// Source: RFC 9234, section 5.
    pub otc: Option<Asn>,
}

/// What an AS puts in by itself for a prefix, whatever it receives.
#[derive(Drop)]
pub struct Seed {
    /// The path that it announces or leaks, as it holds it.
    pub path: Path,
    /// The number that it carries in the attribute Only to Customer, where it has one.
    pub otc: Option<Asn>,
}

impl Entry {
    /// The same entry once more.
    pub fn copied(&self, alloc: Global) -> Result<Entry, NoMemory>
        ensures { IfOk result (λ e. e ≡ self.now) }
    {
        Ok(Entry {
            class: self.class,
            path: self.path.copied(alloc)?,
            otc: self.otc,
        })
    }
}
