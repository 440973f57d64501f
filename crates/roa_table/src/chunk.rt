//! Payloads of neighbouring prefixes.
ghost use Rattle.std.specs.Prelude.{◌≡◌, not, OnOk, OnErr};
ghost use Rattle.std.specs.Ordering.{is_lt};
ghost use Rattle.net_names.specs.Prelude.{prefix_cmp};
ghost use Rattle.roa_table.specs.Lists.{IsRising, PutsIn, TakesOut, stands_in};

use net_names::{Prefix, Vrp};
use std::alloc::AllocError;

/// The payloads of neighbouring prefixes, in rising order.
#[derive(Drop)]
pub(crate) struct Chunk {
    /// Payloads of lower prefixes stand in the chunks before.
    pub(crate) low: Prefix,
    /// The payloads.
    pub(crate) vrps: Vec<Vrp>,
}

impl Chunk {
    /// Whether the low prefix is not above this one.
    pub(crate) fn starts_by(&self, prefix: Prefix) -> bool
        ensures { result ≡ not (is_lt (prefix_cmp prefix self.now.low)) }
    {
        !prefix.cmp(&self.low).is_lt()
    }

    /// Whether the payload stands here.
    pub(crate) fn has(&self, vrp: Vrp) -> bool
        requires { IsRising self.now.vrps.items }
        ensures { result ≡ stands_in self.now.vrps.items vrp }
    {
        self.vrps.as_slice().binary_search(&vrp).is_ok()
    }

    /// Puts the payload in its place, if it does not stand here yet.
    pub(crate) fn put(&mut self, vrp: Vrp) -> Result<(), AllocError>
        requires { IsRising self.old.vrps.items }
        ensures ok { OnOk result (PutsIn self.old.vrps.items self.new.vrps.items vrp) }
        ensures err { OnErr result (self.new.vrps.items ≡ self.old.vrps.items) }
        ensures low { self.new.low ≡ self.old.low }
    {
        match self.vrps.as_slice().binary_search(&vrp) {
            Ok(_) => Ok(()),
            Err(at) => {
                self.vrps.insert(at, vrp)?;
                Ok(())
            }
        }
    }

    /// Takes the payload out, and tells whether it stood here.
    pub(crate) fn take(&mut self, vrp: Vrp) -> bool
        requires { IsRising self.old.vrps.items }
        ensures gone { TakesOut self.old.vrps.items self.new.vrps.items vrp }
        ensures found { result ≡ stands_in self.old.vrps.items vrp }
        ensures low { self.new.low ≡ self.old.low }
    {
        match self.vrps.as_slice().binary_search(&vrp) {
            Ok(at) => {
                let _ = self.vrps.remove(at);
                true
            }
            Err(_) => false,
        }
    }
}
