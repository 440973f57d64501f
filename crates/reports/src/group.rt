//! The groups of ASes that are counted together.
ghost use Rattle.std.specs.Prelude.{◌≡◌, ◌++◌, OnOk, OnErr};
ghost use Rattle.data_trace.specs.Prelude.{rows_of};
ghost use Rattle.reports.specs.Counts.{group_name};
ghost use Rattle.reports.specs.Groups.{group_size, is_printed as is_group_printed, which_of};
ghost use Rattle.reports.specs.Growth.{Grows};

use data_trace::{Watch, Which};
use net_names::{NoMemory, put_bytes};
use policy_kinds::{Kind, put_kind};
use policy_laws::Labelled;

/// A group of ASes.
#[derive(Clone, Copy)]
pub enum Group {
    /// All ASes.
    Total,
    /// The ASes without customers.
    Stub,
    /// The ASes whose policy is of the kind.
    Of(Kind),
}

impl Group {
    /// Which ASes the group has.
    pub fn which(self) -> Which
        ensures { result ≡ which_of self }
    {
        match self {
            Group::Total => Which::All,
            Group::Stub => Which::Stub,
            Group::Of(kind) => Which::Label(kind.label()),
        }
    }

    /// Whether the group is printed: a kind is only where some AS has it.
    pub fn is_printed(self, watch: &Watch) -> bool
        ensures { result ≡ is_group_printed (group_size (rows_of watch.now)) self }
    {
        match self {
            Group::Total | Group::Stub => true,
            Group::Of(_) => watch.ases(self.which()) > 0,
        }
    }

    /// Appends the group's name.
    pub fn put_name(self, out: &mut Vec<u8>) -> Result<(), NoMemory>
        ensures ok { OnOk result (out.new.items ≡ out.old.items ++ group_name self) }
        ensures err { OnErr result (Grows out.old.items out.new.items) }
    {
        match self {
            Group::Total => put_bytes(out, b"total"),
            Group::Stub => put_bytes(out, b"stub"),
            Group::Of(kind) => put_kind(out, kind),
        }
    }
}
