//! Why a payload is not put into a set, and why a file has no payloads.
ghost use Rattle.std.specs.Prelude.{◌≡◌};
ghost use Rattle.roa_table.specs.declared.errors.AddError.TheVariants as add_error;
ghost use Rattle.roa_table.specs.declared.errors.VrpError.TheVariants as fault;

use std::alloc::{AllocError, AllocFailed};

/// Why a payload is not put into a set.
#[derive(Clone, Copy, Debug, PartialEq, Eq)]
pub enum AddError {
    /// Memory ran out.
    Memory,
    /// The payload is new, and 2,000,000 stand.
    TooMany,
}

impl From<AllocError> for AddError {
    ghost from_gives = { λ _ e. e ≡ add_error.Memory };

    fn from(_e: AllocError) -> AddError {
        AddError::Memory
    }
}

/// Why a file has no payloads: the first fault of its first faulty row. Rows are the records of the file,
/// numbered from 1, and the header counts. A row is judged in the order of these variants.
#[derive(Clone, Copy, Debug, PartialEq, Eq)]
pub enum VrpError {
    /// Memory ran out.
    Memory,
    /// The row has fewer than three fields.
    Fields {
        /// The number of the row.
        row: u64,
    },
    /// The first field is no AS number of a payload.
    BadAsn {
        /// The number of the row.
        row: u64,
    },
    /// The second field is no prefix.
    BadPrefix {
        /// The number of the row.
        row: u64,
    },
    /// The third field is neither empty nor a maximum length of the prefix.
    BadMax {
        /// The number of the row.
        row: u64,
    },
    /// The payload is new, and 2,000,000 stand.
    TooMany {
        /// The number of the row.
        row: u64,
    },
}

impl From<AllocError> for VrpError {
    ghost from_gives = { λ _ e. e ≡ fault.Memory };

    fn from(_e: AllocError) -> VrpError {
        VrpError::Memory
    }
}

impl<T: Drop> From<AllocFailed<T>> for VrpError {
    ghost from_gives = { λ _ e. e ≡ fault.Memory };

    fn from(_e: AllocFailed<T>) -> VrpError {
        VrpError::Memory
    }
}
