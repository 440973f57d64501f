//! Why a world is not loaded, why an edit is refused, and why a query is.
ghost use Rattle.std.specs.Prelude.{◌≡◌};
ghost use Rattle.sim_core.specs.declared.errors.EditError.TheVariants as edit;
ghost use Rattle.sim_core.specs.declared.errors.LoadError.TheVariants as load;
ghost use Rattle.sim_core.specs.declared.errors.QueryError.TheVariants as query;

use cycle_check::Cycle;
use net_names::{Addr, Asn, NoMemory, Prefix, Vrp};
use thiserror::Error;

/// Why a world is not loaded.
#[derive(Debug, Drop, Error)]
pub enum LoadError {
    /// Memory ran out.
    #[error("out of memory")]
    Memory,
    /// The world has more than 150,000 ASes.
    #[error("more than 150000 ASes")]
    TooManyAses,
    /// The links have this provider cycle.
    #[error("provider cycle")]
    ProviderCycle(Cycle),
}

impl From<NoMemory> for LoadError {
    ghost from_gives = { λ _ e. e ≡ load.Memory };

    fn from(_e: NoMemory) -> LoadError {
        LoadError::Memory
    }
}

/// A limit that an edited world would pass.
#[derive(Clone, Copy, Debug, PartialEq, Eq)]
pub enum EditLimit {
    /// It would have more than 1,500,000 links.
    Links,
    /// It would have more than 64 announcements.
    Announcements,
    /// It would have more than 150,000 ASes.
    Ases,
    /// It would have more than 2,000,000 payloads.
    Vrps,
}

/// Why an edit is refused: the first reason in the order of the variants.
#[derive(Debug, Drop, Error)]
pub enum EditError {
    /// Memory ran out.
    #[error("out of memory")]
    Memory,
    /// The pair has no link.
    #[error("absent link")]
    AbsentLink {
        /// The lower number.
        lo: Asn,
        /// The higher number.
        hi: Asn,
    },
    /// The payload is not there.
    #[error("absent payload")]
    AbsentVrp {
        /// The payload.
        vrp: Vrp,
    },
    /// The world has no such prefix.
    #[error("unknown prefix")]
    UnknownPrefix {
        /// The prefix.
        prefix: Prefix,
    },
    /// The AS does not announce the prefix, which the world has.
    #[error("absent announcement")]
    AbsentAnnouncement {
        /// The prefix.
        prefix: Prefix,
        /// The AS.
        asn: Asn,
    },
    /// The edited world would pass a limit.
    #[error("limit")]
    Limit {
        /// Which limit.
        which: EditLimit,
    },
    /// The new link would close this provider cycle, which begins with the link's provider and customer.
    #[error("provider cycle")]
    ProviderCycle(Cycle),
}

impl From<NoMemory> for EditError {
    ghost from_gives = { λ _ e. e ≡ edit.Memory };

    fn from(_e: NoMemory) -> EditError {
        EditError::Memory
    }
}

/// Why a query is refused: the first thing, in the order of the variants, that it names and the world has not.
#[derive(Clone, Copy, Debug, PartialEq, Eq, Error)]
pub enum QueryError {
    /// Memory ran out.
    #[error("out of memory")]
    Memory,
    /// The world has no such round.
    #[error("unknown round {round}")]
    UnknownRound {
        /// The round.
        round: u32,
    },
    /// The world has no such prefix.
    #[error("unknown prefix")]
    UnknownPrefix {
        /// The prefix.
        prefix: Prefix,
    },
    /// The world has no such AS.
    #[error("unknown AS")]
    UnknownAs {
        /// The AS.
        asn: Asn,
    },
    /// The address is not watched.
    #[error("not watched")]
    NotWatched {
        /// The address.
        addr: Addr,
    },
}

impl From<NoMemory> for QueryError {
    ghost from_gives = { λ _ e. e ≡ query.Memory };

    fn from(_e: NoMemory) -> QueryError {
        QueryError::Memory
    }
}
