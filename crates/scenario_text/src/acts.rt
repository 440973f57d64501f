//! What the lines of a script ask for.
use net_names::{Addr, Asn, Path, Prefix, Rel, Vrp};
use policy_kinds::Kind;

/// A change of a world.
#[derive(Drop)]
pub enum Edit {
    /// The pair's link becomes this one; `rel` is what `b` is to `a`. The two ASes of a line differ.
    Link {
        /// The first AS.
        a: Asn,
        /// The second AS.
        b: Asn,
        /// What the second AS is to the first.
        rel: Rel,
    },
    /// The pair's link goes. The two ASes of a line differ.
    Unlink {
        /// The first AS.
        a: Asn,
        /// The second AS.
        b: Asn,
    },
    /// The AS has this kind of policy from now on.
    Policy {
        /// The AS.
        asn: Asn,
        /// The kind.
        kind: Kind,
    },
    /// The payload is added.
    VrpAdd {
        /// The payload.
        vrp: Vrp,
    },
    /// The payload is taken out.
    VrpTake {
        /// The payload.
        vrp: Vrp,
    },
    /// The first AS of the path announces the prefix with this path from now on. The path of a line has 1 to 64 numbers.
    Announce {
        /// The prefix.
        prefix: Prefix,
        /// The path.
        path: Path,
    },
    /// The AS doesn't announce the prefix any more.
    Withdraw {
        /// The prefix.
        prefix: Prefix,
        /// The AS.
        asn: Asn,
    },
}

/// A question about a world. Rounds are numbered from 1; a line may ask for a round that isn't there.
#[derive(Clone, Copy, Debug, PartialEq, Eq)]
pub enum Query {
    /// The table of a round for a prefix.
    Routes {
        /// The round, from 0 to 999999999.
        round: u32,
        /// The prefix.
        prefix: Prefix,
    },
    /// The row of one AS in that table.
    Route {
        /// The round, from 0 to 999999999.
        round: u32,
        /// The prefix.
        prefix: Prefix,
        /// The AS.
        asn: Asn,
    },
    /// The way of a packet from an AS to an address.
    Trace {
        /// The round, from 0 to 999999999.
        round: u32,
        /// The AS at which the packet begins.
        asn: Asn,
        /// The address that it is for.
        addr: Addr,
    },
    /// How many ASes reach whom, for a watched address.
    Report {
        /// The round, from 0 to 999999999.
        round: u32,
        /// The address.
        addr: Addr,
    },
    /// The ranks of all ASes.
    Ranks,
    /// The state of a prefix with an origin, and the payloads that cover it.
    Validity {
        /// The prefix.
        prefix: Prefix,
        /// The origin.
        asn: Asn,
    },
}

/// What a line asks for.
#[derive(Drop)]
pub enum Act {
    /// A change.
    Edit(Edit),
    /// A question.
    Query(Query),
}
