//! Next hops, and traces with their ends.
use net_names::{Asn, Path};

/// Where an AS sends a packet.
#[derive(Clone, Copy, Debug, PartialEq, Eq)]
pub enum Hop {
    /// Nowhere: it announces the prefix, and the packet is delivered.
    Here,
    /// To this AS.
    To(Asn),
    /// Nowhere: it has no route.
    NoRoute,
}

/// How a trace ends.
#[derive(Clone, Copy, Debug, PartialEq, Eq)]
pub enum End {
    /// The packet is delivered at this AS.
    At(Asn),
    /// It comes to an AS that has no route.
    NoRoute,
    /// It comes to an AS for the second time.
    Loop,
}

/// The way of a packet.
#[derive(Drop)]
pub struct Trace {
    /// The distinct ASes that it passes, in their order, the one where it starts first.
    pub walk: Path,
    /// How it ends.
    pub end: End,
}

/// A group of ASes that are counted together.
#[derive(Clone, Copy, Debug, PartialEq, Eq)]
pub enum Which {
    /// All ASes.
    All,
    /// The ASes without customers.
    Stub,
    /// The ASes whose policies have this number.
    Label(u8),
}
