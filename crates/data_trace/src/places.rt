//! ASes as places, which are numbered from 0.

/// There are fewer places than this, so that each next hop and each end fits in four bytes.
pub const PLACE_LIMIT: usize = 4_294_967_292;

/// Where a link of a list leads: to a place, or nowhere.
pub type Lead = Option<u32>;

/// Where the AS at a place sends a packet.
#[derive(Clone, Copy, Debug, PartialEq, Eq)]
pub enum PlaceHop {
    /// Nowhere: it has no route.
    NoRoute,
    /// Nowhere: it delivers.
    Here,
    /// To the AS at this place.
    To(u32),
}

/// How the trace of the AS at a place ends.
#[derive(Clone, Copy, Debug, PartialEq, Eq)]
pub enum PlaceEnd {
    /// Without a route.
    NoRoute,
    /// As a loop.
    Loop,
    /// At the AS at this place.
    At(u32),
}

/// What is known of the end of a place.
#[derive(Clone, Copy, Debug, PartialEq, Eq)]
pub enum Mark {
    /// Nothing.
    Unknown,
    /// That the walk that goes on has passed it.
    Walked,
    /// The end.
    Known(PlaceEnd),
}

/// What the AS at a place is.
#[derive(Clone, Copy, Debug, PartialEq, Eq)]
pub enum Standing {
    /// No AS of the graph.
    Gone,
    /// An AS without customers.
    Stub,
    /// An AS with customers.
    Transit,
}

/// The groups of an AS.
#[derive(Clone, Copy, Debug, PartialEq, Eq)]
pub struct Group {
    /// What it is.
    pub standing: Standing,
    /// The number of its policy's group.
    pub label: u8,
}
