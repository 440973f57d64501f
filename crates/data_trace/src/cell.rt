//! ASes that are counted together.
use crate::End;

/// How many ASes have an end and groups.
#[derive(Clone, Copy, Debug)]
pub struct Cell {
    /// How their traces end.
    pub end: End,
    /// Whether they have no customers.
    pub stub: bool,
    /// The number of their policies' group.
    pub label: u8,
    /// How many there are.
    pub count: u32,
}
