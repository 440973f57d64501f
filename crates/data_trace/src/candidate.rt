//! The tables that may say where a packet goes.
use net_names::Prefix;
use route_choice::Table;

/// A prefix that holds the address, with its table.
#[derive(Clone, Copy)]
pub struct Candidate<'a> {
    pub prefix: Prefix,
    pub table: &'a Table,
}
