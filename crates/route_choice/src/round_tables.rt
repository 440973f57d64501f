//! The tables of one round.

ghost use Rattle.std.specs.Prelude.{◌≡◌, ℕ, Some, None, OnOk, OnErr, IfSome, slice_get};
ghost use Rattle.std.specs.Option.{option_copied, option_copied_mut};
ghost use Rattle.std.specs.Borrow.{sem};
ghost use Rattle.indexmap.specs.IndexMap.{keys};

use crate::Table;
use indexmap::IndexMap;
use net_names::{NoMemory, Prefix};
use std::alloc::Global;

// Where a prefix stands among others, of which there are few.
fn index_among(prefixes: &[Prefix], prefix: Prefix) -> Option<usize>
    ensures { IfSome result (λ i. slice_get prefixes.now i ≡ Some prefix) }
{
    for (index, one) in prefixes.iter().enumerate() {
        if *one == prefix {
            return Some(index);
        }
    }
    None
}

// Where a prefix stands among those of the tables.
fn index_in(tables: &IndexMap<Prefix, Table>, prefix: Prefix) -> Option<usize>
    ensures { IfSome result (λ i. slice_get (keys tables.now) i ≡ Some prefix) }
{
    index_among(tables.keys().as_slice(), prefix)
}

/// The tables of one round, one for each prefix. They are at most a few dozen.
#[derive(Drop)]
pub struct RoundTables {
    tables: IndexMap<Prefix, Table>,
}

impl RoundTables {
    ghost use Rattle.net_names.specs.Prelude.{PrefixValue};
    ghost use Rattle.route_choice.specs.Tables.{prefix_of};
    ghost use Rattle.route_choice.specs.RoundTables.{table_at, tables_uses, AreByPrefix, SameTables, PutsTable, lends_table};

    /// No table.
    pub fn new(alloc: Global) -> RoundTables
        ensures none { (p : PrefixValue) → table_at result p ≡ None }
        ensures uses { (k : ℕ) → tables_uses result k ≡ 0 }
    {
        RoundTables {
            tables: IndexMap::new(alloc),
        }
    }

    /// Adds a table, at a prefix that has none. After a refusal the tables are as before, and the
    /// new one is dropped.
    pub fn push(&mut self, table: Table) -> Result<(), NoMemory>
        requires { table_at self.old (prefix_of table) ≡ None }
        ensures ok { OnOk result (PutsTable self.old self.new (prefix_of table) table) }
        ensures by_prefix { OnOk result (AreByPrefix self.old → AreByPrefix self.new) }
        ensures err { OnErr result (SameTables self.old self.new) }
    {
        self.tables.insert(table.prefix(), table)?;
        Ok(())
    }

    /// The table of a prefix, if there is one.
    pub fn table(&self, prefix: Prefix) -> Option<&Table>
        ensures { option_copied result ≡ table_at self.now prefix }
    {
        let Some(index) = index_in(&self.tables, prefix) else {
            return self.tables.get(&prefix);
        };
        match self.tables.get_index(index) {
            Some((_, table)) => Some(table),
            None => unreachable!(),
        }
    }

    /// The table of a prefix, to be changed in place, if there is one.
    pub fn table_mut(&mut self, prefix: Prefix) -> Option<&mut Table>
        ensures* writes_back { sem 𝓛 (lends_table self.entry prefix result) }
        ensures value { option_copied_mut result ≡ table_at self.old prefix }
    {
        match index_in(&self.tables, prefix) {
            Some(index) => self.tables.get_index_mut(index),
            None => self.tables.get_mut(&prefix),
        }
    }
}
