//! Answers of a simulation.
ghost use Rattle.std.specs.Prelude.{◌≡◌, ◌≤◌, ◌&&◌, true, false, Some, IfOk, IfErr, IfNone, IfSome, OnOk, OnErr};
ghost use Rattle.std.specs.FinMap as fin;
ghost use Rattle.std.specs.FinSet as set;
ghost use Rattle.as_graph.specs.Prelude.{as_count};
ghost use Rattle.data_trace.specs.Prelude.{next_hop, IsTrace};
ghost use Rattle.scenario_text.specs.declared.acts.Query.TheVariants as query;
ghost use Rattle.sim_core.specs.Answers.{Answers, IsQueryRefusal};
ghost use Rattle.sim_core.specs.Parts.{AreTablesOf, IsTableOf, no_round, no_table};
ghost use Rattle.sim_core.specs.Watching.{IsPlace, IsWatchOf, no_watch};
ghost use Rattle.sim_core.specs.Sims.{IsAnswered, kept, world_seen};
ghost use Rattle.sim_core.specs.World.{has_round, topology};
ghost use Rattle.as_graph.specs.declared.build.TheConstants.{MOST_ASES};
ghost use Rattle.net_names.specs.declared.links.TheConstants.{MOST_LINKS};

use crate::watching::place_of_addr;
use crate::{QueryError, Sim};
use data_trace::{Trace, Watch, trace};
use net_names::{Addr, Asn, NoMemory, Prefix};
use origin_validation::explain;
use reports::{put_ranks, put_report, put_route, put_routes, put_trace, put_validity};
use route_choice::{RoundTables, Table};
use scenario_text::Query;
use std::alloc::Global;

impl Sim {
    // The table of a round for a prefix.
    pub(crate) fn table_of(&self, round: u32, prefix: Prefix) -> Result<&Table, QueryError>
        ensures found { IfOk result (λ t. IsTableOf (world_seen self.now) self.now.parts.rounds round prefix t.now) }
        ensures refused { IfErr result (λ e. no_table (world_seen self.now) round prefix ≡ Some e) }
    {
        let Some(tables) = self.parts.rounds.round(round) else {
            return Err(QueryError::UnknownRound { round });
        };
        match tables.table(prefix) {
            Some(table) => Ok(table),
            None => Err(QueryError::UnknownPrefix { prefix }),
        }
    }

    // Appends the table of a round for a prefix.
    fn put_routes(&self, round: u32, prefix: Prefix, out: &mut Vec<u8>) -> Result<(), QueryError>
        ensures { IsAnswered self.now (query.Routes round prefix) out.old.items out.new.items result }
    {
        let table = self.table_of(round, prefix)?;
        put_routes(out, &self.parts.graph, table, self.parts.rounds.pool())?;
        Ok(())
    }

    // Appends the row of an AS in that table.
    fn put_route(
        &self,
        round: u32,
        prefix: Prefix,
        asn: Asn,
        out: &mut Vec<u8>,
    ) -> Result<(), QueryError>
        ensures { IsAnswered self.now (query.Route round prefix asn) out.old.items out.new.items result }
    {
        let table = self.table_of(round, prefix)?;
        if !self.parts.graph.has(asn) {
            return Err(QueryError::UnknownAs { asn });
        }
        put_route(out, table, self.parts.rounds.pool(), asn)?;
        Ok(())
    }

    // The tables of a round.
    fn tables_of(&self, round: u32) -> Result<&RoundTables, QueryError>
        ensures found { IfOk result (λ t. AreTablesOf (world_seen self.now) self.now.parts.rounds round t.now) }
        ensures refused { IfErr result (λ e. no_round (world_seen self.now) round ≡ Some e) }
    {
        match self.parts.rounds.round(round) {
            Some(tables) => Ok(tables),
            None => Err(QueryError::UnknownRound { round }),
        }
    }

    // The trace from an AS to an address, over the tables of a round.
    fn trace_of(
        &self,
        alloc: Global,
        _round: u32,
        tables: &RoundTables,
        asn: Asn,
        addr: Addr,
    ) -> Result<Trace, NoMemory>
        requires { AreTablesOf (world_seen self.now) self.now.parts.rounds _round tables.now }
        ensures { IfOk result (λ t.
            IsTrace (next_hop (world_seen self.now).plan ((kept self.now).routings _round) addr) asn t.walk t.end) }
    {
        let (pool, plan) = (self.parts.rounds.pool(), self.parts.rounds.seed_plan());
        trace(alloc, tables, pool, plan, asn, addr)
    }

    // Appends the trace from an AS to an address.
    fn put_trace(
        &self,
        round: u32,
        asn: Asn,
        addr: Addr,
        out: &mut Vec<u8>,
    ) -> Result<(), QueryError>
        ensures { IsAnswered self.now (query.Trace round asn addr) out.old.items out.new.items result }
    {
        let tables = self.tables_of(round)?;
        if !self.parts.graph.has(asn) {
            return Err(QueryError::UnknownAs { asn });
        }
        let trace = self.trace_of(*out.allocator(), round, tables, asn, addr)?;
        put_trace(out, &trace)?;
        Ok(())
    }

    // The watch of a round and of the address at a place.
    fn watch_at(&self, round: u32, _addr: Addr, place: usize) -> &Watch
        requires round { has_round (world_seen self.now) round ≡ true }
        requires place { IsPlace self.now.parts.watched.items _addr place }
        ensures { IsWatchOf (world_seen self.now) (kept self.now) round _addr result.now }
    {
        &self.parts.watches[round as usize - 1].watches[place]
    }

    // The watch of a round and an address.
    fn watch_of(&self, round: u32, addr: Addr) -> Result<&Watch, QueryError>
        ensures found { IfOk result (λ w. IsWatchOf (world_seen self.now) (kept self.now) round addr w.now) }
        ensures refused { IfErr result (λ e. no_watch (world_seen self.now) round addr ≡ Some e) }
    {
        // `tables_of` is called for its refusal of a round that isn't there.
        let _tables = self.tables_of(round)?;
        match place_of_addr(self.parts.watched.as_slice(), addr) {
            Some(place) => Ok(self.watch_at(round, addr, place)),
            None => Err(QueryError::NotWatched { addr }),
        }
    }

    /// The watch of a round and a watched address; `None` exactly where the world has not the round or the address is
    /// not watched.
    pub fn watched(&self, round: u32, addr: Addr) -> Option<&Watch>
        ensures found { IfSome result (λ w. IsWatchOf (world_seen self.now) (kept self.now) round addr w.now) }
        ensures none { IfNone result
            ((has_round (world_seen self.now) round && set.contains (world_seen self.now).watched addr) ≡ false) }
    {
        match self.watch_of(round, addr) {
            Ok(watch) => Some(watch),
            Err(_) => None,
        }
    }

    // Appends the counts of a watched address.
    fn put_report(&self, round: u32, addr: Addr, out: &mut Vec<u8>) -> Result<(), QueryError>
        ensures { IsAnswered self.now (query.Report round addr) out.old.items out.new.items result }
    {
        let watch = self.watch_of(round, addr)?;
        put_report(out, self.parts.rounds.seed_plan(), watch)?;
        Ok(())
    }

    // Appends the ranks of all ASes.
    fn put_ranks(&self, out: &mut Vec<u8>) -> Result<(), QueryError>
        ensures { IsAnswered self.now query.Ranks out.old.items out.new.items result }
    {
        put_ranks(out, &self.parts.graph, &self.parts.ranks)?;
        Ok(())
    }

    // Appends the state of a prefix with an origin, and the payloads that cover the prefix.
    fn put_validity(&self, prefix: Prefix, origin: Asn, out: &mut Vec<u8>) -> Result<(), QueryError>
        ensures { IsAnswered self.now (query.Validity prefix origin) out.old.items out.new.items result }
    {
        let explained = explain(*out.allocator(), &self.parts.vrps, prefix, origin)?;
        put_validity(out, &explained)?;
        Ok(())
    }

    /// Appends the answer to a query. It is refused exactly where it names something that the world has
    /// not: `UnknownRound`, `UnknownPrefix`, `UnknownAs` or `NotWatched`, tested in this order among what
    /// it names. After a refusal `out` is as it was.
    pub fn answer(&self, query: &Query, out: &mut Vec<u8>) -> Result<(), QueryError>
        ensures answered { OnOk result (Answers (world_seen self.now) (kept self.now) query.now
            out.old.items out.new.items) }
        ensures refused { IfErr result (IsQueryRefusal (world_seen self.now) query.now) }
        ensures err { OnErr result (out.new.items ≡ out.old.items) }
    {
        match query {
            Query::Routes { round, prefix } => self.put_routes(*round, *prefix, out),
            Query::Route { round, prefix, asn } => self.put_route(*round, *prefix, *asn, out),
            Query::Trace { round, asn, addr } => self.put_trace(*round, *asn, *addr, out),
            Query::Report { round, addr } => self.put_report(*round, *addr, out),
            Query::Ranks => self.put_ranks(out),
            Query::Validity { prefix, asn } => self.put_validity(*prefix, *asn, out),
        }
    }

    /// How many ASes the world has, at most 150,000.
    pub fn as_count(&self) -> usize
        ensures value { result ≡ as_count (topology (world_seen self.now)) }
        ensures few { result ≤ MOST_ASES }
    {
        self.parts.graph.as_count()
    }

    /// How many links the world has, at most 1,500,000.
    pub fn link_count(&self) -> usize
        ensures value { result ≡ fin.len (world_seen self.now).links }
        ensures few { result ≤ MOST_LINKS }
    {
        self.parts.graph.link_count()
    }
}
