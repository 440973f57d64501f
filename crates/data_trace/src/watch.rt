//! The ends of all traces of one round and one address.
ghost use Rattle.std.specs.Prelude.{◌≡◌, ℕ, ◌+◌, ◌<◌, ◌≤◌, [], ◌∷◌, ◌++◌, Bool, true, false, length, vec_capacity, nat_eq, IfOk, OnOk, IfSome, IfNone};
ghost use Rattle.data_trace.specs.declared.places.TheConstants.{PLACE_LIMIT};
ghost use Rattle.std.specs.List.{IsDistinct};
ghost use Rattle.std.proofs.Props.{props};
ghost use Rattle.net_names.specs.Prelude.{occurs};
ghost use Rattle.as_graph.specs.Prelude.{Topology, as_count};
ghost use Rattle.route_choice.specs.Prelude.{round_routing, AreAllLive};
ghost use Rattle.stability_laws.specs.Prelude.{policy_at};
ghost use Rattle.data_trace.specs.Hops.{next_hop as next_hop_of};
ghost use Rattle.data_trace.specs.declared.kinds.End.{End as AnEnd};
ghost use Rattle.data_trace.specs.declared.places.Mark.TheVariants as AMark;
ghost use Rattle.data_trace.specs.declared.places.PlaceHop.TheVariants as APlaceHop;
ghost use Rattle.data_trace.specs.Marks.{hop_at, next_of, mark_of, IsWithin, AreEnds};
ghost use Rattle.data_trace.specs.Keeping.{AreKept};
ghost use Rattle.data_trace.specs.Watches.{Row, AreRows, IsRowOf, StaysInside, size_of, count_of};
ghost use Rattle.data_trace.specs.Columns.{here_at, group_at, gone};
ghost use Rattle.data_trace.specs.Sums.{room_of, total};
ghost use Rattle.data_trace.specs.Counted.{AreCounted};
ghost use Rattle.data_trace.specs.Kept.{KeepsHops, KeepsGroups};
ghost use Rattle.data_trace.specs.Comes.{Comes};

use crate::blank::Blank;
use crate::columns::{Columns, is_here, next_hops};
use crate::counting::{count_all, end_told};
use crate::differing::Differing;
use crate::growing::reserve_all;
use crate::index::WatchIndex;
use crate::keeping::Lists;
use crate::lists::put_last;
use crate::packed::{PackedHop, PackedMark, mark_in};
use crate::places::{Group, Mark, PLACE_LIMIT, PlaceEnd, PlaceHop, Standing};
use crate::renewal::{regroup, renew};
use crate::source::Source;
use crate::sums::Sums;
use crate::walks::find_all;
use crate::{End, Which};
use as_graph::Graph;
use as_places::AsPlaces;
use net_names::{Addr, Asn, NoMemory};
use path_pool::PathPool;
use policy_laws::Labelled;
use route_choice::RoundTables;
use stability_laws::{Book, SeedPlan};
use std::alloc::Global;

/// Of each AS of a graph its next hop, the end of its trace and its groups, for one round and one
/// address. Contracts see a row per AS, the address, and `spare`: how many more ASes fit without
/// allocating. ASes stand at places, and the place of an AS that goes stays. How many ASes each group has
/// with each end is kept in sums. Which places send to which is kept in lists from the first `room` on.
#[derive(Drop)]
pub struct Watch {
    alloc: Global,
    addr: Addr,
    ases: AsPlaces,
    spare: usize,
    columns: Columns,
    has_lists: bool,
    lists: Lists,
    ghost few: { length ases.ases + spare < PLACE_LIMIT },
    ghost apart: { IsDistinct nat_eq ases.ases } by { Prim.hlevel props },
    ghost hops_len: { length columns.hops.items ≡ length ases.ases },
    ghost within: { IsWithin columns.hops.items },
    ghost ends: { AreEnds (next_of columns.hops.items) (length columns.hops.items) columns.marks.items },
    ghost counted: { AreCounted columns.sums ases.ases columns.marks.items columns.groups.items },
    ghost absent: { (x : ℕ) → here_at columns.groups.items x ≡ false → hop_at columns.hops.items x ≡ APlaceHop.NoRoute },
    ghost kept: { has_lists ≡ true → AreKept columns.hops.items (length ases.ases + spare) lists },
    ghost ready: { 0 < spare → has_lists ≡ true },
    ghost ases_room: { spare ≤ ases.spare },
    ghost hops_room: { length ases.ases + spare ≤ vec_capacity columns.hops },
    ghost marks_room: { length ases.ases + spare ≤ vec_capacity columns.marks },
    ghost groups_room: { length ases.ases + spare ≤ vec_capacity columns.groups },
    ghost sums_room: { has_lists ≡ true → length ases.ases + spare ≤ room_of columns.sums },
}

impl Watch {
    ghost use Rattle.data_trace.specs.Views.{rows_of, addr_of, spare_of, SameColumns};
    ghost use Rattle.data_trace.specs.Indexes.{IsIndexOf, StaysAmong};

    /// The next hops, ends and groups of all ASes of the graph, in the round of the tables and for the
    /// address. The label of an AS is that of its policy.
    ///
    /// The path of every entry is live, and where an AS does not announce the prefix the second AS of
    /// its path is an AS of the graph. It takes time by the number of the ASes and links, times the
    /// number of prefixes that hold the address. Its only refusal is want of memory.
    pub fn build<P: Labelled>(
        alloc: Global,
        graph: &Graph,
        tables: &RoundTables,
        pool: &PathPool,
        plan: &SeedPlan,
        book: &Book<P>,
        addr: Addr,
    ) -> Result<Watch, NoMemory>
        requires live { AreAllLive pool.now tables.now }
        requires inside { StaysInside graph.now plan.now (round_routing pool.now tables.now) }
        ensures rows { IfOk result (λ w.
            AreRows graph.now (next_hop_of plan.now (round_routing pool.now tables.now) addr)
            (λ a. P.label_of (policy_at book.now a)) (rows_of w)) }
        ensures addr { IfOk result (λ w. addr_of w ≡ addr) }
    {
        let index = WatchIndex::of(alloc, graph, book)?;
        Watch::by_index(alloc, &index, tables, pool, plan, addr)
    }

    /// The watch that [`build`](Watch::build) makes of the graph and the book whose index is given. Who
    /// makes several watches of them makes the index once.
    ///
    /// It wants of the tables what `build` wants. It takes time by the number of the ASes, times the
    /// number of prefixes that hold the address. Its only refusal is want of memory.
    pub fn by_index(
        alloc: Global,
        index: &WatchIndex,
        tables: &RoundTables,
        pool: &PathPool,
        plan: &SeedPlan,
        addr: Addr,
    ) -> Result<Watch, NoMemory>
        requires live { AreAllLive pool.now tables.now }
        requires inside { StaysAmong index.now plan.now (round_routing pool.now tables.now) }
        ensures rows { IfOk result (λ w. (g : Topology) (label : ℕ → ℕ) → IsIndexOf g label index.now →
            AreRows g (next_hop_of plan.now (round_routing pool.now tables.now) addr) label (rows_of w)) }
        ensures addr { IfOk result (λ w. addr_of w ≡ addr) }
    {
        let next = next_hops(alloc, tables, pool, plan, addr, &index.ases, &index.hints)?;
        let ases = AsPlaces::of(alloc, index.ases.as_slice())?;
        let groups = Vec::from_slice(alloc, index.groups.as_slice())?;
        Watch::over(alloc, addr, ases, next, groups)
    }

    // A watch of these ASes, next hops and groups.
    fn over(
        alloc: Global,
        addr: Addr,
        ases: AsPlaces,
        hops: Vec<PackedHop>,
        groups: Vec<Group>,
    ) -> Result<Watch, NoMemory>
        requires few { length ases.ases < PLACE_LIMIT }
        requires apart { IsDistinct nat_eq ases.ases }
        requires len { length hops.items ≡ length ases.ases }
        requires groups_len { length groups.items ≡ length ases.ases }
        requires within { IsWithin hops.items }
        requires here { (x : ℕ) → x < length ases.ases → here_at groups.items x ≡ true }
        ensures ases { IfOk result (λ w. w.ases.ases ≡ ases.ases) }
        ensures hops { IfOk result (λ w. w.columns.hops.items ≡ hops.items) }
        ensures groups { IfOk result (λ w. w.columns.groups.items ≡ groups.items) }
        ensures addr { IfOk result (λ w. w.addr ≡ addr) }
    {
        let blank = Blank::of(alloc, ases.as_slice())?;
        let columns = Columns {
            hops,
            marks: blank.marks,
            groups,
            sums: blank.sums,
        };
        let mut watch = Watch::filled(alloc, addr, ases, columns, blank.path);
        watch.trim()?;
        Ok(watch)
    }

    // The watch of these columns, with its ends, which are counted at last. It goes along the path.
    fn filled(
        alloc: Global,
        addr: Addr,
        ases: AsPlaces,
        mut columns: Columns,
        mut path: Vec<u32>,
    ) -> Watch
        requires few { length ases.ases < PLACE_LIMIT }
        requires apart { IsDistinct nat_eq ases.ases }
        requires len { length columns.hops.items ≡ length ases.ases }
        requires within { IsWithin columns.hops.items }
        requires here { (x : ℕ) → x < length ases.ases → here_at columns.groups.items x ≡ true }
        requires unknown { (x : ℕ) → mark_of columns.marks.items x ≡ AMark.Unknown }
        requires marks_len { length columns.marks.items ≡ length ases.ases }
        requires groups_len { length columns.groups.items ≡ length ases.ases }
        requires none { (p : AnEnd → Bool → ℕ → Bool) → total p columns.sums ≡ 0 }
        requires sums_room { length ases.ases ≤ room_of columns.sums }
        requires path_room { length ases.ases ≤ vec_capacity path }
        ensures ases { result.ases.ases ≡ ases.ases }
        ensures hops { result.columns.hops.items ≡ columns.hops.items }
        ensures groups { result.columns.groups.items ≡ columns.groups.items }
        ensures addr { result.addr ≡ addr }
        ensures lists { result.has_lists ≡ false }
    {
        find_all(
            columns.hops.as_slice(),
            columns.marks.as_mut_slice(),
            &mut path,
        );
        count_all(
            &mut columns.sums,
            ases.as_slice(),
            columns.marks.as_slice(),
            columns.groups.as_slice(),
        );
        Watch {
            alloc,
            addr,
            ases,
            spare: 0,
            columns,
            has_lists: false,
            lists: Lists::none(alloc),
        }
    }

    // Gives up the room in the sums for further cells, which they get again with the lists.
    fn trim(&mut self) -> Result<(), NoMemory>
        requires { self.old.has_lists ≡ false }
        ensures { SameColumns self.old self.new }
    {
        self.columns.sums = self.columns.sums.copied(self.alloc)?;
        Ok(())
    }

    // The watch of no AS. Takes no memory.
    fn of_none(alloc: Global, addr: Addr) -> Watch
        ensures ases { result.ases.ases ≡ [] }
        ensures addr { result.addr ≡ addr }
    {
        let ases = AsPlaces::new(alloc);
        let columns = Columns {
            hops: Vec::new(alloc),
            marks: Vec::new(alloc),
            groups: Vec::new(alloc),
            sums: Sums::none(alloc),
        };
        Watch::filled(alloc, addr, ases, columns, Vec::new(alloc))
    }

    // Makes the lists of all places, and room in the sums for a cell for each place, unless they are there.
    fn list_all(&mut self) -> Result<(), NoMemory>
        ensures same { SameColumns self.old self.new }
        ensures lists { OnOk result (self.new.has_lists ≡ true) }
    {
        if self.has_lists {
            return Ok(());
        }
        self.columns.sums.reserve(self.ases.len() + self.spare)?;
        self.lists = Lists::of(self.alloc, self.columns.hops.as_slice())?;
        self.has_lists = true;
        Ok(())
    }

    // Makes room in all columns for `more` further places.
    fn reserve(&mut self, more: usize) -> Result<(), NoMemory>
        requires few { length self.old.ases.ases + more < PLACE_LIMIT }
        requires lists { self.old.has_lists ≡ true }
        ensures same { SameColumns self.old self.new }
        ensures spare { OnOk result (self.new.spare ≡ more) }
    {
        match reserve_all(&mut self.ases, &mut self.columns, &mut self.lists, more) {
            Ok(()) => {
                self.spare = more;
                Ok(())
            }
            Err(_) => Err(NoMemory),
        }
    }

    /// Makes room for all ASes of the graph, so that an update can keep them without memory. Its only
    /// refusal is want of memory. All else stays, whatever the result.
    pub fn room(&mut self, graph: &Graph) -> Result<(), NoMemory>
        ensures spare { OnOk result (as_count graph.now ≤ spare_of self.new) }
        ensures rows { rows_of self.new ≡ rows_of self.old }
        ensures addr { addr_of self.new ≡ addr_of self.old }
    {
        let count = graph.as_count();
        if count <= self.spare {
            return Ok(());
        }
        if self.ases.len() + count >= PLACE_LIMIT {
            return Err(NoMemory);
        }
        self.list_all()?;
        self.reserve(count)
    }

    // A place for an AS, which is not there yet.
    fn add_place(&mut self, asn: Asn)
        requires new { occurs asn self.old.ases.ases ≡ false }
        requires spare { 0 < self.old.spare }
        ensures ases { self.new.ases.ases ≡ self.old.ases.ases ++ asn ∷ [] }
        ensures spare { self.new.spare + 1 ≡ self.old.spare }
        ensures addr { self.new.addr ≡ self.old.addr }
        ensures hops { self.new.columns.hops.items ≡ self.old.columns.hops.items ++ APlaceHop.NoRoute ∷ [] }
        ensures groups { self.new.columns.groups.items ≡ self.old.columns.groups.items ++ gone ∷ [] }
        ensures lists { self.new.has_lists ≡ self.old.has_lists }
    {
        self.ases.add(asn);
        put_last(&mut self.columns.hops, PackedHop::of(PlaceHop::NoRoute));
        put_last(
            &mut self.columns.marks,
            PackedMark::of(Mark::Known(PlaceEnd::NoRoute)),
        );
        let gone = Group {
            standing: Standing::Gone,
            label: 0,
        };
        put_last(&mut self.columns.groups, gone);
        self.lists.add_place();
        self.spare -= 1;
    }

    // A place for each AS of the list that is in the graph and has none. The place where the row of one of
    // them stands is a hint.
    fn come(&mut self, graph: &Graph, coming: &[Asn], near: usize)
        requires { as_count graph.now ≤ self.old.spare }
        ensures comes { Comes graph.now coming.now self.old.ases.ases self.new.ases.ases }
        ensures addr { self.new.addr ≡ self.old.addr }
        ensures hops { (x : ℕ) → hop_at self.new.columns.hops.items x ≡ hop_at self.old.columns.hops.items x }
        ensures groups { (x : ℕ) →
            group_at self.new.columns.groups.items x ≡ group_at self.old.columns.groups.items x }
        ensures lists { self.new.has_lists ≡ self.old.has_lists }
    {
        // `ases` is called for its clause that these are the ASes of the graph, which the proof cites
        let _all = graph.ases();
        'coming: for asn in coming {
            match self.ases.place_near(*asn, graph.place_near(*asn, near)) {
                Some(_) => continue 'coming,
                None => {}
            }
            if !graph.has(*asn) {
                continue 'coming;
            }
            self.add_place(*asn);
        }
    }

    /// Takes the watch to another graph, and to other tables, seeds and policies, of which it is told at
    /// which ASes they differ. Afterwards it is the watch that `build` would make.
    ///
    /// The watch can keep the ASes of the graph without memory. At every AS of the graph that is in
    /// neither list, the kept next hop is right already; at every AS that is not in `differing.groups`, so
    /// are its presence and its groups. Of the tables it wants what `build` wants. It takes no memory,
    /// and time by the lists and by the number of ASes whose packets pass an AS with another next hop
    /// than before. An AS whose groups alone differ is only counted anew.
    pub fn update<P: Labelled>(
        &mut self,
        graph: &Graph,
        tables: &RoundTables,
        pool: &PathPool,
        plan: &SeedPlan,
        book: &Book<P>,
        differing: &Differing<'_>,
    )
        requires spare { as_count graph.now ≤ spare_of self.old }
        requires live { AreAllLive pool.now tables.now }
        requires inside { StaysInside graph.now plan.now (round_routing pool.now tables.now) }
        requires hops { KeepsHops graph.now
            (next_hop_of plan.now (round_routing pool.now tables.now) (addr_of self.old))
            differing.now.hops.now differing.now.groups.now (rows_of self.old) }
        requires groups { KeepsGroups graph.now (λ a. P.label_of (policy_at book.now a)) differing.now.groups.now
            (rows_of self.old) }
        ensures rows { AreRows graph.now
            (next_hop_of plan.now (round_routing pool.now tables.now) (addr_of self.old))
            (λ a. P.label_of (policy_at book.now a)) (rows_of self.new) }
        ensures addr { addr_of self.new ≡ addr_of self.old }
    {
        if graph.as_count() == 0 {
            // `ases` is called for its clause that these are the ASes of the graph, which the proof cites
            let _all = graph.ases();
            *self = Watch::of_none(self.alloc, self.addr);
            return;
        }
        let regrouped = differing.groups;
        let near = graph.row_of_first(regrouped);
        self.come(graph, regrouped, near);
        regroup(&self.ases, &mut self.columns, graph, book, regrouped, near);
        let source = Source {
            graph,
            tables,
            pool,
            plan,
            addr: self.addr,
        };
        renew(
            &source,
            &self.ases,
            &mut self.columns,
            &mut self.lists,
            differing,
            near,
        );
    }

    /// How the trace of the AS ends; `None` exactly where it is no AS of the watch. It takes no memory.
    pub fn end_of(&self, asn: Asn) -> Option<End>
        ensures some { IfSome result (λ e. (r : Row) × IsRowOf (rows_of self.now) asn r × (r.end ≡ e)) }
        ensures none { IfNone result ((r : Row) → IsRowOf (rows_of self.now) asn r → ⊥) }
    {
        let place = self.ases.place(asn)?;
        let group = self.columns.groups.as_slice()[place];
        if !is_here(group.standing) {
            return None;
        }
        end_told(
            self.ases.as_slice(),
            mark_in(self.columns.marks.as_slice(), place as u32),
        )
    }

    /// How many ASes the group has. It takes no memory, and no time by the number of ASes.
    pub fn ases(&self, which: Which) -> u64
        ensures { result ≡ size_of (rows_of self.now) which }
    {
        self.columns.sums.size(which)
    }

    /// How many ASes of the group have a trace with this end. It takes no memory, and no time by the
    /// number of ASes.
    pub fn count(&self, which: Which, end: End) -> u64
        ensures { result ≡ count_of (rows_of self.now) which end }
    {
        self.columns.sums.count(which, end)
    }
}
