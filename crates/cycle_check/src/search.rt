//! A search up from an AS, or down from it, in the links of a graph but one pair's.
ghost use Rattle.std.specs.Prelude.{◌≡◌, ◌<◌, ◌≤◌, ◌+◌, ℕ, Some, true, false, nat_eq, [], ◌∷◌, length, slice_index_or, IfOk, IfSome, IfNone, OnOk};
ghost use Rattle.indexmap.specs.IndexMap.{IsUnique};
ghost use Rattle.net_names.specs.declared.routes.Rel.TheVariants.{Customer};

use as_graph::{Graph, Neighbour};
use indexmap::IndexMap;
use net_names::{Asn, NoMemory, Rel};
use std::alloc::Global;

/// The pair of ASes whose own link is passed over.
#[derive(Drop)]
pub struct Pair {
    pub provider: Asn,
    pub customer: Asn,
}

/// A search from an AS.
#[derive(Drop)]
pub struct Search {
    alloc: Global,
    pub up: bool,
    // the ASes that are reached, each with the place of the one from which it was reached
    pub reached: IndexMap<Asn, usize>,
    // from so many of them the search has gone on
    pub done: usize,
    // so many neighbours were looked at
    cost: usize,
}

impl Pair {
    ghost use Rattle.cycle_check.specs.Searches.{is_pair};

    // Whether two ASes are this pair, in either order.
    fn is_same(&self, a: Asn, b: Asn) -> bool
        ensures { result ≡ is_pair self.now.provider self.now.customer a b }
    {
        (a == self.provider && b == self.customer) || (a == self.customer && b == self.provider)
    }
}

impl Search {
    ghost use Rattle.cycle_check.specs.Searches.{search_relation, is_wanted, reached_at, is_reached, gains, gains_wanted, AreFromEarlier, GoesOn, IsSearch, IsWayBack};

    /// A search that goes up from an AS, or down from it.
    pub fn new(alloc: Global, up: bool, start: Asn) -> Result<Search, NoMemory>
        ensures one { IfOk result (λ s. s.reached.entries ≡ (start, 0) ∷ []) }
        ensures unique { IfOk result (λ s. IsUnique nat_eq s.reached) }
        ensures up { IfOk result (λ s. s.up ≡ up) }
        ensures done { IfOk result (λ s. s.done ≡ 0) }
    {
        let mut reached = IndexMap::new(alloc);
        reached.insert(start, 0)?;
        Ok(Search {
            alloc,
            up,
            reached,
            done: 0,
            cost: 0,
        })
    }

    /// Whether there is an AS from which the search can go on.
    pub fn is_open(&self) -> bool
        ensures more { result ≡ true → self.now.done < length self.now.reached.entries }
        ensures ended { result ≡ false → length self.now.reached.entries ≤ self.now.done }
    {
        self.done < self.reached.len()
    }

    /// How many neighbours are looked at with the next step.
    pub fn next_cost(&self, graph: &Graph) -> usize {
        match self.reached.get_index(self.done) {
            Some((asn, _)) => self.cost.saturating_add(graph.neighbours(*asn).len()),
            None => self.cost,
        }
    }

    // Whether the search goes to such a neighbour.
    fn wants(up: bool, rel: Rel) -> bool
        ensures { result ≡ is_wanted up rel }
    {
        match rel {
            Rel::Customer => !up,
            Rel::Peer => false,
            Rel::Provider => up,
        }
    }

    // Reaches an AS from the one at a place, unless it was reached before.
    fn reach(reached: &mut IndexMap<Asn, usize>, asn: Asn, from: usize) -> Result<(), NoMemory>
        requires { IsUnique nat_eq reached.old }
        ensures gains { OnOk result (reached.new.entries ≡ gains reached.old.entries asn from) }
        ensures unique { IsUnique nat_eq reached.new }
    {
        if reached.contains_key(&asn) {
            return Ok(());
        }
        reached.insert(asn, from)?;
        Ok(())
    }

    // Reaches a neighbour of the AS at a place, if it is wanted.
    fn reach_wanted(
        reached: &mut IndexMap<Asn, usize>,
        up: bool,
        pair: &Pair,
        asn: Asn,
        from: usize,
        neighbour: Neighbour,
    ) -> Result<(), NoMemory>
        requires { IsUnique nat_eq reached.old }
        ensures gains { OnOk result (reached.new.entries ≡
            gains_wanted up pair.now.provider pair.now.customer asn from reached.old.entries neighbour) }
        ensures unique { IsUnique nat_eq reached.new }
    {
        if Search::wants(up, neighbour.rel) {
            if pair.is_same(asn, neighbour.asn) {
                return Ok(());
            }
            return Search::reach(reached, neighbour.asn, from);
        }
        Ok(())
    }

    // Reaches the wanted neighbours of the AS at a place.
    fn reach_all(
        graph: &Graph,
        reached: &mut IndexMap<Asn, usize>,
        up: bool,
        pair: &Pair,
        asn: Asn,
        from: usize,
    ) -> Result<(), NoMemory>
        requires { IsUnique nat_eq reached.old }
        ensures goes_on { OnOk result (GoesOn (search_relation up graph.now pair.now.provider pair.now.customer)
            asn from reached.old.entries reached.new.entries) }
        ensures all { OnOk result ((y : ℕ) →
            search_relation up graph.now pair.now.provider pair.now.customer y asn ≡ Some Customer →
            is_reached reached.new.entries y ≡ true) }
        ensures unique { IsUnique nat_eq reached.new }
    {
        let neighbours = graph.neighbours(asn);
        for neighbour in neighbours {
            Search::reach_wanted(reached, up, pair, asn, from, *neighbour)?;
        }
        Ok(())
    }

    /// Goes on from the next AS.
    pub fn step(&mut self, graph: &Graph, pair: &Pair, start: Asn) -> Result<(), NoMemory>
        requires search { IsSearch (search_relation self.old.up graph.now pair.now.provider pair.now.customer) start
            self.old.reached.entries self.old.done }
        requires more { self.old.done < length self.old.reached.entries }
        ensures search { OnOk result (IsSearch
            (search_relation self.old.up graph.now pair.now.provider pair.now.customer) start
            self.new.reached.entries self.new.done) }
        ensures up { self.new.up ≡ self.old.up }
        ensures done { OnOk result (self.new.done ≡ self.old.done + 1) }
    {
        prove!(self.done < self.reached.len());
        let (asn, _) = self.at(self.done);
        let cost = self.next_cost(graph);
        Search::reach_all(graph, &mut self.reached, self.up, pair, asn, self.done)?;
        self.done += 1;
        self.cost = cost;
        Ok(())
    }

    /// The place of an AS, if it is reached.
    pub fn place(&self, asn: Asn) -> Option<usize>
        ensures inside { IfSome result (λ at. at < length self.now.reached.entries) }
        ensures found { IfSome result (λ at. reached_at self.now.reached.entries at ≡ asn) }
        ensures none { IfNone result (is_reached self.now.reached.entries asn ≡ false) }
    {
        self.reached.get_index_of(&asn)
    }

    // The AS at a place, and the place of the one from which it was reached.
    fn at(&self, place: usize) -> (Asn, usize)
        requires { place < length self.now.reached.entries }
        ensures { result ≡ slice_index_or self.now.reached.entries place (0, 0) }
    {
        let Some((asn, from)) = self.reached.get_index(place) else {
            unreachable!();
        };
        (*asn, *from)
    }

    /// The way from an AS that is reached back to the start.
    pub fn way_back(&self, from: usize, start: Asn) -> Result<Vec<Asn>, NoMemory>
        requires unique { IsUnique nat_eq self.now.reached }
        requires earlier { AreFromEarlier self.now.reached.entries }
        requires inside { from < length self.now.reached.entries }
        ensures { IfOk result (λ v. IsWayBack start self.now.reached.entries from v.items) }
    {
        let mut way = Vec::new(self.alloc);
        let mut place = from;
        while place != 0 {
            let (asn, earlier) = self.at(place);
            way.push(asn)?;
            place = earlier;
        }
        way.push(start)?;
        Ok(way)
    }
}
