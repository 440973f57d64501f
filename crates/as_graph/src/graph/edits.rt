//! Room, links and marks of a graph that is made.
ghost use Rattle.std.specs.Prelude.{◌≡◌, ◌≢◌, ◌<◌, ◌≤◌, true, false, None, Some, if◌then◌else◌, IfErr, OnOk, OnErr};
ghost use Rattle.std.specs.FinMap as map;
ghost use Rattle.as_graph.specs.declared.error.GraphError.TheVariants.{Memory};
ghost use Rattle.as_graph.specs.Topology.{relation, has, as_count, with_mark};
ghost use Rattle.as_graph.specs.Room.{is_room_with, with_room, only_room_for, only_room_with};
ghost use Rattle.as_graph.specs.Edits.{with_link, without_link, without_mark};
ghost use Rattle.as_graph.specs.Refusals.{IsMarkRefusal, IsLinkRefusal};
ghost use Rattle.net_names.specs.declared.links.TheConstants.{MOST_LINKS};

use crate::build::MOST_ASES;
use crate::error::{Absent, GraphError};
use crate::graph::Graph;
use crate::order::list;
use crate::writes::{make_ends, make_row, reserve_places, set_mark, take_link, unlist_lone};
use net_names::{Asn, Rel};

// The room, if it is for a pair with this AS.
fn room_with(room: Option<(Asn, Asn)>, asn: Asn) -> Option<(Asn, Asn)>
    ensures { result ≡ (if is_room_with room asn then room else None) }
{
    match room {
        Some((a, b)) if a == asn || b == asn => Some((a, b)),
        _ => None,
    }
}

impl Graph {
    /// Makes room for a pair of ASes, which may be equal: from then on `link` of the pair, in either
    /// order, and `mark` of either AS take no memory. The room stays over any number of these calls
    /// and of calls of `unlink` and `unmark`. It ends when another link is set or another AS marked.
    /// `Memory` is the only refusal, after which the graph is as it was, with its earlier room.
    pub fn room(&mut self, a: Asn, b: Asn) -> Result<(), GraphError>
        ensures ok { OnOk result (self.new ≡ with_room self.old a b) }
        ensures err { OnErr result (self.new ≡ self.old) }
        ensures refused { IfErr result (λ e. e ≡ Memory) }
    {
        make_ends(&mut self.rows, &mut self.order, self.alloc, a, b)?;
        reserve_places(&self.rows, &mut self.places, self.alloc, a, b);
        self.room = Some((a, b));
        Ok(())
    }

    /// Sets the link of a pair of ASes, in place of any earlier one: `rel` is what `b` is to `a`.
    /// `TooManyLinks` exactly where the pair has no link and there are 1,500,000; then `TooManyAses`
    /// exactly where there would be more than 150,000, unless there is not enough memory for a new
    /// link. That is never so where there is room for the pair. After a refusal the graph is as it
    /// was.
    pub fn link(&mut self, a: Asn, b: Asn, rel: Rel) -> Result<(), GraphError>
        requires { a ≢ b }
        ensures ok { OnOk result (self.new ≡ only_room_for (with_link self.old a b rel) a b) }
        ensures few_links { OnOk result (relation self.old a b ≡ None → map.len self.old.links < MOST_LINKS) }
        ensures few_ases { OnOk result (as_count (with_link self.old a b rel) ≤ MOST_ASES) }
        ensures err { OnErr result (self.new ≡ self.old) }
        ensures refused { IfErr result (IsLinkRefusal self.old a b rel) }
    {
        match self.rel(a, b) {
            Some(_) => {
                self.replace(a, b, rel);
                Ok(())
            }
            None => self.add(a, b, rel),
        }
    }

    /// Takes the link of a pair of ASes away. `Absent` exactly where the pair has none. It takes no
    /// memory.
    pub fn unlink(&mut self, a: Asn, b: Asn) -> Result<(), Absent>
        ensures ok { OnOk result (self.new ≡ without_link self.old a b) }
        ensures there { OnOk result (relation self.old a b ≢ None) }
        ensures err { OnErr result (self.new ≡ self.old) }
        ensures absent { OnErr result (relation self.old a b ≡ None) }
    {
        if self.rel(a, b).is_none() {
            return Err(Absent);
        }
        take_link(&mut self.rows, &mut self.places, a, b);
        unlist_lone(&self.rows, &mut self.order, a);
        unlist_lone(&self.rows, &mut self.order, b);
        self.links -= 1;
        Ok(())
    }

    /// Marks an AS, so that it is an AS of the graph even without a link. A marked AS may be marked
    /// again. `TooManyAses` exactly where the AS is new and there are 150,000, unless there is not
    /// enough memory for a new AS. That is never so where there is room for a pair with the AS.
    /// After a refusal the graph is as it was.
    pub fn mark(&mut self, asn: Asn) -> Result<(), GraphError>
        ensures ok { OnOk result (self.new ≡ only_room_with (with_mark self.old asn) asn) }
        ensures few { OnOk result (has self.old asn ≡ false → as_count self.old < MOST_ASES) }
        ensures err { OnErr result (self.new ≡ self.old) }
        ensures refused { IfErr result (IsMarkRefusal self.old asn) }
    {
        if self.has(asn) {
            set_mark(&mut self.rows, asn, true);
            self.room = room_with(self.room, asn);
            return Ok(());
        }
        if self.order.len() >= MOST_ASES {
            return Err(GraphError::TooManyAses);
        }
        make_row(&mut self.rows, &mut self.order, self.alloc, asn)?;
        list(&mut self.order, asn);
        set_mark(&mut self.rows, asn, true);
        self.room = room_with(self.room, asn);
        Ok(())
    }

    /// Takes the mark of an AS away, if it has one. The AS stays there while it has a link. It takes
    /// no memory.
    pub fn unmark(&mut self, asn: Asn)
        ensures { self.new ≡ without_mark self.old asn }
    {
        if self.rows.contains_key(&asn) {
            set_mark(&mut self.rows, asn, false);
            unlist_lone(&self.rows, &mut self.order, asn);
        }
    }
}
