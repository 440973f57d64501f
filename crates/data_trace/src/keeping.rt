//! The doubly linked lists of a watch in their three arrays, and room for what an update goes through.
ghost use Rattle.std.specs.Prelude.{◌+◌, ◌<◌, ◌≤◌, length, vec_capacity, IfOk, OnOk};
ghost use Rattle.data_trace.specs.declared.places.TheConstants.{PLACE_LIMIT};
ghost use Rattle.data_trace.specs.Marks.{IsWithin};
ghost use Rattle.data_trace.specs.Lists.{AreNone};

use crate::lists::{link_all, none_links, put_last};
use crate::packed::PackedHop;
use crate::places::Lead;
use std::alloc::{AllocError, Global};

/// For each place the places that send to it, in lists that go through the places, and room for the
/// places that an update goes through.
#[derive(Drop)]
pub struct Lists {
    pub first: Vec<Lead>,
    pub before: Vec<Lead>,
    pub after: Vec<Lead>,
    pub queue: Vec<u32>,
    pub path: Vec<u32>,
}

impl Lists {
    ghost use Rattle.data_trace.specs.Keeping.{HasRoom, AreKept};
    ghost use Rattle.data_trace.specs.Growing.{AreLinked, StayLinks, HasRoomForOne, AddsPlace};

    /// No lists. Takes no memory.
    pub fn none(alloc: Global) -> Lists {
        Lists {
            first: Vec::new(alloc),
            before: Vec::new(alloc),
            after: Vec::new(alloc),
            queue: Vec::new(alloc),
            path: Vec::new(alloc),
        }
    }

    /// The lists of all places.
    pub fn of(alloc: Global, hops: &[PackedHop]) -> Result<Lists, AllocError>
        requires within { IsWithin hops.now }
        requires few { length hops.now < PLACE_LIMIT }
        ensures { IfOk result (λ l. AreKept hops.now (length hops.now) l) }
    {
        let count = hops.len();
        let first = none_links(alloc, count)?;
        let before = none_links(alloc, count)?;
        let after = none_links(alloc, count)?;
        let queue = Vec::with_capacity(alloc, count)?;
        let path = Vec::with_capacity(alloc, count)?;
        Ok(Lists::linked(hops, first, before, after, queue, path))
    }

    // The lists of all places, in these columns.
    fn linked(
        hops: &[PackedHop],
        mut first: Vec<Lead>,
        mut before: Vec<Lead>,
        mut after: Vec<Lead>,
        queue: Vec<u32>,
        path: Vec<u32>,
    ) -> Lists
        requires within { IsWithin hops.now }
        requires few { length hops.now < PLACE_LIMIT }
        requires first { AreNone first.items (length hops.now) }
        requires before { AreNone before.items (length hops.now) }
        requires after { AreNone after.items (length hops.now) }
        requires queue { length hops.now ≤ vec_capacity queue }
        requires path { length hops.now ≤ vec_capacity path }
        ensures { AreKept hops.now (length hops.now) result }
    {
        link_all(
            hops,
            first.as_mut_slice(),
            before.as_mut_slice(),
            after.as_mut_slice(),
        );
        Lists {
            first,
            before,
            after,
            queue,
            path,
        }
    }

    /// Makes room for `more` further places.
    pub fn reserve(&mut self, places: usize, more: usize) -> Result<(), AllocError>
        requires few { places + more < PLACE_LIMIT }
        requires linked { AreLinked places self.old }
        ensures stay { StayLinks self.old self.new }
        ensures room { OnOk result (HasRoom (places + more) self.new) }
    {
        self.first.reserve(more)?;
        self.before.reserve(more)?;
        self.after.reserve(more)?;
        self.queue.reserve(places + more)?;
        self.path.reserve(places + more)
    }

    /// Puts a place at the end, which stands in no list. Takes no memory.
    pub fn add_place(&mut self)
        requires { HasRoomForOne self.old }
        ensures { AddsPlace self.old self.new }
    {
        put_last(&mut self.first, None);
        put_last(&mut self.before, None);
        put_last(&mut self.after, None);
    }
}
