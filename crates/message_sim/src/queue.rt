//! The messages that are under way on a link.
ghost use Rattle.std.specs.Prelude.{◌≡◌, ◌+◌, ◌++◌, ◌==◌, ◌<◌, ◌^◌, [], drop, length, slice_get, option_copied};

use crate::news::copy_of;
use crate::route::Route;
use std::alloc::Global;
use std::collections::{LinkedList, VecDeque};
use std::marker::Model;

/// Messages, the oldest first. They lie close together. Only where there is no memory for one more of
/// them is it kept as it came, and so are all behind it. Contracts see the list of them.
#[derive(Drop)]
pub struct Queue {
    first: VecDeque<Option<Route>>,
    rest: LinkedList<Option<Route>>,
}

impl Model for Queue {
    ghost use Rattle.std.specs.Prelude.{List, ◌++◌, ◌+◌, ◌<◌, ◌^◌, length};
    ghost use Rattle.message_sim.specs.Messages.{Message};

    ghost Value = { List Message };

    ghost view = { λ q. q.first.items ++ q.rest };

    ghost invariant = { λ q. length q.first.items + length q.rest < 2 ^ 63 };
}

// Moves the oldest message of a list behind the others, where there is memory for it.
fn move_one(first: &mut VecDeque<Option<Route>>, list: &mut LinkedList<Option<Route>>)
    ensures items { first.new.items ++ list.new ≡ first.old.items ++ list.old }
    ensures len { length first.new.items + length list.new ≡ length first.old.items + length list.old }
{
    let Some(message) = list.front() else {
        return;
    };
    let Ok(copy) = copy_of(message) else {
        return;
    };
    if first.push_back(copy).is_ok() {
        let _ = list.pop_front();
    }
}

impl Queue {
    /// No messages.
    pub(crate) fn new(alloc: Global) -> Queue
        ensures { result ≡ [] }
    {
        Queue {
            first: VecDeque::new(alloc),
            rest: LinkedList::new(alloc),
        }
    }

    /// Whether there is no message.
    pub(crate) fn is_empty(&self) -> bool
        ensures { result ≡ (length self.now == 0) }
    {
        self.len() == 0
    }

    /// How many messages there are.
    pub(crate) fn len(&self) -> usize
        ensures value { result ≡ length self.now }
        ensures fits { result < 2 ^ 63 }
    {
        self.first.len() + self.rest.len()
    }

    /// The oldest message, where there is one.
    pub(crate) fn front(&self) -> Option<&Option<Route>>
        ensures { option_copied result ≡ slice_get self.now 0 }
    {
        match self.first.front() {
            Some(message) => Some(message),
            None => self.rest.front(),
        }
    }

    /// Takes the oldest message out, where there is one.
    pub(crate) fn pop_front(&mut self) -> Option<Option<Route>>
        ensures rest { self.new ≡ drop 1 self.old }
        ensures oldest { result ≡ slice_get self.old 0 }
    {
        match self.first.pop_front() {
            Some(message) => Some(message),
            None => self.rest.pop_front(),
        }
    }

    /// Puts messages at the end. It does so even where there is no more memory.
    pub(crate) fn append(&mut self, messages: LinkedList<Option<Route>>)
        requires { length self.old + length messages < 2 ^ 63 }
        ensures { self.new ≡ self.old ++ messages }
    {
        let mut messages = messages;
        if self.rest.is_empty() {
            move_one(&mut self.first, &mut messages);
        }
        let _ = self.rest.append(&mut messages);
    }
}
