//! Journals: the events of a group in order, each with its reply.

ghost use Rattle.std.specs.Prelude.{◌≡◌, IfOk, IsOk, IsTrue, ◌&&◌};
ghost use Rattle.st_event.specs.Events.{is_without_rows, is_without_list};

use crate::event::Event;
use crate::reply::Reply;
use st_net::Items;
use std::alloc::{AllocError, Global};

/// The most entries of a group's journal.
pub const MAX_ENTRIES: usize = 200_000;

/// The most proposals of a group that wait.
pub const MAX_PENDING: usize = 64;

/// The numbers of these limits, as laws: it does nothing.
pub fn journal_limits()
    ensures entries { MAX_ENTRIES ≡ 200000 }
    ensures pending { MAX_PENDING ≡ 64 }
{}

/// One event of a group, with its reply.
#[derive(Drop)]
pub struct Entry {
    pub event: Event,
    pub reply: Reply,
}

/// The journal of one group, which is named by its number from 0 in the order of the document. Its entries stand the oldest first: the
/// first has number 1.
#[derive(Drop)]
pub struct Journal {
    pub group: u32,
    pub entries: Items<Entry>,
}

impl Entry {
    /// An equal entry.
    pub fn copy(&self, alloc: Global) -> Result<Entry, AllocError>
        ensures copy { IfOk result (λ copy. copy ≡ self.now) }
        ensures without_memory { IsTrue (is_without_rows self.now.event && is_without_list self.now.reply) → IsOk result }
    {
        Ok(Entry {
            event: self.event.copy(alloc)?,
            reply: self.reply.copy(alloc)?,
        })
    }
}
