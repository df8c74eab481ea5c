//! The line of a journal: which pass entered what, under which hold of the lock. Only proofs see what stands on the line.

ghost use Rattle.std.specs.Prelude.{◌≡◌, ◌+◌, ◌≤◌, ◌++◌, []};
ghost use Rattle.std.specs.Vec.{vec_len, vec_capacity};
ghost use Rattle.st_service.specs.Lines.{numbers};

use st_event::Entry;
use st_line::{Tells, Writer};
use std::collections::LinkedList;
use std::marker::Model;

/// What a pass entered under one hold of a room's lock. No value of this type is made.
pub struct Batch {
    pub by: u32,
    pub entries: LinkedList<Entry>,
}

/// What a batch is told by.
#[derive(Clone, Copy)]
pub struct Fresh<'a> {
    pub by: u32,
    pub entries: &'a [Entry],
}

/// Adds a batch.
pub struct AddsBatch;

impl<'a> Tells<Fresh<'a>, Batch> for AddsBatch {
    ghost entry = { λ x. record { by = x.by; entries = x.entries.now } };
}

/// A line on which nothing was entered yet. Contracts see which line it is.
#[derive(Drop)]
pub struct JournalLine {
    writer: Writer<Batch>,
    ghost empty: { writer.log ≡ [] },
}

impl Model for JournalLine {
    ghost use Rattle.st_line.specs.Lines.{LineName};

    ghost Value = { LineName };

    ghost view = { λ l. l.writer.book };
}

impl JournalLine {
    /// A new line.
    pub fn new() -> JournalLine {
        JournalLine {
            writer: Writer::new(),
        }
    }

    /// The writer of the line, on which there is nothing.
    pub(crate) fn begin(self) -> Writer<Batch>
        ensures book { result.book ≡ self }
        ensures log { result.log ≡ [] }
    {
        let JournalLine { writer } = self;
        writer
    }
}

/// Puts so many numbers, from the given one on, at the end of a list that has room for them.
pub fn push_numbers(mine: &mut Vec<u32>, from: u32, count: usize)
    requires spare { vec_len mine.old + count ≤ vec_capacity mine.old }
    requires few { from + count ≤ 200000 }
    ensures { mine.new.items ≡ mine.old.items ++ numbers from count }
{
    for k in 0..count {
        mine.push_reserved(from + k as u32);
    }
}
