//! What a pass has seen of one room, and made there.

ghost use Rattle.std.specs.Prelude.{◌≡◌, ◌+◌, ◌<◌, ◌≤◌, List, ◌++◌, ◌∷◌, [], length};
ghost use Rattle.std.specs.Vec.{vec_len, vec_capacity};
ghost use mathlib.Core.List.{IsPrefix};
ghost use Rattle.st_net.specs.Groups.{IsEntityOf};
ghost use Rattle.st_net.specs.Merge.{merge_of};
ghost use Rattle.st_service.specs.Made.{IsMine};
ghost use Rattle.st_service.specs.Lines.{flat, numbers};
ghost use Rattle.st_service.specs.Tickets.{last_ticket as last_ticket_lem, latest_in, ticket_in};
ghost use Rattle.st_service.specs.declared.line.Batch.{Batch as batch};

use crate::line::{Batch, push_numbers};
use crate::naming::Naming;
use st_board::{Seen, TargetReader};
use st_event::{Entry, Reply};
use st_line::Log;
use st_net::{Entity, Var};
use std::alloc::Global;
use std::marker::PhantomData;

/// A beginning of a room's journal, the places of the entries that a pass made there, the ticket of the last proposal among these, and a
/// reader of the room's board.
#[derive(Drop)]
pub struct Place<J: Naming> {
    pub group: usize,
    pub number: u32,
    pub seen: Log<Batch>,
    pub mine: Vec<u32>,
    pub latest: Option<u32>,
    pub reader: TargetReader,
    pub of: PhantomData<J>,
    pub ghost named: { seen.book ≡ J.book group },
    pub ghost made: { IsMine number (flat seen.log) mine.items },
    pub ghost asked: { latest ≡ latest_in (flat seen.log) mine.items },
    pub ghost reads: { reader.book ≡ J.board group },
    pub ghost reads_group: { reader.group ≡ J.group group },
}

/// The ticket that a reply gives to a proposal.
fn ticket_of(reply: &Reply) -> Option<u32>
    ensures { result ≡ ticket_in reply.now }
{
    match reply {
        Reply::Queued { ticket } => Some(*ticket),
        _ => None,
    }
}

/// The last ticket that these entries give.
fn last_ticket(entries: &[Entry]) -> Option<u32>
    ensures { result ≡ last_ticket_lem entries.now }
{
    let mut last = None;
    for entry in entries {
        last = ticket_of(&entry.reply).or(last);
    }
    last
}

impl<J: Naming> Place<J> {
    /// A place that has seen nothing of a room.
    pub fn new(
        alloc: Global,
        group: usize,
        number: u32,
        seen: Log<Batch>,
        reader: TargetReader,
    ) -> Place<J>
        requires line { (seen.book ≡ J.book group) × (seen.log ≡ []) }
        requires reader { (reader.book ≡ J.board group) × (reader.group ≡ J.group group) }
        ensures opens { (result.group ≡ group) × (result.number ≡ number) × (result.seen.log ≡ []) × (result.mine.items ≡ []) }
        ensures reader { result.reader ≡ reader }
    {
        Place {
            group,
            number,
            seen,
            mine: Vec::new(alloc),
            latest: None,
            reader,
            of: PhantomData,
        }
    }

    /// Learns the journal as it stands in the room.
    pub fn look(&mut self, seen: &Log<Batch>)
        requires line { seen.now.book ≡ self.old.seen.book }
        requires later { IsPrefix self.old.seen.log seen.now.log }
        ensures same { (self.new.group ≡ self.old.group) × (self.new.number ≡ self.old.number) × (self.new.mine ≡ self.old.mine) × (self.new.reader ≡ self.old.reader) }
        ensures seen { self.new.seen.log ≡ seen.now.log }
    {
        self.seen = seen.again();
    }

    /// Learns the journal, at whose end this pass has just made so many entries.
    pub fn made(&mut self, seen: &Log<Batch>, from: u32, entries: &[Entry])
        requires line { seen.now.book ≡ self.old.seen.book }
        requires made { (mid : List batch) × (IsPrefix self.old.seen.log mid × (length (flat mid) ≡ from) × (seen.now.log ≡ mid ++ record { by = self.old.number; entries = entries.now } ∷ [])) }
        requires few { from + length entries.now ≤ 200000 }
        requires spare { vec_len self.old.mine + length entries.now ≤ vec_capacity self.old.mine }
        ensures same { (self.new.group ≡ self.old.group) × (self.new.number ≡ self.old.number) × (self.new.reader ≡ self.old.reader) }
        ensures mine { self.new.mine.items ≡ self.old.mine.items ++ numbers from (length entries.now) }
        ensures seen { self.new.seen.log ≡ seen.now.log }
    {
        self.look(seen);
        push_numbers(&mut self.mine, from, entries.len());
        self.latest = last_ticket(entries).or(self.latest);
    }

    /// Reads a variable's value in the published target.
    pub fn read(&mut self, entity: Entity, var: Var) -> Seen
        requires { IsEntityOf (J.group self.old.group) entity }
        ensures same { (self.new.group ≡ self.old.group) × (self.new.number ≡ self.old.number) × (self.new.seen ≡ self.old.seen) × (self.new.mine ≡ self.old.mine) }
        ensures later { IsPrefix self.old.reader.proposals self.new.reader.proposals }
        ensures version { result.version ≡ length self.new.reader.proposals }
        ensures value { result.value ≡ merge_of (J.group self.old.group) self.new.reader.proposals entity var }
    {
        self.reader.read(entity, var)
    }
}
