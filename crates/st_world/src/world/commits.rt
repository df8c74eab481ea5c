//! Checks that are judged away from their world: a basis is taken from the world, and the judgement of the basis is committed to the world
//! as one entry.

ghost use Rattle.std.specs.Prelude.{◌≡◌, ◌↔◌, ◌≤◌, IfOk, MatchResult, IsTrue, OnErr};
ghost use Rattle.st_world.specs.Commits.{Begins, MayCommit, Commits, SpendsRoom};

use crate::world::{World, enter_last, next_entry};
use st_control::{Begin, Judged, Twice};
use st_event::{Event, MAX_ENTRIES, Receipt, Reply};
use std::alloc::AllocError;

/// The answer to a commit.
#[derive(Drop)]
pub enum Committed {
    /// The judged proposal was decided, and a Check with this receipt was entered.
    Did(Receipt),
    /// The entry of this number had decided the judged proposal before: nothing has changed.
    Gone { entry: u32 },
    /// The journal has as many entries as it may have, which is this number: nothing has changed.
    JournalFull { entries: u32 },
}

impl World {
    /// What the oldest proposal is judged on, in copies but for the group, which is shared. No entry is made. `Idle` comes exactly where no
    /// proposal is pending.
    pub fn begin_check(&self) -> Result<Begin, AllocError>
        ensures { IfOk result (Begins self.now.history) }
    {
        self.machine.control().begin_check()
    }

    /// Whether a proposal that was judged away from the world may be committed: this world gave the proposal's ticket, and each lower
    /// ticket is decided. A judgement of a basis of this world may be committed from the time when the basis was taken.
    pub fn may_commit(&self, judged: &Judged) -> bool
        ensures { IsTrue result ↔ MayCommit self.now.history.past judged.now.ticket }
    {
        self.machine.control().may_commit(judged)
    }

    /// Decides a proposal that was judged away from the world, as one Check. This world gave the proposal's ticket, and each lower ticket
    /// is decided, as is so of each basis since the basis was taken. `Gone` comes exactly where the ticket is decided too, and else
    /// `JournalFull` exactly where the journal has 200,000 entries: then nothing changes. Else the reply is the one that the journal calls
    /// for, whatever was judged. At `Err` the group, its journal and its plan are as they were. Only where an entry is made is room for one
    /// spent.
    pub fn commit(&mut self, judged: &Judged) -> Result<Committed, AllocError>
        requires { MayCommit self.old.history.past judged.now.ticket }
        ensures ok { IfOk result (Commits self.old.history self.new.history judged.now.ticket) }
        ensures err { OnErr result (self.new.history ≡ self.old.history) }
        ensures losses { self.new.lines ≡ self.old.lines }
        ensures room { MatchResult result (SpendsRoom self.old.room self.new.room) (λ _. self.old.room ≤ self.new.room) }
    {
        if let Some(entry) = self.machine.control().store().decided(judged.ticket()) {
            return Ok(Committed::Gone { entry });
        }
        // The room is made first: once the machine has decided, the entry has to follow.
        let Some(entry) = next_entry(&mut self.journal)? else {
            return Ok(Committed::JournalFull {
                entries: MAX_ENTRIES as u32,
            });
        };
        let Twice { told, kept } = self.machine.commit(entry, judged)?;
        enter_last(&mut self.journal, Event::Check, Reply::Decided(kept));
        Ok(Committed::Did(told))
    }
}
