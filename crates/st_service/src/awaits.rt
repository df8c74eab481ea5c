//! Awaiting a proposal's decision: a pass checks while its latest ticket in a room is pending. Each check is judged off the lock, after the
//! lock showed that the ticket is pending; the loop is over one call of one check.

ghost use Rattle.std.specs.Prelude.{◌≡◌, ◌<◌, length, IfOk};
ghost use Rattle.st_event.specs.declared.journal.TheConstants.{MAX_PENDING as most_pending};
ghost use Rattle.st_service.specs.Awaits.{BeginsFor, ChecksFor, Awaited, checked_of};
ghost use Rattle.st_service.specs.Kept.{Kept};
ghost use Rattle.st_service.specs.Made.{past_in};
ghost use Rattle.st_service.specs.Passes.{front_at, mine_at, IsTaught};
ghost use Rattle.st_service.specs.Tickets.{latest_in};
ghost use Rattle.st_service.specs.Works.{IsGiven};

use crate::locked::Locked;
use crate::naming::Naming;
use crate::pass::Pass;
use crate::service::Service;
use st_control::Begin;
use st_crew::Gate;
use st_event::MAX_PENDING;
use st_world::{Committed, Going};
use std::alloc::{AllocError, Global};
use std::sync::Wait;
use std::sync::ledger::Ledger;
use std::thread::Threads;

/// The answer to one check for a ticket.
#[derive(Clone, Copy, Debug, PartialEq, Eq)]
pub enum Checked {
    /// The ticket was decided before.
    Over,
    /// The ticket was pending, and the one that was then the oldest is decided now.
    Went,
    /// The ticket was pending, and the journal is full.
    Full,
}

/// What one check comes to by its commit.
fn checked_by(committed: &Committed) -> Checked
    ensures { result ≡ checked_of committed.now }
{
    match committed {
        Committed::Did(_) | Committed::Gone { .. } => Checked::Went,
        Committed::JournalFull { .. } => Checked::Full,
    }
}

/// What the oldest proposal is judged on in a room that is lent to a pass, while a ticket is pending there. `Idle` where the ticket is
/// decided, whatever else is pending.
fn begin_for_in<J: Naming, L: Ledger, H: Wait + Drop>(
    pass: &mut Pass<J, L>,
    room: &mut Locked<J, L, H>,
    ticket: u32,
) -> Result<Begin, AllocError>
    requires room { room.old.group < length pass.old.fronts }
    requires given { IsGiven ticket (past_in (front_at pass.old.fronts room.old.group)) }
    ensures kept { Kept pass.old pass.new room.old.group 0 }
    ensures log { pass.new.log ≡ pass.old.log }
    ensures begins { IfOk result (BeginsFor ticket (J.group room.old.group) (past_in (front_at pass.new.fronts room.old.group))) }
    ensures reads { IfOk result (λ _. IsTaught pass.new room.old.group) }
{
    pass.look_in(room)?;
    room.room.is_legal();
    if room.room.is_decided(ticket) {
        return Ok(Begin::Idle);
    }
    room.room.begin_check()
}

impl<J: Naming, L: Ledger, H: Wait + Drop> Service<J, L, H> {
    /// What the oldest proposal of a room is judged on, while a ticket is pending there. `Idle` where the ticket is decided, whatever else
    /// is pending. May wait for the room.
    fn begin_for<R: Wait>(
        &self,
        rt: &R,
        pass: &mut Pass<J, L>,
        group: usize,
        ticket: u32,
    ) -> Result<Begin, AllocError>
        requires room { (group < length self.now.rooms.items) × (length pass.old.fronts ≡ length self.now.rooms.items) }
        requires given { IsGiven ticket (past_in (front_at pass.old.fronts group)) }
        ensures kept { Kept pass.old pass.new group 0 }
        ensures log { pass.new.log ≡ pass.old.log }
        ensures begins { IfOk result (BeginsFor ticket (J.group group) (past_in (front_at pass.new.fronts group))) }
        ensures reads { IfOk result (λ _. IsTaught pass.new group) }
    {
        let mut room = self.room_at(rt, group)?;
        begin_for_in(pass, &mut room, ticket)
    }

    /// Makes one check in a room off the lock, unless the ticket is decided. May wait for the room, and for readers.
    fn check_for<R: Threads + Wait + Sync, G: Gate>(
        &self,
        rt: &R,
        alloc: Global,
        pass: &mut Pass<J, L>,
        group: usize,
        ticket: u32,
        gate: &G,
    ) -> Result<Checked, AllocError>
        requires room { (group < length self.now.rooms.items) × (length pass.old.fronts ≡ length self.now.rooms.items) }
        requires given { IsGiven ticket (past_in (front_at pass.old.fronts group)) }
        ensures kept { Kept pass.old pass.new group 1 }
        ensures log { pass.new.log ≡ pass.old.log }
        ensures checked { IfOk result (λ checked. ChecksFor checked (J.group group) ticket pass.old.number (front_at pass.old.fronts group) (mine_at pass.old.mines group) (front_at pass.new.fronts group) (mine_at pass.new.mines group)) }
        ensures reads { IfOk result (λ _. IsTaught pass.new group) }
    {
        let begun = self.begin_for(rt, pass, group, ticket)?;
        match begun {
            Begin::Basis(basis) => {
                let committed = self.decide(rt, alloc, pass, group as u32, basis, gate)?;
                Ok(checked_by(&committed))
            }
            Begin::Idle => Ok(Checked::Over),
        }
    }

    /// Checks while the latest ticket of a pass in a room is pending, 64 times at the most: no more are pending, and each check decides
    /// the oldest. Nothing is done where the pass made no proposal there.
    pub(crate) fn await_latest<R: Threads + Wait + Sync, G: Gate>(
        &self,
        rt: &R,
        alloc: Global,
        pass: &mut Pass<J, L>,
        group: usize,
        gate: &G,
    ) -> Result<Going, AllocError>
        requires room { (group < length self.now.rooms.items) × (length pass.old.fronts ≡ length self.now.rooms.items) }
        ensures kept { Kept pass.old pass.new group most_pending }
        ensures log { pass.new.log ≡ pass.old.log }
        ensures awaited { IfOk result (λ going. Awaited going (latest_in (front_at pass.old.fronts group) (mine_at pass.old.mines group)) (J.group group) pass.old.number (front_at pass.old.fronts group) (mine_at pass.old.mines group) (front_at pass.new.fronts group) (mine_at pass.new.mines group)) }
        ensures reads { IfOk result (λ _. IsTaught pass.new group) }
    {
        let Some(ticket) = pass.latest(group) else {
            self.look(rt, pass, group)?;
            return Ok(Going::On);
        };
        for _check in 0..MAX_PENDING as u32 {
            match self.check_for(rt, alloc, pass, group, ticket, gate)? {
                Checked::Over => return Ok(Going::On),
                Checked::Went => {}
                Checked::Full => return Ok(Going::Full),
            }
        }
        Ok(Going::On)
    }
}
