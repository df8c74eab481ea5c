//! The reply to each event, and the verdict on a proposal with what a refusal names.

ghost use Rattle.std.specs.Prelude.{◌≡◌, IfOk, IsOk, IsTrue};
ghost use Rattle.st_event.specs.Events.{is_without_list};

use crate::rows::Rows;
use st_net::{AppId, Broken, Entity, Prio, Row};
use std::alloc::{AllocError, Global};

/// Why a row can't be set now.
#[derive(Clone, Copy, Debug, PartialEq, Eq)]
pub enum Lack {
    /// The working level that was observed of this entity is lower than the row needs.
    Level { of: Entity, level: u32, needs: u32 },
    /// The device's power would be off in the target.
    PowerOff,
}

/// What a refusal names.
#[derive(Drop)]
pub enum Cause {
    /// The first row that can't be set, and what it lacks.
    NotControllable {
        row: Row,
        lack: Lack,
    },
    /// The entity of the first row that another application's lock bars, with that application and which lock counts.
    Locked {
        entity: Entity,
        holder: AppId,
        prio: Prio,
    },
    /// The first demand that holds before and would not hold while the proposal's entities change.
    Broken(Broken),
}

/// The verdict on a proposal: accepted as this version, counted from 1, or refused.
#[derive(Drop)]
pub enum Verdict {
    Accepted { version: u32 },
    Refused(Cause),
}

/// A verdict with the ticket that it decides and the number of the entry that decides it, both counted from 1.
#[derive(Drop)]
pub struct Receipt {
    pub ticket: u32,
    pub entry: u32,
    pub verdict: Verdict,
}

/// The reply to an event.
#[derive(Drop)]
pub enum Reply {
    /// The proposal waits under this ticket.
    Queued { ticket: u32 },
    /// So many proposals wait that no more are taken.
    Full { pending: u32 },
    /// The oldest proposal was decided.
    Decided(Receipt),
    /// No proposal waits.
    Idle,
    /// The lock is the caller's.
    Granted,
    /// Another application holds the lock.
    Held { holder: AppId },
    /// The lock was given back.
    Released,
    /// The caller does not hold the lock; this is who does.
    NotYours { holder: Option<AppId> },
    /// The command of this number was sent.
    Sent { command: u32 },
    /// The entity is as the target has it.
    Settled,
    /// This row of the target can't be set now.
    Blocked { row: Row },
    /// The agent has the command in work.
    Begun,
    /// The agent has begun this stamp or a later one.
    Stale { fence: u32 },
    /// No such message: only so many were sent.
    NoSuch { sent: u32 },
    /// The command in work was carried out.
    Done,
    /// No command is in work.
    NotBusy,
    /// The report of this number was made.
    Reported { report: u32 },
    /// The report is kept.
    Taken,
    /// A report of this number is kept, which is as late or later.
    Old { kept: u32 },
    /// The entity is as the event says.
    Changed,
    /// These rows, 1 to 4 of one entity, are the target's overlay of this version: they give each variable that had another target
    /// the value that was observed.
    Withdrawn { version: u32, rows: Rows },
    /// Nothing is withdrawn: the entity's observed values are the target's, or what it is to become can be set.
    Kept,
}

impl Cause {
    /// An equal cause.
    pub fn copy(&self, alloc: Global) -> Result<Cause, AllocError>
        ensures { IfOk result (λ copy. copy ≡ self.now) }
    {
        Ok(match self {
            Cause::NotControllable { row, lack } => Cause::NotControllable {
                row: *row,
                lack: *lack,
            },
            Cause::Locked {
                entity,
                holder,
                prio,
            } => Cause::Locked {
                entity: *entity,
                holder: *holder,
                prio: *prio,
            },
            Cause::Broken(broken) => Cause::Broken(broken.copy(alloc)?),
        })
    }
}

impl Verdict {
    /// An equal verdict.
    pub fn copy(&self, alloc: Global) -> Result<Verdict, AllocError>
        ensures { IfOk result (λ copy. copy ≡ self.now) }
    {
        Ok(match self {
            Verdict::Accepted { version } => Verdict::Accepted { version: *version },
            Verdict::Refused(cause) => Verdict::Refused(cause.copy(alloc)?),
        })
    }
}

impl Receipt {
    /// An equal receipt.
    pub fn copy(&self, alloc: Global) -> Result<Receipt, AllocError>
        ensures { IfOk result (λ copy. copy ≡ self.now) }
    {
        Ok(Receipt {
            ticket: self.ticket,
            entry: self.entry,
            verdict: self.verdict.copy(alloc)?,
        })
    }
}

impl Reply {
    /// An equal reply. One that decides nothing and withdraws nothing takes no memory.
    pub fn copy(&self, alloc: Global) -> Result<Reply, AllocError>
        ensures copy { IfOk result (λ copy. copy ≡ self.now) }
        ensures without_memory { IsTrue (is_without_list self.now) → IsOk result }
    {
        Ok(match self {
            Reply::Queued { ticket } => Reply::Queued { ticket: *ticket },
            Reply::Full { pending } => Reply::Full { pending: *pending },
            Reply::Decided(receipt) => Reply::Decided(receipt.copy(alloc)?),
            Reply::Idle => Reply::Idle,
            Reply::Granted => Reply::Granted,
            Reply::Held { holder } => Reply::Held { holder: *holder },
            Reply::Released => Reply::Released,
            Reply::NotYours { holder } => Reply::NotYours { holder: *holder },
            Reply::Sent { command } => Reply::Sent { command: *command },
            Reply::Settled => Reply::Settled,
            Reply::Blocked { row } => Reply::Blocked { row: *row },
            Reply::Begun => Reply::Begun,
            Reply::Stale { fence } => Reply::Stale { fence: *fence },
            Reply::NoSuch { sent } => Reply::NoSuch { sent: *sent },
            Reply::Done => Reply::Done,
            Reply::NotBusy => Reply::NotBusy,
            Reply::Reported { report } => Reply::Reported { report: *report },
            Reply::Taken => Reply::Taken,
            Reply::Old { kept } => Reply::Old { kept: *kept },
            Reply::Changed => Reply::Changed,
            Reply::Withdrawn { version, rows } => Reply::Withdrawn {
                version: *version,
                rows: rows.copy(alloc)?,
            },
            Reply::Kept => Reply::Kept,
        })
    }
}
