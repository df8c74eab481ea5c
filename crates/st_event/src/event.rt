//! The events that a group's journal enters, each under the group's lock.

ghost use Rattle.std.specs.Prelude.{◌≡◌, IfOk, IsOk, IsTrue};
ghost use Rattle.st_event.specs.Events.{is_without_rows};

use crate::rows::Rows;
use st_net::{AppId, Entity, Prio, Vals};
use std::alloc::{AllocError, Global};

/// What may happen to a group.
#[derive(Drop)]
pub enum Event {
    /// An application proposes rows: they wait in the group's queue.
    Submit {
        app: AppId,
        rows: Rows,
    },
    /// The checker decides the oldest proposal that waits.
    Check,
    /// An application asks for a lock of an entity.
    Lock {
        app: AppId,
        entity: Entity,
        prio: Prio,
    },
    /// An application gives a lock back.
    Unlock {
        app: AppId,
        entity: Entity,
        prio: Prio,
    },
    /// An entity is to take its target's values: a command is sent to its agent.
    Send {
        entity: Entity,
    },
    /// A command that was sent, by its number from 1, reaches its agent.
    Deliver {
        command: u32,
    },
    /// An entity's agent carries out the command that it has in work.
    Finish {
        entity: Entity,
    },
    /// An entity's agent says how it is.
    Report {
        entity: Entity,
    },
    /// A report that was made, by its number from 1, is heard by the checker.
    Hear {
        report: u32,
    },
    /// An entity changes of itself: these are its values and its health from now on.
    Fail {
        entity: Entity,
        vals: Vals,
        health: u32,
    },
    /// What an entity's target asks for that can't be set now is withdrawn: its target becomes what was observed of it.
    Withdraw {
        entity: Entity,
    },
}

/// What an application asked for.
#[derive(Drop)]
pub struct Proposal {
    pub app: AppId,
    pub rows: Rows,
}

impl Event {
    /// An equal event. An event without rows takes no memory.
    pub fn copy(&self, alloc: Global) -> Result<Event, AllocError>
        ensures copy { IfOk result (λ copy. copy ≡ self.now) }
        ensures without_memory { IsTrue (is_without_rows self.now) → IsOk result }
    {
        Ok(match self {
            Event::Submit { app, rows } => Event::Submit {
                app: *app,
                rows: rows.copy(alloc)?,
            },
            Event::Check => Event::Check,
            Event::Lock { app, entity, prio } => Event::Lock {
                app: *app,
                entity: *entity,
                prio: *prio,
            },
            Event::Unlock { app, entity, prio } => Event::Unlock {
                app: *app,
                entity: *entity,
                prio: *prio,
            },
            Event::Send { entity } => Event::Send { entity: *entity },
            Event::Deliver { command } => Event::Deliver { command: *command },
            Event::Finish { entity } => Event::Finish { entity: *entity },
            Event::Report { entity } => Event::Report { entity: *entity },
            Event::Hear { report } => Event::Hear { report: *report },
            Event::Fail {
                entity,
                vals,
                health,
            } => Event::Fail {
                entity: *entity,
                vals: *vals,
                health: *health,
            },
            Event::Withdraw { entity } => Event::Withdraw { entity: *entity },
        })
    }
}

impl Proposal {
    /// An equal proposal.
    pub fn copy(&self, alloc: Global) -> Result<Proposal, AllocError>
        ensures { IfOk result (λ copy. copy ≡ self.now) }
    {
        Ok(Proposal {
            app: self.app,
            rows: self.rows.copy(alloc)?,
        })
    }
}
