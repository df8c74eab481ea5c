//! What an application's script asks for, and what its log saw.

use crate::rows::Rows;
use st_net::{AppId, Entity, Items, Prio, Var};

/// One command of a script. Groups are named by their numbers from 0 in the order of the document.
#[derive(Drop)]
pub enum Act {
    /// Propose 1 to 16 rows.
    Propose {
        group: u32,
        rows: Rows,
    },
    /// Check until the application's latest proposal in the group is decided.
    Await {
        group: u32,
    },
    /// Make rounds, at most so many, until every entity is settled.
    Settle {
        group: u32,
        rounds: u32,
    },
    /// Ask for a lock.
    Lock {
        group: u32,
        entity: Entity,
        prio: Prio,
    },
    /// Give a lock back.
    Unlock {
        group: u32,
        entity: Entity,
        prio: Prio,
    },
    /// Log a variable's value in the target.
    Read {
        group: u32,
        entity: Entity,
        var: Var,
    },
    /// Log a variable's value at a version.
    ReadAt {
        group: u32,
        version: u32,
        entity: Entity,
        var: Var,
    },
    /// Let an entity change of itself. The rows, none or more, are on that entity.
    Fail {
        group: u32,
        entity: Entity,
        health: u32,
        rows: Rows,
    },
    /// Let an entity report, and hear what arrives.
    Poll {
        group: u32,
        entity: Entity,
    },
    /// A span: a proposal over two groups. No document has one yet, and no group does it alone.
    Span {
        first: u32,
        first_rows: Rows,
        second: u32,
        second_rows: Rows,
    },
}

/// What a command that reads saw.
#[derive(Clone, Copy, Debug, PartialEq, Eq)]
pub enum LogSaw {
    /// The target has this version, and the variable this value.
    Seen { version: u32, value: u32 },
    /// At the version that was asked for the variable has this value.
    At { version: u32, value: u32 },
    /// There is no such version; this is the latest.
    NoVersion { asked: u32, latest: u32 },
}

/// One line of a log.
#[derive(Clone, Copy, Debug, PartialEq, Eq)]
pub struct LogEntry {
    pub group: u32,
    pub entity: Entity,
    pub var: Var,
    pub saw: LogSaw,
}

/// What one application's commands saw, in their order.
#[derive(Drop)]
pub struct Log {
    pub app: AppId,
    pub entries: Items<LogEntry>,
}
