//! What a document declares. The reader makes it from text, and the runs and the printer take it.

use st_event::Act;
use st_net::{Items, Name, Parts};
use st_token::LineFault;
use st_wire::WireLine;

/// An application with its acts, in order.
#[derive(Drop)]
pub struct Script {
    pub name: Name,
    pub acts: Items<Act>,
}

/// Where the journals of a document begin: the index of the first byte of the line, and the line's number from 1.
#[derive(Clone, Copy, Debug, PartialEq, Eq)]
pub struct JournalAt {
    pub byte: usize,
    pub line: u32,
}

/// A document: its groups, what becomes of each group's messages, its applications, the order in which these do their acts,
/// and where its journals stand, if it has some.
#[derive(Drop)]
pub struct Doc {
    pub groups: Items<Parts>,
    /// The wire lines of each group, in the order of groups.
    pub wires: Items<Items<WireLine>>,
    pub apps: Items<Script>,
    /// Applications by their numbers from 0, in the order in which each does its next act.
    pub order: Items<u32>,
    pub journal_at: Option<JournalAt>,
}

/// What was read: a document, or its first bad line.
#[derive(Drop)]
pub enum DocRead {
    Doc(Doc),
    Fault(LineFault),
}
