//! What is sent between the checker's side and the devices: commands to agents, and their reports.

use crate::entity::{Entity, Vals};

/// What an entity's agent is asked to set: all values of the target, with the stamp of the target's last change.
#[derive(Clone, Copy, Debug, PartialEq, Eq)]
pub struct Command {
    pub entity: Entity,
    pub stamp: u32,
    pub vals: Vals,
}

/// What an agent says of itself: the number of this report, from 1; the greatest stamp that it has begun; whether a command
/// is in work; its values and its working level. Number 0 is the opening's, which no agent made.
#[derive(Clone, Copy, Debug, PartialEq, Eq)]
pub struct Report {
    pub entity: Entity,
    pub number: u32,
    pub fence: u32,
    pub busy: bool,
    pub vals: Vals,
    pub level: u32,
}
