//! One entity's agent: what commands, finishes and failures make of it, and what it reports.

ghost use Rattle.std.specs.Prelude.{◌≡◌, ◌+◌, ◌<◌, ◌^◌, Some};
ghost use Rattle.st_net.specs.Agents.{agent_opening, agent_told, agent_finished, agent_failed, agent_counted, agent_report, agent_level, is_at_work, is_agent_up};
ghost use Rattle.st_agent.specs.State.{delivery_of, finish_of};

use st_net::{Command, Entity, Report, Vals, carries, level_of};
use std::marker::Model;

/// The answer to a command.
#[derive(Clone, Copy, Debug, PartialEq, Eq)]
pub enum Delivery {
    /// It is in work from now on, in place of the one that was, and its stamp is the fence.
    Begun,
    /// Its stamp is not above the fence, which is this: it was dropped.
    Stale { fence: u32 },
}

/// The answer to a finish.
#[derive(Clone, Copy, Debug, PartialEq, Eq)]
pub enum Finish {
    /// The values of the command in work were taken, all at once, and none is in work any more.
    Done,
    /// No command is in work.
    NotBusy,
}

/// The agent of one entity. It is busy while a command is in work.
#[derive(Drop)]
pub struct Agent {
    entity: Entity,
    vals: Vals,
    health: u32,
    fence: u32,
    work: Option<Vals>,
    number: u32,
}

impl Model for Agent {
    ghost use Rattle.st_agent.specs.State.{AgentState};

    ghost Value = { AgentState };

    ghost view = { λ a. record { entity = a.entity; agent = record { vals = a.vals; health = a.health; fence = a.fence; work = a.work; number = a.number } } };
}

impl Agent {
    /// The agent of an entity with these values and this health, 0 to 5 of a device and 0 or 1 of a link. It was told nothing
    /// and has reported nothing.
    pub fn start(entity: Entity, vals: Vals, health: u32) -> Agent
        ensures { result ≡ record { entity = entity; agent = agent_opening vals health } }
    {
        Agent {
            entity,
            vals,
            health,
            fence: 0,
            work: None,
            number: 0,
        }
    }

    /// A command of this entity reaches the agent. `Stale` comes exactly where its stamp is at most the fence, and changes
    /// nothing.
    pub fn deliver(&mut self, command: Command) -> Delivery
        requires { command.entity ≡ self.old.entity }
        ensures answer { result ≡ delivery_of self.old.agent command }
        ensures agent { self.new ≡ record self.old { agent = agent_told (Some command) self.old.agent } }
    {
        if command.stamp <= self.fence {
            return Delivery::Stale { fence: self.fence };
        }
        self.fence = command.stamp;
        self.work = Some(command.vals);
        Delivery::Begun
    }

    /// The command in work is carried out. `NotBusy` comes exactly where none is, and changes nothing.
    pub fn finish(&mut self) -> Finish
        ensures answer { result ≡ finish_of self.old.agent }
        ensures agent { self.new ≡ record self.old { agent = agent_finished self.old.agent.work self.old.agent } }
    {
        match self.work {
            Some(vals) => {
                self.vals = vals;
                self.work = None;
                Finish::Done
            }
            None => Finish::NotBusy,
        }
    }

    /// The next report of this agent. Its number is one above the last one's, and 1 at first.
    pub fn report(&mut self) -> Report
        requires { self.old.agent.number + 1 < 2 ^ 32 }
        ensures report { result ≡ agent_report self.old.entity self.old.agent }
        ensures agent { self.new ≡ record self.old { agent = agent_counted self.old.agent } }
    {
        self.number += 1;
        Report {
            entity: self.entity,
            number: self.number,
            fence: self.fence,
            busy: self.busy(),
            vals: self.vals,
            level: self.level(),
        }
    }

    /// The entity changes of itself. The fence and the command in work stay.
    pub fn fail(&mut self, vals: Vals, health: u32)
        ensures { self.new ≡ record self.old { agent = agent_failed vals health self.old.agent } }
    {
        self.vals = vals;
        self.health = health;
    }

    /// The entity's values.
    pub fn vals(&self) -> Vals
        ensures { result ≡ self.now.agent.vals }
    {
        self.vals
    }

    /// Whether a command is in work.
    pub fn busy(&self) -> bool
        ensures { result ≡ is_at_work self.now.agent.work }
    {
        self.work.is_some()
    }

    /// The entity's working level: 0 to 5 of a device, 0 or 1 of a link.
    pub fn level(&self) -> u32
        ensures { result ≡ agent_level self.now.entity self.now.agent }
    {
        level_of(self.entity, self.vals, self.health, self.busy())
    }

    /// Whether the entity carries traffic: no command is in work, and its power, routing and level are as that needs.
    pub fn up(&self) -> bool
        ensures { result ≡ is_agent_up self.now.entity self.now.agent }
    {
        !self.busy() && carries(self.entity, self.vals, self.level())
    }
}
