//! One group's world: every event goes through `World::step`, or through `World::enter` where nobody reads the reply. Both ask the group's
//! machine for the reply, and enter the event with the reply in the journal. Scripts and services drive worlds, and reports are read from
//! them.

ghost use Rattle.std.specs.Prelude.{◌≡◌, List, [], ◌∷◌, ◌++◌, ◌<◌, ◌≤◌, ◌+◌, IfOk, IfSome, IsNone, IsOk, IsSome, IsTrue, MatchResult, OnOk, OnErr, length, drop, reverse};
ghost use Rattle.std.specs.Vec.{vec_len, vec_capacity};
ghost use Rattle.st_net.specs.Groups.{IsSound, IsEntityOf};
ghost use Rattle.st_event.specs.declared.journal.Entry.{Entry as entry};
ghost use Rattle.st_event.specs.declared.journal.TheConstants.{MAX_ENTRIES};
ghost use Rattle.st_event.specs.Agents.{agent_of};
ghost use Rattle.st_event.specs.Facts.{AgentsAgree};
ghost use Rattle.st_event.specs.Legal.{Fits, IsLegal, AtEach};
ghost use Rattle.st_event.specs.Moments.{commands, reports};
ghost use Rattle.st_event.specs.Network.{KeepsPromises};
ghost use Rattle.st_event.specs.Standing.{standing_of};
ghost use Rattle.st_event.specs.Versions.{value_at};
ghost use Rattle.st_control.specs.Control.{standing_in, versions_in};
ghost use Rattle.st_world.specs.Machine.{is_without_memory};
ghost use Rattle.st_world.specs.Rounds.{enter as enter_lem, course_from, Goes, IsPartOf, HasSameSetting};
ghost use Rattle.st_world.specs.World.{StepSpends, Steps};

pub mod acts;
pub mod commits;
mod fit;
pub mod rounds;
mod shares;
pub mod ups;

use crate::machine::Machine;
use crate::world::rounds::Going;
use st_agent::Agent;
use st_control::{Control, Twice};
use st_event::{Entry, Event, Journal, MAX_ENTRIES, Reply};
use st_net::{Entity, GroupTopo, Items};
use st_wire::{LossPlan, Wire};
use std::alloc::{AllocError, Global};
use std::marker::Model;

/// The answer to an event.
#[derive(Drop)]
pub enum Stepped {
    /// The event was entered with this reply.
    Did(Reply),
    /// The journal has as many entries as it may have, which is this number: nothing has changed.
    JournalFull { entries: u32 },
}

/// One group with its agents, its messages, the plan by which messages are lost, and its journal.
#[derive(Drop)]
pub struct World {
    alloc: Global,
    machine: Machine,
    losses: LossPlan,
    journal: Vec<Entry>,
}

impl Model for World {
    ghost use Rattle.std.specs.Prelude.{◌-◌, min, reverse};
    ghost use Rattle.std.specs.Vec.{vec_len, vec_capacity};
    ghost use Rattle.st_world.specs.World.{WorldView, Agrees};

    ghost Value = { WorldView };

    ghost view = { λ w. record { history = record { group = w.machine.checker.group; past = reverse w.journal.items }; lines = w.losses; room = min (vec_capacity w.journal - vec_len w.journal) w.machine.messages.room } };

    ghost invariant = { λ w. Agrees w.machine w.journal.items };
}

/// Enters an event with its reply at the end of a journal that has room.
fn enter_last(journal: &mut Vec<Entry>, event: Event, reply: Reply)
    requires { vec_len journal.old < vec_capacity journal.old }
    ensures entry { journal.new.items ≡ journal.old.items ++ record { event = event; reply = reply } ∷ [] }
    ensures room { vec_capacity journal.old ≤ vec_capacity journal.new }
{
    journal.push_reserved(Entry { event, reply });
}

/// Makes room in a journal for one more entry, and gives that entry's number. None comes where the journal has as many entries as it may
/// have.
fn next_entry(journal: &mut Vec<Entry>) -> Result<Option<u32>, AllocError>
    ensures number { IfOk result (λ next. IfSome next (λ n. n ≡ length journal.old.items + 1)) }
    ensures few { IfOk result (λ next. IfSome next (λ n. n ≤ MAX_ENTRIES)) }
    ensures full { IfOk result (λ next. IsNone next → MAX_ENTRIES ≤ length journal.old.items) }
    ensures place { IfOk result (λ next. IsSome next → vec_len journal.new < vec_capacity journal.new) }
    ensures without_memory { vec_len journal.old < vec_capacity journal.old → IsOk result }
    ensures items { journal.new.items ≡ journal.old.items }
    ensures len { vec_len journal.new ≡ vec_len journal.old }
    ensures room { vec_capacity journal.old ≤ vec_capacity journal.new }
{
    if journal.len() >= MAX_ENTRIES {
        return Ok(None);
    }
    journal.reserve(1)?;
    Ok(Some(journal.len() as u32 + 1))
}

impl World {
    /// A group at its opening, with a plan by which its messages are lost, come again or come late.
    pub fn start(alloc: Global, topo: GroupTopo, losses: LossPlan) -> Result<World, AllocError>
        ensures history { IfOk result (λ world. world.history ≡ record { group = topo; past = [] }) }
        ensures lines { IfOk result (λ world. world.lines ≡ losses) }
    {
        let machine = Machine::start(alloc, topo)?;
        Ok(World {
            alloc,
            machine,
            losses,
            journal: Vec::new(alloc),
        })
    }

    /// Enters an event with the reply that the entries before it call for. `JournalFull` comes exactly where the journal has
    /// 200,000 entries, and then nothing changes. A Deliver or a Hear of a message that was never sent is entered as NoSuch. At
    /// `Err` the group, its journal and its plan are as they were, no room is spent, and the event is dropped. Where there is room, only
    /// proposals, decisions and withdrawals take memory. It takes constant time but for the rows of a proposal or of a withdrawal, and for a
    /// decision.
    pub fn step(&mut self, event: Event) -> Result<Stepped, AllocError>
        requires { Fits self.old.history.group event }
        ensures ok { IfOk result (Steps self.old.history self.new.history event) }
        ensures err { OnErr result (self.new.history ≡ self.old.history) }
        ensures losses { self.new.lines ≡ self.old.lines }
        ensures without_memory { 0 < self.old.room → IsTrue (is_without_memory event) → IsOk result }
        ensures room { self.old.room ≤ self.new.room + 1 }
        ensures spent { MatchResult result (StepSpends self.old.room self.new.room) (λ _. self.old.room ≤ self.new.room) }
    {
        // The room is made first: once the machine has answered, the entry has to follow.
        let Some(entry) = next_entry(&mut self.journal)? else {
            return Ok(Stepped::JournalFull {
                entries: MAX_ENTRIES as u32,
            });
        };
        let Twice { told, kept } = self.machine.answer_twice(entry, &event)?;
        enter_last(&mut self.journal, event, kept);
        Ok(Stepped::Did(told))
    }

    /// Does what `step` does, and hands no reply out, so that the reply is made once. As in all courses of events, at `Full` and at `Err`
    /// what was entered is a part of the course, from the course's start.
    pub(crate) fn enter(&mut self, event: Event) -> Result<Going, AllocError>
        requires { Fits self.old.history.group event }
        ensures ok { IfOk result (Goes self.new (enter_lem self.old.history.group (course_from self.old.history.past) event)) }
        ensures err { OnErr result (IsPartOf self.old self.new (enter_lem self.old.history.group (course_from self.old.history.past) event)) }
        ensures none { OnErr result (self.new.history ≡ self.old.history) }
        ensures setting { HasSameSetting self.old self.new }
    {
        // The room is made first, so that no event is answered and not entered.
        let Some(entry) = next_entry(&mut self.journal)? else {
            return Ok(Going::Full);
        };
        let reply = self.machine.answer(entry, &event)?;
        enter_last(&mut self.journal, event, reply);
        Ok(Going::On)
    }

    /// Makes room for `n` entries: the next `n` steps of Lock, Unlock, Send, Deliver, Finish, Report, Hear and Fail take no memory,
    /// so none of these steps is refused for want of memory. Nothing else changes, also at `Err`.
    pub fn reserve(&mut self, n: u32) -> Result<(), AllocError>
        ensures room { OnOk result (n ≤ self.new.room) }
        ensures more { self.old.room ≤ self.new.room }
        ensures history { self.new.history ≡ self.old.history }
        ensures losses { self.new.lines ≡ self.old.lines }
    {
        self.journal.reserve(n as usize)?;
        self.machine.reserve(n)
    }

    /// The checker, which stands as the journal leaves the group.
    pub fn control(&self) -> &Control
        ensures group { result.now.group ≡ self.now.history.group }
        ensures standing { standing_in result.now ≡ standing_of self.now.history.group self.now.history.past }
        ensures versions { versions_in result.now ≡ value_at self.now.history.group self.now.history.past }
    {
        self.machine.control()
    }

    /// The agent of an entity, as the journal leaves it.
    pub fn agent(&self, e: Entity) -> &Agent
        requires { IsEntityOf self.now.history.group e }
        ensures { result.now ≡ record { entity = e; agent = agent_of self.now.history.group self.now.history.past e } }
    {
        self.machine.plant().agent(self.machine.control().topo(), e)
    }

    /// All messages that were sent.
    pub fn wire(&self) -> &Wire
        ensures commands { result.now.commands ≡ commands self.now.history.group self.now.history.past }
        ensures reports { result.now.reports ≡ reports self.now.history.group self.now.history.past }
    {
        self.machine.wire()
    }

    /// The plan that the world was started with.
    pub fn plan(&self) -> &LossPlan
        ensures { result.now ≡ self.now.lines }
    {
        &self.losses
    }

    /// The journal, the oldest entry first.
    pub fn journal(&self) -> &[Entry]
        ensures { reverse result.now ≡ self.now.history.past }
    {
        self.journal.as_slice()
    }

    /// How many entries the journal has.
    pub fn entries(&self) -> u32
        ensures count { result ≡ length self.now.history.past }
        ensures few { result ≤ MAX_ENTRIES }
    {
        self.is_legal();
        self.journal.len() as u32
    }

    /// The entries behind the first `from`, the oldest first. With what `entries` told before, those that were made since then.
    pub fn entries_since(&self, from: u32) -> &[Entry]
        requires { from ≤ length self.now.history.past }
        ensures rest { result.now ≡ drop from (reverse self.now.history.past) }
        ensures since { (more : List entry) (before : List entry) → self.now.history.past ≡ more ++ before → length before ≡ from → result.now ≡ reverse more }
    {
        &self.journal.as_slice()[from as usize..]
    }

    /// The journal as that of the group of this number, given back without taking memory.
    pub fn into_journal(self, group: u32) -> Journal
        ensures group { result.group ≡ group }
        ensures entries { reverse result.entries ≡ self.history.past }
    {
        let World {
            alloc: _,
            machine,
            losses,
            journal,
        } = self;
        drop(machine);
        drop(losses);
        Journal {
            group,
            entries: Items::new(journal),
        }
    }

    /// The journal is legal, and the group is sound.
    pub fn is_legal(&self)
        ensures legal { IsLegal self.now.history.group self.now.history.past }
        ensures sound { IsSound self.now.history.group }
    {
        self.machine.control().topo().is_sound();
    }

    /// At each moment so far: each entity of the sure set carries in the simulated network, or failed since the agent made the report that
    /// is kept of the entity; while no entity had failed, each promise that held at the opening held in the sure set, in the simulated
    /// network, and in every set that has the sure entities; and where an entry took a promise from the sure set, it was the hearing of a
    /// report of an entity that had failed in between.
    pub fn keeps_promises(&self)
        ensures { AtEach (KeepsPromises self.now.history.group) self.now.history.past }
    {
        self.is_legal();
    }

    /// At each moment so far commands, agents and reports agreed with the target: no command is newer than its entity's stamp, and each
    /// command has the target's values of the command's stamp; no fence is above the stamp; a report that is not busy tells what its agent
    /// is until the agent begins a command or the entity fails; and an agent that is not busy and was not spoiled by a failure has the
    /// target's values of the agent's fence.
    pub fn agents_agree(&self)
        ensures { AtEach (AgentsAgree self.now.history.group) self.now.history.past }
    {
        self.is_legal();
    }
}
