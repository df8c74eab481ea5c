//! Rounds of a world: each entity that is not settled is sent its command, or what can't be set of the entity is withdrawn; its agent
//! carries the command out and reports, as far as the loss plan lets messages through.

ghost use Rattle.std.specs.Prelude.{◌≡◌, List, All, IfOk, OnErr, map};
ghost use Rattle.st_net.specs.Groups.{Group, IsEntityOf};
ghost use Rattle.st_event.specs.declared.event.Event.TheVariants.{Deliver, Hear};
ghost use Rattle.st_event.specs.declared.journal.Entry.{Entry};
ghost use Rattle.st_event.specs.Legal.{Fits};
ghost use Rattle.st_wire.specs.declared.line.WireLine.{WireLine};
ghost use Rattle.st_world.specs.Rounds.{arrivals_of, follow_ups, follow_ups_of, enter_all, enter_told, is_called_back, called_back as called_back_lem, send_turn as send_turn_lem, update_turn as update_turn_lem, poll as poll_lem, turn as turn_lem, turns as turns_lem, round as round_lem, course_from, unsettled as unsettled_lem, Goes, Rounds, IsPartOf, HasSameSetting, DidSettle, DidWithdraw, WithdrawsInTurn};

use crate::world::World;
use st_event::{Event, MAX_ENTRIES, Reply};
use st_net::Entity;
use st_plan::plan;
use st_wire::WireKind;
use std::alloc::AllocError;

/// The answer to a round.
#[derive(Clone, Copy, Debug, PartialEq, Eq)]
pub enum Rounded {
    /// All of the round was entered, and so many entities are not settled after it.
    Did { unsettled: u32 },
    /// An event met a journal that has as many entries as it may have, which is this number. What was entered before stands.
    JournalFull { entries: u32 },
}

/// Whether a course of events goes on, or met a full journal.
#[derive(Clone, Copy, Debug, PartialEq, Eq)]
pub enum Going {
    On,
    Full,
}

/// A message, by its number among those of its kind.
#[derive(Clone, Copy)]
struct Message {
    kind: WireKind,
    number: u32,
}

/// The message that was sent or made, where this is the reply to the event.
fn message_of(reply: &Reply) -> Option<Message>
    ensures { (g : Group) (lines : List WireLine) (past : List Entry) → follow_ups_of g lines past reply.now ≡ arrivals_of lines result }
{
    match reply {
        Reply::Sent { command } => Some(Message {
            kind: WireKind::Command,
            number: *command,
        }),
        Reply::Reported { report } => Some(Message {
            kind: WireKind::Report,
            number: *report,
        }),
        Reply::Queued { .. }
        | Reply::Full { .. }
        | Reply::Decided(_)
        | Reply::Idle
        | Reply::Granted
        | Reply::Held { .. }
        | Reply::Released
        | Reply::NotYours { .. }
        | Reply::Settled
        | Reply::Blocked { .. }
        | Reply::Begun
        | Reply::Stale { .. }
        | Reply::NoSuch { .. }
        | Reply::Done
        | Reply::NotBusy
        | Reply::Taken
        | Reply::Old { .. }
        | Reply::Changed
        | Reply::Withdrawn { .. }
        | Reply::Kept => None,
    }
}

impl World {
    /// The entities that are not settled, in order.
    pub fn unsettled(&self) -> Result<Vec<Entity>, AllocError>
        ensures entities { IfOk result (λ entities. entities.items ≡ unsettled_lem self.now.history.group self.now.history.past) }
        ensures own { IfOk result (λ entities. All (IsEntityOf self.now.history.group) entities.items) }
    {
        let control = self.control();
        let store = control.store();
        control.topo().is_sound();
        plan(
            self.alloc,
            store.observed(),
            store.target(),
            control.stamps(),
        )
    }

    /// Delivers these commands, one after another.
    fn deliver_all(&mut self, commands: &[u32]) -> Result<Going, AllocError>
        ensures ok { IfOk result (Goes self.new (enter_all self.old.history.group (course_from self.old.history.past) (map Deliver commands.now))) }
        ensures err { OnErr result (IsPartOf self.old self.new (enter_all self.old.history.group (course_from self.old.history.past) (map Deliver commands.now))) }
        ensures setting { HasSameSetting self.old self.new }
    {
        for command in commands {
            match self.enter(Event::Deliver { command: *command })? {
                Going::On => {}
                Going::Full => return Ok(Going::Full),
            }
        }
        Ok(Going::On)
    }

    /// Hears these reports, one after another.
    fn hear_all(&mut self, reports: &[u32]) -> Result<Going, AllocError>
        ensures ok { IfOk result (Goes self.new (enter_all self.old.history.group (course_from self.old.history.past) (map Hear reports.now))) }
        ensures err { OnErr result (IsPartOf self.old self.new (enter_all self.old.history.group (course_from self.old.history.past) (map Hear reports.now))) }
        ensures setting { HasSameSetting self.old self.new }
    {
        for report in reports {
            match self.enter(Event::Hear { report: *report })? {
                Going::On => {}
                Going::Full => return Ok(Going::Full),
            }
        }
        Ok(Going::On)
    }

    /// The message that the newest entry sent or made.
    fn newest_message(&self) -> Option<Message>
        ensures { follow_ups self.now.history.group self.now.lines self.now.history.past ≡ arrivals_of self.now.lines result }
    {
        let newest = self.journal.as_slice().last()?;
        message_of(&newest.reply)
    }

    /// Enters what follows the newest entry: the arrivals of the turn of the message that was sent or made.
    fn enter_follow_ups(&mut self) -> Result<Going, AllocError>
        ensures ok { IfOk result (Goes self.new (enter_all self.old.history.group (course_from self.old.history.past) (follow_ups self.old.history.group self.old.lines self.old.history.past))) }
        ensures err { OnErr result (IsPartOf self.old self.new (enter_all self.old.history.group (course_from self.old.history.past) (follow_ups self.old.history.group self.old.lines self.old.history.past))) }
        ensures setting { HasSameSetting self.old self.new }
    {
        let Some(message) = self.newest_message() else {
            return Ok(Going::On);
        };
        let numbers = self.plan().deliveries(message.kind, message.number)?;
        match message.kind {
            WireKind::Command => self.deliver_all(numbers.as_slice()),
            WireKind::Report => self.hear_all(numbers.as_slice()),
        }
    }

    /// Enters an event, and then what follows its entry.
    fn enter_with_follow_ups(&mut self, event: Event) -> Result<Going, AllocError>
        requires { Fits self.old.history.group event }
        ensures ok { IfOk result (Goes self.new (enter_told self.old.history.group self.old.lines (course_from self.old.history.past) event)) }
        ensures err { OnErr result (IsPartOf self.old self.new (enter_told self.old.history.group self.old.lines (course_from self.old.history.past) event)) }
        ensures setting { HasSameSetting self.old self.new }
    {
        match self.enter(event)? {
            Going::On => self.enter_follow_ups(),
            Going::Full => Ok(Going::Full),
        }
    }

    /// Whether the newest entry blocked an entity by a row that would change an observed value.
    fn is_called_back(&self, entity: Entity) -> bool
        requires { IsEntityOf self.now.history.group entity }
        ensures { result ≡ is_called_back self.now.history.group self.now.history.past entity }
    {
        let Some(newest) = self.journal.as_slice().last() else {
            return false;
        };
        let Reply::Blocked { row } = &newest.reply else {
            return false;
        };
        let control = self.machine.control();
        let place = control.topo().place(entity);
        let vals = control.store().observed()[place].vals;
        vals.get(entity, row.var) != row.value
    }

    /// Where the newest entry blocked an entity by a row that would change an observed value, what the entity is to become is withdrawn.
    fn call_back(&mut self, entity: Entity) -> Result<Going, AllocError>
        requires { IsEntityOf self.old.history.group entity }
        ensures ok { IfOk result (Goes self.new (called_back_lem self.old.history.group (course_from self.old.history.past) entity)) }
        ensures err { OnErr result (IsPartOf self.old self.new (called_back_lem self.old.history.group (course_from self.old.history.past) entity)) }
        ensures setting { HasSameSetting self.old self.new }
    {
        if self.is_called_back(entity) {
            self.enter(Event::Withdraw { entity })
        } else {
            Ok(Going::On)
        }
    }

    /// An entity is sent its command. Where a command was sent, each command that arrives at the turn is delivered; where the entity was
    /// blocked by a row that would change an observed value, what the entity is to become is withdrawn.
    fn send_turn(&mut self, entity: Entity) -> Result<Going, AllocError>
        requires { IsEntityOf self.old.history.group entity }
        ensures ok { IfOk result (Goes self.new (send_turn_lem self.old.history.group self.old.lines (course_from self.old.history.past) entity)) }
        ensures err { OnErr result (IsPartOf self.old self.new (send_turn_lem self.old.history.group self.old.lines (course_from self.old.history.past) entity)) }
        ensures setting { HasSameSetting self.old self.new }
    {
        match self.enter_with_follow_ups(Event::Send { entity })? {
            Going::On => self.call_back(entity),
            Going::Full => Ok(Going::Full),
        }
    }

    /// The half of an entity's turn that updates the entity: the entity is sent its command; where a command was sent, each command that
    /// arrives at the turn is delivered; where the entity was blocked by a row that would change an observed value, what the entity is to
    /// become is withdrawn; and its agent carries the command in work out. At `Full` the journal met its limit; then, and at `Err`, a part
    /// of these events was entered, from the first, and stands.
    pub fn update_turn(&mut self, entity: Entity) -> Result<Going, AllocError>
        requires { IsEntityOf self.old.history.group entity }
        ensures ok { IfOk result (Goes self.new (update_turn_lem self.old.history.group self.old.lines (course_from self.old.history.past) entity)) }
        ensures err { OnErr result (IsPartOf self.old self.new (update_turn_lem self.old.history.group self.old.lines (course_from self.old.history.past) entity)) }
        ensures setting { HasSameSetting self.old self.new }
    {
        match self.send_turn(entity)? {
            Going::On => self.enter(Event::Finish { entity }),
            Going::Full => Ok(Going::Full),
        }
    }

    /// The half of an entity's turn that monitors the entity: its agent reports, and each report that arrives at the turn of this one is
    /// heard. At `Full` the journal met its limit; then, and at `Err`, a part of these events was entered, from the first, and stands.
    pub fn poll(&mut self, entity: Entity) -> Result<Going, AllocError>
        requires { IsEntityOf self.old.history.group entity }
        ensures ok { IfOk result (Goes self.new (poll_lem self.old.history.group self.old.lines (course_from self.old.history.past) entity)) }
        ensures err { OnErr result (IsPartOf self.old self.new (poll_lem self.old.history.group self.old.lines (course_from self.old.history.past) entity)) }
        ensures setting { HasSameSetting self.old self.new }
    {
        self.enter_with_follow_ups(Event::Report { entity })
    }

    /// The turn of an entity: the entity is updated, and then monitored. At `Full` the journal met its limit; then, and at `Err`, a part of
    /// these events was entered, from the first, and stands.
    pub fn turn(&mut self, entity: Entity) -> Result<Going, AllocError>
        requires { IsEntityOf self.old.history.group entity }
        ensures ok { IfOk result (Goes self.new (turn_lem self.old.history.group self.old.lines (course_from self.old.history.past) entity)) }
        ensures err { OnErr result (IsPartOf self.old self.new (turn_lem self.old.history.group self.old.lines (course_from self.old.history.past) entity)) }
        ensures setting { HasSameSetting self.old self.new }
    {
        match self.update_turn(entity)? {
            Going::On => self.poll(entity),
            Going::Full => Ok(Going::Full),
        }
    }

    /// The turns of these entities, one after another.
    fn turns(&mut self, entities: &[Entity]) -> Result<Going, AllocError>
        requires { All (IsEntityOf self.old.history.group) entities.now }
        ensures ok { IfOk result (Goes self.new (turns_lem self.old.history.group self.old.lines (course_from self.old.history.past) entities.now)) }
        ensures err { OnErr result (IsPartOf self.old self.new (turns_lem self.old.history.group self.old.lines (course_from self.old.history.past) entities.now)) }
        ensures setting { HasSameSetting self.old self.new }
    {
        for entity in entities {
            match self.turn(*entity)? {
                Going::On => {}
                Going::Full => return Ok(Going::Full),
            }
        }
        Ok(Going::On)
    }

    /// A round: the entities that are not settled as the round begins, in order, each have their turn. That is a Send; where the Send was
    /// blocked by a row whose value is not the observed one, a Withdraw; where a command was sent, a Deliver of each command that arrives
    /// at the Send's turn; a Finish; a Report; and a Hear of each report that arrives at the Report's turn. `JournalFull` comes exactly
    /// where one more entry was due at 200,000. At `JournalFull` and at `Err` a part of the round was entered, from its start, and stands.
    /// The time grows with the entities of the group, and with the lines of the plan for each message that is sent.
    pub fn round(&mut self) -> Result<Rounded, AllocError>
        ensures ok { IfOk result (Rounds self.old self.new) }
        ensures err { OnErr result (IsPartOf self.old self.new (round_lem self.old.history.group self.old.lines self.old.history.past)) }
        ensures setting { HasSameSetting self.old self.new }
        ensures settles { IfOk result (DidSettle self.old self.new) }
        ensures withdraws { IfOk result (DidWithdraw self.old self.new) }
        ensures broken_off { OnErr result (WithdrawsInTurn self.old self.new) }
    {
        self.is_legal();
        let entities = self.unsettled()?;
        match self.turns(entities.as_slice())? {
            Going::On => {
                let left = self.unsettled()?;
                Ok(Rounded::Did {
                    unsettled: left.len() as u32,
                })
            }
            Going::Full => Ok(Rounded::JournalFull {
                entries: MAX_ENTRIES as u32,
            }),
        }
    }
}
