//! A group without its journal: the checker, an agent for each entity, and all messages. The machine answers each event, and the world
//! enters the event with that reply.

ghost use Rattle.std.specs.Prelude.{◌≡◌, ℕ, ◌<◌, ◌≤◌, ◌+◌, ◌^◌, length, IfOk, IsOk, IsTrue, OnOk, OnErr};
ghost use Rattle.st_net.specs.Groups.{IsEntityOf};
ghost use Rattle.st_net.specs.Ranges.{RowsFit};
ghost use Rattle.st_event.specs.declared.event.Event.TheVariants.{Submit, Check as check_event, Lock, Unlock, Send, Deliver, Finish as finish_event, Report as report_event, Hear, Fail, Withdraw};
ghost use Rattle.st_event.specs.declared.reply.Reply.TheVariants.{Decided as decided_reply};
ghost use Rattle.st_event.specs.declared.journal.TheConstants.{MAX_ENTRIES};
ghost use Rattle.st_event.specs.Events.{answers_without_list, is_without_list};
ghost use Rattle.st_event.specs.Legal.{Fits};
ghost use Rattle.st_world.specs.Plant.{IsPlantOf, agent_in};
ghost use Rattle.st_world.specs.Machine.{Answers, HasSameMachine, IsBelow, IsOpening, is_without_memory};

use crate::plant::Plant;
use st_agent::{Delivery, Finish};
use st_control::{
    Control, Judged, SendStep, Twice, check_reply, grant_reply, keep_reply, put_reply,
    release_reply, withdrawal_reply,
};
use st_event::{Event, Receipt, Reply, Rows};
use st_net::{AppId, Entity, GroupTopo, Prio, Vals};
use st_wire::{Took, Wire};
use std::alloc::{AllocError, Global};
use std::marker::Model;

/// A group's checker, its agents and its messages.
#[derive(Drop)]
pub struct Machine {
    alloc: Global,
    control: Control,
    plant: Plant,
    wire: Wire,
}

impl Model for Machine {
    ghost use Rattle.st_world.specs.Machine.{MachineView, IsMachine};

    ghost Value = { MachineView };

    ghost view = { λ m. record { checker = m.control; agents = m.plant; messages = m.wire } };

    ghost invariant = { λ m. IsMachine (record { checker = m.control; agents = m.plant; messages = m.wire }) };
}

/// A reply without a list, twice. It takes no memory.
fn told_twice(alloc: Global, told: Reply) -> Twice<Reply>
    requires { IsTrue (is_without_list told) }
    ensures told { result.told ≡ told }
    ensures kept { result.kept ≡ told }
{
    match told.copy(alloc) {
        Ok(kept) => Twice { told, kept },
        Err(_) => unreachable!(),
    }
}

impl Machine {
    /// A group at its opening.
    pub fn start(alloc: Global, topo: GroupTopo) -> Result<Machine, AllocError>
        ensures { IfOk result (IsOpening topo) }
    {
        let plant = Plant::start(alloc, &topo)?;
        let control = Control::start(alloc, topo)?;
        Ok(Machine {
            alloc,
            control,
            plant,
            wire: Wire::start(alloc),
        })
    }

    /// The checker.
    pub fn control(&self) -> &Control
        ensures { result.now ≡ self.now.checker }
    {
        &self.control
    }

    /// The agents.
    pub fn plant(&self) -> &Plant
        ensures agents { result.now ≡ self.now.agents }
        ensures of { IsPlantOf self.now.checker.group result.now }
    {
        &self.plant
    }

    /// The messages.
    pub fn wire(&self) -> &Wire
        ensures { result.now ≡ self.now.messages }
    {
        &self.wire
    }

    /// Makes room, so that the next `n` messages take no memory.
    pub fn reserve(&mut self, n: u32) -> Result<(), AllocError>
        ensures room { OnOk result (n ≤ self.new.messages.room) }
        ensures without_memory { n ≤ self.old.messages.room → IsOk result }
        ensures more { self.old.messages.room ≤ self.new.messages.room }
        ensures same { HasSameMachine self.old self.new }
    {
        self.wire.reserve(n)
    }

    /// An application proposes rows.
    fn submit(&mut self, app: AppId, rows: &Rows) -> Result<Reply, AllocError>
        requires fits { RowsFit self.old.checker.group rows.now }
        requires tickets { self.old.checker.store.tickets + 1 < 2 ^ 32 }
        ensures ok { IfOk result (λ reply. (n : ℕ) → Answers self.old self.new n (Submit app rows.now) reply) }
        ensures plain { IfOk result (λ reply. IsTrue (is_without_list reply)) }
        ensures err { OnErr result (self.new ≡ self.old) }
        ensures room { self.new.messages ≡ self.old.messages }
    {
        let asked = rows.copy(self.alloc)?;
        Ok(put_reply(self.control.submit(app, asked)?))
    }

    /// The oldest proposal is decided. At `Err` nothing has changed but the checker's count of runs.
    fn check(&mut self, entry: u32) -> Result<Reply, AllocError>
        requires version { self.old.checker.store.version + 1 < 2 ^ 32 }
        ensures ok { IfOk result (Answers self.old self.new entry check_event) }
        ensures err { OnErr result (HasSameMachine self.old self.new) }
        ensures room { self.new.messages ≡ self.old.messages }
    {
        Ok(check_reply(self.control.check(entry)?))
    }

    /// Does what `check` does, and gives the reply twice.
    fn check_twice(&mut self, entry: u32) -> Result<Twice<Reply>, AllocError>
        requires version { self.old.checker.store.version + 1 < 2 ^ 32 }
        ensures ok { IfOk result (λ answered. Answers self.old self.new entry check_event answered.told) }
        ensures kept { IfOk result (λ answered. answered.kept ≡ answered.told) }
        ensures err { OnErr result (HasSameMachine self.old self.new) }
        ensures room { self.new.messages ≡ self.old.messages }
    {
        let checks = self.control.check_twice(entry)?;
        Ok(Twice {
            told: check_reply(checks.told),
            kept: check_reply(checks.kept),
        })
    }

    /// The oldest proposal, which was judged away from the checker, is decided, and its receipt is given twice. At `Err` nothing has
    /// changed but the checker's count of runs.
    pub fn commit(&mut self, entry: u32, judged: &Judged) -> Result<Twice<Receipt>, AllocError>
        requires oldest { judged.now.ticket ≡ length self.old.checker.store.decided + 1 }
        requires given { judged.now.ticket ≤ self.old.checker.store.tickets }
        requires version { self.old.checker.store.version + 1 < 2 ^ 32 }
        ensures ok { IfOk result (λ receipts. Answers self.old self.new entry check_event (decided_reply receipts.told)) }
        ensures ticket { IfOk result (λ receipts. receipts.told.ticket ≡ judged.now.ticket) }
        ensures kept { IfOk result (λ receipts. receipts.kept ≡ receipts.told) }
        ensures err { OnErr result (HasSameMachine self.old self.new) }
        ensures room { self.new.messages ≡ self.old.messages }
    {
        self.control.commit_twice(entry, judged)
    }

    /// An application asks for a lock.
    fn lock(&mut self, app: AppId, entity: Entity, prio: Prio) -> Reply
        requires { IsEntityOf self.old.checker.group entity }
        ensures ok { (n : ℕ) → Answers self.old self.new n (Lock app entity prio) result }
        ensures plain { IsTrue (is_without_list result) }
        ensures room { self.new.messages ≡ self.old.messages }
    {
        grant_reply(self.control.lock(app, entity, prio))
    }

    /// An application gives a lock back.
    fn unlock(&mut self, app: AppId, entity: Entity, prio: Prio) -> Reply
        requires { IsEntityOf self.old.checker.group entity }
        ensures ok { (n : ℕ) → Answers self.old self.new n (Unlock app entity prio) result }
        ensures plain { IsTrue (is_without_list result) }
        ensures room { self.new.messages ≡ self.old.messages }
    {
        release_reply(self.control.unlock(app, entity, prio))
    }

    /// An entity is sent a command with its target's values, unless it is settled or blocked. At `Err` nothing has changed.
    fn send(&mut self, entity: Entity) -> Result<Reply, AllocError>
        requires entity { IsEntityOf self.old.checker.group entity }
        requires count { length self.old.messages.commands + 1 < 2 ^ 32 }
        ensures ok { IfOk result (λ reply. (n : ℕ) → Answers self.old self.new n (Send entity) reply) }
        ensures plain { IfOk result (λ reply. IsTrue (is_without_list reply)) }
        ensures err { OnErr result (HasSameMachine self.old self.new) }
        ensures without_memory { 0 < self.old.messages.room → IsOk result }
        ensures room { self.old.messages.room ≤ self.new.messages.room + 1 }
        ensures spent { OnErr result (self.old.messages.room ≤ self.new.messages.room) }
    {
        match self.control.send(entity) {
            SendStep::Command(command) => Ok(Reply::Sent {
                command: self.wire.push_command(command)?,
            }),
            SendStep::Settled => Ok(Reply::Settled),
            SendStep::Blocked { row } => Ok(Reply::Blocked { row }),
        }
    }

    /// A command reaches its agent.
    fn deliver(&mut self, command: u32) -> Reply
        ensures ok { (n : ℕ) → Answers self.old self.new n (Deliver command) result }
        ensures plain { IsTrue (is_without_list result) }
        ensures room { self.new.messages ≡ self.old.messages }
    {
        match self.wire.command(command) {
            Took::Got(command) => match self.plant.deliver(self.control.topo(), command) {
                Delivery::Begun => Reply::Begun,
                Delivery::Stale { fence } => Reply::Stale { fence },
            },
            Took::NoSuch { sent } => Reply::NoSuch { sent },
        }
    }

    /// An agent carries out the command that it has in work.
    fn finish(&mut self, entity: Entity) -> Reply
        requires { IsEntityOf self.old.checker.group entity }
        ensures ok { (n : ℕ) → Answers self.old self.new n (finish_event entity) result }
        ensures plain { IsTrue (is_without_list result) }
        ensures room { self.new.messages ≡ self.old.messages }
    {
        match self.plant.finish(self.control.topo(), entity) {
            Finish::Done => Reply::Done,
            Finish::NotBusy => Reply::NotBusy,
        }
    }

    /// An agent says how its entity is. At `Err` nothing has changed.
    fn report(&mut self, entity: Entity) -> Result<Reply, AllocError>
        requires entity { IsEntityOf self.old.checker.group entity }
        requires count { length self.old.messages.reports + 1 < 2 ^ 32 }
        requires number { (agent_in self.old.checker.group self.old.agents entity).number + 1 < 2 ^ 32 }
        ensures ok { IfOk result (λ reply. (n : ℕ) → Answers self.old self.new n (report_event entity) reply) }
        ensures plain { IfOk result (λ reply. IsTrue (is_without_list reply)) }
        ensures err { OnErr result (HasSameMachine self.old self.new) }
        ensures without_memory { 0 < self.old.messages.room → IsOk result }
        ensures room { self.old.messages.room ≤ self.new.messages.room + 1 }
        ensures spent { OnErr result (self.old.messages.room ≤ self.new.messages.room) }
    {
        // The room is made first: that can fail, and what follows cannot.
        self.wire.reserve(1)?;
        let report = self.plant.report(self.control.topo(), entity);
        match self.wire.push_report(report) {
            Ok(report) => Ok(Reply::Reported { report }),
            Err(_) => unreachable!(),
        }
    }

    /// The checker hears a report, as entry number `entry`.
    fn hear(&mut self, entry: u32, report: u32) -> Reply
        ensures ok { Answers self.old self.new entry (Hear report) result }
        ensures plain { IsTrue (is_without_list result) }
        ensures room { self.new.messages ≡ self.old.messages }
    {
        match self.wire.report(report) {
            Took::Got(report) => keep_reply(self.control.hear(entry, report)),
            Took::NoSuch { sent } => Reply::NoSuch { sent },
        }
    }

    /// An entity changes of itself.
    fn fail(&mut self, entity: Entity, vals: Vals, health: u32) -> Reply
        requires { IsEntityOf self.old.checker.group entity }
        ensures ok { (n : ℕ) → Answers self.old self.new n (Fail entity vals health) result }
        ensures plain { IsTrue (is_without_list result) }
        ensures room { self.new.messages ≡ self.old.messages }
    {
        self.plant.fail(self.control.topo(), entity, vals, health);
        Reply::Changed
    }

    /// What an entity is to become is withdrawn, where it can't be set any more. At `Err` nothing has changed.
    fn withdraw(&mut self, entry: u32, entity: Entity) -> Result<Reply, AllocError>
        requires entity { IsEntityOf self.old.checker.group entity }
        requires version { self.old.checker.store.version + 1 < 2 ^ 32 }
        ensures ok { IfOk result (Answers self.old self.new entry (Withdraw entity)) }
        ensures err { OnErr result (HasSameMachine self.old self.new) }
        ensures room { self.new.messages ≡ self.old.messages }
    {
        Ok(withdrawal_reply(self.control.withdraw(entry, entity)?))
    }

    /// The same, with the reply twice.
    fn withdraw_twice(&mut self, entry: u32, entity: Entity) -> Result<Twice<Reply>, AllocError>
        requires entity { IsEntityOf self.old.checker.group entity }
        requires version { self.old.checker.store.version + 1 < 2 ^ 32 }
        ensures ok { IfOk result (λ answered. Answers self.old self.new entry (Withdraw entity) answered.told) }
        ensures kept { IfOk result (λ answered. answered.kept ≡ answered.told) }
        ensures err { OnErr result (HasSameMachine self.old self.new) }
        ensures room { self.new.messages ≡ self.old.messages }
    {
        let withdrawals = self.control.withdraw_twice(entry, entity)?;
        Ok(Twice {
            told: withdrawal_reply(withdrawals.told),
            kept: withdrawal_reply(withdrawals.kept),
        })
    }

    /// Answers an event as entry number `entry`. At `Err` nothing has changed but the checker's count of runs. Where there is room, only
    /// proposals, decisions and withdrawals take memory.
    pub fn answer(&mut self, entry: u32, event: &Event) -> Result<Reply, AllocError>
        requires fits { Fits self.old.checker.group event.now }
        requires below { IsBelow entry self.old }
        requires few { entry ≤ MAX_ENTRIES }
        ensures ok { IfOk result (Answers self.old self.new entry event.now) }
        ensures plain { IsTrue (answers_without_list event.now) → IfOk result (λ reply. IsTrue (is_without_list reply)) }
        ensures err { OnErr result (HasSameMachine self.old self.new) }
        ensures without_memory { 0 < self.old.messages.room → IsTrue (is_without_memory event.now) → IsOk result }
        ensures room { self.old.messages.room ≤ self.new.messages.room + 1 }
        ensures spent { OnErr result (self.old.messages.room ≤ self.new.messages.room) }
    {
        let reply = match event {
            Event::Submit { app, rows } => self.submit(*app, rows)?,
            Event::Check => self.check(entry)?,
            Event::Lock { app, entity, prio } => self.lock(*app, *entity, *prio),
            Event::Unlock { app, entity, prio } => self.unlock(*app, *entity, *prio),
            Event::Send { entity } => self.send(*entity)?,
            Event::Deliver { command } => self.deliver(*command),
            Event::Finish { entity } => self.finish(*entity),
            Event::Report { entity } => self.report(*entity)?,
            Event::Hear { report } => self.hear(entry, *report),
            Event::Fail {
                entity,
                vals,
                health,
            } => self.fail(*entity, *vals, *health),
            Event::Withdraw { entity } => self.withdraw(entry, *entity)?,
        };
        Ok(reply)
    }

    /// Answers an event as `answer` does, and gives the reply twice: one to hand out and one to enter in a journal. To copy the reply to a
    /// check or a withdrawal once it is given could be refused memory; no other reply needs any.
    pub fn answer_twice(&mut self, entry: u32, event: &Event) -> Result<Twice<Reply>, AllocError>
        requires fits { Fits self.old.checker.group event.now }
        requires below { IsBelow entry self.old }
        requires few { entry ≤ MAX_ENTRIES }
        ensures ok { IfOk result (λ answered. Answers self.old self.new entry event.now answered.told) }
        ensures kept { IfOk result (λ answered. answered.kept ≡ answered.told) }
        ensures err { OnErr result (HasSameMachine self.old self.new) }
        ensures without_memory { 0 < self.old.messages.room → IsTrue (is_without_memory event.now) → IsOk result }
        ensures room { self.old.messages.room ≤ self.new.messages.room + 1 }
        ensures spent { OnErr result (self.old.messages.room ≤ self.new.messages.room) }
    {
        match event {
            Event::Check => self.check_twice(entry),
            Event::Withdraw { entity } => self.withdraw_twice(entry, *entity),
            _ => {
                let told = self.answer(entry, event)?;
                Ok(told_twice(self.alloc, told))
            }
        }
    }
}
