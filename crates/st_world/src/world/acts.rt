//! What the acts of applications do to a world, and what the acts that read see of it. A script's acts come from its document, and a
//! service's from its callers.

ghost use Rattle.std.specs.Prelude.{◌≡◌, IfOk, OnErr, length};
ghost use Rattle.st_net.specs.Groups.{IsEntityOf};
ghost use Rattle.st_net.specs.Ranges.{RowsFit, IsChangeOf};
ghost use Rattle.st_event.specs.declared.event.Event.TheVariants.{Check as check_event, Lock as lock_event, Unlock as unlock_event};
ghost use Rattle.st_event.specs.Proposals.{pending};
ghost use Rattle.st_world.specs.Acts.{ActFits, act_course, all_checked, awaited, decided_now, failed, failed_vals as failed_vals_lem, group_number as group_number_lem, has_one_of, proposed, rounds_done, seen_at as seen_at_lem, seen_by as seen_by_lem, seen_now as seen_now_lem, with_room};
ghost use Rattle.st_world.specs.Rounds.{enter, course_from, Goes, IsPartOf, HasSameSetting};

use crate::world::World;
use crate::world::rounds::{Going, Rounded};
use st_event::{Act, Event, LogEntry, LogSaw, MAX_PENDING, Rows};
use st_net::{AppId, Entity, Prio, Row, Vals, Var};
use st_store::ValueAt;
use std::alloc::AllocError;

/// The number of the group that an act is on; of a span, which is over two groups, that of the first.
pub fn group_number(act: &Act) -> u32
    ensures { result ≡ group_number_lem act.now }
{
    match act {
        Act::Propose { group, .. }
        | Act::Await { group }
        | Act::Settle { group, .. }
        | Act::Lock { group, .. }
        | Act::Unlock { group, .. }
        | Act::Read { group, .. }
        | Act::ReadAt { group, .. }
        | Act::Fail { group, .. }
        | Act::Poll { group, .. }
        | Act::Span { first: group, .. } => *group,
    }
}

/// An entity's values with these rows set.
fn failed_vals(entity: Entity, mut vals: Vals, rows: &[Row]) -> Vals
    ensures { result ≡ failed_vals_lem entity vals rows.now }
{
    for row in rows {
        if row.entity.is_same(entity) {
            vals = vals.with(entity, row.var, row.value);
        }
    }
    vals
}

impl World {
    /// How many proposals are pending.
    fn pending(&self) -> usize
        ensures { result ≡ length (pending self.now.history.past) }
    {
        self.control().store().pending() as usize
    }

    /// Whether a proposal of an application is pending. The oldest is decided first, so the application's latest is pending exactly then.
    pub fn has_one_of(&self, app: AppId) -> bool
        ensures { result ≡ has_one_of app (pending self.now.history.past) }
    {
        self.control().store().has_one_of(app)
    }

    /// What is seen of a variable: its value in the target, with the target's version.
    pub fn seen_now(&self, entity: Entity, var: Var) -> LogSaw
        requires { IsEntityOf self.now.history.group entity }
        ensures { result ≡ seen_now_lem self.now.history entity var }
    {
        let store = self.control().store();
        LogSaw::Seen {
            version: store.version(),
            value: store.target().value(entity, var),
        }
    }

    /// What is seen of a variable at a version of the target, if there is that version.
    pub fn seen_at(&self, version: u32, entity: Entity, var: Var) -> LogSaw
        requires { IsEntityOf self.now.history.group entity }
        ensures { result ≡ seen_at_lem self.now.history version entity var }
    {
        match self.control().store().value_at(version, entity, var) {
            ValueAt::Value(value) => LogSaw::At { version, value },
            ValueAt::NoVersion { latest } => LogSaw::NoVersion {
                asked: version,
                latest,
            },
        }
    }

    /// The line that an act adds to its application's log, if it reads.
    pub fn seen_by(&self, act: &Act) -> Option<LogEntry>
        requires { ActFits act.now self.now.history.group }
        ensures { result ≡ seen_by_lem act.now self.now.history }
    {
        match act {
            Act::Read { group, entity, var } => Some(LogEntry {
                group: *group,
                entity: *entity,
                var: *var,
                saw: self.seen_now(*entity, *var),
            }),
            Act::ReadAt {
                group,
                version,
                entity,
                var,
            } => Some(LogEntry {
                group: *group,
                entity: *entity,
                var: *var,
                saw: self.seen_at(*version, *entity, *var),
            }),
            _ => None,
        }
    }

    /// Enters a Check: the oldest proposal is decided, and where none is pending the reply is Idle. At `Full` the journal is full; then,
    /// and at `Err`, nothing was entered.
    pub fn check_once(&mut self) -> Result<Going, AllocError>
        ensures ok { IfOk result (Goes self.new (enter self.old.history.group (course_from self.old.history.past) check_event)) }
        ensures err { OnErr result (IsPartOf self.old self.new (enter self.old.history.group (course_from self.old.history.past) check_event)) }
        ensures none { OnErr result (self.new.history ≡ self.old.history) }
        ensures setting { HasSameSetting self.old self.new }
    {
        self.enter(Event::Check)
    }

    /// Makes a check where 64 proposals are pending. At `Full` the journal is full; then, and at `Err`, nothing was entered.
    fn make_room(&mut self) -> Result<Going, AllocError>
        ensures ok { IfOk result (Goes self.new (with_room self.old.history.group (course_from self.old.history.past))) }
        ensures err { OnErr result (IsPartOf self.old self.new (with_room self.old.history.group (course_from self.old.history.past))) }
        ensures setting { HasSameSetting self.old self.new }
    {
        if self.pending() == MAX_PENDING {
            return self.check_once();
        }
        Ok(Going::On)
    }

    /// Makes a proposal, after a check where 64 are pending. At `Full` an event met a full journal; then, and at `Err`, a part of the
    /// events was entered, from the first, and stands.
    pub fn propose(&mut self, app: AppId, rows: Rows) -> Result<Going, AllocError>
        requires { RowsFit self.old.history.group rows }
        ensures ok { IfOk result (Goes self.new (proposed self.old.history.group (course_from self.old.history.past) app rows)) }
        ensures err { OnErr result (IsPartOf self.old self.new (proposed self.old.history.group (course_from self.old.history.past) app rows)) }
        ensures setting { HasSameSetting self.old self.new }
    {
        match self.make_room()? {
            Going::On => self.enter(Event::Submit { app, rows }),
            Going::Full => Ok(Going::Full),
        }
    }

    /// Makes a proposal and directly behind it a check, with nothing between the two. A check decides the oldest proposal: so who wants
    /// this proposal decided has to see to it that nothing is pending before (`check_all`). Where 64 proposals are pending this one is
    /// dropped, and the check decides the oldest all the same. At `Full` an event met a full journal; then, and at `Err`, a part of the two
    /// events was entered, from the first, and stands.
    pub fn decide_now(&mut self, app: AppId, rows: Rows) -> Result<Going, AllocError>
        requires { RowsFit self.old.history.group rows }
        ensures ok { IfOk result (Goes self.new (decided_now self.old.history.group (course_from self.old.history.past) app rows)) }
        ensures err { OnErr result (IsPartOf self.old self.new (decided_now self.old.history.group (course_from self.old.history.past) app rows)) }
        ensures setting { HasSameSetting self.old self.new }
    {
        match self.enter(Event::Submit { app, rows })? {
            Going::On => self.check_once(),
            Going::Full => Ok(Going::Full),
        }
    }

    /// Makes a proposal of a copy of these rows. The copy is made first: where it is refused memory, nothing was entered.
    fn propose_copy(&mut self, app: AppId, rows: &Rows) -> Result<Going, AllocError>
        requires { RowsFit self.old.history.group rows.now }
        ensures ok { IfOk result (Goes self.new (proposed self.old.history.group (course_from self.old.history.past) app rows.now)) }
        ensures err { OnErr result (IsPartOf self.old self.new (proposed self.old.history.group (course_from self.old.history.past) app rows.now)) }
        ensures setting { HasSameSetting self.old self.new }
    {
        let rows = rows.copy(self.alloc)?;
        self.propose(app, rows)
    }

    /// Checks until an application's latest proposal is decided: the oldest is decided first, so until none of the application's proposals
    /// is pending. At `Full` a check met a full journal; then, and at `Err`, a part of the checks was entered, and stands.
    pub fn await_latest(&mut self, app: AppId) -> Result<Going, AllocError>
        ensures ok { IfOk result (Goes self.new (awaited self.old.history.group (course_from self.old.history.past) app)) }
        ensures err { OnErr result (IsPartOf self.old self.new (awaited self.old.history.group (course_from self.old.history.past) app)) }
        ensures setting { HasSameSetting self.old self.new }
    {
        for _left in 0..MAX_PENDING {
            if !self.has_one_of(app) {
                return Ok(Going::On);
            }
            match self.check_once()? {
                Going::On => {}
                Going::Full => return Ok(Going::Full),
            }
        }
        Ok(Going::On)
    }

    /// Checks while a proposal is pending; no more than 64 are. At `Full` a check met a full journal; then, and at `Err`, a part of the
    /// checks was entered, and stands.
    pub fn check_all(&mut self) -> Result<Going, AllocError>
        ensures ok { IfOk result (Goes self.new (all_checked self.old.history.group (course_from self.old.history.past))) }
        ensures err { OnErr result (IsPartOf self.old self.new (all_checked self.old.history.group (course_from self.old.history.past))) }
        ensures setting { HasSameSetting self.old self.new }
    {
        for _left in 0..MAX_PENDING {
            if self.pending() == 0 {
                return Ok(Going::On);
            }
            match self.check_once()? {
                Going::On => {}
                Going::Full => return Ok(Going::Full),
            }
        }
        Ok(Going::On)
    }

    /// Does rounds, so many at the most, while some entity is not settled. At `Full` an event met a full journal; then, and at `Err`,
    /// a part of the rounds was entered, from their start, and stands.
    pub fn settle(&mut self, rounds: u32) -> Result<Going, AllocError>
        ensures ok { IfOk result (Goes self.new (rounds_done self.old.history.group self.old.lines rounds (course_from self.old.history.past))) }
        ensures err { OnErr result (IsPartOf self.old self.new (rounds_done self.old.history.group self.old.lines rounds (course_from self.old.history.past))) }
        ensures setting { HasSameSetting self.old self.new }
    {
        for _round in 0..rounds {
            match self.round()? {
                Rounded::Did { unsettled: 0 } => return Ok(Going::On),
                Rounded::Did { .. } => {}
                Rounded::JournalFull { .. } => return Ok(Going::Full),
            }
        }
        Ok(Going::On)
    }

    /// Asks for a lock of an entity. At `Full` the journal is full; then, and at `Err`, nothing was entered.
    pub fn lock(&mut self, app: AppId, entity: Entity, prio: Prio) -> Result<Going, AllocError>
        requires { IsEntityOf self.old.history.group entity }
        ensures ok { IfOk result (Goes self.new (enter self.old.history.group (course_from self.old.history.past) (lock_event app entity prio))) }
        ensures err { OnErr result (IsPartOf self.old self.new (enter self.old.history.group (course_from self.old.history.past) (lock_event app entity prio))) }
        ensures none { OnErr result (self.new.history ≡ self.old.history) }
        ensures setting { HasSameSetting self.old self.new }
    {
        self.enter(Event::Lock { app, entity, prio })
    }

    /// Gives a lock of an entity back. At `Full` the journal is full; then, and at `Err`, nothing was entered.
    pub fn unlock(&mut self, app: AppId, entity: Entity, prio: Prio) -> Result<Going, AllocError>
        requires { IsEntityOf self.old.history.group entity }
        ensures ok { IfOk result (Goes self.new (enter self.old.history.group (course_from self.old.history.past) (unlock_event app entity prio))) }
        ensures err { OnErr result (IsPartOf self.old self.new (enter self.old.history.group (course_from self.old.history.past) (unlock_event app entity prio))) }
        ensures none { OnErr result (self.new.history ≡ self.old.history) }
        ensures setting { HasSameSetting self.old self.new }
    {
        self.enter(Event::Unlock { app, entity, prio })
    }

    /// Lets an entity change of itself: its health, and the variables that rows name; of the other variables the entity keeps its values.
    /// At `Full` the journal is full; then, and at `Err`, nothing was entered.
    pub fn fail(&mut self, entity: Entity, health: u32, rows: &[Row]) -> Result<Going, AllocError>
        requires { IsChangeOf entity health rows.now self.old.history.group }
        ensures ok { IfOk result (Goes self.new (failed self.old.history.group (course_from self.old.history.past) entity health rows.now)) }
        ensures err { OnErr result (IsPartOf self.old self.new (failed self.old.history.group (course_from self.old.history.past) entity health rows.now)) }
        ensures none { OnErr result (self.new.history ≡ self.old.history) }
        ensures setting { HasSameSetting self.old self.new }
    {
        // The journal is legal, so the values of each agent are in range.
        self.is_legal();
        let vals = failed_vals(entity, self.agent(entity).vals(), rows);
        self.enter(Event::Fail {
            entity,
            vals,
            health,
        })
    }

    /// Does an act of an application on this group: the events that the act asks for are entered, one after another. An act that
    /// reads enters none; what such an act sees, `seen_by` tells. At `Full` an event met a full journal; then, and at `Err`, a part of the
    /// events was entered, from the first, and stands.
    pub fn act(&mut self, app: AppId, act: &Act) -> Result<Going, AllocError>
        requires { ActFits act.now self.old.history.group }
        ensures ok { IfOk result (Goes self.new (act_course app act.now self.old.history self.old.lines)) }
        ensures err { OnErr result (IsPartOf self.old self.new (act_course app act.now self.old.history self.old.lines)) }
        ensures setting { HasSameSetting self.old self.new }
    {
        match act {
            Act::Propose { rows, .. } => self.propose_copy(app, rows),
            Act::Await { .. } => self.await_latest(app),
            Act::Settle { rounds, .. } => self.settle(*rounds),
            Act::Lock { entity, prio, .. } => self.lock(app, *entity, *prio),
            Act::Unlock { entity, prio, .. } => self.unlock(app, *entity, *prio),
            Act::Fail {
                entity,
                health,
                rows,
                ..
            } => self.fail(*entity, *health, rows.as_slice()),
            Act::Poll { entity, .. } => self.poll(*entity),
            Act::Read { .. } | Act::ReadAt { .. } | Act::Span { .. } => Ok(Going::On),
        }
    }
}
