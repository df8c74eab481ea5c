//! Courses as tables of steps: each enters an event or more, or looks at the world, and tells what is to come of it.

use super::replies::{accept, firmware, has_firmware, is_full, is_sure, round_leads, told};
use super::{A1, TE};
use st_event::{Event, MAX_ENTRIES};
use st_net::{AppId, Entity, Prio, Vals};
use st_samples::{TWO_PATH, world};
use st_world::World;
use std::alloc::Global;
use std::test::Fail;

/// An event of a table. Locks are low ones.
#[derive(Clone, Copy)]
pub enum Deed {
    Check,
    Lock(AppId, Entity),
    Unlock(AppId, Entity),
    Send(Entity),
    Deliver(u32),
    Finish(Entity),
    Report(Entity),
    Hear(u32),
    /// The first switch comes to have another firmware, and this health.
    Fail(u32, u32),
    /// A firmware of the first switch is proposed.
    Submit(u32),
    Withdraw(Entity),
}

/// One step of a course.
#[derive(Clone, Copy)]
pub enum Step {
    /// An event is answered in these words.
    Told(Deed, &'static str),
    /// A firmware is proposed and accepted.
    Accept(Entity, u32),
    /// A round leaves so many entities unsettled, and the journal has so many entries then.
    Round(u32, usize),
    /// An entity is in the sure set.
    Sure(Entity),
    /// An agent has this firmware.
    Firmware(Entity, u32),
    /// Room is made for so many entries.
    Reserve(u32),
    /// The queue takes 64 proposals.
    FillQueue,
    /// The journal takes as many locks as it can.
    FillJournal,
    /// An event finds the journal full at so many entries.
    Full(Deed, u32),
}

fn fail(firmware: u32, health: u32) -> Event {
    Event::Fail {
        entity: A1,
        vals: Vals {
            v0: 1,
            v1: firmware,
            v2: 1,
            v3: 1,
        },
        health,
    }
}

fn lock(app: AppId, entity: Entity) -> Event {
    Event::Lock {
        app,
        entity,
        prio: Prio::Low,
    }
}

fn unlock(app: AppId, entity: Entity) -> Event {
    Event::Unlock {
        app,
        entity,
        prio: Prio::Low,
    }
}

fn event(alloc: Global, deed: Deed) -> Result<Event, Fail> {
    Ok(match deed {
        Deed::Check => Event::Check,
        Deed::Lock(app, entity) => lock(app, entity),
        Deed::Unlock(app, entity) => unlock(app, entity),
        Deed::Send(entity) => Event::Send { entity },
        Deed::Deliver(command) => Event::Deliver { command },
        Deed::Finish(entity) => Event::Finish { entity },
        Deed::Report(entity) => Event::Report { entity },
        Deed::Hear(report) => Event::Hear { report },
        Deed::Fail(value, health) => fail(value, health),
        Deed::Submit(value) => firmware(alloc, A1, value)?,
        Deed::Withdraw(entity) => Event::Withdraw { entity },
    })
}

fn fill_queue(alloc: Global, world: &mut World) -> Result<(), Fail> {
    for ticket in 1..65 {
        let queued = format!(in alloc; "queued {ticket}")?;
        told(alloc, world, firmware(alloc, A1, 1)?, queued.as_str())?;
    }
    Ok(())
}

fn fill_journal(alloc: Global, world: &mut World) -> Result<(), Fail> {
    for _ in 0..MAX_ENTRIES {
        told(alloc, world, lock(TE, A1), "granted")?;
    }
    Ok(())
}

fn take(alloc: Global, world: &mut World, step: Step) -> Result<(), Fail> {
    match step {
        Step::Told(deed, words) => told(alloc, world, event(alloc, deed)?, words),
        Step::Accept(entity, value) => accept(alloc, world, entity, value),
        Step::Round(unsettled, entries) => round_leads(world, unsettled, entries),
        Step::Sure(entity) => is_sure(world, entity),
        Step::Firmware(entity, value) => has_firmware(world, entity, value),
        Step::Reserve(n) => Ok(world.reserve(n)?),
        Step::FillQueue => fill_queue(alloc, world),
        Step::FillJournal => fill_journal(alloc, world),
        Step::Full(deed, limit) => is_full(world, event(alloc, deed)?, limit),
    }
}

fn take_all(alloc: Global, world: &mut World, steps: &[Step]) -> Result<(), Fail> {
    for step in steps {
        take(alloc, world, *step)?;
    }
    Ok(())
}

/// The steps of a world that is not needed any more.
fn take_once(alloc: Global, mut world: World, steps: &[Step]) -> Result<(), Fail> {
    let told = take_all(alloc, &mut world, steps);
    drop(world);
    told
}

/// The two-path group takes each step of a course.
pub fn course(alloc: Global, steps: &[Step]) -> Result<(), Fail> {
    take_once(alloc, world(alloc, TWO_PATH)?, steps)
}
