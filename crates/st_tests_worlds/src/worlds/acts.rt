//! Each act once, on the first switch of the two-path group.

ghost use Rattle.st_world.specs.Acts.{ActFits};

use super::replies::{expect, firmware_row, has_entry};
use super::{A1, TE, UP};
use st_event::{Act, Event, LogEntry, LogSaw, Rows};
use st_net::{Prio, Var};
use st_samples::{TWO_PATH, world};
use st_world::{Going, World, group_number};
use std::alloc::Global;
use std::test::Fail;

/// The course went on, and the journal has so many entries then.
fn leads(world: &World, going: Going, entries: u32) -> Result<(), Fail> {
    expect(going == Going::On && world.entries() == entries)
}

fn locks(world: &mut World) -> Result<(), Fail> {
    if !world.fits(&Event::Send { entity: A1 }) {
        return Err(Fail::new("no switch"));
    }
    let act = Act::Lock {
        group: 0,
        entity: A1,
        prio: Prio::Low,
    };
    let going = world.act(TE, &act)?;
    leads(world, going, 1)
}

fn unlocks(world: &mut World) -> Result<(), Fail> {
    if !world.fits(&Event::Send { entity: A1 }) {
        return Err(Fail::new("no switch"));
    }
    let act = Act::Unlock {
        group: 0,
        entity: A1,
        prio: Prio::Low,
    };
    let going = world.act(TE, &act)?;
    leads(world, going, 2)
}

fn proposes(alloc: Global, world: &mut World) -> Result<(), Fail> {
    let rows = firmware_row(alloc, A1, 2)?;
    if !world.control().topo().rows_fit(rows.as_slice()) {
        return Err(Fail::new("the row does not fit"));
    }
    let act = Act::Propose { group: 3, rows };
    expect(group_number(&act) == 3)?;
    let going = world.act(UP, &act)?;
    expect(world.has_one_of(UP) && !world.has_one_of(TE))?;
    leads(world, going, 3)
}

/// One check decides the proposal, and one round settles the switch.
fn awaits_and_settles(world: &mut World) -> Result<(), Fail> {
    let going = world.act(UP, &Act::Await { group: 0 })?;
    leads(world, going, 4)?;
    let act = Act::Settle {
        group: 0,
        rounds: 2,
    };
    let going = world.act(UP, &act)?;
    leads(world, going, 9)
}

fn polls(world: &mut World) -> Result<(), Fail> {
    if !world.fits(&Event::Send { entity: A1 }) {
        return Err(Fail::new("no switch"));
    }
    let act = Act::Poll {
        group: 0,
        entity: A1,
    };
    let going = world.act(UP, &act)?;
    leads(world, going, 11)
}

fn fails(alloc: Global, world: &mut World) -> Result<(), Fail> {
    if !world.fits(&Event::Send { entity: A1 }) {
        return Err(Fail::new("no switch"));
    }
    let going = world.fail(A1, 4, Rows::new(Vec::new(alloc)).as_slice())?;
    leads(world, going, 12)
}

fn saw(world: &World, act: &Act, saw: LogSaw) -> Result<(), Fail>
    requires { ActFits act.now world.now.history.group }
{
    let entry = LogEntry {
        group: 0,
        entity: A1,
        var: Var::Firmware,
        saw,
    };
    expect(world.seen_by(act) == Some(entry))
}

/// What is seen now, and at a version that there is not.
fn reads(world: &World) -> Result<(), Fail> {
    if !world.fits(&Event::Send { entity: A1 }) {
        return Err(Fail::new("no switch"));
    }
    let read = Act::Read {
        group: 0,
        entity: A1,
        var: Var::Firmware,
    };
    saw(
        world,
        &read,
        LogSaw::Seen {
            version: 1,
            value: 2,
        },
    )?;
    let read_at = Act::ReadAt {
        group: 0,
        version: 9,
        entity: A1,
        var: Var::Firmware,
    };
    saw(
        world,
        &read_at,
        LogSaw::NoVersion {
            asked: 9,
            latest: 1,
        },
    )
}

fn tells_entries(alloc: Global, world: &World) -> Result<(), Fail> {
    for (n, words) in [
        (1, "granted"),
        (2, "released"),
        (3, "queued 1"),
        (5, "sent 1"),
        (9, "taken"),
        (10, "reported 2"),
        (12, "changed"),
    ] {
        has_entry(alloc, world, n, words)?;
    }
    if world.entries() < 11 {
        return Err(Fail::new("too few entries"));
    }
    expect(world.entries_since(11).len() == 1)
}

fn takes_each(alloc: Global, world: &mut World) -> Result<(), Fail> {
    locks(world)?;
    unlocks(world)?;
    proposes(alloc, world)?;
    awaits_and_settles(world)?;
    polls(world)?;
    fails(alloc, world)?;
    reads(world)?;
    tells_entries(alloc, world)
}

/// The same of a world that is not needed any more.
fn takes_each_once(alloc: Global, mut world: World) -> Result<(), Fail> {
    let told = takes_each(alloc, &mut world);
    drop(world);
    told
}

#[test]
fn each_act_enters_its_events(rt: HostRuntime) -> Result<(), Fail> {
    let alloc = rt.alloc();
    takes_each_once(alloc, world(alloc, TWO_PATH)?)
}
