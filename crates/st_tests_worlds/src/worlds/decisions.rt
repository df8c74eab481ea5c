//! A check by itself, and a proposal that is decided at once.

use super::replies::{expect, firmware_row, has_entry};
use super::{A1, UP};
use st_samples::{TWO_PATH, world};
use st_world::{Going, World};
use std::alloc::Global;
use std::test::Fail;

fn checks(alloc: Global, world: &mut World) -> Result<(), Fail> {
    let going = world.check_once()?;
    expect(going == Going::On && world.entries() == 1)?;
    has_entry(alloc, world, 1, "idle")
}

/// The same of a world that is not needed any more.
fn checks_in(alloc: Global, mut world: World) -> Result<(), Fail> {
    let told = checks(alloc, &mut world);
    drop(world);
    told
}

#[test]
fn a_check_of_nothing_is_idle(rt: HostRuntime) -> Result<(), Fail> {
    let alloc = rt.alloc();
    checks_in(alloc, world(alloc, TWO_PATH)?)
}

/// New firmware for the first switch is accepted as version 1, by the second of two entries.
fn decides(alloc: Global, world: &mut World) -> Result<(), Fail> {
    let rows = firmware_row(alloc, A1, 2)?;
    if !world.control().topo().rows_fit(rows.as_slice()) {
        return Err(Fail::new("the row does not fit"));
    }
    let going = world.decide_now(UP, rows)?;
    expect(going == Going::On && world.entries() == 2)?;
    expect(world.control().store().version() == 1)?;
    has_entry(alloc, world, 1, "queued 1")
}

/// The same of a world that is not needed any more.
fn decides_in(alloc: Global, mut world: World) -> Result<(), Fail> {
    let told = decides(alloc, &mut world);
    drop(world);
    told
}

#[test]
fn a_proposal_is_decided_at_once(rt: HostRuntime) -> Result<(), Fail> {
    let alloc = rt.alloc();
    decides_in(alloc, world(alloc, TWO_PATH)?)
}
