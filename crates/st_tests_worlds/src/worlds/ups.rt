//! Which switches of the two-path group are up, as one of them fails and comes back.

use super::replies::expect;
use super::{A1, A2};
use st_event::{Event, Rows};
use st_samples::{TWO_PATH, world};
use st_world::World;
use std::alloc::Global;
use std::test::Fail;

/// Whether the first switch is up, as both calls tell; the second is.
fn is_first_up(world: &World, first: bool) -> Result<(), Fail> {
    if !world.fits(&Event::Send { entity: A1 }) {
        return Err(Fail::new("no first switch"));
    }
    if !world.fits(&Event::Send { entity: A2 }) {
        return Err(Fail::new("no second switch"));
    }
    expect(world.is_up(A1) == first && world.is_up(A2))?;
    let up = world.up_set()?;
    expect(up.has(A1) == first && up.has(A2))
}

/// The first switch falls to a level at which it carries nothing, and nobody hears of it.
fn falls(alloc: Global, world: &mut World) -> Result<(), Fail> {
    if !world.fits(&Event::Send { entity: A1 }) {
        return Err(Fail::new("no first switch"));
    }
    let _going = world.fail(A1, 4, Rows::new(Vec::new(alloc)).as_slice())?;
    Ok(())
}

/// The first switch comes back by itself.
fn comes_back(alloc: Global, world: &mut World) -> Result<(), Fail> {
    if !world.fits(&Event::Send { entity: A1 }) {
        return Err(Fail::new("no first switch"));
    }
    let _going = world.fail(A1, 5, Rows::new(Vec::new(alloc)).as_slice())?;
    Ok(())
}

/// It falls and comes back.
fn falls_and_comes_back(alloc: Global, world: &mut World) -> Result<(), Fail> {
    is_first_up(world, true)?;
    falls(alloc, world)?;
    is_first_up(world, false)?;
    comes_back(alloc, world)?;
    is_first_up(world, true)
}

/// The same of a world that is not needed any more.
fn falls_and_comes_back_once(alloc: Global, mut world: World) -> Result<(), Fail> {
    let told = falls_and_comes_back(alloc, &mut world);
    drop(world);
    told
}

#[test]
fn a_switch_is_up_by_its_agent_and_not_by_its_report(rt: HostRuntime) -> Result<(), Fail> {
    falls_and_comes_back_once(rt.alloc(), world(rt.alloc(), TWO_PATH)?)
}
