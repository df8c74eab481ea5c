//! In a fat tree of ten pods an upgrade is judged away from its world, and its commit runs no flow again.

use super::promises::fat_tree;
use st_control::{Begin, Judged, judge_basis};
use st_event::{Event, Rows, Verdict};
use st_net::{AppId, Entity, GroupTopo, Name, Row, Var};
use st_samples::open_world;
use st_world::{Committed, World};
use std::alloc::Global;
use std::test::Fail;
use std::thread::Threads;

/// The first of the upper switches of the last pod.
const SWITCH: u32 = 95;

/// Another firmware of that switch.
const UPGRADE: Row = Row {
    entity: Entity::Device(SWITCH),
    var: Var::Firmware,
    value: 2,
};

/// The entity of a name.
fn found(alloc: Global, topo: &GroupTopo, name: &[u8]) -> Result<Option<Entity>, Fail> {
    match Name::read(alloc, name)? {
        Some(name) => Ok(topo.find(&name)),
        None => Err(Fail::new("no name")),
    }
}

#[test]
fn the_upper_switches_of_a_pod_stand_behind_its_racks(rt: HostRuntime) -> Result<(), Fail> {
    let alloc = rt.alloc();
    let topo = fat_tree(alloc)?;
    let found = found(alloc, &topo, b"p9a0");
    drop(topo);
    assert_eq!(rt; found?, Some(Entity::Device(SWITCH)));
    Ok(())
}

/// What a commit came to: the version that it made, if it accepted, and how many flows had been run before it and behind it.
#[derive(Clone, Copy)]
struct Decided {
    version: Option<u32>,
    before: u64,
    behind: u64,
}

fn version_of(verdict: &Verdict) -> Option<u32> {
    match verdict {
        Verdict::Accepted { version } => Some(*version),
        Verdict::Refused(_) => None,
    }
}

/// The version that a commit makes, if it accepts.
fn version_made(world: &mut World, judged: &Judged) -> Result<Option<u32>, Fail> {
    if !world.may_commit(judged) {
        return Err(Fail::new("the ticket may not be committed"));
    }
    match world.commit(judged)? {
        Committed::Did(receipt) => Ok(version_of(&receipt.verdict)),
        _ => Err(Fail::new("no receipt")),
    }
}

/// The same of a judgement that is not needed any more.
fn version_made_once(world: &mut World, judged: Judged) -> Result<Option<u32>, Fail> {
    let version = version_made(world, &judged);
    drop(judged);
    version
}

/// Proposes the upgrade.
fn propose(alloc: Global, world: &mut World) -> Result<(), Fail> {
    let rows = Rows::from_slice(alloc, [UPGRADE].as_slice())?;
    let app = AppId(0);
    let event = Event::Submit { app, rows };
    if !world.fits(&event) {
        return Err(Fail::new("the proposal does not fit"));
    }
    world.step(event)?;
    Ok(())
}

/// What is judged of the oldest proposal, away from its world.
fn judged(rt: &(impl Threads + Sync), alloc: Global, world: &World) -> Result<Judged, Fail> {
    match world.begin_check()? {
        Begin::Basis(basis) => Ok(judge_basis(rt, alloc, basis)?),
        Begin::Idle => Err(Fail::new("nothing waits")),
    }
}

fn upgraded(rt: &(impl Threads + Sync), alloc: Global, world: &mut World) -> Result<Decided, Fail> {
    propose(alloc, world)?;
    let judged = judged(rt, alloc, world)?;
    let before = world.control().flows_run();
    let version = version_made_once(world, judged)?;
    Ok(Decided {
        version,
        before,
        behind: world.control().flows_run(),
    })
}

/// The same of a world that is not needed any more.
fn upgraded_once(
    rt: &(impl Threads + Sync),
    alloc: Global,
    mut world: World,
) -> Result<Decided, Fail> {
    let seen = upgraded(rt, alloc, &mut world);
    drop(world);
    seen
}

#[test]
fn a_commit_in_a_fat_tree_runs_no_flow(rt: HostRuntime) -> Result<(), Fail> {
    let alloc = rt.alloc();
    let seen = upgraded_once(&rt, alloc, open_world(alloc, fat_tree(alloc)?)?)?;
    assert_eq!(&rt; (seen.version, seen.behind), (Some(1), seen.before));
    Ok(())
}
