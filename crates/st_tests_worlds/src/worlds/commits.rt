//! Checks that are judged away from their world.

use super::replies::{accept, expect, firmware, told};
use super::{A1, A2, UP};
use st_control::{Begin, Judged, judge_basis};
use st_event::{Cause, Event, Receipt, Rows, Verdict};
use st_net::{Broken, BrokenKind, Entity, Row, Vals, Var};
use st_samples::{TWO_PATH, world};
use st_world::{Committed, World};
use std::alloc::Global;
use std::test::Fail;
use std::thread::Threads;

/// A group in which a promise has two ways, either of which is enough: behind the only link of the first ToR stand two switches. A flow
/// of all that the promise needs takes one of them.
const DETOUR: &str = "statesman 1
group dc1
device t1 tor
device t2 tor
device h switch
device a1 switch
device a2 switch
link l0 t1 h 10
link l1 h a1 10
link l2 h a2 10
link l3 t2 a1 10
link l4 t2 a2 10
promise t1 t2 100
";

/// The two switches.
const WAYS: [Entity; 2] = [Entity::Device(3), Entity::Device(4)];

/// The link by which each of them is reached.
const LINKS: [Entity; 2] = [Entity::Link(1), Entity::Link(2)];

/// The switch that both go through.
const HUB: Entity = Entity::Device(2);

/// What is judged of the oldest proposal.
fn judged(rt: &(impl Threads + Sync), alloc: Global, world: &World) -> Result<Judged, Fail> {
    match world.begin_check()? {
        Begin::Basis(basis) => Ok(judge_basis(rt, alloc, basis)?),
        Begin::Idle => Err(Fail::new("nothing waits")),
    }
}

fn committed(world: &mut World, judged: &Judged) -> Result<Committed, Fail> {
    if !world.may_commit(judged) {
        return Err(Fail::new("the ticket may not be committed"));
    }
    Ok(world.commit(judged)?)
}

/// The same of a judgement that is not needed any more.
fn committed_once(world: &mut World, judged: Judged) -> Result<Committed, Fail> {
    let told = committed(world, &judged);
    drop(judged);
    told
}

/// Drains the first switch.
fn drain(alloc: Global) -> Result<Event, Fail> {
    let row = Row {
        entity: A1,
        var: Var::Routing,
        value: 0,
    };
    Ok(Event::Submit {
        app: UP,
        rows: Rows::from_slice(alloc, [row].as_slice())?,
    })
}

/// The second switch works no more.
fn down() -> Event {
    Event::Fail {
        entity: A2,
        vals: Vals {
            v0: 1,
            v1: 1,
            v2: 1,
            v3: 1,
        },
        health: 0,
    }
}

fn broken_of(verdict: &Verdict) -> Option<&Broken> {
    match verdict {
        Verdict::Refused(Cause::Broken(broken)) => Some(broken),
        _ => None,
    }
}

fn is_cut_off(receipt: &Receipt) -> bool {
    let Some(broken) = broken_of(&receipt.verdict) else {
        return false;
    };
    receipt.entry == 5
        && broken.kind == BrokenKind::CutOff
        && broken.need == 10
        && broken.has == 0
        && broken.side.as_slice() == [0].as_slice()
}

/// The commit is refused by entry 5.
fn refuses(world: &mut World, judged: &Judged) -> Result<(), Fail> {
    match committed(world, judged)? {
        Committed::Did(receipt) => expect(is_cut_off(&receipt)),
        _ => Err(Fail::new("no receipt")),
    }
}

/// The ticket was decided by entry 5.
fn is_gone(world: &mut World, judged: &Judged) -> Result<(), Fail> {
    match committed(world, judged)? {
        Committed::Gone { entry } => expect(entry == 5 && world.journal().len() == 5),
        _ => Err(Fail::new("not gone")),
    }
}

fn second_switch_fails(alloc: Global, world: &mut World) -> Result<(), Fail> {
    told(alloc, world, down(), "changed")?;
    told(alloc, world, Event::Report { entity: A2 }, "reported 1")?;
    told(alloc, world, Event::Hear { report: 1 }, "taken")
}

/// A judgement that holds no more is refused, and the other comes too late.
fn fall(alloc: Global, world: &mut World, first: &Judged, second: &Judged) -> Result<(), Fail> {
    second_switch_fails(alloc, world)?;
    refuses(world, first)?;
    is_gone(world, second)
}

/// The same of judgements that are not needed any more.
fn fall_once(alloc: Global, world: &mut World, first: Judged, second: Judged) -> Result<(), Fail> {
    let told = fall(alloc, world, &first, &second);
    drop((first, second));
    told
}

fn shrunk(rt: &(impl Threads + Sync), alloc: Global, world: &mut World) -> Result<(), Fail> {
    told(alloc, world, drain(alloc)?, "queued 1")?;
    let first = judged(rt, alloc, world)?;
    fall_once(alloc, world, first, judged(rt, alloc, world)?)
}

/// The same of a world that is not needed any more.
fn shrunk_once(rt: &(impl Threads + Sync), alloc: Global, mut world: World) -> Result<(), Fail> {
    let told = shrunk(rt, alloc, &mut world);
    drop(world);
    told
}

#[test]
fn a_commit_judges_what_is_sure_then(rt: HostRuntime) -> Result<(), Fail> {
    let alloc = rt.alloc();
    shrunk_once(&rt, alloc, world(alloc, TWO_PATH)?)
}

fn is_accepted(verdict: &Verdict) -> bool {
    match verdict {
        Verdict::Accepted { version } => *version == 1,
        Verdict::Refused(_) => false,
    }
}

/// The commit is accepted by entry 2.
fn accepts(world: &mut World, judged: Judged) -> Result<(), Fail> {
    match committed_once(world, judged)? {
        Committed::Did(receipt) => expect(receipt.entry == 2 && is_accepted(&receipt.verdict)),
        _ => Err(Fail::new("no receipt")),
    }
}

fn kept(rt: &(impl Threads + Sync), alloc: Global, world: &mut World) -> Result<(), Fail> {
    told(alloc, world, drain(alloc)?, "queued 1")?;
    accepts(world, judged(rt, alloc, world)?)
}

/// The same of a world that is not needed any more.
fn kept_once(rt: &(impl Threads + Sync), alloc: Global, mut world: World) -> Result<(), Fail> {
    let told = kept(rt, alloc, &mut world);
    drop(world);
    told
}

#[test]
fn a_commit_accepts_what_was_judged_to_hold(rt: HostRuntime) -> Result<(), Fail> {
    let alloc = rt.alloc();
    kept_once(&rt, alloc, world(alloc, TWO_PATH)?)
}

/// How many runs of a flow a world counts once an upgrade of a switch was judged away from it and committed.
fn runs_away(
    rt: &(impl Threads + Sync),
    alloc: Global,
    world: &mut World,
    entity: Entity,
) -> Result<u64, Fail> {
    told(alloc, world, firmware(alloc, entity, 2)?, "queued 1")?;
    accepts(world, judged(rt, alloc, world)?)?;
    Ok(world.control().flows_run())
}

/// The same of a world that is not needed any more.
fn runs_away_once(
    rt: &(impl Threads + Sync),
    alloc: Global,
    mut world: World,
    entity: Entity,
) -> Result<u64, Fail> {
    let runs = runs_away(rt, alloc, &mut world, entity);
    drop(world);
    runs
}

/// How many it counts once the same was checked by it.
fn runs_here(alloc: Global, world: &mut World, entity: Entity) -> Result<u64, Fail> {
    accept(alloc, world, entity, 2)?;
    Ok(world.control().flows_run())
}

/// The same of a world that is not needed any more.
fn runs_here_once(alloc: Global, mut world: World, entity: Entity) -> Result<u64, Fail> {
    let runs = runs_here(alloc, &mut world, entity);
    drop(world);
    runs
}

fn runs_of_commit(rt: &(impl Threads + Sync), alloc: Global, way: Entity) -> Result<u64, Fail> {
    runs_away_once(rt, alloc, world(alloc, DETOUR)?, way)
}

fn runs_of_check(alloc: Global, way: Entity) -> Result<u64, Fail> {
    runs_here_once(alloc, world(alloc, DETOUR)?, way)
}

// One of the two ways carries the flow that is kept, so that a check has to find another where that one is upgraded.
#[test]
fn a_commit_runs_no_flow_for_what_was_judged_away(rt: HostRuntime) -> Result<(), Fail> {
    let alloc = rt.alloc();
    let [first, second] = WAYS;
    let commits = [
        runs_of_commit(&rt, alloc, first)?,
        runs_of_commit(&rt, alloc, second)?,
    ];
    let first = runs_of_check(alloc, first)?;
    let second = runs_of_check(alloc, second)?;
    assert_eq!(&rt; (commits, first > 0 || second > 0), ([0, 0], true));
    Ok(())
}

/// How many runs of a flow a world counts once an upgrade that breaks its promise was judged away from it, committed and refused.
fn runs_refused(rt: &(impl Threads + Sync), alloc: Global, world: &mut World) -> Result<u64, Fail> {
    told(alloc, world, firmware(alloc, HUB, 2)?, "queued 1")?;
    match committed_once(world, judged(rt, alloc, world)?)? {
        Committed::Did(receipt) => expect(broken_of(&receipt.verdict).is_some())?,
        _ => return Err(Fail::new("no receipt")),
    }
    Ok(world.control().flows_run())
}

/// The same of a world that is not needed any more.
fn runs_refused_once(
    rt: &(impl Threads + Sync),
    alloc: Global,
    mut world: World,
) -> Result<u64, Fail> {
    let runs = runs_refused(rt, alloc, &mut world);
    drop(world);
    runs
}

// A check that refuses by a broken promise runs a flow, as a clause says.
#[test]
fn a_commit_runs_no_flow_for_what_was_found_to_break(rt: HostRuntime) -> Result<(), Fail> {
    let alloc = rt.alloc();
    assert_eq!(&rt; runs_refused_once(&rt, alloc, world(alloc, DETOUR)?)?, 0);
    Ok(())
}

/// A link fails, or works again, and is heard of by its report of this number.
fn link_is_heard(
    alloc: Global,
    world: &mut World,
    link: Entity,
    health: u32,
    report: u32,
    words: &str,
) -> Result<(), Fail> {
    let vals = Vals {
        v0: 1,
        v1: 1,
        v2: 0,
        v3: 0,
    };
    let event = Event::Fail {
        entity: link,
        vals,
        health,
    };
    told(alloc, world, event, "changed")?;
    told(alloc, world, Event::Report { entity: link }, words)?;
    told(alloc, world, Event::Hear { report }, "taken")
}

/// The link of the way works again, and then what was judged is committed and accepted.
fn accepts_with_more(
    alloc: Global,
    world: &mut World,
    link: Entity,
    judged: Judged,
) -> Result<(), Fail> {
    link_is_heard(alloc, world, link, 1, 2, "reported 2")?;
    match committed_once(world, judged)? {
        Committed::Did(receipt) => expect(is_accepted(&receipt.verdict)),
        _ => Err(Fail::new("no receipt")),
    }
}

/// How many runs of a flow a world counts once an upgrade of a switch was judged while the switch's link was down, and committed when that
/// worked again.
fn runs_with_more(
    rt: &(impl Threads + Sync),
    alloc: Global,
    world: &mut World,
    entity: Entity,
    link: Entity,
) -> Result<u64, Fail> {
    link_is_heard(alloc, world, link, 0, 1, "reported 1")?;
    told(alloc, world, firmware(alloc, entity, 2)?, "queued 1")?;
    accepts_with_more(alloc, world, link, judged(rt, alloc, world)?)?;
    Ok(world.control().flows_run())
}

/// The same of a world that is not needed any more.
fn runs_with_more_once(
    rt: &(impl Threads + Sync),
    alloc: Global,
    mut world: World,
    entity: Entity,
    link: Entity,
) -> Result<u64, Fail> {
    let runs = runs_with_more(rt, alloc, &mut world, entity, link);
    drop(world);
    runs
}

fn runs_of_more(
    rt: &(impl Threads + Sync),
    alloc: Global,
    entity: Entity,
    link: Entity,
) -> Result<u64, Fail> {
    runs_with_more_once(rt, alloc, world(alloc, DETOUR)?, entity, link)
}

// One of the two ways carries the kept flow, so that for one of them the promise would be asked for a flow.
#[test]
fn a_commit_with_more_that_is_sure_runs_no_flow_for_what_holds(
    rt: HostRuntime,
) -> Result<(), Fail> {
    let alloc = rt.alloc();
    let [first, second] = WAYS;
    let [one, two] = LINKS;
    let runs = [
        runs_of_more(&rt, alloc, first, one)?,
        runs_of_more(&rt, alloc, second, two)?,
    ];
    assert_eq!(&rt; runs, [0, 0]);
    Ok(())
}
