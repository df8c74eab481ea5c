//! Threads on one service, over the two-path group.

ghost use Rattle.std.specs.Prelude.{◌≡◌, ◌+◌, ◌≤◌, [], IfOk, length};

use scenario::{Scenario, play};
use st_net::GroupTopo;
use st_samples::{TWO_PATH, group};
use st_service::{Closed, Naming, Pass, RoomLines, Service};
use st_wire::LossPlan;
use st_world::World;
use stage::{Stage, are_passes_of};
use std::alloc::{AllocError, Global};
use std::marker::Brand;
use std::sync::Wait;
use std::sync::ledger::{Blank, Ledger};
use std::test::Fail;
use std::thread::Threads;

mod gate;
mod jobs;
mod scenario;
mod stage;

/// A service over one world, and its passes.
fn opened<'a, J: Naming, L: Ledger, R: Wait>(
    rt: &'a R,
    alloc: Global,
    world: World,
    line: RoomLines,
    blank: Blank,
    apps: u32,
    workers: u32,
) -> Result<(Service<J, L, &'a R>, Vec<Pass<J, L>>), AllocError>
    requires world { (world.history ≡ record { group = J.group 0; past = [] }) × (world.lines ≡ J.lines 0) }
    requires line { (line.journal ≡ J.book 0) × (line.board ≡ J.board 0) }
    requires ledger { (blank.name ≡ L.name) × (blank.parts ≡ L.parts) }
    requires parts { (blank.parts ≡ apps + workers + 2) × (apps + workers ≤ 512) }
    ensures rooms { IfOk result (λ made. length made.0.rooms.items ≡ 1) }
    ensures passes { IfOk result (λ made. (made.0.apps ≡ apps) × (made.0.passes ≡ apps + workers)) }
{
    let mut worlds = Vec::new(alloc);
    worlds.push(world)?;
    let mut lines = Vec::new(alloc);
    lines.push(line)?;
    Service::start(rt, alloc, worlds, lines, blank, apps, workers)
}

/// Closes a service of one room, of which these are to be the passes, so many.
fn closed<J: Naming, L: Ledger, H: Wait + Drop>(
    alloc: Global,
    service: Service<J, L, H>,
    passes: Vec<Pass<J, L>>,
    all: usize,
) -> Result<Closed, Fail>
    requires room { length service.rooms.items ≡ 1 }
    requires all { service.passes ≡ all }
{
    if are_passes_of(&passes, all) {
        Ok(service.close(alloc, passes)?)
    } else {
        drop(passes);
        drop(service);
        Err(Fail::new("not the service's passes"))
    }
}

/// The same of what was played, where that came to its end.
fn closed_behind<J: Naming, L: Ledger, H: Wait + Drop>(
    alloc: Global,
    service: Service<J, L, H>,
    played: Result<Vec<Pass<J, L>>, Fail>,
    all: usize,
) -> Result<Closed, Fail>
    requires room { length service.rooms.items ≡ 1 }
    requires all { service.passes ≡ all }
{
    match played {
        Ok(passes) => closed(alloc, service, passes, all),
        Err(fail) => {
            drop(service);
            Err(fail)
        }
    }
}

/// Plays a scenario on a service, and closes it.
fn played_on<
    J: Naming + Send + Sync,
    L: Ledger + Send + Sync,
    H: Wait + Drop + Send + Sync,
    R: Threads + Wait + Sync,
>(
    rt: &R,
    alloc: Global,
    service: Service<J, L, H>,
    passes: Vec<Pass<J, L>>,
    topo: &GroupTopo,
    apps: u32,
    all: usize,
    scenario: Scenario,
) -> Result<Closed, Fail>
    requires topo { topo.now ≡ J.group 0 }
    requires room { length service.rooms.items ≡ 1 }
    requires apps { service.apps ≡ apps }
    requires all { service.passes ≡ all }
{
    let stage = Stage {
        alloc,
        service: &service,
        topo,
        apps,
    };
    let played = play(rt, &stage, passes, scenario);
    drop(stage);
    closed_behind(alloc, service, played, all)
}

/// A service over one group, with so many applications and workers, on which a scenario is played; and what it hands out at its close.
fn day<J: Naming + Send + Sync, L: Ledger + Send + Sync, R: Threads + Wait + Sync>(
    rt: &R,
    alloc: Global,
    topo: &GroupTopo,
    world: World,
    line: RoomLines,
    blank: Blank,
    apps: u32,
    workers: u32,
    scenario: Scenario,
) -> Result<Closed, Fail>
    requires topo { topo.now ≡ J.group 0 }
    requires world { (world.history ≡ record { group = J.group 0; past = [] }) × (world.lines ≡ J.lines 0) }
    requires line { (line.journal ≡ J.book 0) × (line.board ≡ J.board 0) }
    requires ledger { (blank.name ≡ L.name) × (blank.parts ≡ L.parts) }
    requires parts { (blank.parts ≡ apps + workers + 2) × (apps + workers ≤ 512) }
{
    let (service, passes) = opened::<J, L, R>(rt, alloc, world, line, blank, apps, workers)?;
    let all = apps as usize + workers as usize;
    played_on(rt, alloc, service, passes, topo, apps, all, scenario)
}

/// A group at its opening, in which no message is lost.
fn opening(alloc: Global, topo: &GroupTopo) -> Result<World, AllocError>
    ensures { IfOk result (λ world. world.history ≡ record { group = topo.now; past = [] }) }
{
    World::start(alloc, topo.copy(alloc)?, LossPlan::none(alloc))
}

/// The same, as a test calls it.
fn played<R: Threads + Wait + Sync>(
    rt: &R,
    alloc: Global,
    topo: &GroupTopo,
    apps: u32,
    workers: u32,
    scenario: Scenario,
) -> Result<Closed, Fail>
    requires { apps + workers ≤ 512 }
{
    let blank = Blank::new(u64::from(apps) + u64::from(workers) + 2);
    let world = opening(alloc, topo)?;
    day::<Brand, Brand, R>(
        rt,
        alloc,
        topo,
        world,
        RoomLines::new(),
        blank,
        apps,
        workers,
        scenario,
    )
}

/// How many entries the journal of the group has, and how many lines the logs of the applications have.
fn counts(closed: &Closed) -> (usize, usize) {
    let mut entries = 0usize;
    for journal in &closed.journals {
        entries = entries.saturating_add(journal.entries.as_slice().len());
    }
    let mut lines = 0usize;
    for log in &closed.logs {
        lines = lines.saturating_add(log.entries.as_slice().len());
    }
    (entries, lines)
}

/// The same of what is not needed any more.
fn counts_once(closed: Closed) -> (usize, usize) {
    let counts = counts(&closed);
    drop(closed);
    counts
}

/// The same counts of a scenario that is played, and whose service closes.
fn counted<R: Threads + Wait + Sync>(
    rt: &R,
    alloc: Global,
    apps: u32,
    workers: u32,
    scenario: Scenario,
) -> Result<(usize, usize), Fail>
    requires { apps + workers ≤ 512 }
{
    let topo = group(alloc, TWO_PATH)?;
    let closed = played(rt, alloc, &topo, apps, workers, scenario);
    drop(topo);
    Ok(counts_once(closed?))
}

/// What each scenario shows, the scenario, how many applications and workers there are, how many entries the journal has then, and how
/// many lines the logs.
const PLAYED: [(&str, Scenario, u32, u32, usize, usize); 9] = [
    // Two proposals; each thread awaits its own, and the two checks are made by whoever comes first.
    (
        "two threads propose in one room",
        Scenario::TwoPropose,
        2,
        0,
        4,
        2,
    ),
    (
        "a settle follows another's await",
        Scenario::InTurn(scenario::SETTLE_AFTER_AWAIT),
        2,
        0,
        7,
        1,
    ),
    (
        "a worker does a round",
        Scenario::InTurn(scenario::WORKER_ROUND),
        1,
        1,
        7,
        0,
    ),
    (
        "workers do a round by halves",
        Scenario::InTurn(scenario::WORKER_HALVES),
        1,
        2,
        7,
        1,
    ),
    (
        "workers check off the lock and do halves",
        Scenario::InTurn(scenario::WORKER_CALLS),
        1,
        3,
        7,
        1,
    ),
    (
        "a settle follows a worker's check",
        Scenario::InTurn(scenario::SETTLE_AFTER_CHECK),
        1,
        3,
        7,
        0,
    ),
    // The proposal, the lock and the check.
    (
        "a check is judged off the lock",
        Scenario::JudgedAway,
        2,
        0,
        3,
        2,
    ),
    // Lock, unlock, failure; a report and its hearing.
    (
        "each act enters its events",
        Scenario::InTurn(scenario::EACH_ACT),
        1,
        0,
        5,
        2,
    ),
    ("readers wait for nobody", Scenario::AllRead, 32, 0, 0, 32),
];

#[test]
fn each_scenario_leaves_its_entries_and_lines(rt: HostRuntime) -> Result<(), Fail> {
    for (shown, scenario, apps, workers, entries, lines) in PLAYED {
        assert!(&rt; apps <= 32 && workers <= 3);
        let counts = counted(&rt, rt.alloc(), apps, workers, scenario)?;
        assert_eq!(&rt; counts, (entries, lines), "{shown}");
    }
    Ok(())
}

#[test]
fn a_full_journal_is_told(rt: HostRuntime) -> Result<(), Fail> {
    let counts = counted(
        &rt,
        rt.alloc(),
        1,
        0,
        Scenario::InTurn(scenario::FULL_JOURNAL),
    )?;
    assert_eq!(rt; counts, (200_000, 1));
    Ok(())
}
