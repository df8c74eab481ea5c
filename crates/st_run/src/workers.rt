//! Workers beside the applications: each does a task of a group with a pass of its own.

ghost use Rattle.std.specs.Prelude.{◌≡◌, ◌*◌, ◌<◌, length};
ghost use Rattle.st_service.specs.Kept.{Kept};
ghost use Rattle.st_run.specs.Duties.{DidOnce, WorkedTo, came_by_half as came_by_half_lem, came_by_check as came_by_check_lem, duty_share};

use crate::application::Came;
use st_crew::{Gate, Point};
use st_service::{Naming, OffLock, Pass, Service};
use st_world::Rounded;
use std::alloc::{AllocError, Global};
use std::sync::Wait;
use std::sync::ledger::Ledger;
use std::thread::Threads;

/// What a worker does for a group.
#[derive(Clone, Copy, Debug, PartialEq, Eq)]
pub enum Duty {
    /// A check off the lock, once for each `propose` to the group.
    Check,
    /// The half of a round that updates, once for each `settle` of the group.
    Update,
    /// The half of a round that monitors, once for each `settle` of the group.
    Monitor,
}

/// A duty of a group, to be done so many times.
#[derive(Clone, Copy, Debug, PartialEq, Eq)]
pub struct Task {
    pub group: u32,
    pub duty: Duty,
    pub times: usize,
}

/// How far a pass came with a half of a round.
fn came_by_half(group: u32, half: Result<Rounded, AllocError>) -> Came
    ensures { result ≡ came_by_half_lem group half }
{
    match half {
        Ok(Rounded::Did { .. }) => Came::Through,
        Ok(Rounded::JournalFull { .. }) => Came::ToFull { group },
        Err(AllocError) => Came::OutOfMemory,
    }
}

/// How far a pass came with a check off the lock. A check that found nothing pending, or whose ticket was decided meanwhile, is through.
fn came_by_check(group: u32, checked: Result<OffLock, AllocError>) -> Came
    ensures { result ≡ came_by_check_lem group checked }
{
    match checked {
        Ok(OffLock::Decided(_) | OffLock::Gone { .. } | OffLock::Idle) => Came::Through,
        Ok(OffLock::JournalFull { .. }) => Came::ToFull { group },
        Err(AllocError) => Came::OutOfMemory,
    }
}

/// Does a duty once. The gate is called before a half of a round, and by a check before it judges; no lock is held then.
fn do_once<J: Naming, L: Ledger, H: Wait + Drop, R: Threads + Wait + Sync, G: Gate>(
    rt: &R,
    alloc: Global,
    service: &Service<J, L, H>,
    pass: &mut Pass<J, L>,
    group: u32,
    duty: Duty,
    gate: &G,
) -> Came
    requires room { (group < length service.now.rooms.items) × (length pass.old.fronts ≡ length service.now.rooms.items) }
    ensures kept { Kept pass.old pass.new group (duty_share duty (J.group group) (J.lines group)) }
    ensures came { DidOnce result duty group (J.group group) (J.lines group) pass.old pass.new }
{
    match duty {
        Duty::Check => came_by_check(group, service.check_off_lock(rt, alloc, pass, group, gate)),
        Duty::Update => {
            gate.at(
                rt,
                Point::BeforeHalf {
                    group,
                    monitor: false,
                },
            );
            came_by_half(group, service.update(rt, alloc, pass, group))
        }
        Duty::Monitor => {
            gate.at(
                rt,
                Point::BeforeHalf {
                    group,
                    monitor: true,
                },
            );
            came_by_half(group, service.monitor(rt, alloc, pass, group))
        }
    }
}

/// Does a task, until all is done, a journal is full or memory is refused.
pub fn do_task<J: Naming, L: Ledger, H: Wait + Drop, R: Threads + Wait + Sync, G: Gate>(
    rt: &R,
    alloc: Global,
    service: &Service<J, L, H>,
    pass: &mut Pass<J, L>,
    task: Task,
    gate: &G,
) -> Came
    requires room { (task.group < length service.now.rooms.items) × (length pass.old.fronts ≡ length service.now.rooms.items) }
    ensures kept { Kept pass.old pass.new task.group (task.times * duty_share task.duty (J.group task.group) (J.lines task.group)) }
    ensures came { WorkedTo result task.times task.duty task.group (J.group task.group) (J.lines task.group) pass.old pass.new }
{
    let Task { group, duty, times } = task;
    for _time in 0..times {
        match do_once(rt, alloc, service, pass, group, duty, gate) {
            Came::Through => {}
            Came::ToFull { group } => return Came::ToFull { group },
            Came::OutOfMemory => return Came::OutOfMemory,
        }
    }
    Came::Through
}
