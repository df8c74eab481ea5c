//! The jobs of a run. Each has a pass, with which it does its chore on a service that all jobs share.

ghost use Rattle.std.specs.Prelude.{length};
ghost use Rattle.st_run.specs.Chores.{CanDoChore, ChoreTo, WentThrough};

use crate::application::{Came, Left, do_all};
use crate::workers::{Task, do_task};
use st_crew::{Gate, Job};
use st_event::Act;
use st_service::{Naming, Pass, Service};
use std::alloc::Global;
use std::sync::Wait;
use std::sync::ledger::Ledger;
use std::thread::Threads;

/// What a job does with its pass.
#[derive(Clone, Copy)]
pub enum Chore<'a> {
    /// The commands of an application's script, in order.
    Acts(&'a [Act]),
    /// A worker's task.
    Task(Task),
}

/// A pass with a chore, on a service.
#[derive(Drop)]
pub struct RunJob<'a, J: Naming, L: Ledger, H: Wait + Drop> {
    pub alloc: Global,
    pub service: &'a Service<J, L, H>,
    pub pass: Pass<J, L>,
    pub chore: Chore<'a>,
}

/// Does a chore, as far as nothing meets a full journal or is refused memory.
fn do_chore<J: Naming, L: Ledger, H: Wait + Drop, R: Threads + Wait + Sync, G: Gate>(
    rt: &R,
    alloc: Global,
    service: &Service<J, L, H>,
    pass: &mut Pass<J, L>,
    chore: Chore<'_>,
    gate: &G,
) -> Came
    requires { CanDoChore J.group service.now.apps (length service.now.rooms.items) chore pass.old }
    ensures went { WentThrough J.group J.lines chore.entry pass.old pass.new }
    ensures came { ChoreTo result J.group J.lines chore.entry pass.old pass.new }
{
    match chore {
        Chore::Acts(acts) => do_all(rt, alloc, service, pass, acts, gate),
        Chore::Task(task) => do_task(rt, alloc, service, pass, task, gate),
    }
}

impl<'a, J: Naming + Send + Sync, L: Ledger + Send + Sync, H: Wait + Drop + Send + Sync> Job
    for RunJob<'a, J, L, H> {
    ghost use Rattle.std.specs.Prelude.{length};
    ghost use Rattle.st_run.specs.Chores.{CanDoChore, ChoreTo, WentThrough};

    type End = Left<J, L>;

    ghost can_work = { λ job. CanDoChore J.group job.service.now.apps (length job.service.now.rooms.items) job.chore job.pass };

    ghost promises = { λ job end. WentThrough J.group J.lines job.chore job.pass end.pass × ChoreTo end.came J.group J.lines job.chore job.pass end.pass };

    fn work<R: Threads + Wait + Sync, G: Gate>(self, rt: &R, gate: &G) -> Left<J, L> {
        let RunJob {
            alloc,
            service,
            mut pass,
            chore,
        } = self;
        let came = do_chore(rt, alloc, service, &mut pass, chore, gate);
        Left { pass, came }
    }
}
