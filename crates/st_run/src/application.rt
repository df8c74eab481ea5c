//! An application of a document: the application's pass goes through its script on a service that all jobs of a run share.

ghost use Rattle.std.specs.Prelude.{◌≡◌, ◌<◌, All, length};
ghost use Rattle.st_service.specs.Acts.{CanDo};
ghost use Rattle.st_run.specs.Went.{Went, CameTo};

use st_crew::Gate;
use st_event::Act;
use st_service::{Acted, Naming, Pass, Service};
use std::alloc::{AllocError, Global};
use std::sync::Wait;
use std::sync::ledger::Ledger;
use std::thread::Threads;

/// How far a pass came with its chore.
#[derive(Clone, Copy, Debug, PartialEq, Eq)]
pub enum Came {
    /// The whole chore was done.
    Through,
    /// An event met the journal of this group full, and what was to follow was not begun.
    ToFull { group: u32 },
    /// Memory was refused, and what was to follow was not begun.
    OutOfMemory,
}

/// What is left of a job: the pass, and how far the pass came.
#[derive(Drop)]
pub struct Left<J: Naming, L: Ledger> {
    pub pass: Pass<J, L>,
    pub came: Came,
}

/// Does the commands in order, as far as none meets a full journal or is refused memory.
pub fn do_all<J: Naming, L: Ledger, H: Wait + Drop, R: Threads + Wait + Sync, G: Gate>(
    rt: &R,
    alloc: Global,
    service: &Service<J, L, H>,
    pass: &mut Pass<J, L>,
    acts: &[Act],
    gate: &G,
) -> Came
    requires app { pass.old.number < service.now.apps }
    requires rooms { length pass.old.fronts ≡ length service.now.rooms.items }
    requires acts { All (CanDo J.group (length service.now.rooms.items)) acts.now }
    ensures went { Went J.group J.lines acts.now pass.old pass.new }
    ensures came { CameTo result J.group J.lines acts.now pass.old pass.new }
{
    for act in acts {
        match service.step_app(rt, alloc, pass, act, gate) {
            Ok(Acted::Done) => {}
            Ok(Acted::JournalFull { group }) => return Came::ToFull { group },
            Err(AllocError) => return Came::OutOfMemory,
        }
    }
    Came::Through
}
