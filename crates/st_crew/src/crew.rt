//! The crew: each job in a thread of its own, all of them joined.

ghost use Rattle.std.specs.Prelude.{All, IfOk};
ghost use Rattle.std.specs.Thread.{IsSync};
ghost use Rattle.st_crew.specs.Ends.{EndsOf};

use crate::gate::Gate;
use crate::job::Job;
use std::alloc::AllocError;
use std::sync::Wait;
use std::thread;
use std::thread::Threads;

/// Runs the jobs, each in a thread of its own, and gives their ends in the jobs' order. A job for which no thread can be started
/// is done by the calling thread, so that is no refusal. The call waits for all of its jobs. At `Err`, which is want of memory
/// alone, some jobs may have been dropped before their work, and the ends of the others were dropped.
pub fn crew_run<J: Job, R: Threads + Wait + Sync, G: Gate + Sync>(
    rt: &R,
    jobs: Vec<J>,
    gate: &G,
) -> Result<Vec<J::End>, AllocError>
    requires { All J.can_work jobs.items }
    ensures { IfOk result (λ ends. EndsOf J.promises jobs.items ends.items) }
{
    let work = |job: J| -> J::End
        requires { IsSync R.row × J.can_work job }
        ensures { J.promises job result }
    { job.work(rt, gate) };
    thread::map_vec(rt, jobs, &work)
}
