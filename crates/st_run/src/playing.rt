//! The scripts of a document on a service: each application is a job, and each worker, and behind the jobs the passes of applications await
//! on each group.

ghost use Rattle.std.specs.Prelude.{ℕ, ◌≡◌, ◌+◌, ◌≤◌, ◌<◌, List, [], ◌∷◌, ◌++◌, ◌⊎◌, All, Some, None, length, IfOk, IfSome, slice_index_or};
ghost use Rattle.st_service.specs.Acts.{CanDo};
ghost use Rattle.st_service.specs.Opened.{IsFresh};
ghost use Rattle.st_service.specs.Passes.{Holder};
ghost use Rattle.st_crew.specs.Ends.{EndsOf};
ghost use Rattle.st_run.specs.Chores.{CanDoChore, ChoreTo, IsChore, WentThrough, awaits_for};
ghost use Rattle.st_run.specs.Ended.{AreDone, AreEnded};
ghost use Rattle.st_run.specs.Finished.{CameThrough, EachPair, IsNoHigher, MetFull, NamesLowest, SomePair, StaysBehind, met_full};
ghost use Rattle.st_run.specs.Jobs.{Did, Does, awaits_on};
ghost use Rattle.st_run.specs.Played.{AllCanBeDone, AreClosed, IsPlayed, WasFull, acts_of};
ghost use Rattle.st_run.specs.Tasks.{tasks_by};
ghost use Rattle.st_run.specs.Went.{HadMemory, HasFull, Went};

use crate::application::{Came, Left};
use crate::jobs::{Chore, RunJob};
use crate::workers::Task;
use st_crew::{Gate, NoGate, crew_run};
use st_event::{Act, Journal, Log};
use st_grammar::Script;
use st_service::{Acted, Closed, Naming, Pass, Service};
use std::alloc::{AllocError, Global};
use std::sync::Wait;
use std::sync::ledger::Ledger;
use std::thread::Threads;

/// What was played: the journals of the groups and the logs of the applications, in order, and the lowest group whose journal a job, or an
/// await behind the jobs, met full, if one did.
#[derive(Drop)]
pub struct Played {
    pub journals: Vec<Journal>,
    pub logs: Vec<Log>,
    pub full: Option<u32>,
}

/// An await on each of so many groups.
fn awaits_of(alloc: Global, rooms: usize) -> Result<Vec<Act>, AllocError>
    requires { rooms ≤ 16 }
    ensures { IfOk result (λ acts. acts.items ≡ awaits_on rooms) }
{
    let mut acts = Vec::new(alloc);
    for group in 0..rooms {
        acts.push(Act::Await {
            group: group as u32,
        })?;
    }
    Ok(acts)
}

/// The chore of a pass, by the pass's number: the script of an application, or a worker's task, whose numbers come behind all scripts.
fn chore_of<'a>(apps: &'a [Script], tasks: &[Task], number: usize) -> Chore<'a>
    requires { number < length apps.now + length tasks.now }
    ensures { IsChore apps.now tasks.now number result }
{
    if number < apps.len() {
        Chore::Acts(apps[number].acts.as_slice())
    } else {
        Chore::Task(tasks[number - apps.len()])
    }
}

/// A job for each pass, with the chore of the pass's number.
fn jobs_of<'a, J: Naming, L: Ledger, H: Wait + Drop>(
    alloc: Global,
    service: &'a Service<J, L, H>,
    passes: Vec<Pass<J, L>>,
    apps: &'a [Script],
    tasks: &[Task],
) -> Result<Vec<RunJob<'a, J, L, H>>, AllocError>
    requires each { length passes.items ≡ length apps.now + length tasks.now }
    ensures count { IfOk result (λ jobs. length jobs.items ≡ length passes.items) }
    ensures jobs { IfOk result (λ jobs. (n : ℕ) (d : _) (p : _) → n < length passes.items →
        ((slice_index_or jobs.items n d).service.now ≡ service.now) × ((slice_index_or jobs.items n d).pass ≡ slice_index_or passes.items n p) × IsChore apps.now tasks.now n (slice_index_or jobs.items n d).chore) }
{
    let mut jobs = Vec::new(alloc);
    for pass in passes {
        let chore = chore_of(apps, tasks, jobs.len());
        jobs.push(RunJob {
            alloc,
            service,
            pass,
            chore,
        })?;
    }
    Ok(jobs)
}

/// The lower of two groups, if there are two, or the one.
fn first_of(a: Option<u32>, b: Option<u32>) -> Option<u32>
    ensures none { result ≡ None → (a ≡ None) × (b ≡ None) }
    ensures one { IfSome result (λ n. (a ≡ Some n) ⊎ (b ≡ Some n)) }
    ensures first { IfSome a (IsNoHigher result) }
    ensures second { IfSome b (IsNoHigher result) }
{
    match (a, b) {
        (Some(m), Some(n)) => Some(m.min(n)),
        (Some(m), None) => Some(m),
        (None, other) => other,
    }
}

/// Where a pass met a full journal, unless memory was refused.
fn full_of(came: Came) -> Result<Option<u32>, AllocError>
    ensures met { IfOk result (λ full. full ≡ met_full came) }
    ensures had { IfOk result (λ full. HadMemory came) }
{
    match came {
        Came::Through => Ok(None),
        Came::ToFull { group } => Ok(Some(group)),
        Came::OutOfMemory => Err(AllocError),
    }
}

/// Does a command of a pass, and gives the group whose journal was full, if the command met a full journal.
fn full_at<J: Naming, L: Ledger, H: Wait + Drop, R: Threads + Wait + Sync>(
    rt: &R,
    alloc: Global,
    service: &Service<J, L, H>,
    pass: &mut Pass<J, L>,
    act: &Act,
) -> Result<Option<u32>, AllocError>
    requires app { pass.old.number < service.now.apps }
    requires rooms { length pass.old.fronts ≡ length service.now.rooms.items }
    requires act { CanDo J.group (length service.now.rooms.items) act.now }
    ensures went { Went J.group J.lines (act.now ∷ []) pass.old pass.new }
    ensures none { IfOk result (λ full. full ≡ None → Does J.group J.lines act.now pass.old pass.new) }
    ensures one { IfOk result (λ full. IfSome full (HasFull pass.new)) }
{
    match service.step_app(rt, alloc, pass, act, &NoGate) {
        Ok(Acted::Done) => Ok(None),
        Ok(Acted::JournalFull { group }) => Ok(Some(group)),
        Err(AllocError) => Err(AllocError),
    }
}

/// Lets a pass do commands that await, and gives the lowest group whose journal one of them met full, if there was one. Behind a full journal
/// the pass goes on with the next group.
fn await_all<J: Naming, L: Ledger, H: Wait + Drop, R: Threads + Wait + Sync>(
    rt: &R,
    alloc: Global,
    service: &Service<J, L, H>,
    pass: &mut Pass<J, L>,
    awaits: &[Act],
) -> Result<Option<u32>, AllocError>
    requires app { 0 < length awaits.now → pass.old.number < service.now.apps }
    requires rooms { length pass.old.fronts ≡ length service.now.rooms.items }
    requires awaits { All (CanDo J.group (length service.now.rooms.items)) awaits.now }
    ensures went { IfOk result (λ full. Went J.group J.lines awaits.now pass.old pass.new) }
    ensures none { IfOk result (λ full. full ≡ None → Did J.group J.lines awaits.now pass.old pass.new) }
    ensures one { IfOk result (λ full. IfSome full (HasFull pass.new)) }
    ensures still { IfOk result (λ full. length awaits.now ≡ 0 → pass.new ≡ pass.old) }
{
    let mut full = None;
    for act in awaits {
        let here = full_at(rt, alloc, service, pass, act)?;
        full = first_of(full, here);
    }
    Ok(full)
}

/// The awaits of a pass, by the pass's number: none where the pass is a worker's.
fn awaits_for<'a>(awaits: &'a [Act], apps: usize, number: usize) -> &'a [Act]
    ensures { result.now ≡ awaits_for apps number awaits.now }
{
    if number < apps { awaits } else { &awaits[..0] }
}

/// Lets the pass that is left of a job do commands that await: gives the pass, and the lowest group whose journal the job or an await met full,
/// if there was one. Without awaits the pass stays as it was.
fn finish<J: Naming, L: Ledger, H: Wait + Drop, R: Threads + Wait + Sync>(
    rt: &R,
    alloc: Global,
    service: &Service<J, L, H>,
    left: Left<J, L>,
    awaits: &[Act],
) -> Result<(Pass<J, L>, Option<u32>), AllocError>
    requires app { 0 < length awaits.now → left.pass.number < service.now.apps }
    requires rooms { length left.pass.fronts ≡ length service.now.rooms.items }
    requires awaits { All (CanDo J.group (length service.now.rooms.items)) awaits.now }
    ensures went { IfOk result (λ end. Went J.group J.lines awaits.now left.pass end.0) }
    ensures none { IfOk result (λ end. end.1 ≡ None → CameThrough J.group J.lines awaits.now left.came left.pass end.0) }
    ensures one { IfOk result (λ end. IfSome end.1 (λ n. MetFull n left.came end.0)) }
    ensures lowest { IfOk result (λ end. NamesLowest end.1 left.came) }
    ensures still { IfOk result (λ end. HadMemory left.came × (length awaits.now ≡ 0 → end.0 ≡ left.pass)) }
{
    let Left { mut pass, came } = left;
    let behind = await_all(rt, alloc, service, &mut pass, awaits);
    match (full_of(came), behind) {
        (Ok(first), Ok(second)) => Ok((pass, first_of(first, second))),
        _ => Err(AllocError),
    }
}

/// Lets the pass that is left of each application await on each group: gives the passes of all jobs in order, of which the first `apps` are
/// applications', and the lowest group whose journal a job or an await met full, if there was one. Workers' passes stay as they were.
fn finish_all<J: Naming, L: Ledger, H: Wait + Drop, R: Threads + Wait + Sync>(
    rt: &R,
    alloc: Global,
    service: &Service<J, L, H>,
    lefts: Vec<Left<J, L>>,
    apps: usize,
    awaits: &[Act],
) -> Result<(Vec<Pass<J, L>>, Option<u32>), AllocError>
    requires apps { (n : ℕ) (d : _) → n < length lefts.items → n < apps → (slice_index_or lefts.items n d).pass.number < service.now.apps }
    requires rooms { All (λ left. length left.pass.fronts ≡ length service.now.rooms.items) lefts.items }
    requires awaits { All (CanDo J.group (length service.now.rooms.items)) awaits.now }
    ensures count { IfOk result (λ ends. length ends.0.items ≡ length lefts.items) }
    ensures went { IfOk result (λ ends. EachPair (λ n left end. Went J.group J.lines (awaits_for apps n awaits.now) left.pass end) lefts.items ends.0.items) }
    ensures none { IfOk result (λ ends. ends.1 ≡ None → EachPair (λ n left end. CameThrough J.group J.lines (awaits_for apps n awaits.now) left.came left.pass end) lefts.items ends.0.items) }
    ensures one { IfOk result (λ ends. IfSome ends.1 (λ m. SomePair (λ left end. MetFull m left.came end) lefts.items ends.0.items)) }
    ensures lowest { IfOk result (λ ends. All (λ left. NamesLowest ends.1 left.came) lefts.items) }
    ensures still { IfOk result (λ ends. EachPair (λ n left end. StaysBehind apps n left.came left.pass end) lefts.items ends.0.items) }
{
    let mut passes = Vec::new(alloc);
    let mut full = None;
    for left in lefts {
        let own = awaits_for(awaits, apps, passes.len());
        let (pass, here) = finish(rt, alloc, service, left, own)?;
        full = first_of(full, here);
        passes.push(pass)?;
    }
    Ok((passes, full))
}

/// Works the jobs, each in a thread of its own, and gives what is left of each, in the order of jobs.
fn lefts_of<
    'a,
    J: Naming + Send + Sync,
    L: Ledger + Send + Sync,
    H: Wait + Drop + Send + Sync,
    R: Threads + Wait + Sync,
    G: Gate + Sync,
>(rt: &R, jobs: Vec<RunJob<'a, J, L, H>>, gate: &G) -> Result<Vec<Left<J, L>>, AllocError>
    requires work { All (λ job. CanDoChore J.group job.service.now.apps (length job.service.now.rooms.items) job.chore job.pass) jobs.items }
    ensures { IfOk result (λ lefts. EndsOf (λ job end. WentThrough J.group J.lines job.chore job.pass end.pass × ChoreTo end.came J.group J.lines job.chore job.pass end.pass) jobs.entry.items lefts.items) }
{
    crew_run(rt, jobs, gate)
}

/// Plays scripts and workers' tasks on a service, each by a pass and in a thread of its own: a script by the pass of the script's number, and
/// the tasks by the passes behind those, in order. Gives the passes back in order, those of applications behind an await on each group, and
/// the lowest group whose journal a thread or an await met full, if there was one.
fn play_on<
    J: Naming + Send + Sync,
    L: Ledger + Send + Sync,
    H: Wait + Drop + Send + Sync,
    R: Threads + Wait + Sync,
    G: Gate + Sync,
>(
    rt: &R,
    alloc: Global,
    service: &Service<J, L, H>,
    rooms: usize,
    passes: Vec<Pass<J, L>>,
    apps: &[Script],
    tasks: &[Task],
    gate: &G,
) -> Result<(Vec<Pass<J, L>>, Option<u32>), AllocError>
    requires rooms { (rooms ≡ length service.now.rooms.items) × (rooms ≤ 16) }
    requires apps { (service.now.apps ≡ length apps.now) × (length passes.items ≡ length apps.now + length tasks.now) }
    requires fresh { (n : ℕ) (p : _) → n < length passes.items → IsFresh n rooms (slice_index_or passes.items n p) }
    requires acts { AllCanBeDone J.group rooms apps.now }
    requires tasks { All (λ task. task.group < rooms) tasks.now }
    ensures ended { IfOk result (λ ends. AreEnded J.group J.lines rooms apps.now tasks.now ends.0.items) }
    ensures none { IfOk result (λ ends. ends.1 ≡ None → AreDone J.group J.lines rooms apps.now tasks.now ends.0.items) }
    ensures one { IfOk result (λ ends. IfSome ends.1 (λ m. WasFull ends.0.items m)) }
{
    let awaits = awaits_of(alloc, rooms)?;
    let jobs = jobs_of(alloc, service, passes, apps, tasks)?;
    let lefts = lefts_of(rt, jobs, gate)?;
    finish_all(rt, alloc, service, lefts, apps.len(), awaits.as_slice())
}

/// Closes a service on which scripts were played.
fn close_played<J: Naming, L: Ledger, H: Wait + Drop>(
    alloc: Global,
    service: Service<J, L, H>,
    passes: Vec<Pass<J, L>>,
    full: Option<u32>,
) -> Result<Played, AllocError>
    requires all { length passes.items ≡ service.passes }
    requires numbers { (n : ℕ) (p : _) → n < length passes.items → (slice_index_or passes.items n p).number ≡ n }
    requires rooms { (n : ℕ) (p : _) → n < length passes.items → length (slice_index_or passes.items n p).fronts ≡ length service.rooms.items }
    ensures full { IfOk result (λ played. played.full ≡ full) }
    ensures closed { IfOk result (λ played. AreClosed J.group (length service.rooms.items) service.apps passes.items played.journals.items played.logs.items) }
{
    let Closed { journals, logs } = service.close(alloc, passes)?;
    Ok(Played {
        journals,
        logs,
        full,
    })
}

/// Plays scripts and workers' tasks on a service, each by a pass and in a thread of its own: a script by the pass of the script's number, and
/// the tasks by the passes behind those, in order. Behind all threads each application awaits on each group, and the service is closed. `Err`
/// is for want of memory alone, and gives the service up.
pub fn play<
    J: Naming + Send + Sync,
    L: Ledger + Send + Sync,
    H: Wait + Drop + Send + Sync,
    R: Threads + Wait + Sync,
    G: Gate + Sync,
>(
    rt: &R,
    alloc: Global,
    service: Service<J, L, H>,
    rooms: usize,
    passes: Vec<Pass<J, L>>,
    apps: &[Script],
    tasks: &[Task],
    gate: &G,
) -> Result<Played, AllocError>
    requires rooms { (rooms ≡ length service.rooms.items) × (rooms ≤ 16) }
    requires apps { (service.apps ≡ length apps.now) × (service.passes ≡ length apps.now + length tasks.now) × (length passes.items ≡ length apps.now + length tasks.now) }
    requires fresh { (n : ℕ) (p : _) → n < length passes.items → IsFresh n rooms (slice_index_or passes.items n p) }
    requires acts { AllCanBeDone J.group rooms apps.now }
    requires tasks { tasks.now ≡ tasks_by apps.now rooms }
    ensures { IfOk result (λ played. (ends : List Holder) × IsPlayed J.group J.lines rooms (acts_of apps.now) played.full played.journals.items played.logs.items ends) }
{
    match play_on(rt, alloc, &service, rooms, passes, apps, tasks, gate) {
        Ok((passes, full)) => close_played(alloc, service, passes, full),
        Err(error) => {
            service.give_up();
            Err(error)
        }
    }
}
