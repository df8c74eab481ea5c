//! The scripts of a document run by threads: a service over the groups' worlds, a job for each application, and jobs of workers beside
//! them.

ghost use Rattle.std.specs.Prelude.{◌≡◌, ◌+◌, ◌≤◌, List, length, IfOk, All};
ghost use Rattle.st_grammar.specs.Sound.{IsSoundDoc};
ghost use Rattle.st_service.specs.Opened.{AreLinesOf, AreWorldsOf};
ghost use Rattle.st_service.specs.Passes.{Holder};
ghost use Rattle.st_run.specs.Played.{AllCanBeDone, IsPlayed, acts_of};
ghost use Rattle.st_run.specs.Running.{HasSmallNumber, HasSmallNumbers, IsRunOf};
ghost use Rattle.st_run.specs.Tasks.{tasks_by};

use crate::playing::{Played, play};
use crate::tasks::tasks_of;
use crate::workers::Task;
use st_crew::Gate;
use st_event::{Entry, Event, Journal};
use st_grammar::{Doc, Script};
use st_serial::open_worlds;
use st_service::{Naming, RoomLines, Service};
use st_world::World;
use std::alloc::{AllocError, Global};
use std::marker::Brand;
use std::sync::Wait;
use std::sync::ledger::{Blank, Ledger};
use std::thread::Threads;

/// New lines for so many rooms.
fn lines_of(alloc: Global, rooms: usize) -> Result<Vec<RoomLines>, AllocError>
    ensures { IfOk result (λ lines. length lines.items ≡ rooms) }
{
    let mut lines = Vec::new(alloc);
    for _room in 0..rooms {
        lines.push(RoomLines::new())?;
    }
    Ok(lines)
}

/// The scripts of a document on a service over its worlds, with the tasks of their workers, under names that are picked for this run.
fn run_named<
    J: Naming + Send + Sync,
    L: Ledger + Send + Sync,
    R: Threads + Wait + Sync,
    G: Gate + Sync,
>(
    rt: &R,
    alloc: Global,
    worlds: Vec<World>,
    lines: Vec<RoomLines>,
    blank: Blank,
    apps: &[Script],
    tasks: &[Task],
    gate: &G,
) -> Result<Played, AllocError>
    requires lines { (length lines.items ≡ length worlds.items) × AreLinesOf J.book J.board lines.items }
    requires worlds { AreWorldsOf J.group J.lines worlds.items }
    requires ledger { (blank.name ≡ L.name) × (blank.parts ≡ L.parts) }
    requires parts { blank.parts ≡ length apps.now + length tasks.now + length worlds.items + 1 }
    requires few { (length worlds.items ≤ 16) × (length apps.now + length tasks.now ≤ 512) }
    requires acts { AllCanBeDone J.group (length worlds.items) apps.now }
    requires tasks { tasks.now ≡ tasks_by apps.now (length worlds.items) }
    ensures { IfOk result (λ played. (ends : List Holder) × IsPlayed J.group J.lines (length worlds.items) (acts_of apps.now) played.full played.journals.items played.logs.items ends) }
{
    let rooms = worlds.len();
    let count = apps.len() as u32;
    let workers = tasks.len() as u32;
    let (service, passes) = Service::<J, L, &R>::start(
        rt, alloc, worlds, lines, blank, count, workers,
    )?;
    play(rt, alloc, service, rooms, passes, apps, tasks, gate)
}

/// The number of a message that an event names has 32 bits, as the type of the number says. The function does nothing.
fn is_numbered(event: &Event)
    ensures { HasSmallNumber event.now }
{
    match event {
        Event::Deliver { command: number } | Event::Hear { report: number } => {
            let _known: u32 = *number;
        }
        Event::Submit { .. }
        | Event::Check
        | Event::Lock { .. }
        | Event::Unlock { .. }
        | Event::Send { .. }
        | Event::Finish { .. }
        | Event::Report { .. }
        | Event::Fail { .. }
        | Event::Withdraw { .. } => {}
    }
}

/// The numbers that the events of entries name have 32 bits.
fn are_numbered(entries: &[Entry])
    ensures { All (λ entry. HasSmallNumber entry.event) entries.now }
{
    for entry in entries {
        is_numbered(&entry.event);
    }
}

/// The numbers that the events of journals name have 32 bits.
fn all_numbered(journals: &[Journal])
    ensures { All HasSmallNumbers journals.now }
{
    for journal in journals {
        are_numbered(journal.entries.as_slice());
    }
}

/// Runs the scripts of a document by threads over a service of the document's groups. There is a thread for each application; one for the
/// checker of each group to which a `propose` goes, which makes a check off the lock for each such command; and one for the updater and one
/// for the monitor of each group that a `settle` names, which make a half of a round for each such command. The call waits for its threads.
/// The gate is called behind each read, before each half that an updater or a monitor makes, and before each judgement off the lock that a
/// thread makes; the awaits behind the threads call none. The order in which different threads act is free. Where no event met a full
/// journal the scripts were carried out. Else the result names a group whose journal is full: the lowest at which a thread stopped, while
/// the others went on, or which an await behind the threads met full; of that group only this is promised. Journals and logs stand in the
/// order of the document. `Err` is for want of memory alone, and hands nothing back.
pub fn run_scripts<R: Threads + Wait + Sync, G: Gate + Sync>(
    rt: &R,
    alloc: Global,
    doc: &Doc,
    gate: &G,
) -> Result<Played, AllocError>
    requires { IsSoundDoc doc.now }
    ensures { IfOk result (λ played. IsRunOf doc.now played.full played.journals.items played.logs.items) }
{
    let worlds = open_worlds(alloc, doc.groups.as_slice(), doc.wires.as_slice())?;
    let rooms = worlds.len();
    let lines = lines_of(alloc, rooms)?;
    let apps = doc.apps.as_slice();
    let planned = tasks_of(alloc, rooms, apps)?;
    let tasks = planned.as_slice();
    let parts = apps.len() + tasks.len() + rooms + 1;
    let blank = Blank::new(parts as u64);
    let played = run_named::<Brand, Brand, R, G>(
        rt, alloc, worlds, lines, blank, apps, tasks, gate,
    )?;
    // Only the type of an event tells this, and who prints the journals has to know it.
    all_numbered(played.journals.as_slice());
    Ok(played)
}
