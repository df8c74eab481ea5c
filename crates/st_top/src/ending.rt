//! How a call is to end, before anything is written: the status, what is handed back, and the text.

ghost use Rattle.std.specs.Prelude.{◌≡◌, ◌≤◌, length, IfOk, None};
ghost use Rattle.st_text.specs.Words.{text_of};
ghost use Rattle.st_io.specs.declared.reading.TheConstants.{MAX_BYTES};
ghost use Rattle.st_grammar.specs.Reading.{document_of};
ghost use Rattle.st_grammar.specs.Sound.{IsSoundDoc};
ghost use Rattle.st_top.specs.declared.task.Task.TheVariants.{Serial as serial_task, Revert as revert_task, Count as count_task, Print as print_task};
ghost use Rattle.st_serial.specs.Serial.{logs_from, serial_end, serial_logs, states_of};
ghost use Rattle.st_replay.specs.declared.status.Status.TheVariants.{BadInput as bad_input_lem};
ghost use Rattle.st_top.specs.Ending.{TellsFault, IsToldOf, IsEndOnDoc, IsEndOn, reverted_text, serial_text};
ghost use Rattle.st_top.specs.Reverting.{revert_lines, reverted};

use crate::output::{check_text, shown_text};
use crate::results::{journals_of, logs_of};
use crate::reverting::{LedBack, led_back};
use crate::task::{Showing, Task};
use st_doc::{Doc, DocKind, DocRead, print_doc, read_doc};
use st_event::{Journal, Log};
use st_net::Items;
use st_replay::{Status, app_names, status_line};
use st_report::report_text;
use st_serial::{Ran, serial_done};
use st_text::Text;
use st_world::World;
use std::alloc::{AllocError, Global};

/// How a call is to end, before anything is written.
#[derive(Drop)]
pub struct Ending {
    pub status: Status,
    pub journals: Items<Journal>,
    pub logs: Items<Log>,
    pub text: Text,
}

/// The ending that tells of a fault.
pub fn fault_ending(alloc: Global, status: Status) -> Result<Ending, AllocError>
    ensures { IfOk result (TellsFault status) }
{
    Ok(Ending {
        status,
        journals: Items::none(alloc),
        logs: Items::none(alloc),
        text: status_line(alloc, &[], status)?,
    })
}

/// The ending that tells of a bad line.
pub fn bad_input(alloc: Global, line: u32, kind: DocKind) -> Result<Ending, AllocError>
    ensures { IfOk result (TellsFault (bad_input_lem line kind)) }
{
    fault_ending(alloc, Status::BadInput { line, kind })
}

/// The status of a document whose scripts were run, and its text: what is shown of them, or the line that tells of a full journal.
fn ran_text(
    alloc: Global,
    showing: Showing,
    doc: &Doc,
    worlds: &[World],
    logs: &[Log],
    full: Option<u32>,
) -> Result<(Status, Text), AllocError>
    requires sound { IsSoundDoc doc.now }
    requires groups { states_of worlds.now ≡ (serial_end doc.now).groups }
    requires logs { logs.now ≡ serial_logs doc.now }
    requires full { full ≡ (serial_end doc.now).full }
    ensures { IfOk result (λ told. IsToldOf (serial_end doc.now) (serial_text showing doc.now) doc.now told.0 told.1) }
{
    match full {
        None => Ok((Status::Ok, shown_text(alloc, showing, doc, worlds, logs)?)),
        Some(group) => {
            let status = Status::JournalFull { group };
            Ok((status, status_line(alloc, doc.groups.as_slice(), status)?))
        }
    }
}

/// The ending of the scripts' run on one thread.
fn serial_ending(alloc: Global, showing: Showing, doc: &Doc) -> Result<Ending, AllocError>
    requires { IsSoundDoc doc.now }
    ensures { IfOk result (IsEndOnDoc (serial_task showing) doc.now) }
{
    let Ran { worlds, logs, full } = serial_done(alloc, doc)?;
    let logs = logs_of(alloc, logs)?;
    let (status, text) = ran_text(
        alloc,
        showing,
        doc,
        worlds.as_slice(),
        logs.as_slice(),
        full,
    )?;
    Ok(Ending {
        status,
        journals: journals_of(alloc, worlds)?,
        logs,
        text,
    })
}

/// The status of a document whose groups were led back to a version, and its text: the lines that tell of each group, and behind them the
/// report of what came of them, or the line that tells of a full journal.
fn led_text(
    alloc: Global,
    version: u32,
    doc: &Doc,
    worlds: &[World],
    logs: &[Log],
    full: Option<u32>,
    lines: Text,
) -> Result<(Status, Text), AllocError>
    requires sound { IsSoundDoc doc.now }
    requires groups { states_of worlds.now ≡ (reverted version doc.now).groups }
    requires logs { logs.now ≡ logs_from 0 (reverted version doc.now).logs }
    requires full { full ≡ (reverted version doc.now).full }
    requires lines { full ≡ None → lines ≡ text_of (revert_lines version (serial_end doc.now).groups) }
    ensures { IfOk result (λ told. IsToldOf (reverted version doc.now) (reverted_text version doc.now) doc.now told.0 told.1) }
{
    match full {
        None => {
            let mut text = lines;
            let names = app_names(alloc, doc)?;
            report_text(alloc, worlds, names.as_slice(), logs, &mut text)?;
            Ok((Status::Ok, text))
        }
        Some(group) => {
            let status = Status::JournalFull { group };
            Ok((status, status_line(alloc, doc.groups.as_slice(), status)?))
        }
    }
}

/// The ending of the scripts' run on one thread, with each group led back to a version behind it.
fn revert_ending(alloc: Global, version: u32, doc: &Doc) -> Result<Ending, AllocError>
    requires { IsSoundDoc doc.now }
    ensures { IfOk result (IsEndOnDoc (revert_task version) doc.now) }
{
    let LedBack { ran, lines } = led_back(alloc, serial_done(alloc, doc)?, version)?;
    let Ran { worlds, logs, full } = ran;
    let logs = logs_of(alloc, logs)?;
    let (status, text) = led_text(
        alloc,
        version,
        doc,
        worlds.as_slice(),
        logs.as_slice(),
        full,
        lines,
    )?;
    Ok(Ending {
        status,
        journals: journals_of(alloc, worlds)?,
        logs,
        text,
    })
}

/// The ending of a document's parts being counted.
fn count_ending(alloc: Global, doc: &Doc) -> Result<Ending, AllocError>
    requires { IsSoundDoc doc.now }
    ensures { IfOk result (IsEndOnDoc count_task doc.now) }
{
    Ok(Ending {
        status: Status::Ok,
        journals: Items::none(alloc),
        logs: Items::none(alloc),
        text: check_text(alloc, doc)?,
    })
}

/// The ending of a document's being printed.
fn print_ending(alloc: Global, doc: &Doc) -> Result<Ending, AllocError>
    requires { IsSoundDoc doc.now }
    ensures { IfOk result (IsEndOnDoc print_task doc.now) }
{
    let mut text = Text::new(alloc);
    print_doc(doc, &mut text)?;
    Ok(Ending {
        status: Status::Ok,
        journals: Items::none(alloc),
        logs: Items::none(alloc),
        text,
    })
}

/// The ending of a task on a document.
pub fn doc_ending(alloc: Global, task: Task, doc: &Doc) -> Result<Ending, AllocError>
    requires { IsSoundDoc doc.now }
    ensures { IfOk result (IsEndOnDoc task doc.now) }
{
    match task {
        Task::Serial(showing) => serial_ending(alloc, showing, doc),
        Task::Revert(version) => revert_ending(alloc, version, doc),
        Task::Count => count_ending(alloc, doc),
        Task::Print => print_ending(alloc, doc),
    }
}

/// The ending of a task on bytes that were read to their end.
pub fn task_ending(alloc: Global, task: Task, bytes: &[u8]) -> Result<Ending, AllocError>
    requires { length bytes.now ≤ MAX_BYTES }
    ensures { IfOk result (IsEndOn task (document_of bytes.now)) }
{
    match read_doc(alloc, bytes, false)? {
        DocRead::Doc(doc) => doc_ending(alloc, task, &doc),
        DocRead::Fault(fault) => bad_input(alloc, fault.line, fault.kind),
    }
}
