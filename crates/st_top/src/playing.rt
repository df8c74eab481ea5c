//! `run`: the scripts of a document are run by threads, and what came of them is shown.

ghost use Rattle.std.specs.Prelude.{◌≡◌, ◌≤◌, length, IfOk};
ghost use Rattle.st_io.specs.declared.reading.TheConstants.{MAX_BYTES};
ghost use Rattle.st_grammar.specs.Reading.{document_of};
ghost use Rattle.st_grammar.specs.Sound.{IsSoundDoc};
ghost use Rattle.st_journal.specs.JournalReading.{AreJournalsOf};
ghost use Rattle.st_replay.specs.Again.{histories_of};
ghost use Rattle.st_replay.specs.Replaying.{AreLegal};
ghost use Rattle.st_run.specs.Running.{IsRunOf};
ghost use Rattle.st_serial.specs.Kept.{groups_of};
ghost use Rattle.st_top.specs.Ending.{IsEndOnRun, IsEndOnRunDoc, IsToldOfRun};
ghost use Rattle.st_top.specs.Output.{shown};

use crate::ending::{Ending, bad_input};
use crate::output::shown_text;
use crate::task::Showing;
use st_crew::Gate;
use st_doc::{Doc, DocRead, read_doc};
use st_event::{Journal, Log};
use st_net::Items;
use st_replay::{Again, Status, replay_all, status_line};
use st_run::{Played, run_scripts};
use st_serial::topos_of;
use st_text::Text;
use st_words::Form;
use std::alloc::{AllocError, Global};
use std::sync::Wait;
use std::thread::Threads;

/// What is shown of legal journals of a document's groups, and of logs, in a form.
fn journals_shown(
    alloc: Global,
    form: Form,
    doc: &Doc,
    journals: &[Journal],
    logs: &[Log],
) -> Result<Text, AllocError>
    requires sound { IsSoundDoc doc.now }
    requires each { AreJournalsOf 0 (groups_of doc.now) journals.now }
    requires legal { AreLegal (groups_of doc.now) journals.now }
    ensures { IfOk result (λ text. text ≡ shown (Showing.In form) doc.now (histories_of (groups_of doc.now) journals.now) logs.now) }
{
    let topos = topos_of(alloc, doc.groups.as_slice())?;
    match replay_all(alloc, topos, journals)? {
        Again::Worlds(worlds) => {
            shown_text(alloc, Showing::In(form), doc, worlds.as_slice(), logs)
        }
        Again::Illegal { .. } => unreachable!(),
    }
}

/// The status of a document whose scripts threads have run, and its text: what is shown of what came of them, or the line that tells
/// of a full journal.
fn played_text(
    alloc: Global,
    form: Form,
    doc: &Doc,
    played: &Played,
) -> Result<(Status, Text), AllocError>
    requires sound { IsSoundDoc doc.now }
    requires run { IsRunOf doc.now played.now.full played.now.journals.items played.now.logs.items }
    ensures { IfOk result (λ told. IsToldOfRun form doc.now played.now told.0 told.1) }
{
    match played.full {
        None => {
            let journals = played.journals.as_slice();
            let text = journals_shown(alloc, form, doc, journals, played.logs.as_slice())?;
            Ok((Status::Ok, text))
        }
        Some(group) => {
            let status = Status::JournalFull { group };
            Ok((status, status_line(alloc, doc.groups.as_slice(), status)?))
        }
    }
}

/// The ending of a run of a document's scripts by threads.
fn doc_run<R: Threads + Wait + Sync, G: Gate + Sync>(
    rt: &R,
    alloc: Global,
    form: Form,
    doc: &Doc,
    gate: &G,
) -> Result<Ending, AllocError>
    requires { IsSoundDoc doc.now }
    ensures { IfOk result (IsEndOnRunDoc form doc.now) }
{
    let played = run_scripts(rt, alloc, doc, gate)?;
    let (status, text) = played_text(alloc, form, doc, &played)?;
    let Played { journals, logs, .. } = played;
    Ok(Ending {
        status,
        journals: Items::new(journals),
        logs: Items::new(logs),
        text,
    })
}

/// The ending of a run by threads of bytes that were read to their end.
pub fn run_ending<R: Threads + Wait + Sync, G: Gate + Sync>(
    rt: &R,
    alloc: Global,
    form: Form,
    bytes: &[u8],
    gate: &G,
) -> Result<Ending, AllocError>
    requires { length bytes.now ≤ MAX_BYTES }
    ensures { IfOk result (IsEndOnRun form (document_of bytes.now)) }
{
    match read_doc(alloc, bytes, false)? {
        DocRead::Doc(doc) => doc_run(rt, alloc, form, &doc, gate),
        DocRead::Fault(fault) => bad_input(alloc, fault.line, fault.kind),
    }
}
