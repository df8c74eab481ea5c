//! `replay`: a document is read with its journals, and these are gone through again. The worlds that they lead to are shown.

ghost use Rattle.std.specs.Prelude.{◌≡◌, ◌≤◌, All, Ok as read_ok, length, IfOk};
ghost use Rattle.st_io.specs.declared.reading.TheConstants.{MAX_BYTES};
ghost use Rattle.st_grammar.specs.Reading.{IsPlaceWithin};
ghost use Rattle.st_grammar.specs.Sound.{IsSoundDoc};
ghost use Rattle.st_journal.specs.JournalReading.{AreJournalsOf};
ghost use Rattle.st_replay.specs.Replaying.{replay_of, replay_with, HasFewEntries};
ghost use Rattle.st_serial.specs.Kept.{groups_of};
ghost use Rattle.st_top.specs.Ending.{IsEndOnReplay, IsToldAgain};

use crate::ending::{Ending, bad_input};
use crate::output::shown_text;
use crate::task::Showing;
use st_doc::{Doc, DocRead, read_doc};
use st_event::Journal;
use st_journal::JournalsRead;
use st_net::{GroupTopo, Items};
use st_replay::{Again, Status, journals_read, replay_all, status_line};
use st_serial::topos_of;
use st_text::Text;
use st_words::Form;
use std::alloc::{AllocError, Global};

/// The status of a document whose journals were gone through again, and its text: what is shown of the worlds in a form, or the line
/// that names the first entry that is not legal.
fn again_text(
    alloc: Global,
    form: Form,
    doc: &Doc,
    again: &Again,
) -> Result<(Status, Text), AllocError>
    requires { IsSoundDoc doc.now }
    ensures { IfOk result (λ told. IsToldAgain form doc.now again.now told.0 told.1) }
{
    match again {
        Again::Worlds(worlds) => {
            let text = shown_text(alloc, Showing::In(form), doc, worlds.as_slice(), &[])?;
            Ok((Status::Ok, text))
        }
        Again::Illegal { group, entry } => {
            let status = Status::Illegal {
                group: *group,
                entry: *entry,
            };
            Ok((status, status_line(alloc, doc.groups.as_slice(), status)?))
        }
    }
}

/// The ending of the journals of a document being gone through again, whose groups are these.
fn journals_ending(
    alloc: Global,
    form: Form,
    doc: &Doc,
    topos: Vec<GroupTopo>,
    journals: Vec<Journal>,
) -> Result<Ending, AllocError>
    requires sound { IsSoundDoc doc.now }
    requires groups { topos.items ≡ groups_of doc.now }
    requires each { AreJournalsOf 0 topos.items journals.items }
    requires short { All HasFewEntries journals.items }
    ensures { IfOk result (IsEndOnReplay form (read_ok (record { doc = doc.now; journals = journals.items }))) }
{
    let again = replay_all(alloc, topos, journals.as_slice())?;
    let (status, text) = again_text(alloc, form, doc, &again)?;
    Ok(Ending {
        status,
        journals: Items::new(journals),
        logs: Items::none(alloc),
        text,
    })
}

/// The ending of a replay of a document that was read from these bytes.
fn doc_again(alloc: Global, form: Form, bytes: &[u8], doc: &Doc) -> Result<Ending, AllocError>
    requires few { length bytes.now ≤ MAX_BYTES }
    requires within { IsPlaceWithin (length bytes.now) doc.now.journal_at }
    requires sound { IsSoundDoc doc.now }
    ensures { IfOk result (IsEndOnReplay form (replay_with bytes.now doc.now)) }
{
    let topos = topos_of(alloc, doc.groups.as_slice())?;
    match journals_read(alloc, bytes, doc, topos.as_slice())? {
        JournalsRead::Journals(journals) => journals_ending(
            alloc,
            form,
            doc,
            topos,
            journals.into_vec(),
        ),
        JournalsRead::Fault { line, kind } => bad_input(alloc, line, kind),
    }
}

/// The ending of a replay of bytes that were read to their end.
pub fn replay_ending(alloc: Global, form: Form, bytes: &[u8]) -> Result<Ending, AllocError>
    requires { length bytes.now ≤ MAX_BYTES }
    ensures { IfOk result (IsEndOnReplay form (replay_of bytes.now)) }
{
    match read_doc(alloc, bytes, true)? {
        DocRead::Doc(doc) => doc_again(alloc, form, bytes, &doc),
        DocRead::Fault(fault) => bad_input(alloc, fault.line, fault.kind),
    }
}
