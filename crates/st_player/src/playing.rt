//! A text is played: a document is read with its journals, these are gone through, and the page is made of them; or the first fault is
//! told.

ghost use Rattle.std.specs.Prelude.{◌≡◌, ◌≤◌, All, length, IfOk, true};
ghost use Rattle.st_io.specs.declared.reading.TheConstants.{MAX_BYTES};
ghost use Rattle.st_grammar.specs.Reading.{IsPlaceWithin};
ghost use Rattle.st_grammar.specs.Sound.{IsSoundDoc};
ghost use Rattle.st_journal.specs.JournalReading.{AreJournalsOf};
ghost use Rattle.st_serial.specs.Kept.{groups_of};
ghost use Rattle.st_replay.specs.Replaying.{AreLegal, HasFewEntries, replay_with};
ghost use Rattle.st_player.specs.Playing.{IsFault, Plays, PlaysRead, PlaysRun, page_of};

use crate::head::put_head;
use crate::pictures::write_picture;
use crate::script::put_script;
use st_doc::{Doc, DocRead, read_doc};
use st_event::Journal;
use st_journal::JournalsRead;
use st_net::{GroupTopo, Parts};
use st_replay::{Again, Status, app_names, journals_read, replay_all, status_line};
use st_serial::topos_of;
use st_text::Text;
use std::alloc::{AllocError, Global};

/// What a text comes to: why, and what is to be written, which is the page or the line of a fault.
#[derive(Drop)]
pub struct Played {
    pub status: Status,
    pub text: Text,
}

/// The page of a document with its legal journals.
fn page_of_run(
    alloc: Global,
    doc: &Doc,
    journals: &[Journal],
    from: u32,
) -> Result<Text, AllocError>
    requires sound { IsSoundDoc doc.now }
    requires legal { AreLegal (groups_of doc.now) journals.now }
    ensures { IfOk result (λ text. text ≡ page_of from (record { doc = doc.now; journals = journals.now })) }
{
    let topos = topos_of(alloc, doc.groups.as_slice())?;
    let apps = app_names(alloc, doc)?;
    let mut out = Text::new(alloc);
    put_head(&mut out)?;
    write_picture(
        &mut out,
        alloc,
        topos.as_slice(),
        journals,
        apps.as_slice(),
        from as usize,
    )?;
    put_script(&mut out)?;
    Ok(out)
}

/// What a document with its legal journals comes to.
fn show(alloc: Global, doc: &Doc, journals: &[Journal], from: u32) -> Result<Played, AllocError>
    requires sound { IsSoundDoc doc.now }
    requires legal { AreLegal (groups_of doc.now) journals.now }
    ensures { IfOk result (λ played. PlaysRun from (record { doc = doc.now; journals = journals.now }) played.status played.text) }
{
    Ok(Played {
        status: Status::Ok,
        text: page_of_run(alloc, doc, journals, from)?,
    })
}

/// What a fault comes to, where the groups of the document are these; none where it was not read.
pub(crate) fn fault(alloc: Global, groups: &[Parts], status: Status) -> Result<Played, AllocError>
    ensures { IfOk result (IsFault groups.now status) }
{
    Ok(Played {
        status,
        text: status_line(alloc, groups, status)?,
    })
}

/// What a document with its journals comes to, whose groups are these: its page, or the line that names the first entry that is not legal.
fn play_journals(
    alloc: Global,
    doc: &Doc,
    topos: Vec<GroupTopo>,
    journals: &[Journal],
    from: u32,
) -> Result<Played, AllocError>
    requires sound { IsSoundDoc doc.now }
    requires groups { topos.items ≡ groups_of doc.now }
    requires each { AreJournalsOf 0 topos.items journals.now }
    requires short { All HasFewEntries journals.now }
    ensures { IfOk result (λ played. PlaysRun from (record { doc = doc.now; journals = journals.now }) played.status played.text) }
{
    match replay_all(alloc, topos, journals)? {
        Again::Worlds(worlds) => {
            drop(worlds);
            show(alloc, doc, journals, from)
        }
        Again::Illegal { group, entry } => {
            let status = Status::Illegal { group, entry };
            fault(alloc, doc.groups.as_slice(), status)
        }
    }
}

/// What a document that was read from these bytes comes to.
fn play_doc(alloc: Global, bytes: &[u8], doc: &Doc, from: u32) -> Result<Played, AllocError>
    requires few { length bytes.now ≤ MAX_BYTES }
    requires within { IsPlaceWithin (length bytes.now) doc.now.journal_at }
    requires sound { IsSoundDoc doc.now }
    ensures { IfOk result (PlaysRead from (replay_with bytes.now doc.now)) }
{
    let topos = topos_of(alloc, doc.groups.as_slice())?;
    match journals_read(alloc, bytes, doc, topos.as_slice())? {
        JournalsRead::Journals(journals) => {
            play_journals(alloc, doc, topos, journals.as_slice(), from)
        }
        JournalsRead::Fault { line, kind } => fault(alloc, &[], Status::BadInput { line, kind }),
    }
}

/// Plays a text of at most 1,048,576 bytes, which a replay form is: a document with its journals. Where it is one, and each journal is
/// legal, the status is `Ok` and the text is the page, which shows each group behind the first `from` entries of its journal. Else the
/// status and the text are those with which a replay tells of the first fault. `Err` is for want of memory alone.
pub fn play(alloc: Global, bytes: &[u8], from: u32) -> Result<Played, AllocError>
    requires { length bytes.now ≤ MAX_BYTES }
    ensures { IfOk result (Plays from bytes.now) }
{
    match read_doc(alloc, bytes, true)? {
        DocRead::Doc(doc) => play_doc(alloc, bytes, &doc, from),
        DocRead::Fault(found) => {
            let status = Status::BadInput {
                line: found.line,
                kind: found.kind,
            };
            fault(alloc, &[], status)
        }
    }
}
