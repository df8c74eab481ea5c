//! A text is gone through again: a document is read with its journals, and these lead to worlds, or to the first entry that is not legal.

ghost use Rattle.std.specs.Prelude.{◌≡◌, ◌≤◌, ◌<◌, ◌^◌, All, length, IfOk};
ghost use Rattle.st_io.specs.declared.reading.TheConstants.{MAX_BYTES};
ghost use Rattle.st_grammar.specs.Reading.{IsPlaceWithin};
ghost use Rattle.st_journal.specs.JournalReading.{journals_in, AreJournalsOf, HasOneOfEach, Reads as ReadsJournals};
ghost use Rattle.st_replay.specs.Again.{IsAgain};
ghost use Rattle.st_replay.specs.Replaying.{app_names as app_names_lem, journal_bytes, journal_line, HasFewEntries, HaveFewEntries};

use st_doc::Doc;
use st_event::Journal;
use st_journal::{JournalsRead, Replayed, read_journals, replay};
use st_net::{GroupTopo, Name};
use st_world::World;
use std::alloc::{AllocError, Global};

/// What came of journals that were gone through again: worlds, or the first entry with a reply that is not called for.
#[derive(Drop)]
pub enum Again {
    Worlds(Vec<World>),
    Illegal { group: u32, entry: u32 },
}

/// The names of a document's applications, in order.
pub fn app_names(alloc: Global, doc: &Doc) -> Result<Vec<Name>, AllocError>
    ensures { IfOk result (λ names. names.items ≡ app_names_lem doc.now) }
{
    let apps = doc.apps.as_slice();
    let mut names = Vec::new(alloc);
    for script in apps {
        names.push(script.name.copy(alloc)?)?;
    }
    Ok(names)
}

/// The journals of a document that was read from these bytes, and whose groups are these.
pub fn journals_read(
    alloc: Global,
    bytes: &[u8],
    doc: &Doc,
    topos: &[GroupTopo],
) -> Result<JournalsRead, AllocError>
    requires few { length bytes.now ≤ MAX_BYTES }
    requires within { IsPlaceWithin (length bytes.now) doc.now.journal_at }
    requires few_groups { length topos.now < 2 ^ 32 }
    requires few_apps { length doc.now.apps < 2 ^ 32 }
    ensures exact { IfOk result (λ read. ReadsJournals read (journals_in topos.now (app_names_lem doc.now) (journal_line doc.now.journal_at) (journal_bytes doc.now.journal_at bytes.now))) }
    ensures each { IfOk result (HasOneOfEach topos.now) }
    ensures short { IfOk result HaveFewEntries }
{
    let names = app_names(alloc, doc)?;
    match &doc.journal_at {
        Some(at) => read_journals(alloc, &bytes[at.byte..], at.line, topos, names.as_slice()),
        None => read_journals(alloc, b"", 1, topos, names.as_slice()),
    }
}

/// Goes through the journals of groups again, in order, up to the first entry with a reply that is not called for.
pub fn replay_all(
    alloc: Global,
    topos: Vec<GroupTopo>,
    journals: &[Journal],
) -> Result<Again, AllocError>
    requires few { length topos.items < 2 ^ 32 }
    requires each { AreJournalsOf 0 topos.items journals.now }
    requires short { All HasFewEntries journals.now }
    ensures { IfOk result (IsAgain topos.items journals.now) }
{
    let mut worlds = Vec::new(alloc);
    for topo in topos {
        let group = worlds.len();
        match replay(alloc, topo, journals[group].entries.as_slice())? {
            Replayed::Legal(world) => {
                world.is_legal();
                world.keeps_promises();
                worlds.push(world)?;
            }
            Replayed::Illegal { entry } => {
                return Ok(Again::Illegal {
                    group: group as u32,
                    entry,
                });
            }
        }
    }
    Ok(Again::Worlds(worlds))
}
