//! A group goes through its journal, and what is told of an entry is written at once, up to the bytes that the entries of a group may take.

ghost use Rattle.std.specs.Prelude.{◌≡◌, ◌++◌, [], IfOk, OnOk, reverse, true};
ghost use Rattle.serde_json.specs.View.{view, members_view};
ghost use Rattle.st_net.specs.Groups.{are_names};
ghost use Rattle.st_event.specs.History.{History as history_lem, with_entry};
ghost use Rattle.st_event.specs.Legal.{IsLegal, IsNext};
ghost use Rattle.st_player.specs.Entries.{entry_data, told_data};
ghost use Rattle.st_player.specs.Joined.{joined};
ghost use Rattle.st_player.specs.Pictures.{entries_data, fitting};
ghost use Rattle.st_player.specs.Shown.{is_shown};
ghost use Rattle.st_player.specs.Steps.{shown_in, IsSnapshot};
ghost use Rattle.st_player.specs.Touched.{Touches};

use crate::changes::next_snapshot;
use crate::entries::entry_words;
use crate::joining::write_fitting;
use crate::playback::Playback;
use crate::safe_json::{Json, JsonObject};
use crate::snapshot::{Snapshot, first_snapshot};
use crate::touched::{Touched, touched_by};
use st_event::Entry;
use st_net::{GroupTopo, Name};
use st_text::Text;
use std::alloc::{AllocError, Global};

/// A group that has gone through entries, and its snapshot.
#[derive(Drop)]
pub(crate) struct Moment {
    pub(crate) playback: Playback,
    pub(crate) shown: Snapshot,
}

/// A group that went through an entry: the group, its snapshot, and what is told of the entry.
#[derive(Drop)]
struct Step {
    playback: Playback,
    shown: Snapshot,
    told: Json,
}

/// A snapshot, and what is told of the entry before it.
#[derive(Drop)]
struct Telling {
    shown: Snapshot,
    told: Json,
}

/// The snapshot of a group that went through one entry more, and what is told of that entry, of which these are the words.
fn tell_entry(
    alloc: Global,
    behind: &Playback,
    before: Snapshot,
    words: JsonObject,
    touched: &Touched,
) -> Result<Telling, AllocError>
    requires { (h : history_lem) × Touches h behind.now touched.now × IsSnapshot h before }
    ensures shown { IfOk result (λ telling. IsSnapshot behind.now telling.shown) }
    ensures told { IfOk result (λ telling. view telling.told ≡ told_data (shown_in before) (shown_in telling.shown) (members_view words)) }
{
    let mut members = words;
    let shown = next_snapshot(&mut members, alloc, behind, before, touched)?;
    let told = Json::object(members);
    Ok(Telling { shown, told })
}

/// Goes through the next entry of a legal journal, and tells of it.
fn next_step(
    alloc: Global,
    playback: Playback,
    before: Snapshot,
    apps: &[Name],
    entry: &Entry,
) -> Result<Step, AllocError>
    requires next { IsNext playback.group playback.past entry.now }
    requires before { IsSnapshot playback before }
    requires apps { are_names apps.now ≡ true }
    ensures playback { IfOk result (λ step. step.playback ≡ with_entry playback entry.now) }
    ensures shown { IfOk result (λ step. IsSnapshot step.playback step.shown) }
    ensures told { IfOk result (λ step. view step.told ≡ entry_data playback.group apps.now playback.past entry.now) }
{
    let touched = touched_by(alloc, playback.world(), entry)?;
    let words = entry_words(alloc, &playback, apps, entry)?;
    let behind = playback.enter(alloc, entry)?;
    let telling = tell_entry(alloc, &behind, before, words, &touched)?;
    Ok(Step {
        playback: behind,
        shown: telling.shown,
        told: telling.told,
    })
}

/// Adds what is told of the entries behind a group that has gone through those before, as far as there is room.
pub(crate) fn write_entries(
    out: &mut Text,
    alloc: Global,
    begun: Moment,
    apps: &[Name],
    entries: &[Entry],
    room: usize,
) -> Result<(), AllocError>
    requires legal { IsLegal begun.playback.group (reverse entries.now ++ begun.playback.past) }
    requires shown { IsSnapshot begun.playback begun.shown }
    requires apps { are_names apps.now ≡ true }
    ensures text { OnOk result (out.new ≡ out.old ++ joined (fitting room (entries_data begun.playback.group apps.now begun.playback.past entries.now))) }
    ensures shown { OnOk result (is_shown (joined (fitting room (entries_data begun.playback.group apps.now begun.playback.past entries.now))) ≡ true) }
{
    let mut playback = begun.playback;
    let mut shown = begun.shown;
    let mut left = room;
    for (i, entry) in entries.iter().enumerate() {
        let step = next_step(alloc, playback, shown, apps, entry)?;
        match write_fitting(out, alloc, &step.told, i == 0, left)? {
            Some(rest) => left = rest,
            None => return Ok(()),
        }
        playback = step.playback;
        shown = step.shown;
    }
    Ok(())
}

/// A group at its opening.
pub(crate) fn at_opening(alloc: Global, topo: GroupTopo) -> Result<Moment, AllocError>
    ensures playback { IfOk result (λ opened. opened.playback ≡ record { group = topo; past = [] }) }
    ensures shown { IfOk result (λ opened. IsSnapshot opened.playback opened.shown) }
{
    let playback = Playback::start(alloc, topo)?;
    let shown = first_snapshot(alloc, &playback)?;
    Ok(Moment { playback, shown })
}

/// A group that goes from its opening through these entries.
fn gone_through(alloc: Global, opened: Playback, entries: &[Entry]) -> Result<Playback, AllocError>
    requires opening { opened.past ≡ [] }
    requires legal { IsLegal opened.group (reverse entries.now) }
    ensures { IfOk result (λ playback. playback ≡ record { group = opened.group; past = reverse entries.now }) }
{
    let mut playback = opened;
    for entry in entries {
        playback = playback.enter(alloc, entry)?;
    }
    Ok(playback)
}

/// The same with its snapshot then, which is the opening's where there are no entries.
pub(crate) fn played(alloc: Global, opened: Moment, entries: &[Entry]) -> Result<Moment, AllocError>
    requires opening { opened.playback.past ≡ [] }
    requires shown { IsSnapshot opened.playback opened.shown }
    requires legal { IsLegal opened.playback.group (reverse entries.now) }
    ensures playback { IfOk result (λ begun. begun.playback ≡ record { group = opened.playback.group; past = reverse entries.now }) }
    ensures shown { IfOk result (λ begun. IsSnapshot begun.playback begun.shown) }
{
    if entries.is_empty() {
        return Ok(opened);
    }
    let playback = gone_through(alloc, opened.playback, entries)?;
    let shown = first_snapshot(alloc, &playback)?;
    Ok(Moment { playback, shown })
}
