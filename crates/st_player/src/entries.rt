//! What is told of one entry of a journal: its line, what it is about, and why it refuses.

ghost use Rattle.std.specs.Prelude.{◌≡◌, ℕ, ◌<◌, ◌^◌, ◌++◌, ◌∷◌, [], IfOk, OnOk, codes, length, option_map, true};
ghost use Rattle.std.specs.Option.{option_copied};
ghost use Rattle.serde_json.specs.Data.{put as put_lem, string};
ghost use Rattle.serde_json.specs.View.{view, members_view};
ghost use Rattle.st_text.specs.Words.{spaced};
ghost use Rattle.st_net.specs.Entities.{is_same_entity};
ghost use Rattle.st_net.specs.Groups.{are_names};
ghost use Rattle.st_entry.specs.Entries.{event_words, reply_words};
ghost use Rattle.st_entry.specs.Keywords.{reply_mark};
ghost use Rattle.st_player.specs.Cuts.{numbers_of};
ghost use Rattle.st_player.specs.Entries.{about as about_lem, asked_of, entry_words as entry_words_lem, has_row_on as has_row_on_lem, line_of, lost_from, named_by as named_by_lem, rows_about as rows_about_lem, with_words};
ghost use Rattle.st_player.specs.Refusals.{refusal_of, refused_of};

use crate::joining::behind_first;
use crate::playback::Playback;
use crate::refusals::cause_json;
use crate::safe_json::{Json, JsonObject};
use crate::touched::{command_entity, oldest_rows, report_entity};
use st_entry::{print_event, print_reply};
use st_event::{Cause, Entry, Event, Reply, Verdict};
use st_net::{Entity, GroupTopo, Name, Row};
use st_text::{Text, Word, print_word};
use st_world::World;
use std::alloc::{AllocError, Global};

/// The words of an entry without its number, each behind a space.
fn words_of(
    alloc: Global,
    topo: &GroupTopo,
    apps: &[Name],
    entry: &Entry,
) -> Result<Text, AllocError>
    ensures { IfOk result (λ text. text ≡ spaced (event_words topo.now apps.now entry.now.event ++ reply_mark ∷ reply_words topo.now apps.now entry.now.reply)) }
{
    let mut text = Text::new(alloc);
    print_event(topo, apps, &entry.event, &mut text)?;
    print_word(Word::Plain(b":"), &mut text)?;
    print_reply(topo, apps, &entry.reply, &mut text)?;
    Ok(text)
}

/// Puts the line of an entry without its number, whichever that is.
fn put_line(
    object: &mut JsonObject,
    alloc: Global,
    topo: &GroupTopo,
    apps: &[Name],
    entry: &Entry,
) -> Result<(), AllocError>
    requires { are_names apps.now ≡ true }
    ensures { (n : ℕ) → OnOk result (members_view object.new ≡ put_lem (codes "line") (string (line_of topo.now apps.now n entry.now)) (members_view object.old)) }
{
    topo.is_sound();
    let words = words_of(alloc, topo, apps, entry)?;
    // Without the space that they begin with.
    object.put_text("line", behind_first(words.bytes()))
}

/// The rows that an entry is about, behind the entries of a world.
fn rows_about<'a>(world: &'a World, entry: &'a Entry) -> &'a [Row]
    ensures { result.now ≡ rows_about_lem world.now.history.past entry.now.event entry.now.reply }
{
    match (&entry.event, &entry.reply) {
        (Event::Submit { rows, .. }, _) => rows.as_slice(),
        (Event::Check, Reply::Decided(_)) => oldest_rows(world),
        _ => &[],
    }
}

/// The entity that an event names: by a lock, by a message that there is, or itself.
fn named_by(world: &World, event: &Event) -> Option<Entity>
    ensures { result ≡ named_by_lem world.now.history.group world.now.history.past event.now }
{
    match event {
        Event::Submit { .. } | Event::Check => None,
        Event::Lock { entity, .. }
        | Event::Unlock { entity, .. }
        | Event::Send { entity }
        | Event::Finish { entity }
        | Event::Report { entity }
        | Event::Fail { entity, .. }
        | Event::Withdraw { entity } => Some(*entity),
        Event::Deliver { command } => command_entity(world, *command),
        Event::Hear { report } => report_entity(world, *report),
    }
}

/// Whether a row is on an entity.
fn has_row_on(rows: &[Row], entity: Entity) -> bool
    ensures { result ≡ has_row_on_lem rows.now entity }
{
    rows.iter().any(|row| row.entity.is_same(entity))
}

/// The number of an entity alone, where the group has it.
fn alone(alloc: Global, topo: &GroupTopo, entity: Entity) -> Result<Vec<u32>, AllocError>
    ensures { IfOk result (λ numbers. numbers.items ≡ numbers_of topo.now (is_same_entity entity)) }
{
    topo.is_sound();
    let mut numbers = Vec::new(alloc);
    if topo.has(entity) {
        numbers.push(topo.place(entity) as u32)?;
    }
    Ok(numbers)
}

/// The numbers of the entities that these rows are on, ascending.
fn on_rows(alloc: Global, topo: &GroupTopo, rows: &[Row]) -> Result<Vec<u32>, AllocError>
    ensures { IfOk result (λ numbers. numbers.items ≡ numbers_of topo.now (has_row_on_lem rows.now)) }
{
    let mut numbers = Vec::new(alloc);
    for place in 0..topo.entity_count() {
        if has_row_on(rows, topo.entity_at(place)) {
            numbers.push(place)?;
        }
    }
    Ok(numbers)
}

/// The numbers of the entities that an entry is about, ascending.
fn about(alloc: Global, world: &World, entry: &Entry) -> Result<Vec<u32>, AllocError>
    ensures { IfOk result (λ numbers. numbers.items ≡ about_lem world.now.history.group world.now.history.past entry.now) }
{
    let topo = world.control().topo();
    match named_by(world, &entry.event) {
        Some(entity) => alone(alloc, topo, entity),
        None => on_rows(alloc, topo, rows_about(world, entry)),
    }
}

/// Of a check that decides, the number of the entry that gave its ticket.
fn asked(playback: &Playback, entry: &Entry) -> Option<u32>
    ensures { result ≡ asked_of playback.now.past entry.now.event entry.now.reply }
{
    match (&entry.event, &entry.reply) {
        (Event::Check, Reply::Decided(receipt)) => playback.asker(receipt.ticket),
        _ => None,
    }
}

/// The cause of a check that refuses.
fn refusal(entry: &Entry) -> Option<&Cause>
    ensures { option_copied result ≡ refusal_of entry.now.event entry.now.reply }
{
    match (&entry.event, &entry.reply) {
        (Event::Check, Reply::Decided(receipt)) => match &receipt.verdict {
            Verdict::Refused(cause) => Some(cause),
            Verdict::Accepted { .. } => None,
        },
        _ => None,
    }
}

/// Why a check refuses, behind the entries of a world.
fn refused(alloc: Global, world: &World, entry: &Entry) -> Result<Option<Json>, AllocError>
    ensures { IfOk result (λ refused. option_map view refused ≡ refused_of world.now.history.group world.now.history.past entry.now.event entry.now.reply) }
{
    world.is_legal();
    match refusal(entry) {
        Some(cause) => Ok(Some(cause_json(alloc, world, oldest_rows(world), cause)?)),
        None => Ok(None),
    }
}

/// What an entry is: its line, what it is about, and what it decided.
pub(crate) fn entry_words(
    alloc: Global,
    playback: &Playback,
    apps: &[Name],
    entry: &Entry,
) -> Result<JsonObject, AllocError>
    requires { are_names apps.now ≡ true }
    ensures { IfOk result (λ object. members_view object ≡ entry_words_lem playback.now.group apps.now playback.now.past entry.now) }
{
    let mut object = JsonObject::new(alloc);
    put_words(&mut object, alloc, playback, apps, entry)?;
    Ok(object)
}

/// Puts what an entry is: its line, what it is about, and what it decided.
fn put_words(
    object: &mut JsonObject,
    alloc: Global,
    playback: &Playback,
    apps: &[Name],
    entry: &Entry,
) -> Result<(), AllocError>
    requires { are_names apps.now ≡ true }
    ensures { OnOk result (members_view object.new ≡ with_words playback.now.group apps.now playback.now.past entry.now (members_view object.old)) }
{
    let world = playback.world();
    put_line(object, alloc, world.control().topo(), apps, entry)?;
    object.put_numbers("on", about(alloc, world, entry)?.as_slice())?;
    object.put_number_some("asked", asked(playback, entry))?;
    object.put_some("refused", refused(alloc, world, entry)?)
}

/// The numbers of the promises that hold before and not after.
pub(crate) fn lost(alloc: Global, before: &[bool], after: &[bool]) -> Result<Vec<u32>, AllocError>
    requires count { length before.now ≡ length after.now }
    requires few { length before.now < 2 ^ 32 }
    ensures { IfOk result (λ numbers. numbers.items ≡ lost_from 0 before.now after.now) }
{
    let mut numbers = Vec::new(alloc);
    for (i, held) in before.iter().enumerate() {
        if *held && !after[i] {
            numbers.push(i as u32)?;
        }
    }
    Ok(numbers)
}
