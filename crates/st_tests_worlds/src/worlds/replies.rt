//! Replies in words, and events that are to be answered so.

ghost use Rattle.st_net.specs.Groups.{IsEntityOf};

use st_event::{Event, Receipt, Reply, Rows, Verdict};
use st_net::{AppId, Entity, Row, Var};
use st_world::{Rounded, Stepped, World};
use std::alloc::{AllocError, Global};
use std::test::Fail;

fn word_of(reply: &Reply) -> &'static str {
    match reply {
        Reply::Idle => "idle",
        Reply::Granted => "granted",
        Reply::Released => "released",
        Reply::NotYours { holder: None } => "notyours -",
        Reply::Settled => "settled",
        Reply::Begun => "begun",
        Reply::Done => "done",
        Reply::Taken => "taken",
        Reply::Changed => "changed",
        Reply::Kept => "kept",
        _ => "other",
    }
}

/// A reply in words.
fn words_of(alloc: Global, reply: &Reply) -> Result<String, AllocError> {
    match reply {
        Reply::Queued { ticket } => format!(in alloc; "queued {ticket}"),
        Reply::Full { pending } => format!(in alloc; "full {pending}"),
        Reply::Held { holder } => format!(in alloc; "held {}", holder.0),
        Reply::Sent { command } => format!(in alloc; "sent {command}"),
        Reply::NoSuch { sent } => format!(in alloc; "nosuch {sent}"),
        Reply::Reported { report } => format!(in alloc; "reported {report}"),
        _ => String::from_str(alloc, word_of(reply)),
    }
}

/// A step of an event that fits.
fn stepped(world: &mut World, event: Event) -> Result<Stepped, Fail> {
    if !world.fits(&event) {
        return Err(Fail::new("an event does not fit"));
    }
    Ok(world.step(event)?)
}

/// The reply to an event that fits.
fn reply(world: &mut World, event: Event) -> Result<Reply, Fail> {
    match stepped(world, event)? {
        Stepped::Did(reply) => Ok(reply),
        Stepped::JournalFull { .. } => Err(Fail::new("the journal is full")),
    }
}

/// Enters an event that is to be answered in these words.
pub fn told(alloc: Global, world: &mut World, event: Event, words: &str) -> Result<(), Fail> {
    let reply = reply(world, event)?;
    let told = words_of(alloc, &reply)?;
    if told.as_str() == words {
        Ok(())
    } else {
        Err(Fail::new("another reply"))
    }
}

/// Nothing where it is so.
pub fn expect(is_so: bool) -> Result<(), Fail> {
    if is_so {
        Ok(())
    } else {
        Err(Fail::new("it is not so"))
    }
}

/// An event meets a journal that is full at so many entries.
pub fn is_full(world: &mut World, event: Event, limit: u32) -> Result<(), Fail> {
    match stepped(world, event)? {
        Stepped::Did(_) => Err(Fail::new("the journal has room")),
        Stepped::JournalFull { entries } => expect(entries == limit),
    }
}

/// A round leaves so many entities unsettled, and the journal has so many entries then.
pub fn round_leads(world: &mut World, unsettled: u32, entries: usize) -> Result<(), Fail> {
    let rounded = world.round()?;
    expect(rounded == Rounded::Did { unsettled } && world.journal().len() == entries)
}

/// The firmware of an entity.
pub fn firmware_row(alloc: Global, entity: Entity, value: u32) -> Result<Rows, AllocError> {
    let row = Row {
        entity,
        var: Var::Firmware,
        value,
    };
    Rows::from_slice(alloc, [row].as_slice())
}

/// The firmware of an entity, as a proposal of the second application.
pub fn firmware(alloc: Global, entity: Entity, value: u32) -> Result<Event, Fail> {
    Ok(Event::Submit {
        app: AppId(1),
        rows: firmware_row(alloc, entity, value)?,
    })
}

/// Proposes the firmware of an entity and decides it: it is to be accepted.
pub fn accept(alloc: Global, world: &mut World, entity: Entity, value: u32) -> Result<(), Fail> {
    let _ticket = reply(world, firmware(alloc, entity, value)?)?;
    match reply(world, Event::Check)? {
        Reply::Decided(
            Receipt {
                verdict: Verdict::Accepted { .. },
                ..
            },
        ) => Ok(()),
        _ => Err(Fail::new("not accepted")),
    }
}

fn firmware_of(world: &World, entity: Entity) -> u32
    requires { IsEntityOf world.now.history.group entity }
{
    world.agent(entity).vals().v1
}

/// The agent of an entity has this firmware.
pub fn has_firmware(world: &World, entity: Entity, value: u32) -> Result<(), Fail> {
    if !world.fits(&Event::Send { entity }) {
        return Err(Fail::new("an entity is not there"));
    }
    expect(firmware_of(world, entity) == value)
}

/// An entity is in the sure set.
pub fn is_sure(world: &World, entity: Entity) -> Result<(), Fail> {
    let control = world.control();
    if !control.topo().has(entity) {
        return Err(Fail::new("an entity is not there"));
    }
    let sure = control.sure()?;
    expect(sure.has(entity))
}

/// Entry `n` of the journal, counted from 1, has this reply.
pub fn has_entry(alloc: Global, world: &World, n: usize, words: &str) -> Result<(), Fail> {
    match world.journal().get(n.saturating_sub(1)) {
        Some(entry) => {
            let told = words_of(alloc, &entry.reply)?;
            expect(told.as_str() == words)
        }
        None => Err(Fail::new("no such entry")),
    }
}
