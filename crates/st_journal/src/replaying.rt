//! Journals are replayed here: a group goes through a journal's events again, and each reply is compared with the one that is called
//! for. The entries come from a journal that was read or kept; the world is handed on to reports.

ghost use Rattle.std.specs.Prelude.{◌≡◌, ◌↔◌, ◌≤◌, ◌<◌, [], All, IfOk, IsTrue, MatchOption, length};
ghost use Rattle.st_event.specs.History.{with_entry};
ghost use Rattle.st_event.specs.Replies.{reply};
ghost use Rattle.st_event.specs.Services.{entry_after};
ghost use Rattle.st_journal.specs.Replaying.{EventFits, IsBackUnless, IsFirstWrong, IsReplayOf, Replays};

use crate::same::is_same_reply;
use st_event::{Entry, MAX_ENTRIES};
use st_net::GroupTopo;
use st_wire::LossPlan;
use st_world::{Stepped, World};
use std::alloc::{AllocError, Global};

/// What comes of a journal that is replayed.
#[derive(Drop)]
pub enum Replayed {
    /// Each reply is the one that the entries before it call for. The world went through the whole journal.
    Legal(World),
    /// The first entry, by its number from 1, whose reply is not the one that the entries before it call for.
    Illegal { entry: u32 },
}

/// Enters an entry's event with the reply that is called for, and says whether the entry has that reply.
fn is_replied(alloc: Global, world: &mut World, entry: &Entry) -> Result<bool, AllocError>
    requires room { length world.old.history.past < MAX_ENTRIES }
    requires fits { EventFits world.old.history.group entry.now }
    ensures same { IfOk result (λ same. IsTrue same ↔ (entry.now.reply ≡ reply world.old.history.group world.old.history.past entry.now.event)) }
    ensures entered { IfOk result (λ same. world.new.history ≡ with_entry world.old.history (entry_after world.old.history.group world.old.history.past entry.now.event)) }
    ensures losses { world.new.lines ≡ world.old.lines }
{
    match world.step(entry.event.copy(alloc)?)? {
        Stepped::Did(reply) => Ok(is_same_reply(&entry.reply, &reply)),
        Stepped::JournalFull { .. } => unreachable!(),
    }
}

/// Lets a world at its opening go through entries, the oldest first, up to the first whose reply is not the one that is called for, and
/// gives the number of that one, from 1.
fn first_wrong(
    alloc: Global,
    world: &mut World,
    entries: &[Entry],
) -> Result<Option<u32>, AllocError>
    requires opening { world.old.history.past ≡ [] }
    requires lines { world.old.lines ≡ [] }
    requires few { length entries.now ≤ MAX_ENTRIES }
    requires fits { All (EventFits world.old.history.group) entries.now }
    ensures { IfOk result (λ first. MatchOption first (IsReplayOf world.old.history.group entries.now world.new) (IsFirstWrong world.old.history.group entries.now)) }
{
    for (i, entry) in entries.iter().enumerate() {
        if !is_replied(alloc, world, entry)? {
            world.is_legal();
            return Ok(Some(i as u32 + 1));
        }
    }
    world.is_legal();
    Ok(None)
}

/// An item back, where there is no number.
fn unless_wrong<T: Drop>(
    item: T,
    first: Result<Option<u32>, AllocError>,
) -> Result<Result<T, u32>, AllocError>
    ensures { IfOk result (IsBackUnless item first) }
{
    match first? {
        Some(n) => Ok(Err(n)),
        None => Ok(Ok(item)),
    }
}

/// Lets a group go through a journal, the oldest entry first: at most 200,000 entries, each with an event that a step of the group may
/// enter. `Legal` comes exactly where each reply is the one that the entries before it call for, and its world has the group, no wire
/// lines, and the whole journal. `Illegal` names the first entry whose reply is another. Takes the time of as many steps, and the memory
/// of the journal. `Err` is for want of memory alone.
pub fn replay(alloc: Global, topo: GroupTopo, entries: &[Entry]) -> Result<Replayed, AllocError>
    requires few { length entries.now ≤ MAX_ENTRIES }
    requires fits { All (EventFits topo) entries.now }
    ensures { IfOk result (Replays topo entries.now) }
{
    let mut world = World::start(alloc, topo, LossPlan::none(alloc))?;
    let first = first_wrong(alloc, &mut world, entries);
    match unless_wrong(world, first)? {
        Ok(world) => Ok(Replayed::Legal(world)),
        Err(entry) => Ok(Replayed::Illegal { entry }),
    }
}
