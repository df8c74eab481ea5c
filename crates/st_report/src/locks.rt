//! The requests and returns of locks in a group's journal.

ghost use Rattle.std.specs.Prelude.{◌≡◌, ◌++◌, IfOk, map, true};
ghost use Rattle.std.specs.List.{list_all};
ghost use Rattle.st_text.specs.Words.{spaced};
ghost use Rattle.st_net.specs.Groups.{are_names};
ghost use Rattle.st_entry.specs.Entries.{event_words, reply_words};
ghost use Rattle.st_report.specs.Lines.{is_lock_event, locks_among};

use crate::lines::Lines;
use st_entry::{print_event, print_reply};
use st_event::{Entry, Event};
use st_net::{GroupTopo, Name};
use st_text::Text;
use std::alloc::{AllocError, Global};

/// Whether an entry asks for a lock or gives one back.
fn is_of_lock(entry: &Entry) -> bool
    ensures { result ≡ is_lock_event entry.now.event }
{
    matches!(entry.event, Event::Lock { .. } | Event::Unlock { .. })
}

/// The words of an entry's event and of its reply.
fn entry_text(
    alloc: Global,
    topo: &GroupTopo,
    apps: &[Name],
    entry: &Entry,
) -> Result<Text, AllocError>
    ensures { IfOk result (λ text. text ≡ spaced (event_words topo.now apps.now entry.now.event ++ reply_words topo.now apps.now entry.now.reply)) }
{
    let mut text = Text::new(alloc);
    print_event(topo, apps, &entry.event, &mut text)?;
    print_reply(topo, apps, &entry.reply, &mut text)?;
    Ok(text)
}

/// The requests and returns of locks among these entries, in their order, each with its reply.
pub(crate) fn lock_lines(
    alloc: Global,
    topo: &GroupTopo,
    apps: &[Name],
    entries: &[Entry],
) -> Result<Lines, AllocError>
    requires { are_names apps.now ≡ true }
    ensures { IfOk result (λ lines. lines ≡ map spaced (locks_among topo.now apps.now entries.now)) }
{
    topo.is_sound();
    let mut lines = Lines::new(alloc);
    for entry in entries {
        if is_of_lock(entry) {
            lines.add(entry_text(alloc, topo, apps, entry)?)?;
        }
    }
    Ok(lines)
}
