//! An entry of a journal as a line: its number, its event, a colon and its reply.

ghost use Rattle.std.specs.Prelude.{◌≡◌, ◌++◌, ◌∷◌, [], OnOk};
ghost use Rattle.st_text.specs.Words.{text_of};
ghost use Rattle.st_entry.specs.Entries.{entry_words};

use crate::events::print_event;
use crate::replies::print_reply;
use st_event::Entry;
use st_net::{GroupTopo, Name};
use st_text::{Text, Word, print_word};
use std::alloc::AllocError;

/// Adds the line of the entry of a number, with its LF. The first entry of a journal has number 1. An entity that the group does not
/// have, an application or a promise that there is not: no bytes stand for its name. `Err` is for want of memory alone, and nothing
/// is said of the text then: gather a journal in a text of its own.
pub fn print_entry(
    topo: &GroupTopo,
    apps: &[Name],
    number: u32,
    entry: &Entry,
    out: &mut Text,
) -> Result<(), AllocError>
    ensures { OnOk result (out.new ≡ out.old ++ text_of (entry_words topo.now apps.now number entry.now ∷ [])) }
{
    out.num(u64::from(number))?;
    print_event(topo, apps, &entry.event, out)?;
    print_word(Word::Plain(b":"), out)?;
    print_reply(topo, apps, &entry.reply, out)?;
    out.word(b"\n")
}
