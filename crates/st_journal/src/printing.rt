//! Journals are printed here, entry by entry, in the words of entries. What is printed is read back as the journal.

ghost use Rattle.std.specs.Prelude.{◌≡◌, ◌++◌, ◌∷◌, [], ◌≤◌, OnOk, OnErr, length, reverse};
ghost use Rattle.st_text.specs.Words.{text_of};
ghost use Rattle.st_event.specs.declared.journal.TheConstants.{MAX_ENTRIES};
ghost use Rattle.st_journal.specs.Printing.{journal_words, entries_lines, journal_text};

use st_entry::print_entry;
use st_event::{Entry, Journal};
use st_net::{GroupTopo, Name};
use st_text::{Text, Word, print_line};
use st_world::World;
use std::alloc::{AllocError, Global};

/// Adds the line that begins the journal of a group.
fn print_head(topo: &GroupTopo, out: &mut Text) -> Result<(), AllocError>
    ensures { OnOk result (out.new ≡ out.old ++ text_of (journal_words topo.now ∷ [])) }
{
    print_line(b"journal", &[Word::Plain(topo.name().bytes())], out)
}

/// Adds a line for each entry, the oldest first, which has number 1.
fn print_entries(
    topo: &GroupTopo,
    apps: &[Name],
    entries: &[Entry],
    out: &mut Text,
) -> Result<(), AllocError>
    requires { length entries.now ≤ MAX_ENTRIES }
    ensures { OnOk result (out.new ≡ out.old ++ text_of (entries_lines topo.now apps.now 1 entries.now)) }
{
    for (i, entry) in entries.iter().enumerate() {
        print_entry(topo, apps, i as u32 + 1, entry, out)?;
    }
    Ok(())
}

/// Adds the journal of these entries whole, or not at all.
fn print_whole(
    alloc: Global,
    topo: &GroupTopo,
    apps: &[Name],
    entries: &[Entry],
    out: &mut Text,
) -> Result<(), AllocError>
    requires { length entries.now ≤ MAX_ENTRIES }
    ensures ok { OnOk result (out.new ≡ out.old ++ journal_text topo.now apps.now entries.now) }
    ensures err { OnErr result (out.new ≡ out.old) }
{
    let mut text = Text::new(alloc);
    print_head(topo, &mut text)?;
    print_entries(topo, apps, entries, &mut text)?;
    out.word(text.bytes())
}

/// Adds the journal of a group of this topology: the line `journal NAME`, and a line for each entry with its number from 1, its event,
/// `:` and its reply, with one space between tokens and an LF behind each line. `apps` has the applications' names in order. It
/// prints every journal, legal or not; what the group or the applications do not have is spelled with no bytes. Takes time in the
/// bytes that are printed. `Err` is for want of memory alone, and leaves the text as it was.
pub fn print_journal(
    alloc: Global,
    topo: &GroupTopo,
    apps: &[Name],
    journal: &Journal,
    out: &mut Text,
) -> Result<(), AllocError>
    requires { length journal.now.entries ≤ MAX_ENTRIES }
    ensures ok { OnOk result (out.new ≡ out.old ++ journal_text topo.now apps.now journal.now.entries) }
    ensures err { OnErr result (out.new ≡ out.old) }
{
    print_whole(alloc, topo, apps, journal.entries.as_slice(), out)
}

/// Adds the journal of a world, as `print_journal` prints it.
pub fn print_world(
    alloc: Global,
    world: &World,
    apps: &[Name],
    out: &mut Text,
) -> Result<(), AllocError>
    ensures ok { OnOk result (out.new ≡ out.old ++ journal_text world.now.history.group apps.now (reverse world.now.history.past)) }
    ensures err { OnErr result (out.new ≡ out.old) }
{
    // A world has no more entries than a journal may have.
    let _entries = world.entries();
    print_whole(alloc, world.control().topo(), apps, world.journal(), out)
}
