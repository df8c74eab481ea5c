//! Journals as texts, worked out by hand on the two-path group and two groups of one device: each is read, and printed or replayed.

ghost use Rattle.std.specs.Prelude.{◌≡◌, ◌↔◌, All, IfOk, IsTrue};
ghost use Rattle.st_journal.specs.Replaying.{EventFits};

mod faults;
pub mod groups;
mod texts;

use crate::outcome::holds;
use faults::{ENTRIES, LINES};
use groups::{Setting, three_groups};
use st_event::{Entry, Journal, MAX_ENTRIES, Reply};
use st_journal::{JournalsRead, Replayed, print_journal, read_journals, replay};
use st_net::GroupTopo;
use st_text::{Text, number};
use st_wire::LossPlan;
use st_world::World;
use std::alloc::{AllocError, Global};
use std::test::Fail;
use texts::{
    ALL, ALTERED, OLD_REPORT, OTHER_SPELLING, RENEWED, SECOND_BROKEN, SIXTEEN, STALE_COMMAND,
    UNTOLD_FAILURE,
};

/// What the bytes read as, whose first line has this number. No text of these tests is too long to be read.
fn read(given: &Setting, bytes: &[u8], line: u32) -> Result<JournalsRead, AllocError> {
    let topos = given.topos.as_slice();
    let apps = given.apps.as_slice();
    if bytes.len() >= 100_000 || line >= 100_000 || topos.len() != 3 || apps.len() != 2 {
        return Err(AllocError);
    }
    read_journals(given.alloc, bytes, line, topos, apps)
}

/// The fault of a text whose first line has this number, or that there is none.
fn told(given: &Setting, bytes: &[u8], line: u32) -> Result<String, AllocError> {
    match read(given, bytes, line)? {
        JournalsRead::Fault { line, kind } => format!(in given.alloc; "{line} {kind:?}"),
        JournalsRead::Journals(journals) => {
            drop(journals);
            String::from_str(given.alloc, "journals")
        }
    }
}

/// A text with LF in place of `;`, behind another.
fn behind(alloc: Global, opening: &str, text: &str) -> Result<Vec<u8>, AllocError> {
    let mut bytes = opening.as_bytes().to_vec(alloc)?;
    for byte in text.as_bytes() {
        bytes.push(if *byte == b';' { b'\n' } else { *byte })?;
    }
    Ok(bytes)
}

/// Whether a text, behind another, has the fault that a row of a table tells.
fn is_told(given: &Setting, opening: &str, row: &str) -> Result<bool, AllocError> {
    let (want, text) = row.split_once(':').unwrap_or(("", row));
    let bytes = behind(given.alloc, opening, text)?;
    let got = told(given, bytes.as_slice(), 1);
    drop(bytes);
    Ok(got?.as_str() == want)
}

/// The first row of a table whose text, behind another, has another fault.
fn other_row_of<'t>(
    given: &Setting,
    opening: &str,
    table: &'t str,
) -> Result<Option<&'t str>, AllocError> {
    for row in table.lines() {
        if !is_told(given, opening, row)? {
            return Ok(Some(row));
        }
    }
    Ok(None)
}

/// The same over the three groups.
fn other_row<'t>(alloc: Global, opening: &str, table: &'t str) -> Result<Option<&'t str>, Fail> {
    let given = three_groups(alloc)?;
    let row = other_row_of(&given, opening, table);
    drop(given);
    Ok(row?)
}

/// Adds a journal as it is printed.
fn print(given: &Setting, journal: &Journal, out: &mut Text) -> Result<(), AllocError> {
    if journal.entries.as_slice().len() > MAX_ENTRIES {
        return Err(AllocError);
    }
    match given.topos.get(journal.group as usize) {
        Some(topo) => print_journal(given.alloc, topo, given.apps.as_slice(), journal, out),
        None => Ok(()),
    }
}

fn print_all(given: &Setting, journals: &[Journal], out: &mut Text) -> Result<(), AllocError> {
    for journal in journals {
        print(given, journal, out)?;
    }
    Ok(())
}

/// Adds the journals of a text.
fn print_read(given: &Setting, text: &str, out: &mut Text) -> Result<(), AllocError> {
    match read(given, text.as_bytes(), 1)? {
        JournalsRead::Journals(journals) => {
            let printed = print_all(given, journals.as_slice(), out);
            drop(journals);
            printed
        }
        JournalsRead::Fault { .. } => Ok(()),
    }
}

fn is_printed_of(given: &Setting, text: &str, printed: &str) -> Result<bool, AllocError> {
    let mut out = Text::new(given.alloc);
    let done = print_read(given, text, &mut out);
    let is = out.bytes() == printed.as_bytes();
    drop(out);
    done?;
    Ok(is)
}

/// Whether what is read of a text is printed so.
fn is_printed(alloc: Global, text: &str, printed: &str) -> Result<bool, Fail> {
    let given = three_groups(alloc)?;
    let is = is_printed_of(&given, text, printed);
    drop(given);
    Ok(is?)
}

/// A group at its opening.
fn opened(alloc: Global, topo: &GroupTopo) -> Result<World, AllocError>
    ensures { IfOk result (λ world. world.history.group ≡ topo.now) }
{
    World::start(alloc, topo.copy(alloc)?, LossPlan::none(alloc))
}

/// Whether each event may be entered.
fn fit(world: &World, entries: &[Entry]) -> bool
    ensures { IsTrue result ↔ All (EventFits world.now.history.group) entries.now }
{
    entries.iter().all(|entry| world.fits(&entry.event))
}

/// The same of a world that is not needed any more.
fn fit_once(world: World, entries: &[Entry]) -> bool
    ensures { IsTrue result ↔ All (EventFits world.history.group) entries.now }
{
    let all = fit(&world, entries);
    drop(world);
    all
}

/// How many entries a world has.
fn entry_count(world: World) -> u32 {
    let count = world.entries();
    drop(world);
    count
}

/// What comes of a journal that is replayed.
#[derive(Clone, Copy, Debug, PartialEq, Eq)]
enum Came {
    /// It is legal, and has so many entries.
    Legal(u32),
    /// This entry is the first that is not legal.
    Illegal(u32),
    /// An event does not fit the group.
    Unfit,
}

fn came_of(replayed: Replayed) -> Came {
    match replayed {
        Replayed::Legal(world) => Came::Legal(entry_count(world)),
        Replayed::Illegal { entry } => Came::Illegal(entry),
    }
}

/// What comes of a group's journal that is replayed.
fn replayed(alloc: Global, topo: &GroupTopo, entries: &[Entry]) -> Result<Came, AllocError> {
    if entries.len() > MAX_ENTRIES {
        return Err(AllocError);
    }
    if fit_once(opened(alloc, topo)?, entries) {
        Ok(came_of(replay(alloc, topo.copy(alloc)?, entries)?))
    } else {
        Ok(Came::Unfit)
    }
}

fn comes_of(given: &Setting, journals: &[Journal]) -> Result<Came, Fail> {
    let journal = journals.first().ok_or("no journal")?;
    let topo = given.topos.first().ok_or("no group")?;
    Ok(replayed(given.alloc, topo, journal.entries.as_slice())?)
}

/// What comes of the first group's journal in a text.
fn comes_in(given: &Setting, text: &str) -> Result<Came, Fail> {
    match read(given, text.as_bytes(), 1)? {
        JournalsRead::Journals(journals) => {
            let came = comes_of(given, journals.as_slice());
            drop(journals);
            came
        }
        JournalsRead::Fault { .. } => Err(Fail::new("a fault")),
    }
}

/// The same over the three groups.
fn comes(alloc: Global, text: &str) -> Result<Came, Fail> {
    let given = three_groups(alloc)?;
    let came = comes_in(&given, text);
    drop(given);
    came
}

/// A text in which a line stands in place of the one with the same first word.
fn altered(alloc: Global, text: &str, line: &str) -> Result<String, AllocError> {
    let number = line.split(' ').next();
    let mut out = String::new(alloc);
    for old in text.lines() {
        let is_same = old.split(' ').next() == number;
        out.push_str(if is_same { line } else { old })?;
        out.push_str("\n")?;
    }
    Ok(out)
}

#[test]
fn each_kind_of_fault_is_told(rt: HostRuntime) -> Result<(), Fail> {
    let lines = other_row(rt.alloc(), "", LINES)?;
    let entries = other_row(rt.alloc(), "journal dc1\n", ENTRIES)?;
    assert_eq!(rt; (lines, entries), (None, None));
    Ok(())
}

/// Whether a text whose first line has number 40 has this fault.
fn is_told_behind_39(alloc: Global, bytes: &[u8], fault: &str) -> Result<bool, Fail> {
    let given = three_groups(alloc)?;
    let got = told(&given, bytes, 40);
    drop(given);
    Ok(got?.as_str() == fault)
}

#[test]
fn lines_are_counted_from_the_first(rt: HostRuntime) -> Result<(), Fail> {
    let bytes = b"journal dc2\n\n2 check : idle\n";
    assert!(rt; is_told_behind_39(rt.alloc(), bytes, "42 Number")?);
    Ok(())
}

#[test]
fn a_proposal_has_at_most_16_rows(rt: HostRuntime) -> Result<(), Fail> {
    let row = other_row(rt.alloc(), SIXTEEN, texts::BEHIND_SIXTEEN)?;
    assert_eq!(rt; row, None);
    Ok(())
}

/// Texts, and how the journals of each are printed.
const READ: [(&str, &str); 3] = [
    (ALL, ALL),
    (OTHER_SPELLING, SECOND_BROKEN),
    (
        "",
        "\
journal dc1
journal dc2
journal dc3
",
    ),
];

#[test]
fn what_is_read_is_printed(rt: HostRuntime) -> Result<(), Fail> {
    for (text, printed) in READ {
        holds(Ok(is_printed(rt.alloc(), text, printed)?))?;
    }
    Ok(())
}

#[test]
fn legal_journals_are_replayed_whole(rt: HostRuntime) -> Result<(), Fail> {
    let second_broken = comes(rt.alloc(), SECOND_BROKEN)?;
    let untold_failure = comes(rt.alloc(), UNTOLD_FAILURE)?;
    assert_eq!(rt;
        (second_broken, untold_failure),
        (Came::Legal(4), Came::Legal(8))
    );
    Ok(())
}

/// Whether the entry of a line is found not to be legal, where that line stands in a text in place of the legal one.
fn is_found(given: &Setting, text: &str, line: &str) -> Result<bool, Fail> {
    let altered = altered(given.alloc, text, line)?;
    let came = comes_in(given, altered.as_str());
    drop(altered);
    let first = line.split(' ').next().unwrap_or("");
    Ok(match came? {
        Came::Illegal(entry) => number(first.as_bytes()) == Some(entry),
        _ => false,
    })
}

/// The first of these lines whose entry is not.
fn first_unfound<'t>(given: &Setting, text: &str, lines: &'t str) -> Result<Option<&'t str>, Fail> {
    for line in lines.lines() {
        if !is_found(given, text, line)? {
            return Ok(Some(line));
        }
    }
    Ok(None)
}

/// The same over the three groups.
fn unfound<'t>(alloc: Global, text: &str, lines: &'t str) -> Result<Option<&'t str>, Fail> {
    let given = three_groups(alloc)?;
    let line = first_unfound(&given, text, lines);
    drop(given);
    line
}

#[test]
fn another_reply_is_found_at_its_entry(rt: HostRuntime) -> Result<(), Fail> {
    let second_broken = unfound(rt.alloc(), SECOND_BROKEN, ALTERED)?;
    let untold_failure = unfound(rt.alloc(), UNTOLD_FAILURE, texts::ALTERED_REPORTS)?;
    assert_eq!(rt; (second_broken, untold_failure), (None, None));
    Ok(())
}

/// A reply that is never called for where this one is.
fn another(reply: &Reply) -> Reply {
    match reply {
        Reply::Changed => Reply::Idle,
        _ => Reply::Changed,
    }
}

/// The entries with another reply at one of them, by its place from 0.
fn altered_at(alloc: Global, entries: &[Entry], at: usize) -> Result<Vec<Entry>, AllocError> {
    let mut copies = Vec::new(alloc);
    for (i, entry) in entries.iter().enumerate() {
        let mut copy = entry.copy(alloc)?;
        if i == at {
            copy.reply = another(&entry.reply);
        }
        copies.push(copy)?;
    }
    Ok(copies)
}

/// Whether an entry, by its place from 0, is found where its reply alone is another.
fn is_found_at(
    alloc: Global,
    topo: &GroupTopo,
    entries: &[Entry],
    at: usize,
) -> Result<bool, AllocError> {
    let altered = altered_at(alloc, entries, at)?;
    let came = replayed(alloc, topo, altered.as_slice());
    drop(altered);
    Ok(match came? {
        Came::Illegal(entry) => entry as usize == at.saturating_add(1),
        _ => false,
    })
}

/// How many entries a journal has before the first that is not found so, and how many in all.
fn found_count(
    alloc: Global,
    topo: &GroupTopo,
    entries: &[Entry],
) -> Result<(usize, usize), AllocError> {
    let all = entries.len();
    for at in 0..all {
        if !is_found_at(alloc, topo, entries, at)? {
            return Ok((at, all));
        }
    }
    Ok((all, all))
}

fn found_of(given: &Setting, journals: &[Journal]) -> Result<(usize, usize), Fail> {
    let journal = journals.first().ok_or("no journal")?;
    let topo = given.topos.first().ok_or("no group")?;
    Ok(found_count(given.alloc, topo, journal.entries.as_slice())?)
}

/// The same of the first group's journal in a text.
fn found_in(given: &Setting, text: &str) -> Result<(usize, usize), Fail> {
    match read(given, text.as_bytes(), 1)? {
        JournalsRead::Journals(journals) => {
            let found = found_of(given, journals.as_slice());
            drop(journals);
            found
        }
        JournalsRead::Fault { .. } => Err(Fail::new("a fault")),
    }
}

/// The same over the three groups.
fn found(alloc: Global, text: &str) -> Result<(usize, usize), Fail> {
    let given = three_groups(alloc)?;
    let found = found_in(&given, text);
    drop(given);
    found
}

/// Texts, and how many entries the first journal of each has.
const COUNTS: [(&str, usize); 4] = [
    (STALE_COMMAND, 15),
    (OLD_REPORT, 8),
    (UNTOLD_FAILURE, 8),
    (RENEWED, 8),
];

#[test]
fn an_altered_reply_is_found_entry_by_entry(rt: HostRuntime) -> Result<(), Fail> {
    for (text, count) in COUNTS {
        assert_eq!(rt; found(rt.alloc(), text)?, (count, count));
    }
    Ok(())
}
