//! Journals are read here: the bytes are cut into lines, the reader takes them one after another, and the first bad one
//! ends the reading.

ghost use Rattle.std.specs.Prelude.{◌+◌, ◌<◌, ◌^◌, All, length, map, IfOk, MatchOption, Ok, Err};
ghost use Rattle.std.specs.List.{AllByRecursion};
ghost use Rattle.st_text.specs.Lines.{lines_of, line_in, IsLineWithin};
ghost use Rattle.st_net.specs.Groups.{IsSound};
ghost use Rattle.st_token.specs.Reading.{read_on};
ghost use Rattle.st_journal.specs.JournalLines.{filled, journals_of, line_of};
ghost use Rattle.st_journal.specs.JournalReading.{journals_from, journals_in, Reads, Tells, HasOneOfEach};

use crate::reader::JournalReader;
use st_event::Journal;
use st_net::{GroupTopo, Items, Name};
use st_text::{Line, lines};
use st_token::{FaultKind, LineFault, take_lines};
use std::alloc::{AllocError, Global};

/// What was read: a journal of each group, in the order of groups, or the first bad line and its kind.
#[derive(Drop)]
pub enum JournalsRead {
    Journals(Items<Journal>),
    Fault { line: u32, kind: FaultKind },
}

/// Reads the journals of these groups, or names the first bad line and that line's kind. The first line has the number `line`.
/// A group that the text has no journal of gets the empty one. Names of groups and of applications are looked up by their
/// first place. Takes time and memory in the bytes: where a journal begins, room for as many entries is taken as lines stand behind
/// its line. `Err` is for want of memory alone.
pub fn read_journals(
    alloc: Global,
    bytes: &[u8],
    line: u32,
    topos: &[GroupTopo],
    apps: &[Name],
) -> Result<JournalsRead, AllocError>
    requires few { line + length bytes.now < 2 ^ 32 }
    requires few_groups { length topos.now < 2 ^ 32 }
    requires few_apps { length apps.now < 2 ^ 32 }
    // The journals that the bytes give, or their fault.
    ensures exact { IfOk result (λ read. Reads read (journals_in topos.now apps.now line bytes.now)) }
    // The lines before the first bad one are good, one after another.
    ensures tells { IfOk result (λ read. Tells topos.now apps.now line read (lines_of bytes.now)) }
    // Each group has one journal, in order, whose events a world of that group may enter.
    ensures each { IfOk result (HasOneOfEach topos.now) }
{
    are_sound(topos);
    read_text(alloc, bytes, line, topos, apps)
}

/// Each group is sound.
fn are_sound(topos: &[GroupTopo])
    ensures { AllByRecursion IsSound topos.now }
{
    for topo in topos {
        topo.is_sound();
    }
}

/// Reads journals, as `read_journals` does.
fn read_text(
    alloc: Global,
    bytes: &[u8],
    line: u32,
    topos: &[GroupTopo],
    apps: &[Name],
) -> Result<JournalsRead, AllocError>
    requires few { line + length bytes.now < 2 ^ 32 }
    requires few_groups { length topos.now < 2 ^ 32 }
    requires few_apps { length apps.now < 2 ^ 32 }
    ensures { IfOk result (λ read. Reads read (journals_in topos.now apps.now line bytes.now)) }
{
    let places = lines(alloc, bytes)?;
    let rooms = rooms(alloc, bytes, places.as_slice())?;
    read_at(
        JournalReader::new(alloc, topos, apps, rooms),
        line,
        bytes,
        places.as_slice(),
    )
}

/// How many lines stand behind each line that begins with `journal`, up to the next such line, the last first. It only says how much
/// room is taken, so that no contract pins it.
fn rooms(alloc: Global, bytes: &[u8], places: &[Line]) -> Result<Vec<usize>, AllocError>
    requires { All (IsLineWithin bytes.now) places.now }
{
    let mut rooms = Vec::new(alloc);
    let mut count: usize = 0;
    for place in places.iter().rev() {
        if bytes[place.start..place.end].starts_with(b"journal") {
            rooms.push(count)?;
            count = 0;
        } else {
            count = count.saturating_add(1);
        }
    }
    Ok(rooms)
}

/// Reads the lines at these places over what was read.
fn read_at(
    mut reader: JournalReader,
    first: u32,
    bytes: &[u8],
    places: &[Line],
) -> Result<JournalsRead, AllocError>
    requires within { All (IsLineWithin bytes.now) places.now }
    requires few { first + length places.now < 2 ^ 32 }
    ensures { IfOk result (λ read. Reads read (journals_from reader.entry.groups (read_on line_of reader.entry first (map (line_in bytes.now) places.now)))) }
{
    match take_lines(&mut reader, first, bytes, places) {
        Ok(end) => ended(reader, end),
        Err(error) => Err(error),
    }
}

/// The journals that were read, or the fault with which their reading ended.
fn ended(reader: JournalReader, end: Option<LineFault>) -> Result<JournalsRead, AllocError>
    ensures { IfOk result (λ read. MatchOption end (Reads read (Ok (filled (length reader.entry.groups) (journals_of reader.entry)))) (λ fault. Reads read (Err fault))) }
{
    match end {
        Some(fault) => Ok(JournalsRead::Fault {
            line: fault.line,
            kind: fault.kind,
        }),
        None => Ok(JournalsRead::Journals(reader.finish()?)),
    }
}
