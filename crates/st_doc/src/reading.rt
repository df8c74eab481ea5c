//! Documents are read here: the bytes are cut into lines, the reader takes them one after another, and the first bad one
//! ends the reading.

ghost use Rattle.std.specs.Prelude.{◌≡◌, ◌<◌, ◌≤◌, All, length, map, IfOk};
ghost use Rattle.st_text.specs.Lines.{line_in, IsLineWithin};
ghost use Rattle.st_grammar.specs.Reading.{begins_journal as begins_journal_lem, first_journal, place_behind as place_behind_lem, lines_read, journals_at, read_of, doc_with, headed, declared_on, Reads, Tells, IsWithinRead};
ghost use Rattle.st_grammar.specs.Sound.{IsSoundRead};
ghost use Rattle.st_doc.specs.Counted.{IsCount};

use crate::reader::Reader;
use st_grammar::{DocRead, JournalAt};
use st_text::{Line, lines, tokens};
use st_token::{FaultKind, LineFault, take_lines};
use std::alloc::{AllocError, Global};

/// Reads a document, or names its first bad line and that line's kind. With `journals` only the lines before the first whose first
/// token is `journal` are read, and the document has the place of that line; without, and where there is no such line, it has none.
/// Takes time and memory in the bytes, and `Err` is for want of memory alone.
pub fn read_doc(alloc: Global, bytes: &[u8], journals: bool) -> Result<DocRead, AllocError>
    requires few { length bytes.now < 4294967295 }
    // What the bytes declare, or their fault.
    ensures exact { IfOk result (λ read. Reads read (read_of journals bytes.now)) }
    // The lines before the first bad one are good, one after another.
    ensures tells { IfOk result (λ read. Tells read (lines_read journals bytes.now) (journals_at journals bytes.now)) }
    // A document's groups can be built, and its scripts and its order name what it declares.
    ensures sound { IfOk result IsSoundRead }
    // The place of journals is one of the bytes.
    ensures within { IfOk result (IsWithinRead (length bytes.now)) }
{
    let places = lines(alloc, bytes)?;
    let places = places.as_slice();
    let count = lines_before(alloc, bytes, places, journals)?;
    read_at(
        Reader::new(alloc),
        bytes,
        &places[..count],
        place_behind(places, count),
    )
}

/// Whether a line's first token is `journal`.
fn begins_journal(alloc: Global, line: &[u8]) -> Result<bool, AllocError>
    ensures { IfOk result (λ begins. begins ≡ begins_journal_lem line.now) }
{
    match tokens(alloc, line)?.as_slice() {
        [token, ..] => Ok(&line[token.start..token.end] == b"journal".as_slice()),
        [] => Ok(false),
    }
}

/// How many of the lines at these places stand before the first that begins a journal.
fn line_count(alloc: Global, bytes: &[u8], places: &[Line]) -> Result<usize, AllocError>
    requires { All (IsLineWithin bytes.now) places.now }
    ensures { IfOk result (λ count. count ≡ first_journal (map (line_in bytes.now) places.now)) }
{
    for (n, place) in places.iter().enumerate() {
        if begins_journal(alloc, &bytes[place.start..place.end])? {
            return Ok(n);
        }
    }
    Ok(places.len())
}

/// How many of the lines at these places are those of the document: with journals, those before the first that begins one.
fn lines_before(
    alloc: Global,
    bytes: &[u8],
    places: &[Line],
    journals: bool,
) -> Result<usize, AllocError>
    requires { All (IsLineWithin bytes.now) places.now }
    ensures { IfOk result (IsCount journals bytes.now places.now) }
{
    if journals {
        line_count(alloc, bytes, places)
    } else {
        Ok(places.len())
    }
}

/// The place of the line behind so many, if there is one.
fn place_behind(places: &[Line], count: usize) -> Option<JournalAt>
    requires few { length places.now < 4294967295 }
    requires behind { count ≤ length places.now }
    ensures { result ≡ place_behind_lem places.now count }
{
    match places.get(count) {
        Some(place) => Some(JournalAt {
            byte: place.start,
            line: count as u32 + 1,
        }),
        None => None,
    }
}

/// Reads the lines at these places, the first of a document, whose journals stand at a place.
fn read_at(
    mut reader: Reader,
    bytes: &[u8],
    places: &[Line],
    at: Option<JournalAt>,
) -> Result<DocRead, AllocError>
    requires within { All (IsLineWithin bytes.now) places.now }
    requires few { length places.now < 4294967295 }
    ensures { IfOk result (λ read. Reads read (doc_with at (declared_on reader (map (line_in bytes.now) places.now)))) }
{
    match take_lines(&mut reader, 1, bytes, places) {
        Ok(None) => ended(reader, places.len() as u32 + 1, at),
        Ok(Some(fault)) => {
            drop(reader);
            Ok(DocRead::Fault(fault))
        }
        Err(error) => {
            drop(reader);
            Err(error)
        }
    }
}

/// The document that was declared, with the place of its journals, or the fault that its header is missing at this line, which is
/// behind the last.
fn ended(reader: Reader, line: u32, at: Option<JournalAt>) -> Result<DocRead, AllocError>
    ensures { IfOk result (λ read. Reads read (doc_with at (headed line reader))) }
{
    if reader.has_header() {
        Ok(DocRead::Doc(reader.finish(at)?))
    } else {
        drop(reader);
        Ok(DocRead::Fault(LineFault {
            line,
            kind: FaultKind::Header,
        }))
    }
}
