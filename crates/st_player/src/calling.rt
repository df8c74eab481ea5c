//! The player but for its streams: its arguments in, its exit status out.

ghost use Rattle.std.specs.Prelude.{◌≡◌, map, string_bytes, IfOk};
ghost use Rattle.std.specs.Process.{exit_status};
ghost use Rattle.st_replay.specs.Statuses.{exit_code_of};
ghost use Rattle.st_player.specs.Calls.{ComesOfSource, Ends, IsCalledFor, ProgramEnds, from_in as from_in_lem, from_of as from_of_lem, joined_from as joined_from_lem};

use crate::playing::{Played, fault, play};
use st_io::{ReadEnd, Sink, Source, read_all, write_all};
use st_replay::{Status, after_name};
use st_text::number;
use std::alloc::{AllocError, Global};
use std::env::Args;
use std::io;
use std::io::ErrorKind;
use std::process::ExitCode;

/// How many entries of each journal stand before the page, by the words of these arguments, of which the first is the program's name; none
/// where the words are none of the player's, also where an argument is not text.
fn from_in(alloc: Global, args: io::Result<Args>) -> Result<Option<u32>, AllocError>
    ensures { IfOk result (λ from. from ≡ from_in_lem args) }
{
    match args {
        Ok(args) => {
            let words = after_name(alloc, args)?;
            Ok(from_of(words.as_slice()))
        }
        Err(error) if error.kind() == ErrorKind::OutOfMemory => Err(AllocError),
        Err(_) => Ok(None),
    }
}

/// The number in a word `--from=N`; none where the word is another.
fn joined_from(word: &[u8]) -> Option<u32>
    ensures { result ≡ joined_from_lem word.now }
{
    let behind = word.strip_prefix(b"--from=".as_slice())?;
    number(behind)
}

/// How many entries of each journal stand before the page, by the words `--from N` or `--from=N`, and 0 where there are no words; none
/// where the words are others.
fn from_of(words: &[String]) -> Option<u32>
    ensures { result ≡ from_of_lem (map string_bytes words.now) }
{
    match words {
        [] => Some(0),
        [word] => joined_from(word.as_bytes()),
        [name, n] if name.as_bytes() == b"--from".as_slice() => number(n.as_bytes()),
        _ => None,
    }
}

/// Reads the source to its end, and plays what it gave.
fn play_source<S: Source>(alloc: Global, from: u32, source: &mut S) -> Result<Played, AllocError>
    ensures { IfOk result (ComesOfSource from
        (record { bytes = S.left source.old; faults = S.faults source.old })
        (record { bytes = S.left source.new; faults = S.faults source.new })) }
{
    let input = read_all(alloc, source)?;
    match input.end {
        ReadEnd::End => play(alloc, input.bytes.as_slice(), from),
        ReadEnd::Failed => fault(alloc, &[], Status::ReadFault),
        ReadEnd::TooLong => fault(alloc, &[], Status::TooLong),
    }
}

/// What the source comes to, where the words were the player's. Nothing is written yet.
fn prepare<S: Source>(
    alloc: Global,
    from: Option<u32>,
    source: &mut S,
) -> Result<Played, AllocError>
    ensures { IfOk result (IsCalledFor from
        (record { bytes = S.left source.old; faults = S.faults source.old })
        (record { bytes = S.left source.new; faults = S.faults source.new })) }
{
    match from {
        Some(from) => play_source(alloc, from, source),
        None => fault(alloc, &[], Status::Usage),
    }
}

/// The whole call: plays what the source gives behind the first `from` entries of each journal, and writes one text to the sink. Where
/// there is no such number, the words were none of the player's, and nothing is read.
pub fn player<S: Source, K: Sink>(
    alloc: Global,
    from: Option<u32>,
    source: &mut S,
    sink: &mut K,
) -> Status
    ensures { Ends from
        (record { bytes = S.left source.old; faults = S.faults source.old })
        (record { bytes = S.left source.new; faults = S.faults source.new })
        (record { bytes = K.held sink.old; faults = K.faults sink.old })
        (record { bytes = K.held sink.new; faults = K.faults sink.new }) result }
{
    match prepare(alloc, from, source) {
        Ok(played) => played.status.told(write_all(sink, played.text.bytes())),
        Err(_) => Status::OutOfMemory,
    }
}

/// The exit status of the program whose call ended so.
fn ended(status: Status) -> ExitCode
    ensures { exit_status result ≡ exit_code_of status }
{
    ExitCode::from(status.exit_code())
}

/// The whole call on the words of these arguments, of which the first is the program's name. Where memory was refused to the arguments,
/// nothing is read or written, and the exit status is that of want of memory.
pub fn run_player<S: Source, K: Sink>(
    alloc: Global,
    args: io::Result<Args>,
    source: &mut S,
    sink: &mut K,
) -> ExitCode
    ensures { ProgramEnds (from_in_lem args)
        (record { bytes = S.left source.old; faults = S.faults source.old })
        (record { bytes = S.left source.new; faults = S.faults source.new })
        (record { bytes = K.held sink.old; faults = K.faults sink.old })
        (record { bytes = K.held sink.new; faults = K.faults sink.new }) result }
{
    match from_in(alloc, args) {
        Ok(from) => ended(player(alloc, from, source, sink)),
        Err(_) => ended(Status::OutOfMemory),
    }
}
