//! The program but for its streams: its arguments in, its exit status out.

ghost use Rattle.std.specs.Prelude.{◌≡◌, map, string_bytes, IfOk, false};
ghost use Rattle.std.specs.Process.{exit_status};
ghost use Rattle.st_replay.specs.Statuses.{exit_code_of};
ghost use Rattle.st_top.specs.Answer.{IsUnread};
ghost use Rattle.st_top.specs.Program.{words_in, ProgramEnds};
ghost use Rattle.st_top.specs.Ways.{is_read_on, way_of};

use crate::answer::Outcome;
use crate::top::statesman;
use st_crew::NoGate;
use st_io::{Sink, Source};
use st_replay::after_name;
use std::alloc::{AllocError, Global};
use std::env::Args;
use std::io;
use std::io::ErrorKind;
use std::process::ExitCode;
use std::sync::Wait;
use std::thread::Threads;

/// The words after the program's name. An argument that is not text is no word of a command: then there are none.
fn words_after(alloc: Global, args: io::Result<Args>) -> Result<Vec<String>, AllocError>
    ensures { IfOk result (λ words. map string_bytes words.items ≡ words_in args) }
{
    match args {
        Ok(args) => after_name(alloc, args),
        Err(error) if error.kind() == ErrorKind::OutOfMemory => Err(AllocError),
        Err(_) => Ok(Vec::new(alloc)),
    }
}

/// The exit status of the program whose call ended so.
pub fn ended(outcome: &Outcome) -> ExitCode
    ensures { exit_status result ≡ exit_code_of outcome.now.status }
{
    ExitCode::from(outcome.status.exit_code())
}

/// The whole call on the words of these arguments, of which the first is the program's name. Where the arguments can't be had there are
/// no words; where that is for want of memory the exit status says so, which no clause tells. The gate is the one that does nothing.
pub fn run_program<R: Threads + Wait + Sync, S: Source, K: Sink>(
    rt: &R,
    alloc: Global,
    args: io::Result<Args>,
    source: &mut S,
    sink: &mut K,
) -> ExitCode
    ensures ends { ProgramEnds (words_in args)
        (record { left = S.left source.old; faults = S.faults source.old })
        (record { left = S.left source.new; faults = S.faults source.new })
        (record { held = K.held sink.old; faults = K.faults sink.old })
        (record { held = K.held sink.new; faults = K.faults sink.new }) result }

    // Where the words ask for nothing that reads, nothing is read, whatever the status.
    ensures idle { is_read_on (way_of (words_in args)) ≡ false → IsUnread
        (record { left = S.left source.old; faults = S.faults source.old })
        (record { left = S.left source.new; faults = S.faults source.new }) }
{
    match words_after(alloc, args) {
        Ok(words) => ended(&statesman(rt, alloc, words.as_slice(), source, sink, &NoGate)),
        Err(_) => ended(&Outcome::out_of_memory(alloc)),
    }
}
