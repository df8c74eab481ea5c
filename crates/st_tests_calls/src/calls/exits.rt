//! The exit statuses, a row for each.

ghost use Rattle.std.specs.Prelude.{None};

use super::ends::{FAILING, filling};
use super::{HALF, TWO_PATHS, joined, words_of};
use st_io::{MemorySink, MemorySource, Sink, SureSink, SureSource, WriteStep};
use st_top::run_program;
use std::alloc::{AllocError, Global};
use std::env::Args;
use std::io;
use std::io::ErrorKind;
use std::process::ExitCode;
use std::sync::Wait;
use std::test::Fail;
use std::thread::Threads;

/// A group of two devices; the next line has number 5.
const SMALL: &[u8] = b"\
statesman 1
group g
device t tor
device a switch
";

/// A journal behind it, in which a device finishes what it has not begun.
const NOT_BEGUN: &[u8] = b"\
statesman 1
group g
device t tor
device a switch
journal g
1 finish a : done
";

/// A sink that has no memory for any byte.
#[derive(Drop)]
struct Wanting;

impl Sink for Wanting {
    ghost held = { λ _. None };

    ghost faults = { λ _. 0 };

    fn write(&mut self, _piece: &[u8]) -> WriteStep {
        WriteStep::OutOfMemory
    }
}

/// The arguments of the program: its name, and words.
fn args_of(alloc: Global, words: &[&str]) -> Result<Args, AllocError> {
    Ok(words_of(alloc, words)?.into_iter())
}

/// Whether the program ends with this exit status and this text on a source of these bytes.
fn ends_with<R: Threads + Wait + Sync>(
    rt: &R,
    alloc: Global,
    args: io::Result<Args>,
    bytes: Vec<u8>,
    exit: u8,
    text: &[u8],
) -> bool {
    let mut source = SureSource::new(bytes);
    let mut sink = SureSink::new(alloc);
    let code = run_program(rt, alloc, args, &mut source, &mut sink);
    code == ExitCode::from(exit) && sink.bytes() == text
}

/// The same of words and an input.
fn ends<R: Threads + Wait + Sync>(
    rt: &R,
    alloc: Global,
    words: &[&str],
    input: &[u8],
    exit: u8,
    text: &[u8],
) -> Result<bool, AllocError> {
    let bytes = input.to_vec(alloc)?;
    let args = args_of(alloc, words)?;
    Ok(ends_with(rt, alloc, Ok(args), bytes, exit, text))
}

/// The program's name and words, an input, and the exit status and the text that they come to.
const EXITS: [(&[&str], &[u8], u8, &[u8]); 5] = [
    (
        &["statesman", "check"],
        SMALL,
        0,
        b"ok groups 1 devices 2 links 0 promises 0 apps 0 commands 0\n",
    ),
    (&["statesman"], SMALL, 2, b"fault usage\n"),
    (&["statesman", "check", "check"], SMALL, 2, b"fault usage\n"),
    (
        &["statesman", "check"],
        b"",
        5,
        b"fault input line 1 header\n",
    ),
    (
        &["statesman", "replay"],
        NOT_BEGUN,
        7,
        b"fault illegal g 1\n",
    ),
];

#[test]
fn the_program_ends_with_the_exit_status_of_its_call(rt: HostRuntime) -> Result<(), Fail> {
    for (words, input, exit, text) in EXITS {
        assert!(&rt; ends(&rt, rt.alloc(), words, input, exit, text)?, "{exit}");
    }
    Ok(())
}

#[test]
fn an_input_that_is_too_long_has_its_exit_status(rt: HostRuntime) -> Result<(), Fail> {
    let long = vec![in rt.alloc(); b'\n'; 1_048_577]?;
    let args = args_of(rt.alloc(), &["statesman", "check"])?;
    assert!(&rt; ends_with(&rt, rt.alloc(), Ok(args), long, 4, b"fault long\n"));
    Ok(())
}

/// A document whose journal gets full.
fn filling_document(alloc: Global) -> Result<Vec<u8>, AllocError> {
    let script = filling(alloc, FAILING)?;
    let document = joined(alloc, &[TWO_PATHS, HALF, script.as_slice()]);
    drop(script);
    document
}

#[test]
fn a_full_journal_has_its_exit_status(rt: HostRuntime) -> Result<(), Fail> {
    let document = filling_document(rt.alloc())?;
    let args = args_of(rt.alloc(), &["statesman", "serial"])?;
    assert!(&rt; ends_with(&rt, rt.alloc(), Ok(args), document, 6, b"fault full dc1\n"));
    Ok(())
}

/// Whether the program ends so where these reads and these writes fail.
fn ends_failing<R: Threads + Wait + Sync>(
    rt: &R,
    alloc: Global,
    mut source: MemorySource,
    writes: &[u32],
    exit: u8,
    text: &[u8],
) -> Result<bool, AllocError> {
    let args = args_of(alloc, &["statesman", "check"])?;
    let mut sink = MemorySink::new(alloc, 16, writes.to_vec(alloc)?);
    let code = run_program(rt, alloc, Ok(args), &mut source, &mut sink);
    Ok(code == ExitCode::from(exit) && sink.bytes() == text)
}

/// A source of the small group, of which these reads fail.
fn failing_source(alloc: Global, reads: &[u32]) -> Result<MemorySource, AllocError> {
    let bytes = SMALL.to_vec(alloc)?;
    Ok(MemorySource::new(bytes, 64, reads.to_vec(alloc)?))
}

/// The reads that fail, and the writes. A read that fails has a line, which is written.
const FAILING_STREAMS: [(&[u32], &[u32], u8, &[u8]); 4] = [
    (&[1], &[], 3, b"fault read\n"),
    (&[2], &[], 3, b"fault read\n"),
    (&[], &[1], 8, b""),
    (&[1], &[1], 8, b""),
];

#[test]
fn a_stream_that_fails_has_its_exit_status(rt: HostRuntime) -> Result<(), Fail> {
    for (reads, writes, exit, text) in FAILING_STREAMS {
        let source = failing_source(rt.alloc(), reads)?;
        assert!(&rt;
            ends_failing(&rt, rt.alloc(), source, writes, exit, text)?,
            "{exit}"
        );
    }
    Ok(())
}

/// The exit status where there is no memory for any byte that is written.
fn wanting_exit<R: Threads + Wait + Sync>(rt: &R, alloc: Global) -> Result<ExitCode, AllocError> {
    let bytes = SMALL.to_vec(alloc)?;
    let args = args_of(alloc, &["statesman", "check"])?;
    Ok(run_program(
        rt,
        alloc,
        Ok(args),
        &mut SureSource::new(bytes),
        &mut Wanting,
    ))
}

#[test]
fn want_of_memory_has_its_exit_status(rt: HostRuntime) -> Result<(), Fail> {
    assert_eq!(&rt; wanting_exit(&rt, rt.alloc())?, ExitCode::from(9));
    Ok(())
}

/// Why arguments were not had, the exit status, and the text.
const NO_ARGUMENTS: [(ErrorKind, u8, &[u8]); 2] = [
    (ErrorKind::OutOfMemory, 9, b""),
    (ErrorKind::InvalidData, 2, b"fault usage\n"),
];

#[test]
fn arguments_that_were_not_had_have_an_exit_status(rt: HostRuntime) -> Result<(), Fail> {
    for (kind, exit, text) in NO_ARGUMENTS {
        let none = Vec::new(rt.alloc());
        assert!(&rt;
            ends_with(&rt, rt.alloc(), Err(kind.into()), none, exit, text),
            "{exit}"
        );
    }
    Ok(())
}
