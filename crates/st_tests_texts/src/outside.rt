//! Sources and sinks, in memory and over std's readers and writers: whole, interrupted, and failing in mid-stream.

use crate::outcome::holds;
use st_io::{
    MAX_BYTES, MemorySink, MemorySource, ReadEnd, Source, StdSink, StdSource, SureSink, SureSource,
    Written, read_all, write_all,
};
use std::alloc::{AllocError, Global};
use std::io;
use std::io::{Cursor, Error, ErrorKind, Read, Write};
use std::test::Fail;

const LINE: &[u8] = b"group dc1\n";

const TEXT: &[u8] = b"accepted 1 entry 4\naccepted 2 entry 9\n";

/// How the reading of so many bytes ends, and how many of them are read.
fn read_of(alloc: Global, count: usize) -> Result<(ReadEnd, usize), AllocError> {
    let bytes = vec![in alloc; b'x'; count]?;
    let input = read_all(alloc, &mut SureSource::new(bytes))?;
    Ok((input.end, input.bytes.len()))
}

#[test]
fn one_byte_more_than_the_most_is_too_long(rt: HostRuntime) -> Result<(), Fail> {
    let most = read_of(rt.alloc(), MAX_BYTES)?;
    let long = read_of(rt.alloc(), MAX_BYTES + 2)?;
    assert_eq!(rt;
        [most, long],
        [(ReadEnd::End, MAX_BYTES), (ReadEnd::TooLong, MAX_BYTES + 1)]
    );
    Ok(())
}

/// Whether reading ends so, with these bytes.
fn reads<S: Source>(
    alloc: Global,
    source: &mut S,
    end: ReadEnd,
    bytes: &[u8],
) -> Result<bool, AllocError> {
    let input = read_all(alloc, source)?;
    let is = input.end == end && input.bytes.as_slice() == bytes;
    drop(input);
    Ok(is)
}

/// A source that never fails is read to its end.
#[test]
fn a_text_is_read_whole(rt: HostRuntime) -> Result<(), Fail> {
    let mut source = SureSource::new(LINE.to_vec(rt.alloc())?);
    let is_read = reads(rt.alloc(), &mut source, ReadEnd::End, LINE);
    drop(source);
    holds(is_read)
}

/// How a text and nothing are written, and whether the sink holds the text then.
fn written_once(sink: &mut SureSink, text: &[u8]) -> (Written, Written, bool) {
    let whole = write_all(sink, text);
    let nothing = write_all(sink, b"");
    (whole, nothing, sink.bytes() == text)
}

#[test]
fn a_text_is_written_whole(rt: HostRuntime) -> Result<(), Fail> {
    let mut sink = SureSink::new(rt.alloc());
    let reserved = sink.reserve(4);
    let written = written_once(&mut sink, LINE);
    drop(sink);
    reserved?;
    assert_eq!(rt; written, (Written::All, Written::All, true));
    Ok(())
}

/// A source of 16 bytes a read, whose second read fails, and that behind it too.
fn faulty(alloc: Global) -> Result<MemorySource, AllocError> {
    let fails = [2, 2].to_vec(alloc)?;
    Ok(MemorySource::new(TEXT.to_vec(alloc)?, 16, fails))
}

/// Whether it is read to its fault, and then to its end.
fn read_twice(alloc: Global, source: &mut MemorySource) -> Result<(bool, bool), AllocError> {
    let first = reads(alloc, source, ReadEnd::Failed, b"accepted 1 entry")?;
    let second = reads(alloc, source, ReadEnd::End, b" 4\naccepted 2 entry 9\n")?;
    Ok((first, second))
}

#[test]
fn a_fault_ends_reading_and_loses_nothing(rt: HostRuntime) -> Result<(), Fail> {
    let mut source = faulty(rt.alloc())?;
    let read = read_twice(rt.alloc(), &mut source);
    drop(source);
    assert_eq!(rt; read?, (true, true));
    Ok(())
}

/// How a text is written, how much of it the sink holds then, how a byte behind it is written, and whether the sink holds both.
fn written_twice(sink: &mut MemorySink) -> (Written, usize, Written, bool) {
    let first = write_all(sink, TEXT);
    let held = sink.bytes().len();
    let second = write_all(sink, b"!");
    let is_held = sink.bytes() == b"accepted 1 entry 4\naccepted 2 en!".as_slice();
    (first, held, second, is_held)
}

#[test]
fn a_fault_ends_writing_at_a_prefix(rt: HostRuntime) -> Result<(), Fail> {
    let fails = [3].to_vec(rt.alloc())?;
    let mut sink = MemorySink::new(rt.alloc(), 16, fails);
    let reserved = sink.reserve(100);
    let written = written_twice(&mut sink);
    drop(sink);
    reserved?;
    assert_eq!(rt; written, (Written::Failed, 32, Written::All, true));
    Ok(())
}

/// Gives one byte at every other read, after an interrupted one, and fails once `good` bytes were given.
#[derive(Drop)]
struct Uneven {
    good: u32,
    interrupts: bool,
}

impl Read for Uneven {
    fn read(&mut self, buf: &mut [u8]) -> io::Result<usize> {
        self.interrupts = !self.interrupts;
        if self.interrupts {
            return Err(Error::from(ErrorKind::Interrupted));
        }
        match (self.good.checked_sub(1), buf.first_mut()) {
            (Some(rest), Some(place)) => {
                self.good = rest;
                *place = b'x';
                Ok(1)
            }
            _ => Err(Error::from(ErrorKind::BrokenPipe)),
        }
    }
}

/// Is interrupted whenever it is read.
#[derive(Drop)]
struct NeverReady;

impl Read for NeverReady {
    fn read(&mut self, _buf: &mut [u8]) -> io::Result<usize> {
        Err(Error::from(ErrorKind::Interrupted))
    }
}

#[test]
fn a_reader_is_read_to_its_end(rt: HostRuntime) -> Result<(), Fail> {
    let mut source = StdSource::new(Cursor::new(LINE.to_vec(rt.alloc())?));
    let is_read = reads(rt.alloc(), &mut source, ReadEnd::End, LINE);
    drop(source);
    holds(is_read)
}

#[test]
fn an_interrupted_read_is_tried_again(rt: HostRuntime) -> Result<(), Fail> {
    let alloc = rt.alloc();
    let mut uneven = StdSource::new(Uneven {
        good: 3,
        interrupts: false,
    });
    let three = reads(alloc, &mut uneven, ReadEnd::Failed, b"xxx")?;
    let mut never = StdSource::new(NeverReady);
    let none = reads(alloc, &mut never, ReadEnd::Failed, b"")?;
    assert_eq!(rt; (three, none), (true, true));
    Ok(())
}

/// Takes at most `most` bytes of a piece, and refuses the flush where it is to.
#[derive(Drop)]
struct Narrow {
    most: usize,
    flushes: bool,
}

impl Write for Narrow {
    fn write(&mut self, piece: &[u8]) -> io::Result<usize> {
        Ok(self.most.min(piece.len()))
    }

    fn flush(&mut self) -> io::Result<()> {
        if self.flushes {
            Ok(())
        } else {
            Err(Error::from(ErrorKind::StorageFull))
        }
    }
}

#[test]
fn a_text_is_written_piece_by_piece(rt: HostRuntime) {
    let mut held = Vec::new(rt.alloc());
    let written = write_all(&mut StdSink::new(Cursor::new(&mut held)), LINE);
    let is_held = held.as_slice() == LINE;
    drop(held);
    assert_eq!(rt; (written, is_held), (Written::All, true));
}

/// How many bytes of a piece a sink takes, whether it can be flushed, and how a text is written to it.
const NARROW: [(usize, bool, Written); 3] = [
    (1, true, Written::All),
    (0, true, Written::Failed),
    (1, false, Written::Failed),
];

/// How a text is written to such a sink.
fn written_narrowly(most: usize, flushes: bool) -> Written {
    write_all(&mut StdSink::new(Narrow { most, flushes }), b"text")
}

#[test]
fn no_byte_taken_and_a_refused_flush_are_faults(_rt: HostRuntime) -> Result<(), Fail> {
    for (most, flushes, want) in NARROW {
        holds(Ok(written_narrowly(most, flushes) == want))?;
    }
    Ok(())
}
