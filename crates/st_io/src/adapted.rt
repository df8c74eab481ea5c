//! Std's reader and writer as a source and a sink: the edge of what is proved. What a file, a pipe or a terminal
//! gives and takes is told by no contract, so the two tell no bytes.
ghost use Rattle.std.specs.Prelude.{◌≡◌, ◌≢◌, ◌<◌, ℕ, None, length, take, IfOk};
ghost use Rattle.std.specs.Io.{ReadsAtMost, WritesAtMost};
ghost use Rattle.std.specs.Io.KnownBytes.{Appends, Consumes, IsAtEnd, Keeps, ReadConsumes, WriteAppends};
ghost use Rattle.st_io.specs.Outside.{Gives, Takes, HasReadCause, HasWriteCause};

use crate::outside::{ReadStep, Sink, Source, WriteStep};
use std::io;
use std::io::{ErrorKind, Read, Write};
use std::marker::Model;

/// How often a call that is interrupted is made before it is a fault.
pub const MOST_TRIES: u32 = 100;

/// Reads from a reader. A read of 0 bytes is the end. An error is a fault, but a read that was interrupted is tried
/// again, up to `MOST_TRIES` times in all. It is seen as the reader with the count of its faults, which stands
/// still at `u64::MAX`.
#[derive(Drop)]
pub struct StdSource<R> {
    reader: R,
    faults: u64,
}

impl<R> Model for StdSource<R> {
    ghost use Rattle.st_io.specs.Adapted.{Counted};

    ghost Value = { Counted R };

    ghost view = { λ s. record { inner = s.reader; faults = s.faults } };
}

impl<R> StdSource<R> {
    /// A source over `reader` that has had no fault.
    pub fn new(reader: R) -> StdSource<R>
        ensures reader { result.inner ≡ reader }
        ensures faults { result.faults ≡ 0 }
    {
        StdSource { reader, faults: 0 }
    }
}

impl<R: Read> Source for StdSource<R> {
    ghost left = { λ _. None };

    ghost faults = { λ s. s.faults };

    fn read(&mut self, buf: &mut [u8]) -> ReadStep
        requires { 0 < length buf.old }
        ensures step { Gives None None buf.new result }
        ensures cause { HasReadCause self.old.faults self.new.faults result }

        // Where the reader tells its bytes, as one in memory does, they are what is given.
        ensures given { Gives (R.remaining self.old.inner) (R.remaining self.new.inner)
            buf.new result }
    {
        match read_through(&mut self.reader, buf) {
            Ok(0) => ReadStep::End,
            Ok(n) => ReadStep::Got(n),
            Err(_) => {
                self.faults = self.faults.saturating_add(1);
                ReadStep::Failed
            }
        }
    }
}

/// Writes to a writer, and flushes it after each write. A write that takes 0 bytes, an error and a refused flush
/// are faults, but a call that was interrupted is tried again, up to `MOST_TRIES` times in all. Where the flush is
/// refused, bytes of the piece may have come out all the same: the answer is `Failed`, and nothing is claimed of
/// them. It is seen as the writer with the count of its faults, which stands still at `u64::MAX`.
#[derive(Drop)]
pub struct StdSink<W> {
    writer: W,
    faults: u64,
}

impl<W> Model for StdSink<W> {
    ghost use Rattle.st_io.specs.Adapted.{Counted};

    ghost Value = { Counted W };

    ghost view = { λ s. record { inner = s.writer; faults = s.faults } };
}

impl<W> StdSink<W> {
    /// A sink over `writer` that has had no fault.
    pub fn new(writer: W) -> StdSink<W>
        ensures writer { result.inner ≡ writer }
        ensures faults { result.faults ≡ 0 }
    {
        StdSink { writer, faults: 0 }
    }
}

impl<W: Write> Sink for StdSink<W> {
    ghost held = { λ _. None };

    ghost faults = { λ s. s.faults };

    fn write(&mut self, piece: &[u8]) -> WriteStep
        requires { 0 < length piece.now }
        ensures step { Takes None None piece.now result }
        ensures cause { HasWriteCause self.old.faults self.new.faults result }
        ensures memory { result ≢ WriteStep.OutOfMemory }

        // Where the writer tells its bytes, as one in memory does, they are what it took.
        ensures took { (n : ℕ) → result ≡ WriteStep.Took n →
            Appends (W.contents self.old.inner) (W.contents self.new.inner) (take n piece.now) }
    {
        match write_through(&mut self.writer, piece) {
            Ok(n) if n > 0 => WriteStep::Took(n),
            Ok(_) | Err(_) => {
                self.faults = self.faults.saturating_add(1);
                WriteStep::Failed
            }
        }
    }
}

/// One read, tried again while it is interrupted.
fn read_through<R: Read>(reader: &mut R, buf: &mut [u8]) -> io::Result<usize>
    requires { 0 < length buf.old }
    ensures bound { ReadsAtMost result buf.new }
    ensures bytes { ReadConsumes (R.remaining reader.old) (R.remaining reader.new) result buf.new }
{
    for _ in 1..MOST_TRIES {
        match reader.read(buf) {
            Err(e) if e.kind() == ErrorKind::Interrupted => {}
            answer => return answer,
        }
    }
    reader.read(buf)
}

/// One write and its flush, each tried again while it is interrupted.
fn write_through<W: Write>(writer: &mut W, piece: &[u8]) -> io::Result<usize>
    ensures bound { WritesAtMost result piece.now }
    ensures bytes { IfOk result (λ n.
        Appends (W.contents writer.old) (W.contents writer.new) (take n piece.now)) }
{
    let n = write_once(writer, piece)?;
    flush_once(writer)?;
    Ok(n)
}

/// One write, tried again while it is interrupted.
fn write_once<W: Write>(writer: &mut W, piece: &[u8]) -> io::Result<usize>
    ensures bound { WritesAtMost result piece.now }
    ensures bytes { WriteAppends (W.contents writer.old) (W.contents writer.new) result piece.now }
{
    for _ in 1..MOST_TRIES {
        match writer.write(piece) {
            Err(e) if e.kind() == ErrorKind::Interrupted => {}
            answer => return answer,
        }
    }
    writer.write(piece)
}

/// One flush, tried again while it is interrupted.
fn flush_once<W: Write>(writer: &mut W) -> io::Result<()>
    ensures { Keeps (W.contents writer.old) (W.contents writer.new) }
{
    for _ in 1..MOST_TRIES {
        match writer.flush() {
            Err(e) if e.kind() == ErrorKind::Interrupted => {}
            answer => return answer,
        }
    }
    writer.flush()
}
