//! What the outside may do: each read and each write that fails, and each beginning of a document.

use super::replays::{JOURNAL, PRINTED};
use super::{
    ACCEPTED, Called, FIRST, HALF, SECOND, TWO_PATHS, Told, entry_count, joined, tell, tells,
    words_of,
};
use st_crew::NoGate;
use st_doc::{DocRead, read_doc};
use st_io::{MemorySink, MemorySource, SureSink};
use st_top::{Status, statesman};
use std::alloc::{AllocError, Global};
use std::sync::Wait;
use std::test::Fail;
use std::thread::Threads;

/// A source of 64 bytes a read, of which these reads fail.
fn source_of(alloc: Global, parts: &[&[u8]], failing: &[u32]) -> Result<MemorySource, AllocError> {
    let bytes = joined(alloc, parts)?;
    Ok(MemorySource::new(bytes, 64, failing.to_vec(alloc)?))
}

/// A call on a source, and a sink that never fails.
fn read_by<R: Threads + Wait + Sync>(
    rt: &R,
    alloc: Global,
    words: &[String],
    mut source: MemorySource,
) -> Result<Called, AllocError> {
    let mut sink = SureSink::new(alloc);
    let outcome = statesman(rt, alloc, words, &mut source, &mut sink, &NoGate);
    drop(source);
    let text = sink.bytes().to_vec(alloc);
    drop(sink);
    Called::of(outcome, text)
}

/// What `serial` comes to on such a source, of which one read fails.
fn read_failing<R: Threads + Wait + Sync>(
    rt: &R,
    alloc: Global,
    parts: &[&[u8]],
    failing: u32,
) -> Result<Told, AllocError> {
    let source = source_of(alloc, parts, &[failing])?;
    let words = words_of(alloc, &["serial"])?;
    let called = read_by(rt, alloc, words.as_slice(), source);
    drop(words);
    Ok(called?.into_told())
}

#[test]
fn each_failing_read_is_told(rt: HostRuntime) -> Result<(), Fail> {
    let alloc = rt.alloc();
    // Four reads have the bytes, a fifth finds the end, and there is no sixth.
    for failing in 1..=6 {
        let told = read_failing(&rt, alloc, &[TWO_PATHS, HALF, FIRST], failing);
        let (status, text) = if failing < 6 {
            (Status::ReadFault, b"fault read\n".as_slice())
        } else {
            (Status::Ok, ACCEPTED)
        };
        assert!(&rt; tells(told, status, text)?, "{failing}");
    }
    Ok(())
}

/// A call on a source that never fails, and a sink.
fn written_to<R: Threads + Wait + Sync>(
    rt: &R,
    alloc: Global,
    words: &[String],
    mut source: MemorySource,
    mut sink: MemorySink,
) -> Result<Called, AllocError> {
    let outcome = statesman(rt, alloc, words, &mut source, &mut sink, &NoGate);
    drop(source);
    let text = sink.bytes().to_vec(alloc);
    drop(sink);
    Called::of(outcome, text)
}

/// A call on a sink of 16 bytes a write, of which one write fails, with what the sink holds.
fn write_failing<R: Threads + Wait + Sync>(
    rt: &R,
    alloc: Global,
    words: &[&str],
    parts: &[&[u8]],
    failing: u32,
) -> Result<Called, AllocError> {
    let sink = MemorySink::new(alloc, 16, vec![in alloc; failing]?);
    let words = words_of(alloc, words)?;
    let source = source_of(alloc, parts, &[])?;
    let called = written_to(rt, alloc, words.as_slice(), source, sink);
    drop(words);
    called
}

/// Whether this is what comes of a call one write of which fails: the sink holds a beginning of the text, or the write was never made and
/// it holds all of it.
fn is_cut_at(told: &Told, whole: &Told, failing: u32) -> bool {
    let (held, text) = (told.text.as_slice(), whole.text.as_slice());
    // Each write takes 16 bytes, and the one behind the last is not made.
    if (failing as usize).saturating_sub(1) < text.len().div_ceil(16) {
        told.status == Status::WriteFault && held.len() < text.len() && text.starts_with(held)
    } else {
        told.is(whole.status, text)
    }
}

/// Whether that comes of it.
fn is_cut<R: Threads + Wait + Sync>(
    rt: &R,
    alloc: Global,
    words: &[&str],
    parts: &[&[u8]],
    whole: &Told,
    failing: u32,
) -> Result<bool, AllocError> {
    let told = write_failing(rt, alloc, words, parts, failing)?.into_told();
    let is_cut = is_cut_at(&told, whole, failing);
    drop(told);
    Ok(is_cut)
}

/// The first of so many writes of which, where it fails, something else comes.
fn first_uncut<R: Threads + Wait + Sync>(
    rt: &R,
    alloc: Global,
    words: &[&str],
    parts: &[&[u8]],
    whole: &Told,
    most: u32,
) -> Result<Option<u32>, AllocError> {
    for failing in 1..=most {
        if !is_cut(rt, alloc, words, parts, whole, failing)? {
            return Ok(Some(failing));
        }
    }
    Ok(None)
}

/// The same of a call, behind what comes of it where no write fails.
fn uncut<R: Threads + Wait + Sync>(
    rt: &R,
    alloc: Global,
    words: &[&str],
    parts: &[&[u8]],
    most: u32,
) -> Result<Option<u32>, AllocError> {
    let whole = tell(rt, alloc, words, parts)?;
    let first = first_uncut(rt, alloc, words, parts, &whole, most);
    drop(whole);
    first
}

#[test]
fn each_failing_write_leaves_a_beginning(rt: HostRuntime) -> Result<(), Fail> {
    let alloc = rt.alloc();
    let run = uncut(&rt, alloc, &["serial"], &[TWO_PATHS, HALF, FIRST], 200)?;
    let usage = uncut(&rt, alloc, &[], &[], 20)?;
    assert_eq!(&rt; [run, usage], [None, None]);
    Ok(())
}

/// Lets one write fail, and says whether the sink holds this beginning of the text, and how many entries the journals have.
fn left<R: Threads + Wait + Sync>(
    rt: &R,
    alloc: Global,
    words: &[&str],
    parts: &[&[u8]],
    failing: u32,
    held: &[u8],
) -> Result<(bool, usize), AllocError> {
    let called = write_failing(rt, alloc, words, parts, failing)?;
    let entries = entry_count(&called.outcome);
    let told = called.into_told();
    let is_held = told.is(Status::WriteFault, held);
    drop(told);
    Ok((is_held, entries))
}

#[test]
fn a_failing_sink_leaves_the_journals(rt: HostRuntime) -> Result<(), Fail> {
    let alloc = rt.alloc();
    let begun = b"statesman report 1\ngroup dc1\nver";
    let scripts = [TWO_PATHS, HALF, FIRST];
    let run = left(&rt, alloc, &["serial"], &scripts, 3, begun)?;
    let printed = [PRINTED.as_bytes(), JOURNAL.as_bytes()];
    let replayed = left(&rt, alloc, &["replay"], &printed, 2, b"statesman report")?;
    assert_eq!(&rt; [run, replayed], [(true, 2), (true, 4)]);
    Ok(())
}

/// Whether these bytes are a document, by the reader; none where they are too many.
fn is_document(alloc: Global, bytes: &[u8]) -> Result<bool, AllocError> {
    if bytes.len() >= 1_000 {
        return Err(AllocError);
    }
    let read = read_doc(alloc, bytes, false)?;
    let is_document = matches!(&read, DocRead::Doc(_));
    drop(read);
    Ok(is_document)
}

/// Whether `serial` succeeds on these bytes just where they are a document, and else tells of the input.
fn is_read_so<R: Threads + Wait + Sync>(
    rt: &R,
    alloc: Global,
    bytes: &[u8],
) -> Result<bool, AllocError> {
    let is_document = is_document(alloc, bytes)?;
    let serial = tell(rt, alloc, &["serial"], &[bytes])?;
    let status = serial.status;
    drop(serial);
    Ok(if is_document {
        status == Status::Ok
    } else {
        matches!(status, Status::BadInput { .. })
    })
}

/// The first number of bytes of a text at which it does not.
fn first_other<R: Threads + Wait + Sync>(
    rt: &R,
    alloc: Global,
    text: &[u8],
) -> Result<Option<usize>, AllocError> {
    for n in 0..text.len() {
        if !is_read_so(rt, alloc, &text[..n])? {
            return Ok(Some(n));
        }
    }
    Ok(None)
}

#[test]
fn each_beginning_of_a_document_is_read_as_it_stands(rt: HostRuntime) -> Result<(), Fail> {
    let text = joined(rt.alloc(), &[TWO_PATHS, HALF, FIRST, SECOND])?;
    let other = first_other(&rt, rt.alloc(), text.as_slice());
    drop(text);
    assert_eq!(&rt; other?, None);
    Ok(())
}
