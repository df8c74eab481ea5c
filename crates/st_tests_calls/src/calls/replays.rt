//! Runs that were printed and are gone through again: every beginning of a printed run, and what is generated.

ghost use Rattle.std.specs.Prelude.{◌<◌, length};

use super::{Called, call, entry_count, holds, joined, tell, tells};
use st_top::Status;
use std::alloc::{AllocError, Global};
use std::sync::Wait;
use std::test::Fail;
use std::thread::Threads;

/// The document of the two paths with two proposals, as it is printed.
pub const PRINTED: &str = "\
statesman 1
group dc1
device t1 tor
device t2 tor
device a1 switch
device a2 switch
link l1 t1 a1 10
link l2 t1 a2 10
link l3 t2 a1 10
link l4 t2 a2 10
promise t1 t2 50
app up
propose dc1 a1.firmware=2
propose dc1 a2.firmware=2
";

/// The journal that comes of it.
pub const JOURNAL: &str = "\
journal dc1
1 submit up a1.firmware=2 : queued 1
2 submit up a2.firmware=2 : queued 2
3 check : receipt 1 accepted 1
4 check : receipt 2 refused broken t1 t2 cutoff need 10 has 0 side t1
";

/// How many line feeds a text has.
fn feed_count(text: &[u8]) -> u32 {
    let mut count = 0u32;
    for byte in text {
        if *byte == b'\n' {
            count = count.wrapping_add(1);
        }
    }
    count
}

/// Whether a call ended as one on these first bytes of a printed run may end: well where they end in the document, whose last word may be
/// cut short, or with a whole line of the journal; at their last line, where that is cut, or at the one that is missing behind it; or at
/// the last entry that they have.
fn is_beginning(called: &Called, text: &[u8], bytes: usize) -> bool
    requires { bytes < length text.now }
{
    match called.outcome.status {
        Status::Ok => {
            bytes < PRINTED.len() || text[bytes] == b'\n' || text[..bytes].ends_with(b"\n")
        }
        Status::BadInput { line, .. } => line == feed_count(&text[..bytes]).wrapping_add(1),
        Status::Illegal { group: 0, entry } => entry as usize == entry_count(&called.outcome),
        _ => false,
    }
}

/// Whether the call on these first bytes ends so.
fn ends_at<R: Threads + Wait + Sync>(
    rt: &R,
    alloc: Global,
    text: &[u8],
    bytes: usize,
) -> Result<bool, AllocError>
    requires { bytes < length text.now }
{
    let called = call(rt, alloc, &["replay"], &[&text[..bytes]])?;
    let is_beginning = is_beginning(&called, text, bytes);
    drop(called);
    Ok(is_beginning)
}

/// The first number of bytes on which it does not.
fn first_wrong<R: Threads + Wait + Sync>(
    rt: &R,
    alloc: Global,
    text: &[u8],
) -> Result<Option<usize>, AllocError> {
    for n in 0..text.len() {
        if !ends_at(rt, alloc, text, n)? {
            return Ok(Some(n));
        }
    }
    Ok(None)
}

#[test]
fn every_beginning_of_a_printed_run_is_replayed_or_refused(rt: HostRuntime) -> Result<(), Fail> {
    let alloc = rt.alloc();
    let text = joined(alloc, &[PRINTED.as_bytes(), JOURNAL.as_bytes()])?;
    let wrong = first_wrong(&rt, alloc, text.as_slice());
    drop(text);
    assert_eq!(&rt; wrong?, None);
    Ok(())
}

/// The report on what is generated for the seed 0, up to what was read.
const OF_A_FAT_TREE: &[u8] = b"\
statesman report 1
group dc1
version 2
entries 48
lock te c0 high granted
unlock te c0 high released
receipt 1 up accepted 1
receipt 2 up accepted 2
receipt 3 up refused broken p0e0 p0e1 cutoff need 10 has 0 side p0e0
target p0a0.firmware=2
target p0a1.firmware=2
target p1a0.firmware=2
target p1a1.firmware=2
target p2a0.firmware=2
target p2a1.firmware=2
target p3a0.firmware=2
target p3a1.firmware=2
wire commands 8 reports 8 stale 0 old 0
promises 28 start 28 now 28
";

const COUNTED: &[u8] = b"ok groups 1 devices 20 links 32 promises 28 apps 2 commands 11\n";

/// The rest of the report of the run, and of what is replayed, which has nothing of what was read.
const READ: &[u8] = b"read te dc1 p0a0.firmware version 1 value 2\nend\n";

const END: &[u8] = b"end\n";

/// Whether a text is the report with this rest.
fn is_report(text: &[u8], rest: &[u8]) -> bool {
    text.len() == OF_A_FAT_TREE.len().saturating_add(rest.len())
        && text.starts_with(OF_A_FAT_TREE)
        && text.ends_with(rest)
}

/// What one call wrote on what another one wrote.
fn text_of<R: Threads + Wait + Sync>(
    rt: &R,
    alloc: Global,
    words: &[&str],
    input: &[u8],
) -> Result<Vec<u8>, AllocError> {
    Ok(tell(rt, alloc, words, &[input])?.text)
}

/// Whether a generated document is counted so, and whether its run has this report.
fn counted_and_run<R: Threads + Wait + Sync>(
    rt: &R,
    alloc: Global,
    made: &[u8],
) -> Result<(bool, bool), AllocError> {
    let counted = tells(tell(rt, alloc, &["check"], &[made]), Status::Ok, COUNTED)?;
    let run = text_of(rt, alloc, &["serial"], made)?;
    Ok((counted, is_report(run.as_slice(), READ)))
}

/// Whether its printed run is replayed to this report.
fn printed_and_replayed<R: Threads + Wait + Sync>(
    rt: &R,
    alloc: Global,
    made: &[u8],
) -> Result<bool, AllocError> {
    let printed = text_of(rt, alloc, &["serial", "--form=replay"], made)?;
    let again = text_of(rt, alloc, &["replay"], printed.as_slice());
    drop(printed);
    Ok(is_report(again?.as_slice(), END))
}

#[test]
fn a_generated_document_is_counted_and_run(rt: HostRuntime) -> Result<(), Fail> {
    let made = text_of(&rt, rt.alloc(), &["gen", "--seed", "0"], b"")?;
    let told = counted_and_run(&rt, rt.alloc(), made.as_slice());
    drop(made);
    assert_eq!(&rt; told?, (true, true));
    Ok(())
}

#[test]
fn the_run_of_a_generated_document_is_printed_and_replayed(rt: HostRuntime) -> Result<(), Fail> {
    let made = text_of(&rt, rt.alloc(), &["gen", "--seed", "0"], b"")?;
    let is_replayed = printed_and_replayed(&rt, rt.alloc(), made.as_slice());
    drop(made);
    holds(is_replayed)
}
