//! Whole calls: words and bytes in; text, status and journals out, where a document with a stored run (`statesman_examples`) can't show it:
//! jobs at once, sources and sinks that fail, want of memory, texts too long to be stored, and every beginning of a text.

mod ends;
mod exits;
mod gates;
mod hostile;
mod limits;
mod replays;
mod runs;

use st_crew::{Gate, NoGate};
use st_event::Reply;
use st_io::{SureSink, SureSource};
use st_top::{Outcome, Status, statesman};
use std::alloc::{AllocError, Global};
use std::sync::Wait;
use std::test::Fail;
use std::thread::Threads;

/// Two ToRs that two switches join, without promises and scripts.
const TWO_PATHS: &[u8] = b"\
statesman 1
group dc1
device t1 tor
device t2 tor
device a1 switch
device a2 switch
link l1 t1 a1 10
link l2 t1 a2 10
link l3 t2 a1 10
link l4 t2 a2 10
";

const HALF: &[u8] = b"promise t1 t2 50\n";

/// One application changes a switch.
const FIRST: &[u8] = b"\
app up
propose dc1 a1.firmware=2
";

/// And then the other.
const SECOND: &[u8] = b"propose dc1 a2.firmware=2\n";

/// What comes of `FIRST`, where the promise is of half the capacity.
const ACCEPTED: &[u8] = b"\
statesman report 1
group dc1
version 1
entries 2
receipt 1 up accepted 1
target a1.firmware=2
unsettled a1
wire commands 0 reports 0 stale 0 old 0
promises 1 start 1 now 1
end
";

/// How a call ended, and what it wrote. It has many parts: who has seen enough hands it to `drop`, which takes the checker less than
/// the end of a function does.
#[derive(Drop)]
struct Called {
    outcome: Outcome,
    text: Vec<u8>,
}

/// The status and the text of a call, of which nothing else is asked.
#[derive(Drop)]
struct Told {
    status: Status,
    text: Vec<u8>,
}

impl Called {
    /// What a call ended with, where there was memory for a copy of what it wrote.
    fn of(outcome: Outcome, text: Result<Vec<u8>, AllocError>) -> Result<Called, AllocError> {
        match text {
            Ok(text) => Ok(Called { outcome, text }),
            Err(AllocError) => {
                drop(outcome);
                Err(AllocError)
            }
        }
    }

    fn into_told(self) -> Told {
        let Called { outcome, text } = self;
        let status = outcome.status;
        drop(outcome);
        Told { status, text }
    }
}

impl Told {
    /// Whether this is the status, and this the text.
    fn is(&self, status: Status, text: &[u8]) -> bool {
        self.status == status && self.text.as_slice() == text
    }
}

/// Whether what a call told is this.
fn tells(told: Result<Told, AllocError>, status: Status, text: &[u8]) -> Result<bool, AllocError> {
    let told = told?;
    let is = told.is(status, text);
    drop(told);
    Ok(is)
}

/// Ends a test: what it found has to hold.
fn holds(found: Result<bool, AllocError>) -> Result<(), Fail> {
    if found? {
        Ok(())
    } else {
        Err(Fail::new("it does not hold"))
    }
}

/// Ends a test over a gate, which has to be kept.
fn kept(was_kept: bool, found: Result<bool, AllocError>) -> Result<(), Fail> {
    if was_kept {
        holds(found)
    } else {
        Err(Fail::new("the gate was not kept"))
    }
}

/// These parts, one behind the other.
fn joined(alloc: Global, parts: &[&[u8]]) -> Result<Vec<u8>, AllocError> {
    let mut bytes = Vec::new(alloc);
    for part in parts {
        bytes.extend_from_slice(part)?;
    }
    Ok(bytes)
}

fn words_of(alloc: Global, words: &[&str]) -> Result<Vec<String>, AllocError> {
    let mut list = Vec::new(alloc);
    for word in words {
        list.push(String::from_str(alloc, *word)?)?;
    }
    Ok(list)
}

/// A call over a source of these bytes and a sink that never fail, with a gate.
fn called_at<R: Threads + Wait + Sync, G: Gate + Sync>(
    rt: &R,
    alloc: Global,
    words: &[String],
    bytes: Vec<u8>,
    gate: &G,
) -> Result<Called, AllocError> {
    let mut source = SureSource::new(bytes);
    let mut sink = SureSink::new(alloc);
    let outcome = statesman(rt, alloc, words, &mut source, &mut sink, gate);
    drop(source);
    let text = sink.bytes().to_vec(alloc);
    drop(sink);
    Called::of(outcome, text)
}

/// The same of words and of parts of a text.
fn call_at<R: Threads + Wait + Sync, G: Gate + Sync>(
    rt: &R,
    alloc: Global,
    words: &[&str],
    parts: &[&[u8]],
    gate: &G,
) -> Result<Called, AllocError> {
    let bytes = joined(alloc, parts)?;
    let words = words_of(alloc, words)?;
    let called = called_at(rt, alloc, words.as_slice(), bytes, gate);
    drop(words);
    called
}

/// A call over a source and a sink that never fail.
fn call<R: Threads + Wait + Sync>(
    rt: &R,
    alloc: Global,
    words: &[&str],
    parts: &[&[u8]],
) -> Result<Called, AllocError> {
    call_at(rt, alloc, words, parts, &NoGate)
}

/// What a call tells, over a source and a sink that never fail.
fn tell<R: Threads + Wait + Sync>(
    rt: &R,
    alloc: Global,
    words: &[&str],
    parts: &[&[u8]],
) -> Result<Told, AllocError> {
    Ok(call(rt, alloc, words, parts)?.into_told())
}

/// How many entries the journals have.
fn entry_count(outcome: &Outcome) -> usize {
    let mut count = 0usize;
    for journal in outcome.journals.as_slice() {
        count = count.saturating_add(journal.entries.as_slice().len());
    }
    count
}

/// The reply of entry `n` of the first journal, counted from 1.
fn reply_of(called: &Called, n: usize) -> Option<&Reply> {
    match called.outcome.journals.as_slice().first() {
        Some(journal) => match journal.entries.as_slice().get(n.saturating_sub(1)) {
            Some(entry) => Some(&entry.reply),
            None => None,
        },
        None => None,
    }
}
