//! Runs whose journals get full while others work.

use super::gates::{Behind, BehindReads};
use super::{Called, HALF, TWO_PATHS, call_at, kept};
use st_crew::Gate;
use st_top::{Outcome, Status};
use std::alloc::{AllocError, Global};
use std::sync::Wait;
use std::test::Fail;
use std::thread::Threads;

/// An application whose switch fails before anything was sent to it, so that it can't settle.
pub const FAILING: &[u8] = b"\
app up
propose dc1 a1.firmware=2
await dc1
fail dc1 a1 0
poll dc1 a1
";

/// A script, and behind it as many rounds of the first group as fill the journal of one that can't settle.
pub fn filling(alloc: Global, script: &[u8]) -> Result<Vec<u8>, AllocError> {
    filling_by(alloc, script, b"settle dc1 64\n")
}

/// A script, and behind it as many of these lines of 64 rounds as fill the journal of a group that can't settle.
fn filling_by(alloc: Global, script: &[u8], line: &[u8]) -> Result<Vec<u8>, AllocError> {
    let mut script = script.to_vec(alloc)?;
    for _line in 0..782 {
        script.extend_from_slice(line)?;
    }
    Ok(script)
}

/// How many entries each journal of a call has, and then how many each log has.
fn counts_of(alloc: Global, outcome: &Outcome) -> Result<Vec<usize>, AllocError> {
    let mut counts = Vec::new(alloc);
    for journal in outcome.journals.as_slice() {
        counts.push(journal.entries.as_slice().len())?;
    }
    for log in outcome.logs.as_slice() {
        counts.push(log.entries.as_slice().len())?;
    }
    Ok(counts)
}

/// Whether a run ended as one whose first group's journal is full, with these counts of its journals and its logs.
fn ended_full(alloc: Global, called: Called, counts: &[usize]) -> Result<bool, AllocError> {
    let found = counts_of(alloc, &called.outcome);
    let told = called.into_told();
    let is_told = told.is(Status::JournalFull { group: 0 }, b"fault full dc1\n");
    drop(told);
    Ok(is_told && found?.as_slice() == counts)
}

/// The same of a document of these parts that is run.
fn runs_full<R: Threads + Wait + Sync, G: Gate + Sync>(
    rt: &R,
    alloc: Global,
    parts: &[&[u8]],
    gate: &G,
    counts: &[usize],
) -> Result<bool, AllocError> {
    let called = call_at(rt, alloc, &["run"], parts, gate)?;
    ended_full(alloc, called, counts)
}

/// A second group.
const SMALLER: &[u8] = b"\
group dc2
device t1 tor
device t2 tor
device a1 switch
link l1 t1 a1 10
link l2 t2 a1 10
";

/// An application of the second group, and one whose switch of the first fails before anything was sent to it. It reads then.
pub const FAILING_BESIDE: &[u8] = b"\
app te
propose dc2 a1.config=2
await dc2
read dc2 a1.config
app up
propose dc2 a1.firmware=2
propose dc1 a1.firmware=2
await dc1
fail dc1 a1 0
poll dc1 a1
read dc1 a1.firmware
";

/// What the second application does behind the full journal.
const LAST: &[u8] = b"read dc2 a1.config\n";

#[test]
fn a_full_journal_stops_who_meets_it_alone(rt: HostRuntime) -> Result<(), Fail> {
    let alloc = rt.alloc();
    let scripts = filling(alloc, FAILING_BESIDE)?;
    // The updater and the monitor come behind the failure.
    let gate = Behind::halves(1);
    // The other application did all of its commands, and nothing is left pending in the other group. The one that met the full journal did
    // nothing behind it.
    let is_full = runs_full(
        &rt,
        alloc,
        &[TWO_PATHS, HALF, SMALLER, scripts.as_slice(), LAST],
        &gate,
        &[200_000, 4, 1, 1],
    );
    drop(scripts);
    kept(gate.was_kept(), is_full)
}

/// The two paths once more, as a second group.
const TWO_MORE_PATHS: &[u8] = b"\
group dc2
device t1 tor
device t2 tor
device a1 switch
device a2 switch
link l1 t1 a1 10
link l2 t1 a2 10
link l3 t2 a1 10
link l4 t2 a2 10
";

/// An application whose switch of the second group fails before anything was sent to it. It reads then.
const FAILING_SECOND: &[u8] = b"\
app te
propose dc2 a1.firmware=2
await dc2
fail dc2 a1 0
poll dc2 a1
read dc2 a1.firmware
";

/// The same of another application and the first group.
const FAILING_FIRST: &[u8] = b"\
app up
propose dc1 a1.firmware=2
await dc1
fail dc1 a1 0
poll dc1 a1
read dc1 a1.firmware
";

#[test]
fn the_lowest_of_two_full_groups_is_named(rt: HostRuntime) -> Result<(), Fail> {
    let alloc = rt.alloc();
    let second = filling_by(alloc, FAILING_SECOND, b"settle dc2 64\n")?;
    let first = filling(alloc, FAILING_FIRST)?;
    // The updaters and the monitors come behind both failures.
    let gate = BehindReads::of(2);
    let is_full = runs_full(
        &rt,
        alloc,
        &[
            TWO_PATHS,
            TWO_MORE_PATHS,
            second.as_slice(),
            first.as_slice(),
        ],
        &gate,
        &[200_000, 200_000, 1, 1],
    );
    drop(second);
    drop(first);
    kept(gate.was_kept(), is_full)
}
