//! The whole call: all that is to be written is decided first, and then it is written once.

ghost use Rattle.std.specs.Prelude.{◌≡◌, ◌≢◌, ◌<◌, ◌-◌, ◌≤◌, ◌^◌, ◌⊎◌, false, length, map, string_bytes, IfOk};
ghost use Rattle.st_io.specs.declared.reading.TheConstants.{MAX_BYTES};
ghost use Rattle.st_top.specs.Ways.{is_read_on, is_run, tree_doc as tree_doc_lem, way_of};
ghost use Rattle.st_top.specs.Answer.{EndsWith, IsUnread};
ghost use Rattle.st_top.specs.Completeness.{CanBeDone, IsAfterReadFault, IsFaultless};
ghost use Rattle.st_top.specs.Ending.{IsEndOnDoc, IsEndOnBytes, IsCalledFor, WritesEnding};

use crate::answer::Outcome;
use crate::ending::{Ending, doc_ending, fault_ending, task_ending};
use crate::playing::run_ending;
use crate::replaying::replay_ending;
use crate::task::{Reading, Task, Way, way_to};
use st_crew::Gate;
use st_gen::generate;
use st_io::{ReadEnd, Sink, Source, read_all, write_all};
use st_replay::Status;
use st_words::{FatTree, read_words};
use std::alloc::{AllocError, Global};
use std::sync::Wait;
use std::thread::Threads;

/// The ending of what is done, without threads, on bytes that were read to their end.
fn ending_alone(alloc: Global, reading: Reading, bytes: &[u8]) -> Result<Ending, AllocError>
    requires few { length bytes.now ≤ MAX_BYTES }
    requires alone { is_run (Way.Reads reading) ≡ false }
    ensures { IfOk result (IsEndOnBytes reading bytes.now) }
{
    match reading {
        Reading::Doc(task) => task_ending(alloc, task, bytes),
        Reading::Journals(form) => replay_ending(alloc, form, bytes),
        Reading::Run(_) => unreachable!(),
    }
}

/// The ending of what is done on them, a run by threads too.
fn ending_by_threads<R: Threads + Wait + Sync, G: Gate + Sync>(
    rt: &R,
    alloc: Global,
    reading: Reading,
    bytes: &[u8],
    gate: &G,
) -> Result<Ending, AllocError>
    requires { length bytes.now ≤ MAX_BYTES }
    ensures { IfOk result (IsEndOnBytes reading bytes.now) }
{
    match reading {
        Reading::Run(form) => run_ending(rt, alloc, form, bytes, gate),
        Reading::Doc(_) | Reading::Journals(_) => ending_alone(alloc, reading, bytes),
    }
}

/// Reads the source, and has the ending decided of what is done on what it gives.
fn source_ending<S: Source, F: Fn(Reading, Vec<u8>) -> Result<Ending, AllocError>>(
    alloc: Global,
    reading: Reading,
    source: &mut S,
    decide: &F,
) -> Result<Ending, AllocError>
    requires can { (bytes : _) → length bytes.items ≤ MAX_BYTES → F.pre decide.now reading bytes }
    requires gives { (bytes : _) (ending : _) → F.post decide.now reading bytes ending → IfOk ending (IsEndOnBytes reading bytes.items) }
    ensures comes { IfOk result (IsCalledFor (Way.Reads reading)
        (record { left = S.left source.old; faults = S.faults source.old })
        (record { left = S.left source.new; faults = S.faults source.new })) }
    ensures later { S.faults source.old ≤ S.faults source.new }
{
    let input = read_all(alloc, source)?;
    match input.end {
        ReadEnd::End => decide(reading, input.bytes),
        ReadEnd::Failed => fault_ending(alloc, Status::ReadFault),
        ReadEnd::TooLong => fault_ending(alloc, Status::TooLong),
    }
}

/// The ending of a task on the document that is generated for a fat tree.
fn tree_ending(alloc: Global, task: Task, tree: FatTree) -> Result<Ending, AllocError>
    ensures { IfOk result (IsEndOnDoc task (tree_doc_lem tree)) }
{
    let doc = generate(alloc, tree.pods.count(), tree.seed)?;
    doc_ending(alloc, task, &doc)
}

/// What words ask for.
fn way_asked(alloc: Global, words: &[String]) -> Result<Way, AllocError>
    ensures { IfOk result (λ way. way ≡ way_of (map string_bytes words.now)) }
{
    match read_words(alloc, words)? {
        Some(job) => Ok(way_to(job)),
        None => Ok(Way::Nothing),
    }
}

/// Reads what the words ask for, and has the ending decided. Nothing is written yet.
fn prepare<S: Source, F: Fn(Reading, Vec<u8>) -> Result<Ending, AllocError>>(
    alloc: Global,
    words: &[String],
    source: &mut S,
    decide: &F,
) -> Result<Ending, AllocError>
    requires can { (reading : _) (bytes : _) → way_of (map string_bytes words.now) ≡ Way.Reads reading → length bytes.items ≤ MAX_BYTES → F.pre decide.now reading bytes }
    requires gives { (reading : _) (bytes : _) (ending : _) → F.post decide.now reading bytes ending → IfOk ending (IsEndOnBytes reading bytes.items) }
    ensures comes { IfOk result (IsCalledFor (way_of (map string_bytes words.now))
        (record { left = S.left source.old; faults = S.faults source.old })
        (record { left = S.left source.new; faults = S.faults source.new })) }
    ensures later { S.faults source.old ≤ S.faults source.new }
    ensures idle { is_read_on (way_of (map string_bytes words.now)) ≡ false → IsUnread
        (record { left = S.left source.old; faults = S.faults source.old })
        (record { left = S.left source.new; faults = S.faults source.new }) }
{
    match way_asked(alloc, words)? {
        Way::Nothing => fault_ending(alloc, Status::Usage),
        Way::Reads(reading) => source_ending(alloc, reading, source, decide),
        Way::Makes(task, tree) => tree_ending(alloc, task, tree),
    }
}

/// Writes the text of an ending.
fn write_ending<K: Sink>(ending: Ending, sink: &mut K) -> Outcome
    ensures { WritesEnding ending
        (record { held = K.held sink.old; faults = K.faults sink.old })
        (record { held = K.held sink.new; faults = K.faults sink.new })
        result }
{
    let written = write_all(sink, ending.text.bytes());
    Outcome {
        status: ending.status.told(written),
        journals: ending.journals,
        logs: ending.logs,
    }
}

/// Carries out words: what they ask for is read, its ending is decided as is handed in, and then written.
fn call<S: Source, K: Sink, F: Fn(Reading, Vec<u8>) -> Result<Ending, AllocError>>(
    alloc: Global,
    words: &[String],
    source: &mut S,
    sink: &mut K,
    decide: &F,
) -> Outcome
    requires can { (reading : _) (bytes : _) → way_of (map string_bytes words.now) ≡ Way.Reads reading → length bytes.items ≤ MAX_BYTES → F.pre decide.now reading bytes }
    requires gives { (reading : _) (bytes : _) (ending : _) → F.post decide.now reading bytes ending → IfOk ending (IsEndOnBytes reading bytes.items) }
    ensures ends { EndsWith (map string_bytes words.now)
        (record { left = S.left source.old; faults = S.faults source.old })
        (record { left = S.left source.new; faults = S.faults source.new })
        (record { held = K.held sink.old; faults = K.faults sink.old })
        (record { held = K.held sink.new; faults = K.faults sink.new })
        (record { journals = result.journals; logs = result.logs }) result.status }
    ensures idle { is_read_on (way_of (map string_bytes words.now)) ≡ false → IsUnread
        (record { left = S.left source.old; faults = S.faults source.old })
        (record { left = S.left source.new; faults = S.faults source.new }) }
    ensures complete { CanBeDone (map string_bytes words.now) (S.left source.old) →
        IsFaultless (S.faults source.old) (S.faults source.new) →
        IsFaultless (K.faults sink.old) (K.faults sink.new) →
        (result.status ≡ Status.Ok) ⊎ (result.status ≡ Status.OutOfMemory) }
    ensures source_later { S.faults source.old ≤ S.faults source.new }
    ensures sink_later { K.faults sink.old ≤ K.faults sink.new }
    ensures read_counted { S.faults source.old < S.faults source.new → IsAfterReadFault result.status }
    ensures write_counted { K.faults sink.old < K.faults sink.new → result.status ≡ Status.WriteFault }
    ensures read_told { S.faults source.new ≡ S.faults source.old → S.faults source.old < 2 ^ 64 - 1 → result.status ≢ Status.ReadFault }
    ensures write_told { K.faults sink.new ≡ K.faults sink.old → K.faults sink.old < 2 ^ 64 - 1 → result.status ≢ Status.WriteFault }
{
    match prepare(alloc, words, source, decide) {
        Ok(ending) => write_ending(ending, sink),
        Err(_) => Outcome::out_of_memory(alloc),
    }
}

/// Carries out words that do not ask for `run`, as `statesman` does. Nobody is waited for but the source and the sink: the runtime may
/// start threads, and no means to wait is handed in. Today no thread is started, and the runtime is not used.
pub fn statesman_alone<R: Threads + Sync, S: Source, K: Sink>(
    _rt: &R,
    alloc: Global,
    words: &[String],
    source: &mut S,
    sink: &mut K,
) -> Outcome
    requires { is_run (way_of (map string_bytes words.now)) ≡ false }
    ensures ends { EndsWith (map string_bytes words.now)
        (record { left = S.left source.old; faults = S.faults source.old })
        (record { left = S.left source.new; faults = S.faults source.new })
        (record { held = K.held sink.old; faults = K.faults sink.old })
        (record { held = K.held sink.new; faults = K.faults sink.new })
        (record { journals = result.journals; logs = result.logs }) result.status }

    // Where the words ask for nothing that reads, nothing is read, whatever the status.
    ensures idle { is_read_on (way_of (map string_bytes words.now)) ≡ false → IsUnread
        (record { left = S.left source.old; faults = S.faults source.old })
        (record { left = S.left source.new; faults = S.faults source.new }) }

    // Where the words and the input can be carried out, and nothing fails, the call succeeds unless memory is refused.
    ensures complete { CanBeDone (map string_bytes words.now) (S.left source.old) →
        IsFaultless (S.faults source.old) (S.faults source.new) →
        IsFaultless (K.faults sink.old) (K.faults sink.new) →
        (result.status ≡ Status.Ok) ⊎ (result.status ≡ Status.OutOfMemory) }

    // Neither count of faults falls.
    ensures source_later { S.faults source.old ≤ S.faults source.new }
    ensures sink_later { K.faults sink.old ≤ K.faults sink.new }

    // A failure is told: where a read failed by that, or by its line that could not be written, and where a write failed by that.
    ensures read_counted { S.faults source.old < S.faults source.new → IsAfterReadFault result.status }
    ensures write_counted { K.faults sink.old < K.faults sink.new → result.status ≡ Status.WriteFault }

    // Where nothing failed, no failure is told.
    ensures read_told { S.faults source.new ≡ S.faults source.old → S.faults source.old < 2 ^ 64 - 1 → result.status ≢ Status.ReadFault }
    ensures write_told { K.faults sink.new ≡ K.faults sink.old → K.faults sink.old < 2 ^ 64 - 1 → result.status ≢ Status.WriteFault }
{
    let decide = |reading: Reading, bytes: Vec<u8>| -> Result<Ending, AllocError>
        requires { is_run (Way.Reads reading) ≡ false × length bytes.items ≤ MAX_BYTES }
        ensures { IfOk result (IsEndOnBytes reading bytes.items) }
    { ending_alone(alloc, reading, bytes.as_slice()) };
    call(alloc, words, source, sink, &decide)
}

/// The whole call that the program makes: the words are carried out on what the source gives, one text is written to the
/// sink, and the journals that the groups kept are handed back. What is written is decided before the first write. `run` starts
/// threads, calls the gate at the points of their work, and waits for them; every other command is carried out as by
/// `statesman_alone`.
pub fn statesman<R: Threads + Wait + Sync, S: Source, K: Sink, G: Gate + Sync>(
    rt: &R,
    alloc: Global,
    words: &[String],
    source: &mut S,
    sink: &mut K,
    gate: &G,
) -> Outcome
    ensures ends { EndsWith (map string_bytes words.now)
        (record { left = S.left source.old; faults = S.faults source.old })
        (record { left = S.left source.new; faults = S.faults source.new })
        (record { held = K.held sink.old; faults = K.faults sink.old })
        (record { held = K.held sink.new; faults = K.faults sink.new })
        (record { journals = result.journals; logs = result.logs }) result.status }

    // Where the words ask for nothing that reads, nothing is read, whatever the status.
    ensures idle { is_read_on (way_of (map string_bytes words.now)) ≡ false → IsUnread
        (record { left = S.left source.old; faults = S.faults source.old })
        (record { left = S.left source.new; faults = S.faults source.new }) }

    // Where the words and the input can be carried out, and nothing fails, the call succeeds unless memory is refused.
    ensures complete { CanBeDone (map string_bytes words.now) (S.left source.old) →
        IsFaultless (S.faults source.old) (S.faults source.new) →
        IsFaultless (K.faults sink.old) (K.faults sink.new) →
        (result.status ≡ Status.Ok) ⊎ (result.status ≡ Status.OutOfMemory) }

    // Neither count of faults falls.
    ensures source_later { S.faults source.old ≤ S.faults source.new }
    ensures sink_later { K.faults sink.old ≤ K.faults sink.new }

    // A failure is told: where a read failed by that, or by its line that could not be written, and where a write failed by that.
    ensures read_counted { S.faults source.old < S.faults source.new → IsAfterReadFault result.status }
    ensures write_counted { K.faults sink.old < K.faults sink.new → result.status ≡ Status.WriteFault }

    // Where nothing failed, no failure is told.
    ensures read_told { S.faults source.new ≡ S.faults source.old → S.faults source.old < 2 ^ 64 - 1 → result.status ≢ Status.ReadFault }
    ensures write_told { K.faults sink.new ≡ K.faults sink.old → K.faults sink.old < 2 ^ 64 - 1 → result.status ≢ Status.WriteFault }
{
    let decide = |reading: Reading, bytes: Vec<u8>| -> Result<Ending, AllocError>
        requires { length bytes.items ≤ MAX_BYTES }
        ensures { IfOk result (IsEndOnBytes reading bytes.items) }
    { ending_by_threads(rt, alloc, reading, bytes.as_slice(), gate) };
    call(alloc, words, source, sink, &decide)
}
