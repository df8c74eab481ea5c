//! One thread publishes, and others read.

ghost use Rattle.std.specs.Prelude.{◌≡◌, ◌+◌, ◌<◌, ◌^◌, [], false, All, IfOk, length};
ghost use Rattle.st_net.specs.Groups.{IsEntityOf};
ghost use Rattle.st_net.specs.Ranges.{RowFits};
ghost use Rattle.st_board.specs.Published.{IsMergeOf};

use st_board::{Board, Line, MAX_READERS, Note, Seen, TargetReader};
use st_net::{Entity, GroupTopo, Row, Var};
use st_overlay::Table;
use st_samples::group;
use std::alloc::{AllocError, Global};
use std::sync::Wait;
use std::test::Fail;
use std::thread::{Threads, join};

/// A group of one switch.
const LONE: &str = "statesman 1
group dc1
device a1 switch
";

const A1: Entity = Entity::Device(0);

const FIRMWARE: Row = Row {
    entity: A1,
    var: Var::Firmware,
    value: 2,
};

const OPENING: Seen = Seen {
    version: 0,
    value: 1,
};

const MERGED: Seen = Seen {
    version: 1,
    value: 2,
};

const OTHER_GROUP: &str = "the rows or the entity are of another group";

/// What was seen, where there was memory for the note.
fn noted<T: Drop>(note: Result<Note, AllocError>, seen: T) -> Result<T, Fail> {
    match note {
        Ok(note) => {
            drop(note);
            Ok(seen)
        }
        Err(AllocError) => {
            drop(seen);
            Err(Fail::new("no memory"))
        }
    }
}

/// Publishes the rows and reads, with no note between.
fn published_and_read<R: Wait>(
    rt: &R,
    alloc: Global,
    topo: &GroupTopo,
    rows: &[Row],
    at: Entity,
) -> Result<Seen, Fail> {
    if !topo.rows_fit(rows) || !topo.has(at) {
        return Err(Fail::new(OTHER_GROUP));
    }
    let (mut board, mut readers) = Board::start(rt, alloc, Line::new(), topo, 1)?;
    let note = board.publish(rt, alloc, rows);
    let seen = readers[0].read(at, Var::Firmware);
    board.give_up(rt);
    drop(readers);
    noted(note, seen)
}

#[test]
fn a_read_sees_what_its_reader_was_not_told_of(rt: HostRuntime) -> Result<(), Fail> {
    let topo = group(rt.alloc(), LONE)?;
    let seen = published_and_read(&rt, rt.alloc(), &topo, &[FIRMWARE], A1);
    drop(topo);
    assert_eq!(rt; seen?, MERGED);
    Ok(())
}

/// A board with one reader.
fn start_one<R: Wait>(
    rt: &R,
    alloc: Global,
    topo: &GroupTopo,
) -> Result<(Board, TargetReader), AllocError>
    ensures board { IfOk result (λ made. (made.0.ended ≡ false) × (made.0.proposals ≡ []) × (made.0.group ≡ topo.now)) }
    ensures reader { IfOk result (λ made. (made.1.group ≡ topo.now) × (made.1.book ≡ made.0.book)) }
{
    let (board, mut readers) = Board::start(rt, alloc, Line::new(), topo, 1)?;
    match readers.pop() {
        Some(reader) => Ok((board, reader)),
        None => {
            board.give_up(rt);
            Err(AllocError)
        }
    }
}

/// Ends a board, and lets its first reader learn what was published, and read.
fn learned_end<R: Wait>(
    rt: &R,
    alloc: Global,
    mut board: Board,
    mut reader: TargetReader,
    at: Entity,
) -> Result<Seen, Fail>
    requires going { board.ended ≡ false }
    requires reader { (reader.group ≡ board.group) × (reader.book ≡ board.book) }
    requires entity { IsEntityOf board.group at }
{
    let end = board.end(rt, alloc);
    if let Ok(note) = &end {
        reader.learn(note, board.target());
    }
    board.give_up(rt);
    let seen = reader.read(at, Var::Firmware);
    drop(reader);
    noted(end, seen)
}

/// Ends a board after one merge, gives it up, and lets a reader learn what was published.
fn ended_and_learned<R: Wait>(
    rt: &R,
    alloc: Global,
    topo: &GroupTopo,
    rows: &[Row],
    at: Entity,
) -> Result<Seen, Fail> {
    if !topo.rows_fit(rows) || !topo.has(at) {
        return Err(Fail::new(OTHER_GROUP));
    }
    let (mut board, reader) = start_one(rt, alloc, topo)?;
    match board.publish(rt, alloc, rows) {
        Ok(note) => {
            drop(note);
            learned_end(rt, alloc, board, reader, at)
        }
        Err(AllocError) => {
            board.give_up(rt);
            drop(reader);
            Err(Fail::new("no memory"))
        }
    }
}

#[test]
fn a_reader_that_learned_the_end_has_the_whole_front(rt: HostRuntime) -> Result<(), Fail> {
    let topo = group(rt.alloc(), LONE)?;
    let seen = ended_and_learned(&rt, rt.alloc(), &topo, &[FIRMWARE], A1);
    drop(topo);
    assert_eq!(rt; seen?, MERGED);
    Ok(())
}

/// Reads, and gives the reader back.
fn read_once(mut reader: TargetReader, at: Entity) -> (Seen, TargetReader)
    requires { IsEntityOf reader.group at }
    ensures { result.1.group ≡ reader.group }
{
    (reader.read(at, Var::Firmware), reader)
}

/// Publishes in one thread while another reads: what it saw then, and what it sees afterwards.
fn read_beside<R: Threads + Wait + Sync>(
    rt: &R,
    alloc: Global,
    topo: &GroupTopo,
    rows: &[Row],
    at: Entity,
) -> Result<(Seen, Seen), Fail> {
    if !topo.rows_fit(rows) || !topo.has(at) {
        return Err(Fail::new(OTHER_GROUP));
    }
    let (mut board, reader) = start_one(rt, alloc, topo)?;
    let ((first, mut reader), note) = join(
        rt,
        move || -> (Seen, TargetReader)
            requires { IsEntityOf reader.group at }
            ensures { result.1.group ≡ reader.group }
        { read_once(reader, at) },
        || -> Result<Note, AllocError>
            requires { (board.ended ≡ false) × (length board.proposals + 1 < 2 ^ 32) × All (RowFits board.group) rows.now }
        { board.publish(rt, alloc, rows) },
    );
    let then = reader.read(at, Var::Firmware);
    board.give_up(rt);
    drop(reader);
    noted(note, (first, then))
}

#[test]
fn a_thread_reads_one_version_or_the_other(rt: HostRuntime) -> Result<(), Fail> {
    let topo = group(rt.alloc(), LONE)?;
    let seen = read_beside(&rt, rt.alloc(), &topo, &[FIRMWARE], A1);
    drop(topo);
    let (first, then) = seen?;
    let is_one = first == OPENING || first == MERGED;
    assert_eq!(rt; (is_one, then), (true, MERGED));
    Ok(())
}

/// What each reader sees.
fn read_each(alloc: Global, readers: Vec<TargetReader>, at: Entity) -> Result<Vec<Seen>, AllocError>
    requires { All (λ r. IsEntityOf r.group at) readers.items }
{
    let mut readers = readers;
    let mut all = Vec::new(alloc);
    for _ in 0..readers.len() {
        let Some(reader) = readers.pop() else {
            break;
        };
        let (seen, _reader) = read_once(reader, at);
        all.push(seen)?;
    }
    Ok(all)
}

/// Publishes the rows for as many readers as a board may have, and lets each read.
fn read_by_all<R: Wait>(
    rt: &R,
    alloc: Global,
    topo: &GroupTopo,
    rows: &[Row],
    at: Entity,
) -> Result<Vec<Seen>, Fail>
    requires { All (RowFits topo.now) rows.now × IsEntityOf topo.now at }
{
    let (mut board, readers) = Board::start(rt, alloc, Line::new(), topo, MAX_READERS)?;
    let note = board.publish(rt, alloc, rows);
    let seen = read_each(alloc, readers, at);
    board.give_up(rt);
    Ok(noted(note, seen)??)
}

/// The same of rows and an entity that the group is to have.
fn all_seen<R: Wait>(
    rt: &R,
    alloc: Global,
    topo: &GroupTopo,
    rows: &[Row],
    at: Entity,
) -> Result<Vec<Seen>, Fail> {
    if !topo.rows_fit(rows) || !topo.has(at) {
        return Err(Fail::new(OTHER_GROUP));
    }
    read_by_all(rt, alloc, topo, rows, at)
}

/// How many have seen the merge.
fn merged_count(all: &[Seen]) -> u32 {
    let mut count = 0u32;
    for seen in all {
        if *seen == MERGED {
            count = count.wrapping_add(1);
        }
    }
    count
}

#[test]
fn each_of_512_readers_sees_the_merge(rt: HostRuntime) -> Result<(), Fail> {
    let topo = group(rt.alloc(), LONE)?;
    let all = all_seen(&rt, rt.alloc(), &topo, &[FIRMWARE], A1);
    drop(topo);
    let all = all?;
    let merged = merged_count(all.as_slice());
    assert_eq!(rt; (all.len(), merged), (512, 512));
    Ok(())
}

/// Lets a reader learn a note of the opening after it has read a merge.
fn learned_by<R: Wait>(
    rt: &R,
    alloc: Global,
    topo: &GroupTopo,
    rows: &[Row],
    at: Entity,
    opening: &Table,
) -> Result<Seen, Fail>
    requires { IsMergeOf topo.now [] opening.now }
{
    if !topo.rows_fit(rows) || !topo.has(at) {
        return Err(Fail::new(OTHER_GROUP));
    }
    let (mut board, mut reader) = start_one(rt, alloc, topo)?;
    let early = board.note();
    let note = board.publish(rt, alloc, rows);
    let _seen = reader.read(at, Var::Firmware);
    reader.learn(&early, opening);
    drop(early);
    board.give_up(rt);
    let seen = reader.read(at, Var::Firmware);
    drop(reader);
    noted(note, seen)
}

/// The same, by the table of the group's opening.
fn learned_late<R: Wait>(
    rt: &R,
    alloc: Global,
    topo: &GroupTopo,
    rows: &[Row],
    at: Entity,
) -> Result<Seen, Fail> {
    let opening = Table::opening(alloc, topo)?;
    let seen = learned_by(rt, alloc, topo, rows, at, &opening);
    drop(opening);
    seen
}

#[test]
fn an_early_note_takes_nothing_back(rt: HostRuntime) -> Result<(), Fail> {
    let topo = group(rt.alloc(), LONE)?;
    let seen = learned_late(&rt, rt.alloc(), &topo, &[FIRMWARE], A1);
    drop(topo);
    assert_eq!(rt; seen?, MERGED);
    Ok(())
}
