//! What the tests play on a service, each with its own passes.

use super::gate::{HeldJudge, Meeting};
use super::jobs::{Played, Script};
use super::stage::{Stage, has_latest};
use Asks::{Await, Fail as Fails, Lock, Poll, Propose, Read, ReadAt, Settle, Unlock};
use Deed::{
    DecidesFirst, Does, FindsFull, FindsNone, HasLatest, HasReadTwo, Monitor, Round, Update,
};
use st_crew::{Gate, NoGate, crew_run};
use st_event::{Act, LogSaw, Rows, Verdict};
use st_net::{Entity, Prio, Row, Var};
use st_service::{Acted, Naming, OffLock, Pass};
use st_world::Rounded;
use std::alloc::{AllocError, Global};
use std::sync::Wait;
use std::sync::ledger::Ledger;
use std::test::Fail;
use std::thread::Threads;

/// What is played.
#[derive(Clone, Copy)]
pub enum Scenario {
    /// Two threads propose, await and read.
    TwoPropose,
    /// An application awaits, and its judge waits until another has locked and read.
    JudgedAway,
    /// Each application reads, and waits until all have read.
    AllRead,
    /// What one thread does, a pass behind another.
    InTurn(&'static [Turn]),
}

/// A pass, by its number, and what is done with it.
pub type Turn = (usize, Deed);

/// What one thread does with a pass, and what is to come of it.
#[derive(Clone, Copy)]
pub enum Deed {
    /// An application does an act to its end.
    Does(Asks),
    /// An application finds the journal full.
    FindsFull(Asks),
    /// A worker does a round, which leaves so many entities unsettled.
    Round(u32),
    /// A worker does the half of a round that updates, behind which so many are unsettled.
    Update(u32),
    /// A worker does the half that monitors, which leaves so many unsettled.
    Monitor(u32),
    /// A worker checks off the lock, and so decides ticket 1 by entry 2, which accepts it as version 1.
    DecidesFirst,
    /// A worker checks off the lock, and nothing waits.
    FindsNone,
    /// This is the ticket of the application's last proposal.
    HasLatest(Option<u32>),
    /// The application has logged one line, of value 2 at version 1.
    HasReadTwo,
}

/// An act on the one group, and on its first switch.
#[derive(Clone, Copy)]
pub enum Asks {
    /// To propose another firmware.
    Propose,
    Await,
    /// To settle with so many rounds at the most.
    Settle(u32),
    Lock,
    Unlock,
    Read,
    /// To read at a version.
    ReadAt(u32),
    /// That the switch comes to have this health, of itself.
    Fail(u32),
    Poll,
}

/// One application proposes and awaits; the other settles, and reads.
pub const SETTLE_AFTER_AWAIT: &[Turn] = &[
    (0, Does(Propose)),
    (0, Does(Await)),
    (0, HasLatest(Some(1))),
    (1, Does(Settle(2))),
    (1, Does(Read)),
    (1, HasLatest(None)),
];

/// A worker does a round.
pub const WORKER_ROUND: &[Turn] = &[(0, Does(Propose)), (0, Does(Await)), (1, Round(0))];

/// One worker updates, which sends, and another monitors, which settles all.
pub const WORKER_HALVES: &[Turn] = &[
    (0, Does(Propose)),
    (0, Does(Await)),
    (1, Update(1)),
    (2, Monitor(0)),
    (0, Does(ReadAt(1))),
];

/// A worker checks off the lock, twice; then one updates, and another monitors.
pub const WORKER_CALLS: &[Turn] = &[
    (0, Does(Propose)),
    (1, DecidesFirst),
    (1, FindsNone),
    (2, Update(1)),
    (3, Monitor(0)),
    (0, Does(ReadAt(1))),
    (0, HasReadTwo),
];

/// A worker checks off the lock, and the application settles.
pub const SETTLE_AFTER_CHECK: &[Turn] = &[
    (0, Does(Propose)),
    (1, DecidesFirst),
    (0, Does(Settle(1))),
];

/// An application does an act of each other kind.
pub const EACH_ACT: &[Turn] = &[
    (0, Does(Lock)),
    (0, Does(Unlock)),
    (0, Does(Fails(4))),
    (0, Does(Poll)),
    (0, Does(Await)),
    (0, Does(ReadAt(9))),
    (0, Does(Read)),
];

/// An application settles a switch that fails at its target, and so is sent to in each round and settled in none, until the journal is full.
/// A read needs no room in the journal.
pub const FULL_JOURNAL: &[Turn] = &[
    (0, Does(Propose)),
    (0, Does(Await)),
    (0, Does(Fails(0))),
    (0, Does(Poll)),
    (0, FindsFull(Settle(200_000))),
    (0, Does(Read)),
    (0, FindsFull(Poll)),
];

const A1: Entity = Entity::Device(2);

const A2: Entity = Entity::Device(3);

const READ: Act = Act::Read {
    group: 0,
    entity: A1,
    var: Var::Firmware,
};

/// A proposal of another firmware.
fn propose(alloc: Global, entity: Entity) -> Result<Act, AllocError> {
    let mut rows = Vec::new(alloc);
    rows.push(Row {
        entity,
        var: Var::Firmware,
        value: 2,
    })?;
    Ok(Act::Propose {
        group: 0,
        rows: Rows::new(rows),
    })
}

/// Whether an application has logged one line, of value 2 at version 1.
fn has_read_two<J: Naming, L: Ledger>(pass: &Pass<J, L>) -> bool {
    match pass.log().as_slice() {
        [line] => line.saw
            == LogSaw::At {
                version: 1,
                value: 2,
            },
        _ => false,
    }
}

const AWAIT: Act = Act::Await { group: 0 };

/// The act that is asked for.
fn act_of(alloc: Global, asks: Asks) -> Result<Act, AllocError> {
    let (group, entity, prio, var) = (0, A1, Prio::Low, Var::Firmware);
    match asks {
        Propose => propose(alloc, entity),
        Await => Ok(AWAIT),
        Settle(rounds) => Ok(Act::Settle { group, rounds }),
        Lock => Ok(Act::Lock {
            group,
            entity,
            prio,
        }),
        Unlock => Ok(Act::Unlock {
            group,
            entity,
            prio,
        }),
        Read => Ok(READ),
        ReadAt(version) => Ok(Act::ReadAt {
            group,
            version,
            entity,
            var,
        }),
        Fails(health) => Ok(Act::Fail {
            group,
            entity,
            health,
            rows: Rows::new(Vec::new(alloc)),
        }),
        Poll => Ok(Act::Poll { group, entity }),
    }
}

fn expect(holds: bool) -> Result<(), Fail> {
    if holds {
        Ok(())
    } else {
        Err(Fail::new("not as expected"))
    }
}

/// Plays a scenario, and gives the passes back in their order.
pub fn play<
    J: Naming + Send + Sync,
    L: Ledger + Send + Sync,
    H: Wait + Drop + Send + Sync,
    R: Threads + Wait + Sync,
>(
    rt: &R,
    stage: &Stage<'_, J, L, H>,
    passes: Vec<Pass<J, L>>,
    scenario: Scenario,
) -> Result<Vec<Pass<J, L>>, Fail> {
    match scenario {
        Scenario::TwoPropose => two_propose(rt, stage, passes),
        Scenario::JudgedAway => judged_away(rt, stage, passes),
        Scenario::AllRead => all_read(rt, stage, passes),
        Scenario::InTurn(turns) => played_in_turn(rt, stage, passes, turns),
    }
}

/// Does an act for an application.
fn acted<J: Naming, L: Ledger, H: Wait + Drop, R: Threads + Wait + Sync>(
    rt: &R,
    stage: &Stage<'_, J, L, H>,
    app: &mut Pass<J, L>,
    asks: Asks,
) -> Result<Acted, AllocError> {
    let act = act_of(stage.alloc, asks)?;
    let acted = stage.act(rt, app, &act, &NoGate);
    drop(act);
    acted
}

/// What a check off the lock came to.
#[derive(Clone, Copy, PartialEq, Eq)]
enum Found {
    /// It decided ticket 1 by entry 2, which accepted it as version 1.
    First,
    None,
    Other,
}

fn found_by(checked: &OffLock) -> Found {
    match checked {
        OffLock::Decided(receipt) => {
            let first = matches!(receipt.verdict, Verdict::Accepted { version: 1 });
            if receipt.ticket == 1 && receipt.entry == 2 && first {
                Found::First
            } else {
                Found::Other
            }
        }
        OffLock::Idle => Found::None,
        OffLock::Gone { .. } | OffLock::JournalFull { .. } => Found::Other,
    }
}

/// Lets a worker check off the lock.
fn checked<J: Naming, L: Ledger, H: Wait + Drop, R: Threads + Wait + Sync>(
    rt: &R,
    stage: &Stage<'_, J, L, H>,
    checker: &mut Pass<J, L>,
) -> Result<Found, AllocError> {
    let checked = stage.check(rt, checker, &NoGate)?;
    let found = found_by(&checked);
    drop(checked);
    Ok(found)
}

/// Lets a worker do a round, or a half of one, and says whether it leaves so many entities unsettled.
fn leaves(rounded: Result<Rounded, AllocError>, unsettled: u32) -> Result<bool, AllocError> {
    Ok(rounded? == Rounded::Did { unsettled })
}

/// Does with a pass what is to be done, and says whether what is to come of it came.
fn comes<J: Naming, L: Ledger, H: Wait + Drop, R: Threads + Wait + Sync>(
    rt: &R,
    stage: &Stage<'_, J, L, H>,
    pass: &mut Pass<J, L>,
    deed: Deed,
) -> Result<bool, AllocError> {
    match deed {
        Does(asks) => Ok(acted(rt, stage, pass, asks)? == Acted::Done),
        FindsFull(asks) => Ok(acted(rt, stage, pass, asks)? == Acted::JournalFull { group: 0 }),
        Round(unsettled) => leaves(stage.round(rt, pass), unsettled),
        Update(unsettled) => leaves(stage.update(rt, pass), unsettled),
        Monitor(unsettled) => leaves(stage.monitor(rt, pass), unsettled),
        DecidesFirst => Ok(checked(rt, stage, pass)? == Found::First),
        FindsNone => Ok(checked(rt, stage, pass)? == Found::None),
        HasLatest(ticket) => Ok(has_latest(pass, ticket)),
        HasReadTwo => Ok(has_read_two(pass)),
    }
}

/// Does one deed behind another, until something else comes of one. Says how many came to what they are to come to.
fn turns_kept<J: Naming, L: Ledger, H: Wait + Drop, R: Threads + Wait + Sync>(
    rt: &R,
    stage: &Stage<'_, J, L, H>,
    passes: &mut [Pass<J, L>],
    turns: &[Turn],
) -> Result<usize, AllocError> {
    for n in 0..turns.len() {
        let (number, deed) = turns[n];
        match passes.get_mut(number) {
            Some(pass) => {
                if !comes(rt, stage, pass, deed)? {
                    return Ok(n);
                }
            }
            None => return Ok(n),
        }
    }
    Ok(turns.len())
}

fn played_in_turn<J: Naming, L: Ledger, H: Wait + Drop, R: Threads + Wait + Sync>(
    rt: &R,
    stage: &Stage<'_, J, L, H>,
    passes: Vec<Pass<J, L>>,
    turns: &[Turn],
) -> Result<Vec<Pass<J, L>>, Fail> {
    let mut passes = passes;
    let kept = turns_kept(rt, stage, passes.as_mut_slice(), turns);
    kept_passes(passes, kept, turns.len())
}

/// These values, where as many turns were kept as there are.
fn kept_passes<T: Drop>(
    values: Vec<T>,
    kept: Result<usize, AllocError>,
    all: usize,
) -> Result<Vec<T>, Fail> {
    match kept {
        Ok(count) if count == all => Ok(values),
        _ => {
            drop(values);
            Err(Fail::new("another turn, or no memory"))
        }
    }
}

/// The passes of scripts of which each was done.
fn passes_of<J: Naming, L: Ledger>(
    alloc: Global,
    ends: Vec<Played<J, L>>,
) -> Result<Vec<Pass<J, L>>, Fail> {
    let mut passes = Vec::new(alloc);
    for end in ends {
        expect(end.is_done)?;
        passes.push(end.pass)?;
    }
    Ok(passes)
}

/// The ends of as many threads as there are passes, of which the first does the first acts, and each other one the others.
fn all_do<
    'a,
    J: Naming + Send + Sync,
    L: Ledger + Send + Sync,
    H: Wait + Drop + Send + Sync,
    R: Threads + Wait + Sync,
    G: Gate + Sync,
>(
    rt: &R,
    stage: &'a Stage<'a, J, L, H>,
    passes: Vec<Pass<J, L>>,
    first: &'a [Act],
    others: &'a [Act],
    gate: &G,
) -> Result<Vec<Played<J, L>>, AllocError> {
    let mut jobs = Vec::new(stage.alloc);
    for pass in passes {
        let acts = if pass.number() == 0 { first } else { others };
        jobs.push(Script { stage, pass, acts })?;
    }
    crew_run(rt, jobs, gate)
}

fn two_propose<
    J: Naming + Send + Sync,
    L: Ledger + Send + Sync,
    H: Wait + Drop + Send + Sync,
    R: Threads + Wait + Sync,
>(rt: &R, stage: &Stage<'_, J, L, H>, passes: Vec<Pass<J, L>>) -> Result<Vec<Pass<J, L>>, Fail> {
    let first = [propose(stage.alloc, A1)?, AWAIT, READ];
    let second = [propose(stage.alloc, A2)?, AWAIT, READ];
    let ends = all_do(rt, &*stage, passes, &first, &second, &NoGate)?;
    passes_of(stage.alloc, ends)
}

/// One application awaits its proposal. The other reads, waits until the proposal is judged, locks a switch, and reads again, which the
/// judge waits for.
fn judged_away<
    J: Naming + Send + Sync,
    L: Ledger + Send + Sync,
    H: Wait + Drop + Send + Sync,
    R: Threads + Wait + Sync,
>(rt: &R, stage: &Stage<'_, J, L, H>, passes: Vec<Pass<J, L>>) -> Result<Vec<Pass<J, L>>, Fail> {
    let first = [propose(stage.alloc, A1)?, AWAIT];
    let lock = Act::Lock {
        group: 0,
        entity: A2,
        prio: Prio::Low,
    };
    let second = [READ, lock, READ];
    let gate = HeldJudge::new();
    let ends = all_do(rt, &*stage, passes, &first, &second, &gate)?;
    expect(gate.was_kept())?;
    passes_of(stage.alloc, ends)
}

fn all_read<
    J: Naming + Send + Sync,
    L: Ledger + Send + Sync,
    H: Wait + Drop + Send + Sync,
    R: Threads + Wait + Sync,
>(rt: &R, stage: &Stage<'_, J, L, H>, passes: Vec<Pass<J, L>>) -> Result<Vec<Pass<J, L>>, Fail> {
    let gate = Meeting::of(passes.len().min(512) as u32);
    let ends = all_do(rt, &*stage, passes, &[READ], &[READ], &gate)?;
    expect(gate.was_kept())?;
    passes_of(stage.alloc, ends)
}
