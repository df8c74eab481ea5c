//! The line of an entry for each event and for each reply, worked out by hand on the two-path group.

use crate::journals::groups::{Setting, three_groups};
use crate::outcome::holds;
use st_entry::{print_entry, print_saw};
use st_event::{Cause, Entry, Event, Lack, LogSaw, Receipt, Reply, Rows, Verdict};
use st_net::{
    AppId, Broken, BrokenKind, BrokenOf, Entity, GroupTopo, Name, Prio, Row, Side, Vals, Var,
};
use st_text::Text;
use std::alloc::{AllocError, Global};
use std::test::Fail;

const A1: Entity = Entity::Device(2);

const L1: Entity = Entity::Link(0);

const TE: AppId = AppId(0);

const UP: AppId = AppId(1);

const FIRMWARE: Row = Row {
    entity: A1,
    var: Var::Firmware,
    value: 2,
};

const IFACE: Row = Row {
    entity: L1,
    var: Var::Iface,
    value: 4294967295,
};

/// Prints these entries, each as the seventh.
fn print(
    topo: &GroupTopo,
    apps: &[Name],
    entries: &[Entry],
    out: &mut Text,
) -> Result<(), AllocError> {
    for entry in entries {
        print_entry(topo, apps, 7, entry, out)?;
    }
    Ok(())
}

/// Whether these entries have these lines in the first group.
fn is_printed(given: &Setting, entries: &[Entry], text: &str) -> Result<bool, AllocError> {
    let Some(topo) = given.topos.first() else {
        return Ok(false);
    };
    let mut out = Text::new(given.alloc);
    let printed = print(topo, given.apps.as_slice(), entries, &mut out);
    let is = out.bytes() == text.as_bytes();
    drop(out);
    printed?;
    Ok(is)
}

/// These entries are to have these lines.
fn prints(alloc: Global, entries: &[Entry], text: &str) -> Result<(), Fail> {
    let given = three_groups(alloc)?;
    let is_printed = is_printed(&given, entries, text);
    drop(given);
    holds(is_printed)
}

fn entry(event: Event, reply: Reply) -> Entry {
    Entry { event, reply }
}

fn submit(alloc: Global, rows: &[Row]) -> Result<Event, AllocError> {
    Ok(Event::Submit {
        app: UP,
        rows: Rows::from_slice(alloc, rows)?,
    })
}

#[test]
fn proposals_have_their_words(rt: HostRuntime) -> Result<(), Fail> {
    let one = submit(rt.alloc(), &[FIRMWARE])?;
    let two = submit(rt.alloc(), &[FIRMWARE, IFACE])?;
    let entries = [
        entry(one, Reply::Queued { ticket: 1 }),
        entry(two, Reply::Full { pending: 64 }),
    ];
    let text = "\
7 submit up a1.firmware=2 : queued 1
7 submit up a1.firmware=2 l1.iface=4294967295 : full 64
";
    prints(rt.alloc(), &entries, text)
}

fn lock(prio: Prio) -> Event {
    Event::Lock {
        app: TE,
        entity: A1,
        prio,
    }
}

fn unlock() -> Event {
    Event::Unlock {
        app: UP,
        entity: L1,
        prio: Prio::Low,
    }
}

#[test]
fn locks_have_their_words(rt: HostRuntime) -> Result<(), Fail> {
    let entries = [
        entry(lock(Prio::Low), Reply::Granted),
        entry(lock(Prio::High), Reply::Held { holder: UP }),
        entry(unlock(), Reply::Released),
        entry(unlock(), Reply::NotYours { holder: Some(TE) }),
        entry(unlock(), Reply::NotYours { holder: None }),
    ];
    let text = "\
7 lock te a1 low : granted
7 lock te a1 high : held up
7 unlock up l1 low : released
7 unlock up l1 low : notyours te
7 unlock up l1 low : notyours -
";
    prints(rt.alloc(), &entries, text)
}

fn send() -> Event {
    Event::Send { entity: A1 }
}

fn deliver() -> Event {
    Event::Deliver { command: 3 }
}

fn finish() -> Event {
    Event::Finish { entity: A1 }
}

#[test]
fn commands_have_their_words(rt: HostRuntime) -> Result<(), Fail> {
    let entries = [
        entry(send(), Reply::Sent { command: 3 }),
        entry(send(), Reply::Settled),
        entry(send(), Reply::Blocked { row: FIRMWARE }),
        entry(deliver(), Reply::Begun),
        entry(deliver(), Reply::Stale { fence: 9 }),
        entry(deliver(), Reply::NoSuch { sent: 2 }),
        entry(finish(), Reply::Done),
        entry(finish(), Reply::NotBusy),
    ];
    let text = "\
7 send a1 : sent 3
7 send a1 : settled
7 send a1 : blocked a1.firmware=2
7 deliver 3 : begun
7 deliver 3 : stale 9
7 deliver 3 : nosuch 2
7 finish a1 : done
7 finish a1 : notbusy
";
    prints(rt.alloc(), &entries, text)
}

fn withdraw() -> Event {
    Event::Withdraw { entity: A1 }
}

#[test]
fn withdrawals_have_their_words(rt: HostRuntime) -> Result<(), Fail> {
    let rows = Rows::from_slice(rt.alloc(), &[FIRMWARE])?;
    let entries = [
        entry(withdraw(), Reply::Withdrawn { version: 2, rows }),
        entry(withdraw(), Reply::Kept),
    ];
    let text = "\
7 withdraw a1 : withdrawn 2 a1.firmware=2
7 withdraw a1 : kept
";
    prints(rt.alloc(), &entries, text)
}

fn report() -> Event {
    Event::Report { entity: A1 }
}

fn hear() -> Event {
    Event::Hear { report: 2 }
}

fn fail(entity: Entity, vals: [u32; 4], health: u32) -> Event {
    let [v0, v1, v2, v3] = vals;
    Event::Fail {
        entity,
        vals: Vals { v0, v1, v2, v3 },
        health,
    }
}

#[test]
fn reports_and_failures_have_their_words(rt: HostRuntime) -> Result<(), Fail> {
    let entries = [
        entry(report(), Reply::Reported { report: 2 }),
        entry(hear(), Reply::Taken),
        entry(hear(), Reply::Old { kept: 4 }),
        entry(fail(A1, [1, 9, 8, 0], 5), Reply::Changed),
        entry(fail(L1, [0, 4, 0, 0], 1), Reply::Changed),
    ];
    let text = "\
7 report a1 : reported 2
7 hear 2 : taken
7 hear 2 : old 4
7 fail a1 5 power=1 firmware=9 config=8 routing=0 : changed
7 fail l1 1 power=0 iface=4 : changed
";
    prints(rt.alloc(), &entries, text)
}

/// A check that decides so.
fn decides(ticket: u32, verdict: Verdict) -> Entry {
    let receipt = Receipt {
        ticket,
        entry: 7,
        verdict,
    };
    entry(Event::Check, Reply::Decided(receipt))
}

/// A check that refuses the second proposal.
fn refuses(cause: Cause) -> Entry {
    decides(2, Verdict::Refused(cause))
}

fn lacks(row: Row, lack: Lack) -> Entry {
    refuses(Cause::NotControllable { row, lack })
}

#[test]
fn decisions_have_their_words(rt: HostRuntime) -> Result<(), Fail> {
    let level = Lack::Level {
        of: A1,
        level: 0,
        needs: 4,
    };
    let locked = Cause::Locked {
        entity: L1,
        holder: TE,
        prio: Prio::High,
    };
    let entries = [
        entry(Event::Check, Reply::Idle),
        decides(1, Verdict::Accepted { version: 1 }),
        lacks(IFACE, level),
        lacks(FIRMWARE, Lack::PowerOff),
        refuses(locked),
    ];
    let text = "\
7 check : idle
7 check : receipt 1 accepted 1
7 check : receipt 2 refused level l1.iface=4294967295 of a1 has 0 needs 4
7 check : receipt 2 refused off a1.firmware=2
7 check : receipt 2 refused locked l1 te high
";
    prints(rt.alloc(), &entries, text)
}

fn breaks(alloc: Global, kind: BrokenKind, has: u64) -> Result<Entry, AllocError> {
    let broken = Broken {
        of: BrokenOf::Promise(0),
        kind,
        need: 4294967295,
        has,
        side: Side::from_slice(alloc, [0, 2].as_slice())?,
    };
    Ok(refuses(Cause::Broken(broken)))
}

#[test]
fn broken_promises_have_their_words(rt: HostRuntime) -> Result<(), Fail> {
    let cut_off = breaks(rt.alloc(), BrokenKind::CutOff, 0)?;
    let short = breaks(rt.alloc(), BrokenKind::Short, 10)?;
    let text = "\
7 check : receipt 2 refused broken t1 t2 cutoff need 4294967295 has 0 side t1 a1
7 check : receipt 2 refused broken t1 t2 short need 4294967295 has 10 side t1 a1
";
    prints(rt.alloc(), &[cut_off, short], text)
}

/// What commands saw.
const SAWS: [LogSaw; 3] = [
    LogSaw::Seen {
        version: 3,
        value: 12,
    },
    LogSaw::At {
        version: 0,
        value: 1,
    },
    LogSaw::NoVersion {
        asked: 4294967295,
        latest: 3,
    },
];

fn print_saws(out: &mut Text) -> Result<(), AllocError> {
    for saw in SAWS {
        print_saw(saw, out)?;
    }
    Ok(())
}

#[test]
fn what_was_seen_has_its_words(rt: HostRuntime) -> Result<(), Fail> {
    let mut out = Text::new(rt.alloc());
    let printed = print_saws(&mut out);
    let words = b" version 3 value 12 at 0 value 1 at 4294967295 none latest 3";
    let is_printed = out.bytes() == words.as_slice();
    drop(out);
    printed?;
    holds(Ok(is_printed))
}
