//! `run`: scripts by threads. Where the order in which threads come matters, a gate holds them.

use super::gates::{Behind, Checked, Halves, Leader, Meeting, Relay};
use super::{Called, FIRST, HALF, TWO_PATHS, Told, call_at, holds, kept, reply_of, tell, tells};
use st_crew::{Gate, NoGate};
use st_event::{Event, LogSaw, Reply};
use st_top::Status;
use std::alloc::{AllocError, Global};
use std::sync::Wait;
use std::test::Fail;
use std::thread::Threads;

/// A run of a document of these parts, by threads.
fn run<R: Threads + Wait + Sync, G: Gate + Sync>(
    rt: &R,
    alloc: Global,
    parts: &[&[u8]],
    gate: &G,
) -> Result<Called, AllocError> {
    call_at(rt, alloc, &["run"], parts, gate)
}

/// What such a run tells.
fn tell_run<R: Threads + Wait + Sync, G: Gate + Sync>(
    rt: &R,
    alloc: Global,
    parts: &[&[u8]],
    gate: &G,
) -> Result<Told, AllocError> {
    Ok(run(rt, alloc, parts, gate)?.into_told())
}

/// Whether such a run succeeds with this text.
fn run_tells<R: Threads + Wait + Sync, G: Gate + Sync>(
    rt: &R,
    alloc: Global,
    parts: &[&[u8]],
    gate: &G,
    text: &[u8],
) -> Result<bool, AllocError> {
    tells(tell_run(rt, alloc, parts, gate), Status::Ok, text)
}

/// How such a run ends.
fn status_of<R: Threads + Wait + Sync, G: Gate + Sync>(
    rt: &R,
    alloc: Global,
    parts: &[&[u8]],
    gate: &G,
) -> Result<Status, AllocError> {
    let told = tell_run(rt, alloc, parts, gate)?;
    let status = told.status;
    drop(told);
    Ok(status)
}

#[test]
fn two_applications_work_at_once(rt: HostRuntime) -> Result<(), Fail> {
    let alloc = rt.alloc();
    let scripts = b"\
app up
read dc1 a1.firmware
app te
read dc1 a1.firmware
";
    let gate = Meeting::of(2);
    let text = b"\
statesman report 1
group dc1
version 0
entries 0
wire commands 0 reports 0 stale 0 old 0
promises 1 start 1 now 1
read up dc1 a1.firmware version 0 value 1
read te dc1 a1.firmware version 0 value 1
end
";
    let is_told = run_tells(&rt, alloc, &[TWO_PATHS, HALF, scripts], &gate, text);
    kept(gate.was_kept(), is_told)
}

/// How a call ended, and what the second read of the second application saw.
fn second_seen(called: Called) -> (Status, Option<LogSaw>) {
    let status = called.outcome.status;
    let seen = match called.outcome.logs.as_slice().get(1) {
        Some(log) => log.entries.as_slice().get(1).map(|line| line.saw),
        None => None,
    };
    drop(called);
    (status, seen)
}

#[test]
fn a_reader_sees_what_it_was_not_told(rt: HostRuntime) -> Result<(), Fail> {
    let alloc = rt.alloc();
    let scripts = b"\
await dc1
read dc1 a1.firmware
app te
read dc1 a1.firmware
read dc1 a1.firmware
";
    let gate = Leader::of(0, 1);
    let called = run(&rt, alloc, &[TWO_PATHS, HALF, FIRST, scripts], &gate)?;
    // The second read of `te`, which took no lock, stands behind all that `up` did.
    let accepted = LogSaw::Seen {
        version: 1,
        value: 2,
    };
    assert_eq!(&rt;
        (gate.was_kept(2), second_seen(called)),
        (true, (Status::Ok, Some(accepted)))
    );
    Ok(())
}

/// An application that proposes and awaits, and one that locks a link and reads.
const WAITS: &[u8] = b"\
app up
propose dc1 a1.firmware=2
await dc1
";

const LOCKS: &[u8] = b"\
app te
lock dc1 l1 low
read dc1 a1.firmware
";

/// What they come to, where the read went ahead of the judgement.
const JUDGED: &[u8] = b"\
statesman report 1
group dc1
version 1
entries 3
lock te l1 low granted
receipt 1 up accepted 1
target a1.firmware=2
unsettled a1
wire commands 0 reports 0 stale 0 old 0
promises 1 start 1 now 1
read te dc1 a1.firmware version 0 value 1
end
";

#[test]
fn a_proposal_is_judged_while_others_hold_the_lock(rt: HostRuntime) -> Result<(), Fail> {
    let alloc = rt.alloc();
    for (reader, first, second) in [(1, WAITS, LOCKS), (0, LOCKS, WAITS)] {
        let gate = Behind::judgements(reader);
        let is_told = run_tells(&rt, alloc, &[TWO_PATHS, HALF, first, second], &gate, JUDGED)?;
        assert_eq!(&rt; (gate.was_kept(), is_told), (true, true), "{reader}");
    }
    Ok(())
}

fn add_line(text: &mut Vec<u8>, line: Result<String, AllocError>) -> Result<(), AllocError> {
    text.extend_from_slice(line?.as_bytes())
}

/// Sixteen groups of a switch, and an application that proposes four times to each, group after group, and reads.
fn sixteen_groups(alloc: Global) -> Result<Vec<u8>, AllocError> {
    let mut text = b"statesman 1\n".to_vec(alloc)?;
    for group in 0..16u32 {
        add_line(
            &mut text,
            format!(in alloc; "group g{group}\ndevice a switch\n"),
        )?;
    }
    text.extend_from_slice(b"app up\n")?;
    for line in 0..64u32 {
        let group = line % 16;
        add_line(
            &mut text,
            format!(in alloc; "propose g{group} a.config=2\n"),
        )?;
    }
    text.extend_from_slice(b"read g0 a.config\n")?;
    Ok(text)
}

/// Whether a checker is seen in one of 200 runs of a text, each of which has to succeed.
fn has_checker<R: Threads + Wait + Sync>(
    rt: &R,
    alloc: Global,
    text: &[u8],
) -> Result<bool, AllocError> {
    for _time in 0..200 {
        let gate = Checked::new();
        if status_of(rt, alloc, &[text], &gate)? != Status::Ok {
            return Ok(false);
        }
        if gate.was_seen() {
            return Ok(true);
        }
    }
    Ok(false)
}

#[test]
fn a_checker_judges_what_nobody_awaits(rt: HostRuntime) -> Result<(), Fail> {
    let text = sixteen_groups(rt.alloc())?;
    // Checkers may look before there are proposals, as often as they look at all, but not each of them each time.
    let has_checker = has_checker(&rt, rt.alloc(), text.as_slice());
    drop(text);
    holds(has_checker)
}

/// What comes of a proposal on two switches that an updater and a monitor settle.
const SETTLED: &[u8] = b"\
statesman report 1
group dc1
version 1
entries 12
receipt 1 up accepted 1
target a1.firmware=2
target a2.firmware=2
wire commands 2 reports 2 stale 0 old 0
promises 0 start 0 now 0
read up dc1 a1.firmware version 1 value 2
end
";

/// Whether that came of a call, and the updater's half was of both switches, and then the monitor's: a round would have a report behind
/// each command.
fn settled_in_halves(called: Called) -> bool {
    let is_in_halves = matches!(reply_of(&called, 6), Some(Reply::Sent { command: 2 }))
        && matches!(reply_of(&called, 9), Some(Reply::Reported { report: 1 }));
    let told = called.into_told();
    is_in_halves && told.is(Status::Ok, SETTLED)
}

#[test]
fn an_updater_and_a_monitor_settle_what_was_accepted(rt: HostRuntime) -> Result<(), Fail> {
    let alloc = rt.alloc();
    let script = b"\
app up
propose dc1 a1.firmware=2 a2.firmware=2
await dc1
read dc1 a1.firmware
settle dc1 1
settle dc1 1
";
    let gate = Relay::new();
    let called = run(&rt, alloc, &[TWO_PATHS, script], &gate)?;
    let is_settled = settled_in_halves(called);
    kept(gate.was_kept(), Ok(is_settled))
}

#[test]
fn an_updater_and_a_monitor_work_beside_a_reader(rt: HostRuntime) -> Result<(), Fail> {
    let alloc = rt.alloc();
    let script = b"\
app te
read dc1 a1.firmware
settle dc1 1
";
    let gate = Halves::of(0);
    let text = b"\
statesman report 1
group dc1
version 0
entries 0
wire commands 0 reports 0 stale 0 old 0
promises 1 start 1 now 1
read te dc1 a1.firmware version 0 value 1
end
";
    let is_told = run_tells(&rt, alloc, &[TWO_PATHS, HALF, script], &gate, text);
    kept(gate.was_kept(1), is_told)
}

/// The scripts of as many applications as there may be, each of which reads, proposes and settles.
fn most_scripts(alloc: Global) -> Result<Vec<u8>, AllocError> {
    let mut scripts = Vec::new(alloc);
    for app in 0..32u32 {
        let script = format!(in alloc;
            "app a{app}\nread dc1 a1.firmware\npropose dc1 a1.config=2\nsettle dc1 1\n"
        );
        add_line(&mut scripts, script)?;
    }
    Ok(scripts)
}

/// How a call ended, and how many logs it has.
fn log_count(called: Called) -> (Status, usize) {
    let told = (called.outcome.status, called.outcome.logs.as_slice().len());
    drop(called);
    told
}

#[test]
fn as_many_applications_as_there_may_be_read_at_once(rt: HostRuntime) -> Result<(), Fail> {
    let alloc = rt.alloc();
    let scripts = most_scripts(alloc)?;
    let gate = Meeting::of(32);
    let called = run(&rt, alloc, &[TWO_PATHS, HALF, scripts.as_slice()], &gate);
    drop(scripts);
    let told = log_count(called?);
    assert_eq!(&rt; (gate.was_kept(), told), (true, (Status::Ok, 32)));
    Ok(())
}

/// Whether a command of this number was delivered, and whether a report of this number was heard.
fn brought(called: &Called, number: u32) -> (bool, bool) {
    let mut brought = (false, false);
    for journal in called.outcome.journals.as_slice() {
        for entry in journal.entries.as_slice() {
            match entry.event {
                Event::Deliver { command } if command == number => brought.0 = true,
                Event::Hear { report } if report == number => brought.1 = true,
                _ => {}
            }
        }
    }
    brought
}

/// How a call ended, and what was brought of the first two commands and reports.
fn both_brought(called: Called) -> (Status, (bool, bool), (bool, bool)) {
    let status = called.outcome.status;
    let (first, second) = (brought(&called, 1), brought(&called, 2));
    drop(called);
    (status, first, second)
}

#[test]
fn what_is_lost_never_comes(rt: HostRuntime) -> Result<(), Fail> {
    let alloc = rt.alloc();
    let lines = b"\
drop dc1 command 1
drop dc1 report 2
";
    let script = b"\
app up
propose dc1 a1.firmware=2
await dc1
settle dc1 3
";
    // Whoever makes a turn, the first two commands and reports are made: the first command is lost, and so a second one is sent.
    for _time in 0..50 {
        let called = run(&rt, alloc, &[TWO_PATHS, HALF, lines, script], &NoGate)?;
        assert_eq!(&rt;
            both_brought(called),
            (Status::Ok, (false, true), (true, false))
        );
    }
    Ok(())
}

/// What is lost, held or comes again, and a script of one application, each a document on the two paths.
const ROUNDS: [(&str, &str); 8] = [
    ("drop dc1 command 1\n", TWO_ROUNDS),
    ("repeat dc1 command 1 2\n", TWO_ROUNDS),
    ("repeat dc1 report 1 1\n", TWO_ROUNDS),
    ("hold dc1 command 1 2\n", TWO_ROUNDS),
    ("hold dc1 report 1 2\n", TWO_ROUNDS),
    ("", UNTOLD),
    ("", TOLD),
    ("", SET_BACK),
];

const TWO_ROUNDS: &str = "\
app up
propose dc1 a1.firmware=2
await dc1
settle dc1 2
";

/// A switch fails that no report tells of, and the other one is drained.
const UNTOLD: &str = "\
app plant
fail dc1 a2 0
app up
propose dc1 a1.routing=0
await dc1
settle dc1 1
";

/// A switch fails and is reported before the other one is to be drained.
const TOLD: &str = "\
app plant
fail dc1 a2 0
poll dc1 a2
app up
propose dc1 a1.routing=0
";

/// A switch takes other values of itself, and is sent the wanted ones again.
const SET_BACK: &str = "\
app plant
fail dc1 a1 5 firmware=9
poll dc1 a1
settle dc1 1
";

#[test]
fn rounds_are_run_with_workers_beside_them(rt: HostRuntime) -> Result<(), Fail> {
    let alloc = rt.alloc();
    for (lines, script) in ROUNDS {
        let parts = [TWO_PATHS, HALF, lines.as_bytes(), script.as_bytes()];
        let status = status_of(&rt, alloc, &parts, &NoGate)?;
        assert_eq!(&rt; status, Status::Ok, "{lines}{script}");
    }
    Ok(())
}

/// A second group, and four applications that change a group each, of which two share one. Each group has a checker, an updater and a
/// monitor beside them.
const FOUR: &[u8] = b"\
group dc2
device t1 tor
device t2 tor
device a1 switch
link l1 t1 a1 10
link l2 t2 a1 10
promise t1 t2 0
app up
read dc1 a1.config
propose dc1 a1.config=2
await dc1
read dc1 a1.config
app te
read dc1 a1.config
propose dc1 a1.config=3
await dc1
read dc1 a1.config
settle dc1 2
app third
read dc2 a1.config
propose dc2 a1.config=2
await dc2
read dc2 a1.config
app fourth
read dc2 a1.config
propose dc2 a1.config=3
await dc2
read dc2 a1.config
settle dc2 2
";

/// Runs the four applications with this gate, and prints the run. Gives what was printed.
fn printed<R: Threads + Wait + Sync, G: Gate + Sync>(
    rt: &R,
    alloc: Global,
    gate: &G,
) -> Result<Told, AllocError> {
    let words = ["run", "--form", "replay"];
    Ok(call_at(rt, alloc, &words, &[TWO_PATHS, HALF, FOUR], gate)?.into_told())
}

/// Whether this is a printed run, and is replayed to itself.
fn is_replayed<R: Threads + Wait + Sync>(
    rt: &R,
    alloc: Global,
    printed: &Told,
) -> Result<bool, AllocError> {
    let text = printed.text.as_slice();
    let again = tell(rt, alloc, &["replay", "--form", "replay"], &[text]);
    Ok(tells(again, Status::Ok, text)? && printed.status == Status::Ok)
}

/// Runs the four applications where one of them goes ahead, and replays what is printed of it. Gives that, or nothing where it is
/// another, or where the gate was not kept.
fn led<R: Threads + Wait + Sync>(rt: &R, alloc: Global, app: u32) -> Result<Vec<u8>, AllocError> {
    let gate = Leader::of(app, 2);
    let printed = printed(rt, alloc, &gate)?;
    let is_replayed = is_replayed(rt, alloc, &printed);
    let Told { status: _, text } = printed;
    if gate.was_kept(6) && is_replayed == Ok(true) {
        Ok(text)
    } else {
        drop(text);
        Err(AllocError)
    }
}

/// Whether there are two journals of a group, where one or the other of these two goes ahead.
fn are_several<R: Threads + Wait + Sync>(
    rt: &R,
    alloc: Global,
    first: u32,
    second: u32,
) -> Result<bool, AllocError> {
    let a = led(rt, alloc, first)?;
    let b = led(rt, alloc, second)?;
    Ok(a.as_slice() != b.as_slice())
}

/// Who goes ahead proposes first to its group, so there are several journals.
#[test]
fn several_orders_are_replayed(rt: HostRuntime) -> Result<(), Fail> {
    holds(are_several(&rt, rt.alloc(), 0, 1))?;
    holds(are_several(&rt, rt.alloc(), 2, 3))
}

/// Whether a run whose order is free is replayed to itself.
fn is_free_replayed<R: Threads + Wait + Sync>(rt: &R, alloc: Global) -> Result<bool, AllocError> {
    let printed = printed(rt, alloc, &NoGate)?;
    let is_replayed = is_replayed(rt, alloc, &printed);
    drop(printed);
    is_replayed
}

#[test]
fn each_free_order_is_replayed(rt: HostRuntime) -> Result<(), Fail> {
    for _time in 0..196 {
        assert!(&rt; is_free_replayed(&rt, rt.alloc())?);
    }
    Ok(())
}
