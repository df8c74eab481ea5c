//! Worked courses of events on the two-path group: two ToRs, t1 and t2, joined by way of two switches, a1 and a2, with a promise of
//! half the capacity between them. Each reply is worked out by hand.

mod acts;
mod checkers;
mod commits;
mod decisions;
mod replies;
mod steps;
mod ups;

use st_event::MAX_ENTRIES;
use st_net::{AppId, Entity};
use std::test::Fail;
use steps::{Deed, Step, course};

const A1: Entity = Entity::Device(2);

const A2: Entity = Entity::Device(3);

const TE: AppId = AppId(0);

const UP: AppId = AppId(1);

const OPENING: [Step; 6] = [
    Step::Told(Deed::Check, "idle"),
    Step::Told(Deed::Send(A1), "settled"),
    Step::Told(Deed::Deliver(1), "nosuch 0"),
    Step::Told(Deed::Hear(0), "nosuch 0"),
    Step::Told(Deed::Unlock(TE, A1), "notyours -"),
    Step::Told(Deed::Withdraw(A1), "kept"),
];

#[test]
fn events_at_the_opening_are_answered(rt: HostRuntime) -> Result<(), Fail> {
    course(rt.alloc(), OPENING.as_slice())
}

const LOCKS: [Step; 4] = [
    Step::Reserve(2),
    Step::Told(Deed::Lock(TE, A1), "granted"),
    Step::Told(Deed::Lock(TE, A2), "granted"),
    Step::Told(Deed::Lock(UP, A1), "held 0"),
];

#[test]
fn locks_take_no_memory_where_there_is_room(rt: HostRuntime) -> Result<(), Fail> {
    course(rt.alloc(), LOCKS.as_slice())
}

const FULL_QUEUE: [Step; 2] = [Step::FillQueue, Step::Told(Deed::Submit(1), "full 64")];

#[test]
fn the_sixty_fifth_proposal_finds_the_queue_full(rt: HostRuntime) -> Result<(), Fail> {
    course(rt.alloc(), FULL_QUEUE.as_slice())
}

const FULL_JOURNAL: [Step; 3] = [
    Step::FillJournal,
    Step::Full(Deed::Lock(TE, A1), 200_000),
    Step::Round(0, MAX_ENTRIES),
];

#[test]
fn the_journal_is_full_at_its_limit(rt: HostRuntime) -> Result<(), Fail> {
    course(rt.alloc(), FULL_JOURNAL.as_slice())
}

const FAILURE_IN_MID_UPDATE: [Step; 9] = [
    Step::Accept(A1, 2),
    Step::Told(Deed::Send(A1), "sent 1"),
    Step::Told(Deed::Deliver(1), "begun"),
    Step::Told(Deed::Fail(7, 5), "changed"),
    Step::Told(Deed::Finish(A1), "done"),
    Step::Told(Deed::Report(A1), "reported 1"),
    Step::Told(Deed::Hear(1), "taken"),
    Step::Firmware(A1, 2),
    Step::Sure(A1),
];

#[test]
fn a_failure_in_mid_update_leaves_the_command_in_work(rt: HostRuntime) -> Result<(), Fail> {
    course(rt.alloc(), FAILURE_IN_MID_UPDATE.as_slice())
}
