//! Checkers that stand without a world.

ghost use Rattle.std.specs.Prelude.{◌+◌, ◌^◌, ◌<◌};

use super::replies::firmware_row;
use super::{A1, UP};
use st_control::{Begin, Check, Commit, Control, Judged, judge_basis};
use st_event::{Receipt, Verdict};
use st_samples::{TWO_PATH, group};
use std::alloc::Global;
use std::test::Fail;
use std::thread::Threads;

fn proposed(alloc: Global, control: &mut Control) -> Result<(), Fail>
    requires { control.old.store.tickets + 1 < 2 ^ 32 }
{
    let rows = firmware_row(alloc, A1, 2)?;
    if !control.topo().rows_fit(rows.as_slice()) {
        return Err(Fail::new("the row does not fit"));
    }
    control.submit(UP, rows)?;
    Ok(())
}

/// Checks as entry number `entry`, unless there are more versions than were made.
fn checked(control: &mut Control, entry: u32) -> Result<Check, Fail> {
    if control.store().version() > 1 {
        return Err(Fail::new("more versions than were made"));
    }
    Ok(control.check(entry)?)
}

fn decided(control: &mut Control) -> Result<(), Fail> {
    match checked(control, 2)? {
        Check::Decided(
            Receipt {
                ticket: 1,
                entry: 2,
                verdict: Verdict::Accepted { version: 1 },
            },
        ) => {}
        _ => return Err(Fail::new("not accepted as ticket 1 and version 1")),
    }
    match checked(control, 3)? {
        Check::Idle => Ok(()),
        Check::Decided(_) => Err(Fail::new("nothing was pending")),
    }
}

fn proposed_and_decided(alloc: Global, control: &mut Control) -> Result<(), Fail>
    requires { control.old.store.tickets + 1 < 2 ^ 32 }
{
    proposed(alloc, control)?;
    decided(control)
}

/// The same of a checker that is not needed any more.
fn decided_once(alloc: Global, mut control: Control) -> Result<(), Fail>
    requires { control.store.tickets + 1 < 2 ^ 32 }
{
    let told = proposed_and_decided(alloc, &mut control);
    drop(control);
    told
}

#[test]
fn a_checker_decides_without_a_world(rt: HostRuntime) -> Result<(), Fail> {
    let alloc = rt.alloc();
    decided_once(alloc, Control::start(alloc, group(alloc, TWO_PATH)?)?)
}

fn judged(rt: &(impl Threads + Sync), alloc: Global, control: &Control) -> Result<Judged, Fail> {
    match control.begin_check()? {
        Begin::Basis(basis) => Ok(judge_basis(rt, alloc, basis)?),
        Begin::Idle => Err(Fail::new("nothing waits")),
    }
}

/// Commits as entry number `entry`, unless there are more versions than were made.
fn commits(control: &mut Control, entry: u32, judged: &Judged) -> Result<Commit, Fail> {
    if !control.may_commit(judged) {
        return Err(Fail::new("the ticket may not be committed"));
    }
    if control.store().version() > 1 {
        return Err(Fail::new("more versions than were made"));
    }
    Ok(control.commit(entry, judged)?)
}

fn accepts(control: &mut Control, judged: &Judged) -> Result<(), Fail> {
    match commits(control, 2, judged)? {
        Commit::Decided(
            Receipt {
                ticket: 1,
                entry: 2,
                verdict: Verdict::Accepted { version: 1 },
            },
        ) => Ok(()),
        _ => Err(Fail::new("not accepted as ticket 1 and version 1")),
    }
}

fn is_gone(control: &mut Control, judged: &Judged) -> Result<(), Fail> {
    match commits(control, 3, judged)? {
        Commit::Gone { entry: 2 } => Ok(()),
        _ => Err(Fail::new("not gone")),
    }
}

fn decides_once(control: &mut Control, first: &Judged, second: &Judged) -> Result<(), Fail> {
    accepts(control, first)?;
    is_gone(control, second)
}

/// The same of judgements that are not needed any more.
fn uses_up(control: &mut Control, first: Judged, second: Judged) -> Result<(), Fail> {
    let told = decides_once(control, &first, &second);
    drop((first, second));
    told
}

/// What is judged twice of the oldest proposal is decided once.
fn committed(rt: &(impl Threads + Sync), alloc: Global, control: &mut Control) -> Result<(), Fail>
    requires { control.old.store.tickets + 1 < 2 ^ 32 }
{
    proposed(alloc, control)?;
    let first = judged(rt, alloc, control)?;
    uses_up(control, first, judged(rt, alloc, control)?)
}

/// The same of a checker that is not needed any more.
fn committed_once(
    rt: &(impl Threads + Sync),
    alloc: Global,
    mut control: Control,
) -> Result<(), Fail>
    requires { control.store.tickets + 1 < 2 ^ 32 }
{
    let told = committed(rt, alloc, &mut control);
    drop(control);
    told
}

#[test]
fn a_checker_commits_without_a_world(rt: HostRuntime) -> Result<(), Fail> {
    let alloc = rt.alloc();
    committed_once(&rt, alloc, Control::start(alloc, group(alloc, TWO_PATH)?)?)
}
