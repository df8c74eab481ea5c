//! What is gathered of worlds and logs for their report, once for whichever form it is printed in, so that nothing is counted or judged
//! twice.

ghost use Rattle.std.specs.Prelude.{◌≡◌, [], IfOk, map, true};
ghost use Rattle.st_text.specs.Words.{spaced};
ghost use Rattle.st_net.specs.Groups.{are_names as are_names_lem};
ghost use Rattle.st_net.specs.Promises.{is_kept};
ghost use Rattle.st_event.specs.Observed.{actual};
ghost use Rattle.st_event.specs.Proposals.{version as version_lem};
ghost use Rattle.st_report.specs.Inside.{summary_of, summaries_of, wire_counts_of, promise_counts_of};
ghost use Rattle.st_report.specs.Lines.{histories, lock_words, read_words, receipt_words, target_words, unsettled_words, withdrawn_words};

use crate::lines::Lines;
use crate::locks::lock_lines;
use crate::logs::read_lines;
use crate::names::are_names;
use crate::promises::{Held, judge_promises, lost_lines, mark_count};
use crate::receipts::receipt_lines;
use crate::state::{name_lines, target_lines};
use crate::wire::{old_count, stale_count};
use crate::withdrawals::withdrawn_lines;
use st_event::Log;
use st_net::Name;
use st_world::World;
use std::alloc::{AllocError, Global};

/// How many messages were sent, and how many of them came too late.
#[derive(Clone, Copy)]
pub(crate) struct WireCounts {
    pub(crate) commands: u64,
    pub(crate) reports: u64,
    pub(crate) stale: u64,
    pub(crate) old: u64,
}

/// How many promises there are, how many held at the opening, and how many hold now.
#[derive(Clone, Copy)]
pub(crate) struct PromiseCounts {
    pub(crate) count: u64,
    pub(crate) held_at_start: u64,
    pub(crate) held_at_end: u64,
}

/// What is gathered of a world.
#[derive(Drop)]
pub(crate) struct Summary {
    pub(crate) name: Name,
    pub(crate) version: u64,
    pub(crate) entries: u64,
    pub(crate) locks: Lines,
    pub(crate) receipts: Lines,
    pub(crate) withdrawn: Lines,
    pub(crate) targets: Lines,
    pub(crate) unsettled: Lines,
    pub(crate) lost: Lines,
    pub(crate) wire: WireCounts,
    pub(crate) promises: PromiseCounts,
}

/// What is gathered of each world, in order, and of the logs.
#[derive(Drop)]
pub(crate) struct Report {
    pub(crate) groups: Vec<Summary>,
    pub(crate) reads: Lines,
}

/// The requests and returns of locks.
fn locks(alloc: Global, world: &World, apps: &[Name]) -> Result<Lines, AllocError>
    requires { are_names_lem apps.now ≡ true }
    ensures { IfOk result (λ lines. lines ≡ map spaced (lock_words world.now.history.group apps.now world.now.history.past)) }
{
    lock_lines(alloc, world.control().topo(), apps, world.journal())
}

/// The receipts of the decided tickets.
fn receipts(alloc: Global, world: &World, apps: &[Name]) -> Result<Lines, AllocError>
    requires { are_names_lem apps.now ≡ true }
    ensures { IfOk result (λ lines. lines ≡ map spaced (receipt_words world.now.history.group apps.now world.now.history.past)) }
{
    receipt_lines(alloc, world.control().topo(), apps, world.journal())
}

/// The withdrawals.
fn withdrawals(alloc: Global, world: &World) -> Result<Lines, AllocError>
    ensures { IfOk result (λ lines. lines ≡ map spaced (withdrawn_words world.now.history.group world.now.history.past)) }
{
    withdrawn_lines(alloc, world.control().topo(), world.journal())
}

/// The variables whose target is not their opening value.
fn targets(alloc: Global, world: &World) -> Result<Lines, AllocError>
    ensures { IfOk result (λ lines. lines ≡ map spaced (target_words world.now.history.group world.now.history.past)) }
{
    let control = world.control();
    target_lines(alloc, control.topo(), control.store().target())
}

/// The entities that are not settled.
fn unsettled(alloc: Global, world: &World) -> Result<Lines, AllocError>
    ensures { IfOk result (λ lines. lines ≡ map spaced (unsettled_words world.now.history.group world.now.history.past)) }
{
    let entities = world.unsettled()?;
    name_lines(alloc, world.control().topo(), entities.as_slice())
}

/// What passed the wire.
fn wire_counts(world: &World) -> WireCounts
    ensures { result ≡ wire_counts_of world.now.history.group world.now.history.past }
{
    let wire = world.wire();
    let entries = world.journal();
    WireCounts {
        commands: u64::from(wire.command_count()),
        reports: u64::from(wire.report_count()),
        stale: stale_count(entries) as u64,
        old: old_count(entries) as u64,
    }
}

/// How many promises held and hold.
fn promise_counts(world: &World, held: &Held) -> PromiseCounts
    requires start { held.now.at_start.items ≡ map (is_kept world.now.history.group (actual world.now.history.group [])) world.now.history.group.promises }
    requires end { held.now.at_end.items ≡ map (is_kept world.now.history.group (actual world.now.history.group world.now.history.past)) world.now.history.group.promises }
    ensures { result ≡ promise_counts_of world.now.history.group world.now.history.past }
{
    PromiseCounts {
        count: u64::from(world.control().topo().promise_count()),
        held_at_start: mark_count(held.at_start.as_slice()) as u64,
        held_at_end: mark_count(held.at_end.as_slice()) as u64,
    }
}

/// The version of the target: how many overlays the target has, of accepted proposals and of withdrawals.
pub(crate) fn version(world: &World) -> u32
    ensures { result ≡ version_lem world.now.history.past }
{
    world.control().store().version()
}

/// Gathers what a report says of a world.
fn summarize(alloc: Global, world: &World, apps: &[Name]) -> Result<Summary, AllocError>
    ensures { IfOk result (λ summary. summary ≡ summary_of world.now.history.group apps.now world.now.history.past) }
{
    are_names(apps);
    let held = judge_promises(alloc, world)?;
    Ok(Summary {
        name: world.control().topo().name().copy(alloc)?,
        version: u64::from(version(world)),
        entries: u64::from(world.entries()),
        locks: locks(alloc, world, apps)?,
        receipts: receipts(alloc, world, apps)?,
        withdrawn: withdrawals(alloc, world)?,
        targets: targets(alloc, world)?,
        unsettled: unsettled(alloc, world)?,
        lost: lost_lines(alloc, world, &held)?,
        wire: wire_counts(world),
        promises: promise_counts(world, &held),
    })
}

/// What is gathered of each world, in order.
fn summarize_all(alloc: Global, worlds: &[World], apps: &[Name]) -> Result<Vec<Summary>, AllocError>
    ensures { IfOk result (λ groups. groups.items ≡ summaries_of apps.now (histories worlds.now)) }
{
    let mut groups = Vec::new(alloc);
    for world in worlds {
        groups.push(summarize(alloc, world, apps)?)?;
    }
    Ok(groups)
}

/// Gathers what a report says of worlds and logs.
pub(crate) fn gather(
    alloc: Global,
    worlds: &[World],
    apps: &[Name],
    logs: &[Log],
) -> Result<Report, AllocError>
    ensures groups { IfOk result (λ report. report.groups.items ≡ summaries_of apps.now (histories worlds.now)) }
    ensures reads { IfOk result (λ report. report.reads ≡ map spaced (read_words (histories worlds.now) apps.now logs.now)) }
{
    Ok(Report {
        groups: summarize_all(alloc, worlds, apps)?,
        reads: read_lines(alloc, worlds, apps, logs)?,
    })
}
