//! The words of plans, by which two of them are compared.

use crate::promises::promise_of;
use st_event::{Cause, Lack};
use st_net::{AppId, Broken, BrokenKind, Entity, Prio, Row, Var};
use st_roll::{Batch, Left, Roll, Stuck, Why};
use std::alloc::{AllocError, Global};

/// A word, and numbers behind it.
pub(crate) fn line_of(alloc: Global, word: &str, numbers: &[u32]) -> Result<String, AllocError> {
    let mut line = String::from_str(alloc, word)?;
    for number in numbers {
        line.push_str(format!(in alloc; " {number}")?.as_str())?;
    }
    Ok(line)
}

/// The words of a device that can't be set.
pub(crate) fn lack_words(
    alloc: Global,
    device: u32,
    firmware: u32,
    lack: Lack,
) -> Result<String, AllocError> {
    let row = Row {
        entity: Entity::Device(device),
        var: Var::Firmware,
        value: firmware,
    };
    format!(in alloc; "lacks {row:?} {lack:?}")
}

/// The words of a lock that bars.
pub(crate) fn lock_words(
    alloc: Global,
    entity: Entity,
    holder: AppId,
    prio: Prio,
) -> Result<String, AllocError> {
    format!(in alloc; "locked {entity:?} {holder:?} {prio:?}")
}

/// A promise that breaks: its number, what it needs, what is left, and how.
#[derive(Clone, Copy, Debug)]
pub(crate) struct Break {
    pub(crate) promise: u32,
    pub(crate) kind: BrokenKind,
    pub(crate) need: u64,
    pub(crate) has: u64,
}

/// The words of a promise that breaks.
pub(crate) fn break_words(
    alloc: Global,
    broken: Break,
    side: &[u32],
) -> Result<String, AllocError> {
    let words = format!(in alloc; "breaks {broken:?}")?;
    line_of(alloc, words.as_str(), side)
}

fn broken_words(alloc: Global, broken: &Broken) -> Result<String, AllocError> {
    let told = Break {
        promise: promise_of(broken.of),
        kind: broken.kind,
        need: broken.need,
        has: broken.has,
    };
    break_words(alloc, told, broken.side.as_slice())
}

fn cause_words(alloc: Global, cause: &Cause) -> Result<String, AllocError> {
    match cause {
        Cause::NotControllable { row, lack } => format!(in alloc; "lacks {row:?} {lack:?}"),
        Cause::Locked {
            entity,
            holder,
            prio,
        } => lock_words(alloc, *entity, *holder, *prio),
        Cause::Broken(broken) => broken_words(alloc, broken),
    }
}

fn why_words(alloc: Global, why: &Why) -> Result<String, AllocError> {
    match why {
        Why::Cause(cause) => cause_words(alloc, cause),
        Why::Full => String::from_str(alloc, "full"),
    }
}

/// Adds the line of a device with why it is there.
pub(crate) fn add_line(
    alloc: Global,
    word: &str,
    device: u32,
    why: &str,
    out: &mut String,
) -> Result<(), AllocError> {
    out.push_str(format!(in alloc; "{word} {device} {why}\n")?.as_str())
}

fn add_left(alloc: Global, left: &Left, out: &mut String) -> Result<(), AllocError> {
    let why = why_words(alloc, &left.why)?;
    add_line(alloc, "left", left.device, why.as_str(), out)
}

fn add_stuck(alloc: Global, stuck: &Stuck, out: &mut String) -> Result<(), AllocError> {
    let why = cause_words(alloc, &stuck.cause)?;
    add_line(alloc, "stuck", stuck.device, why.as_str(), out)
}

/// Adds the line of devices that stand under a word.
pub(crate) fn add_devices(
    alloc: Global,
    word: &str,
    devices: &[u32],
    out: &mut String,
) -> Result<(), AllocError> {
    out.push_str(line_of(alloc, word, devices)?.as_str())?;
    out.push_str("\n")
}

fn add_batch(alloc: Global, batch: &Batch, out: &mut String) -> Result<(), AllocError> {
    add_devices(alloc, "batch", batch.devices.as_slice(), out)?;
    for left in batch.left.as_slice() {
        add_left(alloc, left, out)?;
    }
    Ok(())
}

fn add_all_stuck(alloc: Global, stuck: &[Stuck], out: &mut String) -> Result<(), AllocError> {
    for one in stuck {
        add_stuck(alloc, one, out)?;
    }
    Ok(())
}

/// The words of a plan.
pub(crate) fn words_of(alloc: Global, roll: &Roll) -> Result<String, AllocError> {
    let mut out = String::new(alloc);
    for batch in roll.batches.as_slice() {
        add_batch(alloc, batch, &mut out)?;
    }
    add_all_stuck(alloc, roll.stuck.as_slice(), &mut out)?;
    add_devices(alloc, "same", roll.same.as_slice(), &mut out)?;
    Ok(out)
}
