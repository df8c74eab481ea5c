//! The plain way to the plan of an upgrade, as docs/DEFINITIONS.md tells it: each candidate is judged from nothing, by least cuts of graphs
//! that are made anew for it and found by the plain search.

use super::sight::{Device, Pledge, Sight};
use super::words::{Break, add_devices, add_line, break_words, lack_words, lock_words};
use crate::flows::plain::{Link, least_cut_plainly};
use st_event::Lack;
use st_net::{AppId, BrokenKind, Entity, Prio, Promise};
use std::alloc::{AllocError, Global};

/// The most devices of a batch.
const MOST: usize = 16;

/// What an upgrade asks: for whom, and which firmware.
#[derive(Clone, Copy)]
pub(crate) struct Upgrade {
    pub(crate) app: AppId,
    pub(crate) firmware: u32,
}

/// Why a device can't be set.
fn lack_of(device: u32, of: &Device) -> Option<Lack> {
    if of.level < 2 {
        let (of, level) = (Entity::Device(device), of.level);
        return Some(Lack::Level {
            of,
            level,
            needs: 2,
        });
    }
    if of.power == 0 {
        return Some(Lack::PowerOff);
    }
    None
}

/// The words of the first device that can't be set.
fn first_lack(
    alloc: Global,
    sight: &Sight,
    devices: &[u32],
    firmware: u32,
) -> Result<Option<String>, AllocError> {
    for device in devices {
        let lack = sight.device(*device).and_then(|of| lack_of(*device, &of));
        if let Some(lack) = lack {
            return Ok(Some(lack_words(alloc, *device, firmware, lack)?));
        }
    }
    Ok(None)
}

/// Who holds a device, and by which lock.
fn holder_of(of: &Device) -> Option<(AppId, Prio)> {
    match (of.high, of.low) {
        (Some(app), _) => Some((app, Prio::High)),
        (None, Some(app)) => Some((app, Prio::Low)),
        (None, None) => None,
    }
}

/// The words of the first device that another application holds.
fn first_lock(
    alloc: Global,
    sight: &Sight,
    devices: &[u32],
    app: AppId,
) -> Result<Option<String>, AllocError> {
    for device in devices {
        let holder = sight.device(*device).and_then(|of| holder_of(&of));
        if let Some((holder, prio)) = holder {
            if holder.0 != app.0 {
                let entity = Entity::Device(*device);
                return Ok(Some(lock_words(alloc, entity, holder, prio)?));
            }
        }
    }
    Ok(None)
}

/// Which links and devices count as up.
#[derive(Clone, Copy)]
enum Up<'a> {
    /// All.
    All,
    /// The sure ones, but for these devices where they are to get another firmware.
    SureBut(&'a [u32], u32),
}

fn is_up(sight: &Sight, device: u32, up: Up<'_>) -> bool {
    match (sight.device(device), up) {
        (Some(of), Up::SureBut(changing, firmware)) => {
            of.is_sure && (of.firmware == firmware || !changing.contains(&device))
        }
        (_, Up::All) => true,
        _ => false,
    }
}

/// The links that are up with both their ends.
fn links_up(alloc: Global, sight: &Sight, up: Up<'_>) -> Result<Vec<Link>, AllocError> {
    let mut links = Vec::new(alloc);
    for wire in &sight.wires {
        let counts = wire.is_sure || matches!(up, Up::All);
        if counts && is_up(sight, wire.a, up) && is_up(sight, wire.b, up) {
            links.push((wire.a, wire.b, wire.capacity))?;
        }
    }
    Ok(links)
}

/// The least cut of a promise and its least side.
#[derive(Drop)]
struct Cut {
    value: u64,
    side: Vec<u32>,
}

fn cut_of(alloc: Global, sight: &Sight, promise: Promise, up: Up<'_>) -> Result<Cut, AllocError> {
    let links = links_up(alloc, sight, up)?;
    let least = least_cut_plainly(alloc, sight.count, links.as_slice(), promise.a, promise.b)?;
    Ok(Cut {
        value: least.value.unsigned_abs(),
        side: least.side,
    })
}

/// How a promise breaks, if it does.
fn break_of(promise: u32, need: u64, before: u64, after: u64) -> Option<Break> {
    let least = need.max(1);
    if before < least || after >= least {
        return None;
    }
    let kind = if after == 0 {
        BrokenKind::CutOff
    } else {
        BrokenKind::Short
    };
    Some(Break {
        promise,
        kind,
        need,
        has: after,
    })
}

/// The words of a promise, if the upgrade of these devices breaks it.
fn broken(
    alloc: Global,
    sight: &Sight,
    pledge: Pledge,
    devices: &[u32],
    firmware: u32,
) -> Result<Option<String>, AllocError> {
    let Pledge { number, promise } = pledge;
    let most = cut_of(alloc, sight, promise, Up::All)?.value;
    let before = cut_of(alloc, sight, promise, Up::SureBut(&[], firmware))?.value;
    let after = cut_of(alloc, sight, promise, Up::SureBut(devices, firmware))?;
    let need = u64::from(promise.percent)
        .saturating_mul(most)
        .div_ceil(100);
    match break_of(number, need, before, after.value) {
        Some(broken) => Ok(Some(break_words(alloc, broken, after.side.as_slice())?)),
        None => Ok(None),
    }
}

/// The words of the first promise that breaks.
fn first_broken(
    alloc: Global,
    sight: &Sight,
    devices: &[u32],
    firmware: u32,
) -> Result<Option<String>, AllocError> {
    for pledge in &sight.pledges {
        if let Some(words) = broken(alloc, sight, *pledge, devices, firmware)? {
            return Ok(Some(words));
        }
    }
    Ok(None)
}

/// Why the upgrade of these devices would be refused; None where it would be accepted.
pub(crate) fn refusal(
    alloc: Global,
    sight: &Sight,
    devices: &[u32],
    upgrade: Upgrade,
) -> Result<Option<String>, AllocError> {
    if let Some(words) = first_lack(alloc, sight, devices, upgrade.firmware)? {
        return Ok(Some(words));
    }
    if let Some(words) = first_lock(alloc, sight, devices, upgrade.app)? {
        return Ok(Some(words));
    }
    first_broken(alloc, sight, devices, upgrade.firmware)
}

/// Why a device can't join a batch.
fn bar(
    alloc: Global,
    sight: &Sight,
    batch: &[u32],
    device: u32,
    upgrade: Upgrade,
) -> Result<Option<String>, AllocError> {
    if batch.len() == MOST {
        return Ok(Some(String::from_str(alloc, "full")?));
    }
    let mut devices = batch.to_vec(alloc)?;
    devices.push(device)?;
    refusal(alloc, sight, devices.as_slice(), upgrade)
}

/// A pass: its batch, the devices that it left, and the lines of these and of the stuck ones.
#[derive(Drop)]
struct Pass {
    batch: Vec<u32>,
    left: Vec<u32>,
    lines: String,
    stuck: String,
}

impl Pass {
    fn new(alloc: Global) -> Pass {
        Pass {
            batch: Vec::new(alloc),
            left: Vec::new(alloc),
            lines: String::new(alloc),
            stuck: String::new(alloc),
        }
    }

    fn place(&mut self, alloc: Global, device: u32, bar: Option<String>) -> Result<(), AllocError> {
        match bar {
            None => self.batch.push(device)?,
            Some(words) => {
                if self.batch.is_empty() {
                    add_line(alloc, "stuck", device, words.as_str(), &mut self.stuck)?;
                } else {
                    add_line(alloc, "left", device, words.as_str(), &mut self.lines)?;
                    self.left.push(device)?;
                }
            }
        }
        Ok(())
    }

    fn take(
        &mut self,
        alloc: Global,
        sight: &Sight,
        device: u32,
        upgrade: Upgrade,
    ) -> Result<(), AllocError> {
        let bar = bar(alloc, sight, self.batch.as_slice(), device, upgrade)?;
        self.place(alloc, device, bar)
    }

    /// Adds its lines, and those of who is stuck to the others.
    fn tell(&self, alloc: Global, told: &mut Told) -> Result<(), AllocError> {
        if !self.batch.is_empty() {
            add_devices(alloc, "batch", self.batch.as_slice(), &mut told.batches)?;
            told.batches.push_str(self.lines.as_str())?;
        }
        told.stuck.push_str(self.stuck.as_str())
    }
}

fn pass_over(
    alloc: Global,
    sight: &Sight,
    devices: &[u32],
    upgrade: Upgrade,
) -> Result<Pass, AllocError> {
    let mut pass = Pass::new(alloc);
    for device in devices {
        pass.take(alloc, sight, *device, upgrade)?;
    }
    Ok(pass)
}

/// The lines of batches, and those of stuck devices.
#[derive(Drop)]
struct Told {
    batches: String,
    stuck: String,
}

/// Tells of a pass, and gives the devices that it left.
fn told_pass(
    alloc: Global,
    sight: &Sight,
    devices: &[u32],
    upgrade: Upgrade,
    told: &mut Told,
) -> Result<Vec<u32>, AllocError> {
    let pass = pass_over(alloc, sight, devices, upgrade)?;
    let ended = pass.tell(alloc, told);
    let Pass { left, .. } = pass;
    ended?;
    Ok(left)
}

/// Tells of passes until none is left; of so many devices as many are enough.
fn told_passes(
    alloc: Global,
    sight: &Sight,
    devices: Vec<u32>,
    upgrade: Upgrade,
    told: &mut Told,
) -> Result<(), AllocError> {
    let mut rest = devices;
    for _ in 0..rest.len() {
        rest = told_pass(alloc, sight, rest.as_slice(), upgrade, told)?;
    }
    Ok(())
}

/// The devices of these whose target has the firmware, or has another.
fn at(
    alloc: Global,
    sight: &Sight,
    devices: &[u32],
    firmware: u32,
    is_same: bool,
) -> Result<Vec<u32>, AllocError> {
    let mut found = Vec::new(alloc);
    for device in devices {
        let is_at = sight
            .device(*device)
            .is_some_and(|of| of.firmware == firmware);
        if is_at == is_same {
            found.push(*device)?;
        }
    }
    Ok(found)
}

/// The words of the plan.
pub(crate) fn plan_words(
    alloc: Global,
    sight: &Sight,
    devices: &[u32],
    upgrade: Upgrade,
) -> Result<String, AllocError> {
    let mut told = Told {
        batches: String::new(alloc),
        stuck: String::new(alloc),
    };
    let others = at(alloc, sight, devices, upgrade.firmware, false)?;
    told_passes(alloc, sight, others, upgrade, &mut told)?;
    let Told { mut batches, stuck } = told;
    batches.push_str(stuck.as_str())?;
    let same = at(alloc, sight, devices, upgrade.firmware, true)?;
    add_devices(alloc, "same", same.as_slice(), &mut batches)?;
    Ok(batches)
}
