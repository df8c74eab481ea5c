//! The plan of a rolling upgrade. It is made of what a control keeps; who upgrades proposes its batches one after another.

ghost use Rattle.std.specs.Prelude.{◌≡◌, ◌<◌, not, length, All, filter, IfOk, OnOk};
ghost use Rattle.st_control.specs.Control.{standing_in};
ghost use Rattle.st_roll.specs.Judging.{AreGroundsOf};
ghost use Rattle.st_roll.specs.Kept.{IsRoll};
ghost use Rattle.st_roll.specs.Refusal.{device_refusal};
ghost use Rattle.st_roll.specs.Passes.{no_plan, plan_with, all_passes};
ghost use Rattle.st_roll.specs.Roll.{is_at as is_at_lem, others_of, roll_of};

use crate::judging::Grounds;
use crate::pass::{Pass, pass_over};
use st_control::Control;
use st_event::Cause;
use st_net::{AppId, Entity, Items, Var};
use std::alloc::{AllocError, Global};
use std::marker::Model;

/// Why a device stayed behind a batch.
#[derive(Drop)]
pub enum Why {
    /// The proposal of the batch so far and the device would be refused, for this cause.
    Cause(Cause),
    /// The batch had 16 devices.
    Full,
}

/// A device that stayed behind a batch, by its number in the group, and why.
#[derive(Drop)]
pub struct Left {
    pub device: u32,
    pub why: Why,
}

/// Devices whose common proposal would be accepted, and those that were passed and stayed behind.
#[derive(Drop)]
pub struct Batch {
    /// 1 to 16 devices, by their numbers in the group, in the order in which they joined.
    pub devices: Items<u32>,
    /// Those that did not join, in the order in which they were passed: each comes in a later batch, or is stuck.
    pub left: Items<Left>,
}

/// A device, by its number in the group, whose proposal would be refused even alone, and the cause.
#[derive(Drop)]
pub struct Stuck {
    pub device: u32,
    pub cause: Cause,
}

/// The plan of a rolling upgrade. Each device that was asked for is in one of its three parts.
#[derive(Drop)]
pub struct Roll {
    /// In the order in which the passes made them. Each is judged as the control stands, with those before it not carried out.
    pub batches: Items<Batch>,
    /// Those that would be refused even alone, in the order in which the passes met them.
    pub stuck: Items<Stuck>,
    /// The devices whose target has the firmware already, by their numbers in the group, in the order in which they were asked for.
    pub same: Items<u32>,
}

/// Whether the target has this firmware of a device.
fn is_at(control: &Control, device: u32, firmware: u32) -> bool
    requires { device < length control.now.group.devices }
    ensures { result ≡ is_at_lem (standing_in control.now) firmware device }
{
    let target = control.store().target();
    target.value(Entity::Device(device), Var::Firmware) == firmware
}

/// Devices whose target has the firmware, and the others.
#[derive(Drop)]
struct Division {
    same: Vec<u32>,
    others: Vec<u32>,
}

/// Devices by whether their target has the firmware, both in order.
fn divided(
    alloc: Global,
    control: &Control,
    devices: &[u32],
    firmware: u32,
) -> Result<Division, AllocError>
    requires { All (λ d. d < length control.now.group.devices) devices.now }
    ensures same { IfOk result (λ division. division.same.items ≡ filter (is_at_lem (standing_in control.now) firmware) devices.now) }
    ensures others { IfOk result (λ division. division.others.items ≡ others_of (standing_in control.now) firmware devices.now) }
{
    let mut same = Vec::new(alloc);
    let mut others = Vec::new(alloc);
    for device in devices {
        if is_at(control, *device, firmware) {
            same.push(*device)?;
        } else {
            others.push(*device)?;
        }
    }
    Ok(Division { same, others })
}

/// What passes came to so far. Contracts see the lists.
#[derive(Drop)]
struct Plan {
    batches: Vec<Batch>,
    stuck: Vec<Stuck>,
}

impl Model for Plan {
    ghost use Rattle.st_roll.specs.Passes.{PlanView};

    ghost Value = { PlanView };

    ghost view = { λ p. record { batches = p.batches.items; stuck = p.stuck.items } };
}

impl Plan {
    /// No pass was made.
    fn new(alloc: Global) -> Plan
        ensures { result ≡ no_plan }
    {
        Plan {
            batches: Vec::new(alloc),
            stuck: Vec::new(alloc),
        }
    }

    /// Adds the batch of a pass, unless it took no device, and those that are stuck.
    fn add(&mut self, pass: Pass) -> Result<(), AllocError>
        ensures { OnOk result (self.new ≡ plan_with self.old pass) }
    {
        let Pass {
            batch,
            left,
            mut stuck,
        } = pass;
        self.stuck.append(&mut stuck)?;
        if !batch.is_empty() {
            self.batches.push(Batch {
                devices: Items::new(batch),
                left: Items::new(left),
            })?;
        }
        Ok(())
    }
}

/// Passes over devices until none is left.
fn passes(
    alloc: Global,
    control: &Control,
    app: AppId,
    devices: Vec<u32>,
    firmware: u32,
) -> Result<Plan, AllocError>
    requires { All (λ d. d < length control.now.group.devices) devices.items }
    ensures { IfOk result (λ plan. plan ≡ all_passes (device_refusal control.now.group (standing_in control.now) app firmware) devices.items) }
{
    let mut grounds = Grounds::of(alloc, control)?;
    let mut plan = Plan::new(alloc);
    let mut rest = devices;
    'passes: while !rest.is_empty() {
        let pass = pass_over(alloc, control, &mut grounds, app, rest.as_slice(), firmware)?;
        rest = pass.left_devices(alloc)?;
        plan.add(pass)?;
    }
    Ok(plan)
}

/// The plan of an application for devices, by their numbers in the group, that are to get a firmware. Those whose target has it are the
/// same. The others are passed in order, again and again, and each pass makes a batch. A device joins it where the proposal of the batch and
/// it would be accepted as the control stands, by the rules of every verdict: each device can be controlled, no other application holds
/// it, and each promise that holds while the sure entities are up holds without the devices. A device that would be refused is stuck where
/// the batch is empty, and else left to the next pass, as are all behind a batch of 16, the most that a proposal may hold.
///
/// The control stays as it is: no proposal is put, and no flow is kept for it. A device that is listed twice is passed twice. `Err` is for
/// want of memory alone. The time grows with the candidates, which are at most as many as pairs of devices; one is a check of the control,
/// but for the sure entities, which are found once.
pub fn plan_roll(
    alloc: Global,
    control: &Control,
    app: AppId,
    devices: &[u32],
    firmware: u32,
) -> Result<Roll, AllocError>
    requires { All (λ d. d < length control.now.group.devices) devices.now }
    ensures roll { IfOk result (λ roll. roll ≡ roll_of control.now.group (standing_in control.now) app devices.now firmware) }
    ensures kept { IfOk result (IsRoll control.now.group (standing_in control.now) app devices.now firmware) }
{
    // A demand that fails goes on to fail while more devices change.
    control.topo().demands_are_judged();
    let Division { same, others } = divided(alloc, control, devices, firmware)?;
    let Plan { batches, stuck } = passes(alloc, control, app, others, firmware)?;
    Ok(Roll {
        batches: Items::new(batches),
        stuck: Items::new(stuck),
        same: Items::new(same),
    })
}
