//! One pass over devices: a batch of those that may be upgraded at once, and why the others wait.

ghost use Rattle.std.specs.Prelude.{◌≡◌, ◌<◌, ◌^◌, length, All, IfOk, OnOk, not, nat_lt, ◌==◌};
ghost use Rattle.st_net.specs.declared.topo.TheConstants.{MAX_ROWS};
ghost use Rattle.st_control.specs.Control.{standing_in};
ghost use Rattle.st_roll.specs.Judging.{AreGroundsOf};
ghost use Rattle.st_roll.specs.Refusal.{device_refusal};
ghost use Rattle.st_roll.specs.Passes.{no_pass, with_left, placed, passed, pass_over as pass_over_lem, left_devices};

use crate::judging::{Grounds, candidate_rows};
use crate::plan::{Left, Stuck, Why};
use st_control::Control;
use st_event::Cause;
use st_net::{AppId, MAX_ROWS as MOST_ROWS};
use std::alloc::{AllocError, Global};
use std::marker::Model;

/// A pass so far. Contracts see the lists.
#[derive(Drop)]
pub(crate) struct Pass {
    pub(crate) batch: Vec<u32>,
    pub(crate) left: Vec<Left>,
    pub(crate) stuck: Vec<Stuck>,
}

impl Model for Pass {
    ghost use Rattle.st_roll.specs.Passes.{PassView};

    ghost Value = { PassView };

    ghost view = { λ p. record { batch = p.batch.items; left = p.left.items; stuck = p.stuck.items } };
}

/// The devices of these, in order.
fn devices_of(alloc: Global, left: &[Left]) -> Result<Vec<u32>, AllocError>
    ensures { IfOk result (λ devices. devices.items ≡ left_devices left.now) }
{
    let mut devices = Vec::new(alloc);
    for one in left {
        devices.push(one.device)?;
    }
    Ok(devices)
}

impl Pass {
    /// No device has been passed.
    fn new(alloc: Global) -> Pass
        ensures { result ≡ no_pass }
    {
        Pass {
            batch: Vec::new(alloc),
            left: Vec::new(alloc),
            stuck: Vec::new(alloc),
        }
    }

    /// Whether the batch may take a device.
    fn has_room(&self) -> bool
        ensures { result ≡ nat_lt (length self.now.batch) MAX_ROWS }
    {
        self.batch.len() < MOST_ROWS
    }

    /// Leaves a device to the next pass.
    fn leave(&mut self, device: u32, why: Why) -> Result<(), AllocError>
        ensures { OnOk result (self.new ≡ with_left self.old device why) }
    {
        self.left.push(Left { device, why })?;
        Ok(())
    }

    /// Places a device by the refusal of the batch with it at its end.
    fn place(&mut self, device: u32, refusal: Option<Cause>) -> Result<(), AllocError>
        ensures { OnOk result (self.new ≡ placed self.old device refusal) }
    {
        match refusal {
            None => self.batch.push(device)?,
            Some(cause) => {
                if self.batch.is_empty() {
                    self.stuck.push(Stuck { device, cause })?;
                } else {
                    self.leave(device, Why::Cause(cause))?;
                }
            }
        }
        Ok(())
    }

    /// Passes one device.
    fn take(
        &mut self,
        alloc: Global,
        control: &Control,
        grounds: &mut Grounds,
        app: AppId,
        device: u32,
        firmware: u32,
    ) -> Result<(), AllocError>
        requires grounds { AreGroundsOf control.now grounds.old }
        requires batch { All (λ d. d < length control.now.group.devices) self.old.batch }
        requires device { device < length control.now.group.devices }
        ensures passed { OnOk result (self.new ≡ passed (device_refusal control.now.group (standing_in control.now) app firmware) self.old device) }
        ensures grounds { AreGroundsOf control.now grounds.new }
    {
        if !self.has_room() {
            return self.leave(device, Why::Full);
        }
        let rows = candidate_rows(alloc, self.batch.as_slice(), device, firmware)?;
        let refusal = grounds.refusal(alloc, control, app, rows.as_slice())?;
        self.place(device, refusal)
    }

    /// The devices that are left, in order.
    pub(crate) fn left_devices(&self, alloc: Global) -> Result<Vec<u32>, AllocError>
        ensures { IfOk result (λ devices. devices.items ≡ left_devices self.now.left) }
    {
        devices_of(alloc, self.left.as_slice())
    }
}

/// One pass over devices, in order.
pub(crate) fn pass_over(
    alloc: Global,
    control: &Control,
    grounds: &mut Grounds,
    app: AppId,
    devices: &[u32],
    firmware: u32,
) -> Result<Pass, AllocError>
    requires grounds { AreGroundsOf control.now grounds.old }
    requires devices { All (λ d. d < length control.now.group.devices) devices.now }
    ensures pass { IfOk result (λ pass. pass ≡ pass_over_lem (device_refusal control.now.group (standing_in control.now) app firmware) devices.now) }
    ensures grounds { AreGroundsOf control.now grounds.new }
{
    let mut pass = Pass::new(alloc);
    for device in devices {
        pass.take(alloc, control, grounds, app, *device, firmware)?;
    }
    Ok(pass)
}
