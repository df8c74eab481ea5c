//! A group as the plain planner sees it: read from its opening, with the locks and the upgrades that it is told of.

ghost use Rattle.std.specs.Prelude.{◌<◌, length};

use st_net::{AppId, Entity, GroupTopo, Prio, Promise};
use std::alloc::{AllocError, Global};

/// A device: its observed level, the power and the firmware of its target, whether it is sure, and who holds its locks.
#[derive(Clone, Copy)]
pub(crate) struct Device {
    pub(crate) level: u32,
    pub(crate) power: u32,
    pub(crate) firmware: u32,
    pub(crate) is_sure: bool,
    pub(crate) low: Option<AppId>,
    pub(crate) high: Option<AppId>,
}

/// A link: its ends, its capacity, and whether it is sure.
#[derive(Clone, Copy)]
pub(crate) struct Wire {
    pub(crate) a: u32,
    pub(crate) b: u32,
    pub(crate) capacity: u32,
    pub(crate) is_sure: bool,
}

/// A promise, by its number.
#[derive(Clone, Copy)]
pub(crate) struct Pledge {
    pub(crate) number: u32,
    pub(crate) promise: Promise,
}

/// A group, which has so many devices.
#[derive(Drop)]
pub(crate) struct Sight {
    pub(crate) count: u32,
    pub(crate) devices: Vec<Device>,
    pub(crate) wires: Vec<Wire>,
    pub(crate) pledges: Vec<Pledge>,
}

fn device_of(topo: &GroupTopo, device: u32) -> Device
    requires { device < length topo.now.devices }
{
    let entity = Entity::Device(device);
    let vals = topo.opening(entity);
    let health = topo.health(entity);
    let level = if vals.v0 == 0 { health.min(1) } else { health };
    Device {
        level,
        power: vals.v0,
        firmware: vals.v1,
        is_sure: vals.v0 == 1 && vals.v3 == 1 && level == 5,
        low: None,
        high: None,
    }
}

fn wire_of(topo: &GroupTopo, link: u32) -> Wire
    requires { link < length topo.now.links }
{
    let entity = Entity::Link(link);
    let (a, b) = topo.ends(link);
    Wire {
        a,
        b,
        capacity: topo.capacity(link),
        is_sure: topo.opening(entity).v0 == 1 && topo.health(entity) == 1,
    }
}

fn devices_of(alloc: Global, topo: &GroupTopo) -> Result<Vec<Device>, AllocError> {
    let mut devices = Vec::new(alloc);
    for device in 0..topo.device_count() {
        devices.push(device_of(topo, device))?;
    }
    Ok(devices)
}

fn wires_of(alloc: Global, topo: &GroupTopo) -> Result<Vec<Wire>, AllocError> {
    let mut wires = Vec::new(alloc);
    for link in 0..topo.link_count() {
        wires.push(wire_of(topo, link))?;
    }
    Ok(wires)
}

fn pledges_of(alloc: Global, topo: &GroupTopo) -> Result<Vec<Pledge>, AllocError> {
    let mut pledges = Vec::new(alloc);
    for number in 0..topo.promise_count() {
        let promise = topo.promise(number);
        pledges.push(Pledge { number, promise })?;
    }
    Ok(pledges)
}

impl Sight {
    /// A group at its opening.
    pub(crate) fn of(alloc: Global, topo: &GroupTopo) -> Result<Sight, AllocError> {
        let devices = devices_of(alloc, topo)?;
        let wires = wires_of(alloc, topo)?;
        let pledges = pledges_of(alloc, topo)?;
        Ok(Sight {
            count: topo.device_count(),
            devices,
            wires,
            pledges,
        })
    }

    pub(crate) fn device(&self, device: u32) -> Option<Device> {
        self.devices.as_slice().get(device as usize).copied()
    }

    /// A lock that nobody holds is granted.
    pub(crate) fn lock(&mut self, device: u32, app: AppId, prio: Prio) {
        if let Some(device) = self.devices.as_mut_slice().get_mut(device as usize) {
            match prio {
                Prio::Low => device.low = Some(app),
                Prio::High => device.high = Some(app),
            }
        }
    }

    /// An upgrade is accepted, and not yet carried out.
    pub(crate) fn accept(&mut self, device: u32, firmware: u32) {
        if let Some(device) = self.devices.as_mut_slice().get_mut(device as usize) {
            device.is_sure = device.is_sure && device.firmware == firmware;
            device.firmware = firmware;
        }
    }
}
