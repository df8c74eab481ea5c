//! Copies of a topology, and whether two are equal.

ghost use Rattle.std.specs.Prelude.{◌≡◌, ◌↔◌, IsTrue, IfOk};

use crate::promise::Promise;
use crate::topo::{DeviceOpening, GroupTopo, LinkOpening, Openings};
use std::alloc::{AllocError, Global};

fn are_same_devices(a: &[DeviceOpening], b: &[DeviceOpening]) -> bool
    ensures { IsTrue result ↔ (a.now ≡ b.now) }
{
    a == b
}

fn are_same_links(a: &[LinkOpening], b: &[LinkOpening]) -> bool
    ensures { IsTrue result ↔ (a.now ≡ b.now) }
{
    a == b
}

fn are_same_promises(a: &[Promise], b: &[Promise]) -> bool
    ensures { IsTrue result ↔ (a.now ≡ b.now) }
{
    a == b
}

impl Openings {
    /// Equal openings.
    fn copy(&self, alloc: Global) -> Result<Openings, AllocError>
        ensures name { IfOk result (λ copy. copy.name ≡ self.now.name) }
        ensures devices { IfOk result (λ copy. copy.devices.items ≡ self.now.devices.items) }
        ensures links { IfOk result (λ copy. copy.links.items ≡ self.now.links.items) }
        ensures promises { IfOk result (λ copy. copy.promises.items ≡ self.now.promises.items) }
    {
        Ok(Openings {
            devices: self.devices.as_slice().to_vec(alloc)?,
            links: self.links.as_slice().to_vec(alloc)?,
            promises: self.promises.as_slice().to_vec(alloc)?,
            name: self.name.copy(alloc)?,
        })
    }
}

impl GroupTopo {
    /// An equal topology.
    pub fn copy(&self, alloc: Global) -> Result<GroupTopo, AllocError>
        ensures { IfOk result (λ copy. copy ≡ self.now) }
    {
        self.is_sound();
        let openings = self.openings.copy(alloc)?;
        let device_names = self.device_names.copy(alloc)?;
        let link_names = self.link_names.copy(alloc)?;
        Ok(GroupTopo::from_names(device_names, link_names, openings))
    }

    /// Whether the names and the parts are equal.
    pub fn same(&self, other: &GroupTopo) -> bool
        ensures { IsTrue result ↔ (self.now ≡ other.now) }
    {
        self.openings.name.is_same(&other.openings.name)
            && self.device_names.is_same(&other.device_names)
            && self.link_names.is_same(&other.link_names)
            && are_same_devices(
                self.openings.devices.as_slice(),
                other.openings.devices.as_slice(),
            )
            && are_same_links(
                self.openings.links.as_slice(),
                other.openings.links.as_slice(),
            )
            && are_same_promises(
                self.openings.promises.as_slice(),
                other.openings.promises.as_slice(),
            )
    }
}
