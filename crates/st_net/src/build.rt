//! Parts built into a topology. This is the one place where a group's names, ends, pairs and limits are tested.

ghost use Rattle.std.specs.Prelude.{◌≡◌, ◌+◌, ◌-◌, ◌^◌, ◌<◌, ◌++◌, [], None, true, map, length, IfOk};
ghost use Rattle.st_net.specs.Names.{is_among};
ghost use Rattle.st_net.specs.Groups.{are_names};
ghost use Rattle.st_net.specs.Faults.{IsBuiltOf, device_names as device_names_lem, link_names as link_names_lem, device_opening as device_opening_lem, link_opening as link_opening_lem, promise_opening as promise_opening_lem, number_of as number_of_lem, fault_of, group_of};
ghost use Rattle.st_net.specs.Building.{IsIndexOf, HasLinksOf};

use crate::fault::later_fault;
use crate::name::Name;
use crate::names::Names;
use crate::parts::{Built, DevicePart, LinkPart, Parts, PromisePart, TopoFault};
use crate::promise::Promise;
use crate::topo::{DeviceOpening, GroupTopo, LinkOpening, Openings};
use std::alloc::{AllocError, Global};

/// Names with their index, or the place of the first that stands twice.
#[derive(Drop)]
pub(crate) enum Indexed {
    Names(Names),
    Twice(u32),
}

/// The devices' names.
fn device_names(alloc: Global, devices: &[DevicePart]) -> Result<Indexed, AllocError>
    requires { length devices.now < 2 ^ 32 }
    ensures { IfOk result (IsIndexOf [] 0 (device_names_lem devices.now)) }
{
    let mut names = Names::new(alloc);
    for (i, device) in devices.iter().enumerate() {
        if names.find(device.name.bytes()).is_some() {
            return Ok(Indexed::Twice(i as u32));
        }
        names.add(&device.name)?;
    }
    Ok(Indexed::Names(names))
}

/// Whether a name is among the devices' or the links'.
#[tactic(auto, using(crate::proofs::NameSteps::among_both))]
fn stands_in(devices: &Names, links: &Names, name: &[u8]) -> bool
    ensures { result ≡ is_among name.now (devices.now ++ links.now) }
{
    devices.find(name).is_some() || links.find(name).is_some()
}

/// The links' names, behind the devices'.
fn link_names(alloc: Global, devices: &Names, links: &[LinkPart]) -> Result<Indexed, AllocError>
    requires { length devices.now + length links.now < 2 ^ 32 }
    ensures { IfOk result (IsIndexOf devices.now (length devices.now) (link_names_lem links.now)) }
{
    let mut names = Names::new(alloc);
    for (i, link) in links.iter().enumerate() {
        let name = link.name.bytes();
        if stands_in(devices, &names, name) {
            return Ok(Indexed::Twice((devices.len() + i) as u32));
        }
        names.add(&link.name)?;
    }
    Ok(Indexed::Names(names))
}

/// The number of the device of a name, 0 where there is none.
fn number_of(devices: &Names, name: &Name) -> u32
    requires { length devices.now < 2 ^ 32 }
    ensures { result ≡ number_of_lem devices.now name.now }
{
    match devices.find(name.bytes()) {
        Some(place) => place as u32,
        None => 0,
    }
}

/// The devices as they open.
fn device_openings(alloc: Global, devices: &[DevicePart]) -> Result<Vec<DeviceOpening>, AllocError>
    ensures { IfOk result (λ openings. openings.items ≡ map device_opening_lem devices.now) }
{
    let mut openings = Vec::new(alloc);
    for device in devices {
        openings.push(DeviceOpening {
            tor: device.tor,
            vals: device.vals,
            health: device.health,
        })?;
    }
    Ok(openings)
}

/// The links as they open, with the numbers of their ends.
fn link_openings(
    alloc: Global,
    names: &Names,
    links: &[LinkPart],
) -> Result<Vec<LinkOpening>, AllocError>
    requires { length names.now < 2 ^ 32 }
    ensures { IfOk result (λ openings. openings.items ≡ map (link_opening_lem names.now) links.now) }
{
    let mut openings = Vec::new(alloc);
    for link in links {
        openings.push(LinkOpening {
            a: number_of(names, &link.a.name),
            b: number_of(names, &link.b.name),
            capacity: link.capacity,
            vals: link.vals,
            health: link.health,
        })?;
    }
    Ok(openings)
}

/// The promises, with the numbers of their ends.
fn promises(alloc: Global, names: &Names, parts: &[PromisePart]) -> Result<Vec<Promise>, AllocError>
    requires { length names.now < 2 ^ 32 }
    ensures { IfOk result (λ promises. promises.items ≡ map (promise_opening_lem names.now) parts.now) }
{
    let mut promises = Vec::new(alloc);
    for part in parts {
        promises.push(Promise {
            a: number_of(names, &part.a),
            b: number_of(names, &part.b),
            percent: part.percent,
        })?;
    }
    Ok(promises)
}

/// The links' names, behind the devices' names, none of which stands twice; or what is wrong with the parts.
fn links_or_fault(
    alloc: Global,
    parts: &Parts,
    devices: &Names,
) -> Result<Result<Names, TopoFault>, AllocError>
    requires names { IsIndexOf [] 0 (device_names_lem parts.now.devices) (Indexed.Names devices.now) }
    requires few { length parts.now.devices + length parts.now.links + length parts.now.promises < 2 ^ 32 - 1 }
    ensures { IfOk result (HasLinksOf parts.now devices.now) }
{
    match link_names(alloc, devices, parts.links.as_slice())? {
        Indexed::Names(links) => match later_fault(alloc, parts, devices)? {
            Some(fault) => Ok(Err(fault)),
            None => Ok(Ok(links)),
        },
        Indexed::Twice(place) => Ok(Err(TopoFault::TwiceName { place })),
    }
}

/// What the topology of parts has beside its names. It can fail, and owns no names.
fn openings(alloc: Global, parts: &Parts, device_names: &Names) -> Result<Openings, AllocError>
    requires { length device_names.now < 2 ^ 32 }
    ensures name { IfOk result (λ openings. openings.name ≡ parts.now.name) }
    ensures devices { IfOk result (λ openings. openings.devices.items ≡ map device_opening_lem parts.now.devices) }
    ensures links { IfOk result (λ openings. openings.links.items ≡ map (link_opening_lem device_names.now) parts.now.links) }
    ensures promises { IfOk result (λ openings. openings.promises.items ≡ map (promise_opening_lem device_names.now) parts.now.promises) }
{
    Ok(Openings {
        devices: device_openings(alloc, parts.devices.as_slice())?,
        links: link_openings(alloc, device_names, parts.links.as_slice())?,
        promises: promises(alloc, device_names, parts.promises.as_slice())?,
        name: parts.name.copy(alloc)?,
    })
}

/// The topology of parts without a fault.
fn topo_of(
    alloc: Global,
    parts: &Parts,
    device_names: Names,
    link_names: Names,
) -> Result<GroupTopo, AllocError>
    requires few { length parts.now.devices < 2 ^ 32 }
    requires devices { device_names ≡ device_names_lem parts.now.devices }
    requires links { link_names ≡ link_names_lem parts.now.links }
    requires names { are_names (device_names ++ link_names) ≡ true }
    requires right { fault_of parts.now ≡ None }
    ensures { IfOk result (λ topo. topo ≡ group_of parts.now) }
{
    // Only read: so the proof has that the name is spelled as one.
    let _spelling = parts.name.bytes();
    let openings = openings(alloc, parts, &device_names)?;
    Ok(GroupTopo::from_names(device_names, link_names, openings))
}

impl GroupTopo {
    /// The topology of these parts, or what is wrong with them: of the six faults the first in their order that stands, at its
    /// first place.
    pub fn build(alloc: Global, parts: &Parts) -> Result<Built, AllocError>
        requires { length parts.now.devices + length parts.now.links + length parts.now.promises < 2 ^ 32 - 1 }
        ensures { IfOk result (IsBuiltOf parts.now) }
    {
        let devices = match device_names(alloc, parts.devices.as_slice())? {
            Indexed::Names(names) => names,
            Indexed::Twice(place) => return Ok(Built::Fault(TopoFault::TwiceName { place })),
        };
        match links_or_fault(alloc, parts, &devices)? {
            Ok(links) => Ok(Built::Topo(topo_of(alloc, parts, devices, links)?)),
            Err(fault) => Ok(Built::Fault(fault)),
        }
    }
}
