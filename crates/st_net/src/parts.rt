//! The parts of a group as a document declares them, by names, and what can be wrong with them. `GroupTopo::build` turns them
//! into a topology.

ghost use Rattle.std.specs.Prelude.{◌≡◌};
ghost use Rattle.st_net.specs.Faults.{plain_parts};

use crate::entity::Vals;
use crate::items::Items;
use crate::name::Name;
use crate::topo::GroupTopo;

/// An end of a link: a device, by its name, of this group or of another one that is named.
#[derive(Drop)]
pub struct EndPart {
    pub group: Option<Name>,
    pub name: Name,
}

/// A device: whether it is a ToR, its opening values and its health, 0 to 5.
#[derive(Drop)]
pub struct DevicePart {
    pub name: Name,
    pub tor: bool,
    pub vals: Vals,
    pub health: u32,
}

/// A link: its ends, its capacity from 1 to 1,000,000, its opening values and its health, 0 or 1.
#[derive(Drop)]
pub struct LinkPart {
    pub name: Name,
    pub a: EndPart,
    pub b: EndPart,
    pub capacity: u32,
    pub vals: Vals,
    pub health: u32,
}

/// A promise between two ToRs: the percentage, 0 to 100, of what the least cut has with everything up.
#[derive(Drop)]
pub struct PromisePart {
    pub a: Name,
    pub b: Name,
    pub percent: u32,
}

/// A group, part by part. The place of a part counts the devices, then the links, then the promises, from 0.
#[derive(Drop)]
pub struct Parts {
    pub name: Name,
    pub devices: Items<DevicePart>,
    pub links: Items<LinkPart>,
    pub promises: Items<PromisePart>,
}

impl Parts {
    /// Just these parts of a group.
    pub fn of(
        name: Name,
        devices: Items<DevicePart>,
        links: Items<LinkPart>,
        promises: Items<PromisePart>,
    ) -> Parts
        ensures { result ≡ plain_parts name devices links promises }
    {
        Parts {
            name,
            devices,
            links,
            promises,
        }
    }
}

/// The limits of a group's parts: 512 devices, 64 ToRs, 4,096 links, 2,016 promises, a capacity of 1 to 1,000,000, a
/// percentage of at most 100, and opening values and healths that are in range, with 0 for a link's third and fourth value.
#[derive(Clone, Copy, Debug, PartialEq, Eq)]
pub enum Limit {
    Devices,
    Tors,
    Links,
    Promises,
    Capacity,
    Percent,
    Opening,
}

/// What is wrong with a group's parts, at the first place where that is wrong.
#[derive(Clone, Copy, Debug, PartialEq, Eq)]
pub enum TopoFault {
    /// A device or link has the name of an earlier part.
    TwiceName { place: u32 },
    /// A link's end in this group, or a promise's end, names no device.
    UnknownName { place: u32 },
    /// Both ends of a link are one device of this group.
    LoopLink { place: u32 },
    /// A link's end has another group than this one.
    CrossGroup { place: u32 },
    /// A limit is passed. The place of a limit on a number of parts is that of the first part past it.
    OverLimit { limit: Limit, place: u32 },
    /// A promise's end is no ToR, its ends are equal, or its pair was promised before in either order.
    BadPair { place: u32 },
}

/// A topology, or what is wrong with the parts.
#[derive(Drop)]
pub enum Built {
    Topo(GroupTopo),
    Fault(TopoFault),
}
