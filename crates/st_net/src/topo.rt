//! The topology of a group that was built: names turned into numbers, every end and pair checked. All crates above read it
//! and none tests it again.

ghost use Rattle.std.specs.Prelude.{◌≡◌, ℕ, ◌<◌, ◌^◌, length, slice_index_or, slice_get, Some, IfOk, IfSome, IfNone};
ghost use Rattle.st_net.specs.InOrder.{place_in, entity_count, entities_of};
ghost use Rattle.st_net.specs.TopoFields.{group_in};
ghost use Rattle.st_net.specs.Asks.{ask_count, ask_of};
ghost use Rattle.st_net.specs.Groups.{Group, IsEntityOf, find_in, name_of as name_of_lem, no_device, no_link, no_promise, opening_of, health_of, IsSound};

mod same;

use crate::entity::{Entity, Vals};
use crate::name::Name;
use crate::names::Names;
use crate::promise::Promise;
use std::alloc::{AllocError, Global};
use std::marker::Model;

/// The most devices of a group.
pub const MAX_DEVICES: usize = 512;

/// The most of these that are ToRs.
pub const MAX_TORS: usize = 64;

/// The most links of a group.
pub const MAX_LINKS: usize = 4_096;

/// The most promises of a group: one for each pair of ToRs.
pub const MAX_PROMISES: usize = 2_016;

/// The greatest capacity of a link.
pub const MAX_CAPACITY: u32 = 1_000_000;

/// The greatest percentage of a promise.
pub const MAX_PERCENT: u32 = 100;

/// The most rows of a proposal.
pub const MAX_ROWS: usize = 16;

/// The numbers of these limits, as laws: it does nothing.
pub fn group_limits()
    ensures devices { MAX_DEVICES ≡ 512 }
    ensures tors { MAX_TORS ≡ 64 }
    ensures links { MAX_LINKS ≡ 4096 }
    ensures promises { MAX_PROMISES ≡ 2016 }
    ensures capacity { MAX_CAPACITY ≡ 1000000 }
    ensures percent { MAX_PERCENT ≡ 100 }
    ensures rows { MAX_ROWS ≡ 16 }
{}

/// A device as its group opens with it.
#[derive(Clone, Copy, Debug, PartialEq, Eq)]
pub struct DeviceOpening {
    pub tor: bool,
    pub vals: Vals,
    pub health: u32,
}

/// A link as its group opens with it; its ends are devices' numbers.
#[derive(Clone, Copy, Debug, PartialEq, Eq)]
pub struct LinkOpening {
    pub a: u32,
    pub b: u32,
    pub capacity: u32,
    pub vals: Vals,
    pub health: u32,
}

/// What a topology has beside the names of its devices and of its links: its own name, and its devices, links and promises,
/// each in order.
#[derive(Drop)]
pub(crate) struct Openings {
    pub(crate) name: Name,
    pub(crate) devices: Vec<DeviceOpening>,
    pub(crate) links: Vec<LinkOpening>,
    pub(crate) promises: Vec<Promise>,
}

/// The topology of one group, which is sound: names differ, ends and pairs are of the group, and every limit is kept.
#[derive(Drop)]
pub struct GroupTopo {
    device_names: Names,
    link_names: Names,
    openings: Openings,
}

impl Model for GroupTopo {
    ghost use Rattle.st_net.specs.Groups.{Group, IsSound};
    ghost use Rattle.st_net.specs.TopoFields.{group_in};

    ghost Value = { Group };

    ghost view = { λ t. group_in t.device_names t.link_names t.openings };

    ghost invariant = { λ t. IsSound (group_in t.device_names t.link_names t.openings) };
}

impl GroupTopo {
    /// The topology of these names and openings, which are sound together.
    pub(crate) fn from_names(
        device_names: Names,
        link_names: Names,
        openings: Openings,
    ) -> GroupTopo
        requires { IsSound (group_in device_names link_names openings) }
        ensures { result ≡ group_in device_names link_names openings }
    {
        GroupTopo {
            device_names,
            link_names,
            openings,
        }
    }

    /// The group's name.
    pub fn name(&self) -> &Name
        ensures { result.now ≡ self.now.name }
    {
        &self.openings.name
    }

    /// How many devices there are, at most 512.
    pub fn device_count(&self) -> u32
        ensures { result ≡ length self.now.devices }
    {
        self.openings.devices.len() as u32
    }

    /// How many links there are, at most 4,096.
    pub fn link_count(&self) -> u32
        ensures { result ≡ length self.now.links }
    {
        self.openings.links.len() as u32
    }

    /// How many promises there are, at most 2,016.
    pub fn promise_count(&self) -> u32
        ensures { result ≡ length self.now.promises }
    {
        self.openings.promises.len() as u32
    }

    /// How many pairs are asked of the network: one for each promise.
    pub fn ask_count(&self) -> u32
        ensures { result ≡ ask_count self.now }
    {
        self.promise_count()
    }

    /// The two devices that a link joins, as it was declared.
    pub fn ends(&self, link: u32) -> (u32, u32)
        requires { link < length self.now.links }
        ensures a { result.0 ≡ (slice_index_or self.now.links link no_link).a }
        ensures b { result.1 ≡ (slice_index_or self.now.links link no_link).b }
    {
        let link = &self.openings.links[link as usize];
        (link.a, link.b)
    }

    /// A link's capacity, 1 to 1,000,000.
    pub fn capacity(&self, link: u32) -> u32
        requires { link < length self.now.links }
        ensures { result ≡ (slice_index_or self.now.links link no_link).capacity }
    {
        self.openings.links[link as usize].capacity
    }

    /// Whether a device is a ToR.
    pub fn is_tor(&self, device: u32) -> bool
        requires { device < length self.now.devices }
        ensures { result ≡ (slice_index_or self.now.devices device no_device).tor }
    {
        self.openings.devices[device as usize].tor
    }

    /// Promise number `i`, from 0 in the order of declaration.
    pub fn promise(&self, i: u32) -> Promise
        requires { i < length self.now.promises }
        ensures { result ≡ slice_index_or self.now.promises i no_promise }
    {
        self.openings.promises[i as usize]
    }

    /// Ask number `i`, from 0: a pair of devices, and a percentage of what they can exchange with everything up. It is the
    /// promise of this number.
    pub fn ask(&self, i: u32) -> Promise
        requires { i < ask_count self.now }
        ensures { result ≡ ask_of self.now i }
    {
        self.promise(i)
    }

    /// The values that an entity opens with.
    pub fn opening(&self, e: Entity) -> Vals
        requires { IsEntityOf self.now e }
        ensures { result ≡ opening_of self.now e }
    {
        match e {
            Entity::Device(i) => self.openings.devices[i as usize].vals,
            Entity::Link(i) => self.openings.links[i as usize].vals,
        }
    }

    /// The health that an entity opens with: 0 to 5 of a device, 0 or 1 of a link.
    pub fn health(&self, e: Entity) -> u32
        requires { IsEntityOf self.now e }
        ensures { result ≡ health_of self.now e }
    {
        match e {
            Entity::Device(i) => self.openings.devices[i as usize].health,
            Entity::Link(i) => self.openings.links[i as usize].health,
        }
    }

    /// Where an entity stands in the order of entities: devices first, then links. Lists with an item for each entity stand in
    /// this order.
    pub fn place(&self, e: Entity) -> usize
        requires { IsEntityOf self.now e }
        ensures place { result ≡ place_in self.now e }
        ensures within { result < entity_count self.now }
    {
        e.place_behind(self.openings.devices.len())
    }

    /// How many entities there are: devices and links.
    pub fn entity_count(&self) -> u32
        ensures { result ≡ length (entities_of self.now) }
    {
        self.is_sound();
        self.device_count() + self.link_count()
    }

    /// An entity, by its place from 0 in the order of entities: devices first, then links.
    pub fn entity_at(&self, place: u32) -> Entity
        requires { place < length (entities_of self.now) }
        ensures of { IsEntityOf self.now result }
        ensures at { result ≡ slice_index_or (entities_of self.now) place result }
    {
        Entity::at_place(place, self.device_count())
    }

    /// The entity of a name: None exactly where no part has it.
    pub fn find(&self, name: &Name) -> Option<Entity>
        ensures found { result ≡ find_in self.now name.now }
        ensures within { IfSome result (IsEntityOf self.now) }
    {
        match self.device_names.find(name.bytes()) {
            Some(place) => Some(Entity::Device(place as u32)),
            None => match self.link_names.find(name.bytes()) {
                Some(place) => Some(Entity::Link(place as u32)),
                None => None,
            },
        }
    }

    /// An entity's name.
    pub fn name_of(&self, e: Entity) -> &Name
        requires { IsEntityOf self.now e }
        ensures { result.now ≡ name_of_lem self.now e }
    {
        match e {
            Entity::Device(i) => self.device_names.get(i as usize),
            Entity::Link(i) => self.link_names.get(i as usize),
        }
    }

    /// Names differ, ends and pairs are of the group, and every limit is kept.
    pub fn is_sound(&self)
        ensures { IsSound self.now }
    {
        // Only read: so the proof has what every topology keeps.
        let _devices = &self.openings.devices;
    }
}
