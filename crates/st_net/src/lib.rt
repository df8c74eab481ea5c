//! The words of a network: names, entities and their variables, and the topology of one group, which is built here of its parts.
//! Every crate above cites the definitions of `specs/`.
#![tactic(auto)]

mod build;
mod entity;
mod fault;
mod items;
mod law;
mod level;
mod message;
mod name;
mod name_index;
mod names;
mod pairs;
mod parts;
mod promise;
mod range;
mod set;
mod topo;

pub use entity::{AppId, Entity, Prio, Row, Vals, Var};
pub use items::Items;
pub use level::{carries, level_of};
pub use message::{Command, Report};
pub use name::{MAX_NAME_BYTES, Name, most_name_bytes};
pub use name_index::NameIndex;
pub use names::Names;
pub use pairs::{Pair, Pairs};
pub use parts::{Built, DevicePart, EndPart, Limit, LinkPart, Parts, PromisePart, TopoFault};
pub use promise::{Broken, BrokenKind, BrokenOf, Promise, Side};
pub use range::{
    DEVICE_HEALTH, LINK_HEALTH, are_in_range, health_limits, is_health_of, is_in_range, most_health,
};
pub use set::EntitySet;
pub use topo::{
    DeviceOpening, GroupTopo, LinkOpening, MAX_CAPACITY, MAX_DEVICES, MAX_LINKS, MAX_PERCENT,
    MAX_PROMISES, MAX_ROWS, MAX_TORS, group_limits,
};
