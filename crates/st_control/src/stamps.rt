//! The stamps of a group's entities, in the order of entities.

ghost use Rattle.std.specs.Prelude.{◌≡◌, length, IfOk, if◌then◌else◌};
ghost use Rattle.st_net.specs.Sets.{is_in, MarksOf};
ghost use Rattle.st_net.specs.InOrder.{entity_count, stamp_in};

use st_net::{EntitySet, GroupTopo};
use std::alloc::{AllocError, Global};

/// A stamp of 0 for each entity.
pub fn opening_stamps(alloc: Global, topo: &GroupTopo) -> Result<Vec<u32>, AllocError>
    ensures count { IfOk result (λ stamps. length stamps.items ≡ entity_count topo.now) }
    ensures opening { IfOk result (λ stamps. stamp_in topo.now stamps.items ≡ (λ e. 0)) }
{
    let entities = topo.device_count() as usize + topo.link_count() as usize;
    vec![in alloc; 0; entities]
}

/// Stamps all entities of a set.
pub fn stamp_all(topo: &GroupTopo, stamps: &mut [u32], set: &EntitySet, stamp: u32)
    requires stamps { length stamps.old ≡ entity_count topo.now }
    requires set { MarksOf topo.now set.now }
    ensures count { length stamps.new ≡ length stamps.old }
    ensures stamps { stamp_in topo.now stamps.new ≡ (λ e. if is_in set.now e then stamp else stamp_in topo.now stamps.old e) }
{
    for place in 0..topo.entity_count() {
        if set.has(topo.entity_at(place)) {
            stamps[place as usize] = stamp;
        }
    }
}
