//! Which entities of a group are settled, or sure: each entity is looked at, in order.

ghost use Rattle.std.specs.Prelude.{◌≡◌, ◌<◌, length, IfOk};
ghost use Rattle.st_net.specs.Groups.{IsEntityOf};
ghost use Rattle.st_overlay.specs.Values.{IsTableOf};
ghost use Rattle.st_net.specs.InOrder.{entity_count, place_in};
ghost use Rattle.st_control.specs.Sure.{shown_by, MarksShown};

use crate::settled::{Shown, is_shown};
use st_net::{Entity, EntitySet, GroupTopo, Report};
use st_overlay::Table;
use std::alloc::{AllocError, Global};

/// Whether an entity is settled, or sure.
fn is_shown_at(
    shown: Shown,
    topo: &GroupTopo,
    table: &Table,
    observed: &[Report],
    stamps: &[u32],
    entity: Entity,
) -> bool
    requires entity { IsEntityOf topo.now entity }
    requires table { IsTableOf topo.now table.now }
    requires observed { length observed.now ≡ entity_count topo.now }
    requires stamps { length stamps.now ≡ entity_count topo.now }
    ensures { result ≡ shown_by shown topo.now observed.now stamps.now table.now entity }
{
    let place = topo.place(entity);
    is_shown(
        shown,
        entity,
        &observed[place],
        stamps[place],
        table.get(entity),
    )
}

/// The entities of a group that are settled, or sure.
pub fn shown_set(
    alloc: Global,
    shown: Shown,
    topo: &GroupTopo,
    table: &Table,
    observed: &[Report],
    stamps: &[u32],
) -> Result<EntitySet, AllocError>
    requires table { IsTableOf topo.now table.now }
    requires observed { length observed.now ≡ entity_count topo.now }
    requires stamps { length stamps.now ≡ entity_count topo.now }
    ensures { IfOk result (MarksShown shown topo.now observed.now stamps.now table.now) }
{
    EntitySet::passing(alloc, topo, |entity| {
        is_shown_at(shown, topo, table, observed, stamps, entity)
    })
}
