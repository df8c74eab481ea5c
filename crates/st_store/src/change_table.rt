//! The changes of all entities of a group, and the values that they opened with.

ghost use Rattle.std.specs.Prelude.{◌≡◌, ◌<◌, [], length, map, replicate, All, IfOk, OnOk};
ghost use Rattle.st_overlay.specs.Values.{IsIn};
ghost use Rattle.st_store.specs.Changes.{unchanged, HasEntity, HasEntityOf, HasValuesOf, IsAscending, changes_of, vals_at_version, change_set, entered};
ghost use Rattle.st_store.specs.Rooms.{changes_in, lists_of, room_at, HasMoreRoom, HasRoomFor, IsReady, IsReadyFor, StaysReady};

use crate::change::{Change, EntityChanges};
use st_net::{Entity, GroupTopo, Row, Vals};
use st_overlay::Table;
use std::alloc::{AllocError, Global};

/// What the entities of a group opened with, and the changes of each since.
#[derive(Drop)]
pub struct ChangeTable {
    opening: Table,
    devices: Vec<EntityChanges>,
    links: Vec<EntityChanges>,
}

/// As many lists without a change.
fn no_changes(alloc: Global, count: u32) -> Result<Vec<EntityChanges>, AllocError>
    ensures { IfOk result (λ lists. map changes_in lists.items ≡ replicate count []) }
{
    let mut lists = Vec::new(alloc);
    for _i in 0..count {
        lists.push(EntityChanges::none(alloc))?;
    }
    Ok(lists)
}

impl ChangeTable {
    /// No change of any entity, from these opening values on.
    pub fn none(alloc: Global, topo: &GroupTopo, opening: Table) -> Result<ChangeTable, AllocError>
        ensures { IfOk result (λ table. lists_of table ≡ unchanged topo.now opening) }
    {
        Ok(ChangeTable {
            opening,
            devices: no_changes(alloc, topo.device_count())?,
            links: no_changes(alloc, topo.link_count())?,
        })
    }

    /// How many devices there are.
    pub fn device_count(&self) -> usize
        ensures { result ≡ length (lists_of self.now).devices }
    {
        self.devices.len()
    }

    /// Makes room for one more change of an entity.
    fn reserve(&mut self, entity: Entity) -> Result<(), AllocError>
        requires { HasEntity (lists_of self.old) entity }
        ensures same { lists_of self.new ≡ lists_of self.old }
        ensures room { OnOk result (0 < room_at self.new entity) }
        ensures grown { HasMoreRoom self.old self.new }
    {
        match entity {
            Entity::Device(i) => self.devices[i as usize].reserve(),
            Entity::Link(i) => self.links[i as usize].reserve(),
        }
    }

    /// Makes room for one more change of the entity of each row.
    pub fn reserve_all(&mut self, rows: &[Row]) -> Result<(), AllocError>
        requires { All (HasEntityOf (lists_of self.old)) rows.now }
        ensures same { lists_of self.new ≡ lists_of self.old }
        ensures room { OnOk result (All (HasRoomFor self.new) rows.now) }
    {
        for row in rows {
            self.reserve(row.entity)?;
        }
        Ok(())
    }

    /// Enters a change of an entity.
    fn set(&mut self, entity: Entity, change: Change)
        requires entity { HasEntity (lists_of self.old) entity }
        requires ready { IsReady change.version self.old entity }
        ensures lists { lists_of self.new ≡ change_set (lists_of self.old) entity change }
        ensures ready { StaysReady change.version self.old self.new }
    {
        match entity {
            Entity::Device(i) => self.devices[i as usize].set(change),
            Entity::Link(i) => self.links[i as usize].set(change),
        }
    }

    /// Enters the values that the entities of the rows have in a table, as those from a version on.
    pub fn enter(&mut self, version: u32, table: &Table, rows: &[Row])
        requires entities { All (HasEntityOf (lists_of self.old)) rows.now }
        requires values { All (HasValuesOf table.now) rows.now }
        requires ready { All (IsReadyFor version self.old) rows.now }
        ensures { lists_of self.new ≡ entered version table.now (lists_of self.old) rows.now }
    {
        for row in rows {
            let entity = row.entity;
            let vals = table.get(entity);
            self.set(entity, Change { version, vals });
        }
    }

    /// The values of an entity at a version.
    pub fn get(&self, version: u32, entity: Entity) -> Vals
        requires entity { HasEntity (lists_of self.now) entity }
        requires opening { IsIn (lists_of self.now).opening entity }
        requires ascending { IsAscending (changes_of (lists_of self.now) entity) }
        ensures { result ≡ vals_at_version (lists_of self.now) version entity }
    {
        let opening = self.opening.get(entity);
        match entity {
            Entity::Device(i) => self.devices[i as usize].vals_at(version, opening),
            Entity::Link(i) => self.links[i as usize].vals_at(version, opening),
        }
    }
}
