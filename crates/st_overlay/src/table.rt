//! A table with the values of each entity of a group. It opens by the topology, takes rows, and is read by entity.

ghost use Rattle.std.specs.Prelude.{◌≡◌, [], All, length, IfOk};
ghost use Rattle.st_net.specs.Groups.{opening_of};
ghost use Rattle.st_net.specs.Entities.{vals_by};
ghost use Rattle.st_net.specs.Merge.{merge_of, target_with};
ghost use Rattle.st_overlay.specs.Values.{IsIn, vals_at, value_in, row_set, overlaid, HasSameShape, IsTableOf, IsRowIn, Overlays};

use st_net::{Entity, GroupTopo, Row, Vals, Var};
use std::alloc::{AllocError, Global};
use std::marker::Model;

/// The values of the entities of a group. Contracts see the values of each device and of each link, in order.
#[derive(Drop)]
pub struct Table {
    devices: Vec<Vals>,
    links: Vec<Vals>,
}

impl Model for Table {
    ghost use Rattle.st_overlay.specs.Values.{Values};

    ghost Value = { Values };

    ghost view = { λ t. record { devices = t.devices.items; links = t.links.items } };
}

impl Table {
    /// The opening values of a group.
    pub fn opening(alloc: Global, topo: &GroupTopo) -> Result<Table, AllocError>
        ensures of { IfOk result (IsTableOf topo.now) }
        ensures vals { IfOk result (λ table. vals_at table ≡ opening_of topo.now) }
        ensures values { IfOk result (λ table. value_in table ≡ merge_of topo.now []) }
    {
        let mut devices = Vec::new(alloc);
        for i in 0..topo.device_count() {
            devices.push(topo.opening(Entity::Device(i)))?;
        }
        let mut links = Vec::new(alloc);
        for i in 0..topo.link_count() {
            links.push(topo.opening(Entity::Link(i)))?;
        }
        Ok(Table { devices, links })
    }

    /// An equal table.
    pub fn copy(&self, alloc: Global) -> Result<Table, AllocError>
        ensures { IfOk result (λ copy. copy ≡ self.now) }
    {
        Ok(Table {
            devices: self.devices.as_slice().to_vec(alloc)?,
            links: self.links.as_slice().to_vec(alloc)?,
        })
    }

    /// Takes over all values of a table of the same topology, in place.
    pub fn fill(&mut self, from: &Table)
        requires { HasSameShape self.old from.now }
        ensures { self.new ≡ from.now }
    {
        self.devices.copy_from_slice(from.devices.as_slice());
        self.links.copy_from_slice(from.links.as_slice());
    }

    /// How many devices there are.
    pub fn device_count(&self) -> usize
        ensures { result ≡ length self.now.devices }
    {
        self.devices.len()
    }

    /// How many links there are.
    pub fn link_count(&self) -> usize
        ensures { result ≡ length self.now.links }
    {
        self.links.len()
    }

    /// The values of an entity.
    pub fn get(&self, e: Entity) -> Vals
        requires { IsIn self.now e }
        ensures { result ≡ vals_at self.now e }
    {
        match e {
            Entity::Device(i) => self.devices[i as usize],
            Entity::Link(i) => self.links[i as usize],
        }
    }

    /// The value of a variable of an entity; 0 where the entity has no such variable.
    pub fn value(&self, e: Entity, var: Var) -> u32
        requires { IsIn self.now e }
        ensures { result ≡ value_in self.now e var }
    {
        self.get(e).get(e, var)
    }

    /// Sets the variable of a row, where the table has it.
    fn set(&mut self, row: &Row)
        ensures { self.new ≡ row_set self.old row.now }
    {
        let Row { entity, var, value } = *row;
        match entity {
            Entity::Device(i) => {
                if let Some(vals) = self.devices.get_mut(i as usize) {
                    *vals = vals.with(entity, var, value);
                }
            }
            Entity::Link(i) => {
                if let Some(vals) = self.links.get_mut(i as usize) {
                    *vals = vals.with(entity, var, value);
                }
            }
        }
    }

    /// Sets the variable of each row, one after another, and leaves all else. A row that the table does not have changes
    /// nothing.
    pub fn overlay(&mut self, rows: &[Row])
        ensures overlaid { self.new ≡ overlaid self.old rows.now }
        ensures shape { HasSameShape self.old self.new }
        ensures rows { All (IsRowIn self.old) rows.now → Overlays self.old self.new rows.now }
    {
        for row in rows {
            self.set(row);
        }
    }

    /// The values of an entity as they would be with these rows set.
    pub fn get_with(&self, rows: &[Row], e: Entity) -> Vals
        requires { IsIn self.now e }
        ensures { result ≡ vals_by e (vals_at self.now e) (target_with (value_in self.now) rows.now e) }
    {
        let mut vals = self.get(e);
        for row in rows {
            if row.entity.is_same(e) {
                vals = vals.with(e, row.var, row.value);
            }
        }
        vals
    }
}
