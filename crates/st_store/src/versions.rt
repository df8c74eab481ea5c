//! A group's target with its version, and what it was at each version before. The store merges into it the proposals that are
//! accepted, and the rows that are withdrawn.

ghost use Rattle.std.specs.Prelude.{◌≡◌, ◌+◌, ◌<◌, ◌≤◌, ◌^◌, ℕ, true, length, All, IfOk, OnOk, OnErr};
ghost use Rattle.st_overlay.specs.Values.{IsIn, IsRowIn, value_in};
ghost use Rattle.st_store.specs.Changes.{value_at as value_at_lem};
ghost use Rattle.st_store.specs.Versions.{IsOpeningOf, MergesIf};

use crate::change_table::ChangeTable;
use st_net::{Entity, GroupTopo, Row, Var};
use st_overlay::Table;
use std::alloc::{AllocError, Global};
use std::marker::Model;

/// A target and its versions.
#[derive(Drop)]
pub struct Versions {
    version: u32,
    table: Table,
    changes: ChangeTable,
}

impl Model for Versions {
    ghost use Rattle.st_store.specs.Versions.{VersionsView, IsCurrent};
    ghost use Rattle.st_store.specs.Rooms.{lists_of};

    ghost Value = { VersionsView };

    ghost view = { λ v. record { version = v.version; target = v.table; changes = lists_of v.changes } };

    ghost invariant = { λ v. IsCurrent (record { version = v.version; target = v.table; changes = lists_of v.changes }) };
}

impl Versions {
    /// Version 0, the opening.
    pub fn opening(alloc: Global, topo: &GroupTopo) -> Result<Versions, AllocError>
        ensures { IfOk result (IsOpeningOf topo.now) }
    {
        let table = Table::opening(alloc, topo)?;
        let changes = ChangeTable::none(alloc, topo, table.copy(alloc)?)?;
        Ok(Versions {
            version: 0,
            table,
            changes,
        })
    }

    /// The last version.
    pub fn version(&self) -> u32
        ensures { result ≡ self.now.version }
    {
        self.version
    }

    /// The values at the last version.
    pub fn table(&self) -> &Table
        ensures table { result.now ≡ self.now.target }
        ensures latest { (v : ℕ) → self.now.version ≤ v → value_at_lem self.now.changes v ≡ value_in result.now }
    {
        &self.table
    }

    /// How many devices the target has.
    pub fn device_count(&self) -> usize
        ensures { result ≡ length self.now.target.devices }
    {
        self.changes.device_count()
    }

    /// The value of a variable at a version; beyond the last version, at the last.
    pub fn value_at(&self, version: u32, entity: Entity, var: Var) -> u32
        requires { IsIn self.now.target entity }
        ensures { result ≡ value_at_lem self.now.changes version entity var }
    {
        self.changes.get(version, entity).get(entity, var)
    }

    /// Merges rows as the next version. It takes memory for as many changes as the rows have entities. At `Err` nothing has
    /// changed.
    pub fn merge(&mut self, rows: &[Row]) -> Result<(), AllocError>
        requires rows { All (IsRowIn self.old.target) rows.now }
        requires version { self.old.version + 1 < 2 ^ 32 }
        ensures ok { OnOk result (MergesIf true self.old self.new rows.now) }
        ensures err { OnErr result (self.new ≡ self.old) }
    {
        // Room first: it can fail, and what follows cannot.
        self.changes.reserve_all(rows)?;
        self.table.overlay(rows);
        self.version += 1;
        self.changes.enter(self.version, &self.table, rows);
        Ok(())
    }

    /// Merges rows as the next version where they are accepted. At `Err` nothing has changed.
    pub fn merge_if(&mut self, accept: bool, rows: &[Row]) -> Result<(), AllocError>
        requires rows { All (IsRowIn self.old.target) rows.now }
        requires version { self.old.version + 1 < 2 ^ 32 }
        ensures ok { OnOk result (MergesIf accept self.old self.new rows.now) }
        ensures err { OnErr result (self.new ≡ self.old) }
    {
        if accept { self.merge(rows) } else { Ok(()) }
    }
}
