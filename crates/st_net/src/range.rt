//! The values and healths that entities may have, and the rows that a group's proposal may hold.

ghost use Rattle.std.specs.Prelude.{◌≡◌, ◌↔◌, IsTrue, All};
ghost use Rattle.st_net.specs.Groups.{IsEntityOf, are_device_vals as are_device_vals_lem, are_link_vals as are_link_vals_lem};
ghost use Rattle.st_net.specs.Ranges.{is_in_range as is_in_range_lem, are_in_range as are_in_range_lem, most_health as most_health_lem, is_health_of as is_health_of_lem, RowFits, RowsFit, is_free_of, are_apart as are_apart_lem};

use crate::entity::{Entity, Row, Vals, Var};
use crate::topo::{GroupTopo, MAX_ROWS};

/// The greatest health of a device: all works. The least is 0.
pub const DEVICE_HEALTH: u32 = 5;

/// The greatest health of a link: it works. The least is 0.
pub const LINK_HEALTH: u32 = 1;

/// The numbers of these limits, as laws: it does nothing.
pub fn health_limits()
    ensures device { DEVICE_HEALTH ≡ 5 }
    ensures link { LINK_HEALTH ≡ 1 }
{}

/// The greatest health of an entity.
pub fn most_health(entity: Entity) -> u32
    ensures { result ≡ most_health_lem entity }
{
    match entity {
        Entity::Device(_) => DEVICE_HEALTH,
        Entity::Link(_) => LINK_HEALTH,
    }
}

/// Whether an entity may have this health: 0 to 5 of a device, 0 or 1 of a link.
pub fn is_health_of(entity: Entity, health: u32) -> bool
    ensures { result ≡ is_health_of_lem entity health }
{
    health <= most_health(entity)
}

/// Whether values are in range for a device, whose power and routing are 0 or 1.
pub(crate) fn are_device_vals(vals: Vals) -> bool
    ensures { result ≡ are_device_vals_lem vals }
{
    vals.v0 <= 1 && vals.v3 <= 1
}

/// Whether values are in range for a link, whose power is 0 or 1 and which has no third and fourth value.
pub(crate) fn are_link_vals(vals: Vals) -> bool
    ensures { result ≡ are_link_vals_lem vals }
{
    vals.v0 <= 1 && vals.v2 == 0 && vals.v3 == 0
}

/// Whether an entity may have these values: power and routing are 0 or 1, and what is no variable of a link is 0.
pub fn are_in_range(entity: Entity, vals: Vals) -> bool
    ensures { result ≡ are_in_range_lem entity vals }
{
    match entity {
        Entity::Device(_) => are_device_vals(vals),
        Entity::Link(_) => are_link_vals(vals),
    }
}

/// Whether a variable of an entity may have a value: power and routing are 0 or 1, firmware, config and iface any number. No
/// value is in range for a variable that the entity does not have.
pub fn is_in_range(entity: Entity, var: Var, value: u32) -> bool
    ensures { result ≡ is_in_range_lem entity var value }
{
    match (entity, var) {
        (Entity::Device(_), Var::Power) => value <= 1,
        (Entity::Device(_), Var::Firmware) => true,
        (Entity::Device(_), Var::Config) => true,
        (Entity::Device(_), Var::Routing) => value <= 1,
        (Entity::Link(_), Var::LinkPower) => value <= 1,
        (Entity::Link(_), Var::Iface) => true,
        _ => false,
    }
}

/// Whether no row is on a variable.
fn is_free(entity: Entity, var: Var, rows: &[Row]) -> bool
    ensures { result ≡ is_free_of entity var rows.now }
{
    for row in rows {
        if row.entity.is_same(entity) && row.var.is_same(var) {
            return false;
        }
    }
    true
}

/// Whether no two rows are on one variable.
fn are_apart(rows: &[Row]) -> bool
    ensures { result ≡ are_apart_lem rows.now }
{
    for (i, row) in rows.iter().enumerate() {
        if !is_free(row.entity, row.var, &rows[i + 1..]) {
            return false;
        }
    }
    true
}

impl GroupTopo {
    /// Whether an entity is of this group.
    pub fn has(&self, entity: Entity) -> bool
        ensures { IsTrue result ↔ IsEntityOf self.now entity }
    {
        match entity {
            Entity::Device(i) => i < self.device_count(),
            Entity::Link(i) => i < self.link_count(),
        }
    }

    /// Whether a row names an entity of the group, and a value that the variable may have.
    pub fn row_fits(&self, row: &Row) -> bool
        ensures { IsTrue result ↔ RowFits self.now row.now }
    {
        self.has(row.entity) && is_in_range(row.entity, row.var, row.value)
    }

    /// Whether each row fits.
    fn each_fits(&self, rows: &[Row]) -> bool
        ensures { IsTrue result ↔ All (RowFits self.now) rows.now }
    {
        rows.iter().all(|row| self.row_fits(row))
    }

    /// Whether a proposal may hold these rows: 1 to 16 rows that fit, no two of them on one variable. Takes no memory.
    pub fn rows_fit(&self, rows: &[Row]) -> bool
        ensures { IsTrue result ↔ RowsFit self.now rows.now }
    {
        !rows.is_empty() && rows.len() <= MAX_ROWS && self.each_fits(rows) && are_apart(rows)
    }
}
