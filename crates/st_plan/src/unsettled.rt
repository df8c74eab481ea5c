//! Which entities are settled: their kept report is not busy, shows the command of their stamp, and has their target's values.

ghost use Rattle.std.specs.Prelude.{◌≡◌, ◌+◌, ◌<◌, ◌^◌, [], ◌∷◌, ◌++◌, not, length, IfOk, OnOk};
ghost use Rattle.std.specs.List.{filter};
ghost use Rattle.st_net.specs.Groups.{Group};
ghost use Rattle.st_net.specs.Reports.{is_settled_by};
ghost use Rattle.st_overlay.specs.Values.{IsIn, IsTableOf};
ghost use Rattle.st_plan.specs.Unsettled.{AreForTable, is_settled_in, unsettled_in};

use st_net::{Entity, Report, Vals};
use st_overlay::Table;
use std::alloc::{AllocError, Global};

/// Whether a report shows that the command of this stamp was carried out, and these target values.
pub fn settled(observed: &Report, target: Vals, stamp: u32) -> bool
    ensures { result ≡ is_settled_by observed.now stamp target }
{
    !observed.busy && observed.fence == stamp && observed.vals.is_same(target)
}

/// Whether an entity is settled, by lists with an item for each entity.
fn is_settled_at(observed: &[Report], target: &Table, stamps: &[u32], entity: Entity) -> bool
    requires lists { AreForTable observed.now target.now stamps.now }
    requires entity { IsIn target.now entity }
    ensures { (g : Group) → IsTableOf g target.now → result ≡ is_settled_in g observed.now target.now stamps.now entity }
{
    let place = entity.place_behind(target.device_count());
    settled(&observed[place], target.get(entity), stamps[place])
}

/// Adds an entity to the unsettled ones, where it is one of them.
fn add_unsettled(
    unsettled: &mut Vec<Entity>,
    observed: &[Report],
    target: &Table,
    stamps: &[u32],
    entity: Entity,
) -> Result<(), AllocError>
    requires lists { AreForTable observed.now target.now stamps.now }
    requires entity { IsIn target.now entity }
    ensures { (g : Group) → IsTableOf g target.now → OnOk result (unsettled.new.items ≡ unsettled.old.items ++ filter (λ e. not (is_settled_in g observed.now target.now stamps.now e)) (entity ∷ [])) }
{
    if !is_settled_at(observed, target, stamps, entity) {
        unsettled.push(entity)?;
    }
    Ok(())
}

/// The entities of a group that are not settled, in order: its kept reports and its stamps, each in the order of entities, and its
/// target. The time grows with the entities.
pub fn plan(
    alloc: Global,
    observed: &[Report],
    target: &Table,
    stamps: &[u32],
) -> Result<Vec<Entity>, AllocError>
    requires lists { AreForTable observed.now target.now stamps.now }
    requires few { length target.now.devices + length target.now.links < 2 ^ 32 }
    ensures { (g : Group) → IsTableOf g target.now → IfOk result (λ entities. entities.items ≡ unsettled_in g observed.now target.now stamps.now) }
{
    let mut unsettled = Vec::new(alloc);
    let devices = target.device_count() as u32;
    for place in 0..devices + target.link_count() as u32 {
        let entity = Entity::at_place(place, devices);
        add_unsettled(&mut unsettled, observed, target, stamps, entity)?;
    }
    Ok(unsettled)
}
