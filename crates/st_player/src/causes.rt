//! Who set what a page opens with, and which entry failed what has failed there. It is told where a page begins behind entries, and nothing where
//! there is nothing of it.

ghost use Rattle.std.specs.Prelude.{◌≡◌, ◌++◌, IfOk, OnOk, flat_map, map, option_map};
ghost use Rattle.serde_json.specs.View.{view};
ghost use Rattle.st_net.specs.Groups.{IsEntityOf};
ghost use Rattle.st_net.specs.InOrder.{entities_of};
ghost use Rattle.st_player.specs.Causes.{causes_data, causes_of, failed_data, failed_of, one_failed, one_set, set_data, sets_by, sets_of};

use crate::origins::{Failure, Origin, Setter};
use crate::playback::Playback;
use crate::safe_json::{Json, JsonList, JsonObject};
use crate::state::{greatest, target_of};
use st_net::{Entity, Vals};
use std::alloc::{AllocError, Global};

/// Who set a variable of an entity.
fn set_json(alloc: Global, number: u32, var: u32, setter: Setter) -> Result<Json, AllocError>
    ensures { IfOk result (λ json. view json ≡ set_data number var setter) }
{
    let mut object = JsonObject::new(alloc);
    object.put_number("entity", u64::from(number))?;
    object.put_number("var", u64::from(var))?;
    object.put_number("version", u64::from(setter.version))?;
    object.put_number_some("app", setter.app)?;
    Ok(Json::object(object))
}

/// Adds who set a variable of an entity, where its value in the target is not the opening's.
fn add_set(
    list: &mut JsonList,
    alloc: Global,
    number: u32,
    var: u32,
    is_opening: bool,
    setter: Option<Setter>,
) -> Result<(), AllocError>
    ensures { OnOk result (map view list.new ≡ map view list.old ++ one_set number var is_opening setter) }
{
    match setter {
        Some(setter) => {
            if !is_opening {
                list.push(set_json(alloc, number, var, setter)?)?;
            }
            Ok(())
        }
        None => Ok(()),
    }
}

/// Adds who set the variables of an entity whose values in the target are not the opening's.
fn add_sets(
    list: &mut JsonList,
    alloc: Global,
    number: u32,
    target: Vals,
    opening: Vals,
    origin: Origin,
) -> Result<(), AllocError>
    ensures { OnOk result (map view list.new ≡ map view list.old ++ sets_by number target opening origin) }
{
    add_set(list, alloc, number, 0, target.v0 == opening.v0, origin.v0)?;
    add_set(list, alloc, number, 1, target.v1 == opening.v1, origin.v1)?;
    add_set(list, alloc, number, 2, target.v2 == opening.v2, origin.v2)?;
    add_set(list, alloc, number, 3, target.v3 == opening.v3, origin.v3)
}

/// The entry of an entity's failure.
fn failed_json(alloc: Global, number: u32, failure: Failure) -> Result<Json, AllocError>
    ensures { IfOk result (λ json. view json ≡ failed_data number failure) }
{
    let mut object = JsonObject::new(alloc);
    object.put_number("entity", u64::from(number))?;
    object.put_number("entry", u64::from(failure.entry))?;
    Ok(Json::object(object))
}

/// Adds the entry of an entity's failure, where that left less than what is whole.
fn add_failed(
    list: &mut JsonList,
    alloc: Global,
    number: u32,
    whole: u32,
    failure: Option<Failure>,
) -> Result<(), AllocError>
    ensures { OnOk result (map view list.new ≡ map view list.old ++ one_failed number whole failure) }
{
    match failure {
        Some(failure) => {
            if failure.health < whole {
                list.push(failed_json(alloc, number, failure)?)?;
            }
            Ok(())
        }
        None => Ok(()),
    }
}

/// The same of an entity of the group.
fn add_sets_of(
    list: &mut JsonList,
    alloc: Global,
    playback: &Playback,
    entity: Entity,
) -> Result<(), AllocError>
    requires { IsEntityOf playback.now.group entity }
    ensures { OnOk result (map view list.new ≡ map view list.old ++ sets_of playback.now.group playback.now.past entity) }
{
    let world = playback.world();
    let topo = world.control().topo();
    topo.is_sound();
    let number = topo.place(entity) as u32;
    let target = target_of(world, entity);
    let opening = topo.opening(entity);
    add_sets(
        list,
        alloc,
        number,
        target,
        opening,
        playback.origin(entity),
    )
}

/// Adds the entry of the failure of an entity of the group, where less of it works than what is whole.
fn add_failed_of(
    list: &mut JsonList,
    alloc: Global,
    playback: &Playback,
    entity: Entity,
) -> Result<(), AllocError>
    requires { IsEntityOf playback.now.group entity }
    ensures { OnOk result (map view list.new ≡ map view list.old ++ failed_of playback.now.group playback.now.past entity) }
{
    let topo = playback.world().control().topo();
    topo.is_sound();
    let number = topo.place(entity) as u32;
    let failure = playback.origin(entity).failure;
    add_failed(list, alloc, number, greatest(entity), failure)
}

/// Who set the variables of all entities whose values in the target are not the opening's.
fn sets_json(alloc: Global, playback: &Playback) -> Result<JsonList, AllocError>
    ensures { IfOk result (λ list. map view list ≡ flat_map (sets_of playback.now.group playback.now.past) (entities_of playback.now.group)) }
{
    let topo = playback.world().control().topo();
    let mut list = JsonList::new(alloc);
    for place in 0..topo.entity_count() {
        add_sets_of(&mut list, alloc, playback, topo.entity_at(place))?;
    }
    Ok(list)
}

/// The entries of the failures of all entities of which less works than what is whole.
fn all_failed_json(alloc: Global, playback: &Playback) -> Result<JsonList, AllocError>
    ensures { IfOk result (λ list. map view list ≡ flat_map (failed_of playback.now.group playback.now.past) (entities_of playback.now.group)) }
{
    let topo = playback.world().control().topo();
    let mut list = JsonList::new(alloc);
    for place in 0..topo.entity_count() {
        add_failed_of(&mut list, alloc, playback, topo.entity_at(place))?;
    }
    Ok(list)
}

/// Both lists, without one that is empty; nothing where both are.
fn causes_with(alloc: Global, sets: JsonList, failed: JsonList) -> Result<Option<Json>, AllocError>
    ensures { IfOk result (λ causes. option_map view causes ≡ causes_data (map view sets) (map view failed)) }
{
    if sets.is_empty() && failed.is_empty() {
        return Ok(None);
    }
    let mut object = JsonObject::new(alloc);
    object.put_list("set", sets)?;
    object.put_list("failed", failed)?;
    Ok(Some(Json::object(object)))
}

/// Who set what differs from the opening, and which entry failed what has failed, where there is something of it.
pub(crate) fn causes_json(alloc: Global, playback: &Playback) -> Result<Option<Json>, AllocError>
    ensures { IfOk result (λ causes. option_map view causes ≡ causes_of playback.now.group playback.now.past) }
{
    let sets = sets_json(alloc, playback)?;
    let failed = all_failed_json(alloc, playback)?;
    let causes = causes_with(alloc, sets, failed)?;
    Ok(causes)
}
