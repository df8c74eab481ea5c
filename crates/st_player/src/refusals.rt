//! What is told of a refusal: what its receipt names and, of a promise that would break, the cut that would be left.

ghost use Rattle.std.specs.Prelude.{◌≡◌, All, IfOk, OnOk};
ghost use Rattle.serde_json.specs.View.{view, members_view};
ghost use Rattle.st_net.specs.InOrder.{place_in};
ghost use Rattle.st_net.specs.Ranges.{RowFits};
ghost use Rattle.st_player.specs.Refusals.{broken_data, cause_data, lack_data, locked_data, part_word as part_word_lem, promise_in, with_broken, with_cut};
ghost use Rattle.st_player.specs.Steps.{cut_in};

use crate::cuts::{Cut, cut_by};
use crate::safe_json::{Json, JsonObject};
use crate::weighing::weigh;
use st_entry::kind_word;
use st_event::{Cause, Lack};
use st_net::{Broken, BrokenOf, Entity, GroupTopo, Prio, Row};
use st_token::prio_word;
use st_world::World;
use std::alloc::{AllocError, Global};

/// The number of an entity in the order of entities.
pub(crate) fn number_of(topo: &GroupTopo, entity: Entity) -> u64
    ensures { result ≡ place_in topo.now entity }
{
    entity.place_behind(topo.device_count() as usize) as u64
}

/// The number of the promise that is broken.
fn promise_of(of: BrokenOf) -> u32
    ensures { result ≡ promise_in of }
{
    match of {
        BrokenOf::Promise(number) => number,
    }
}

/// Puts what a receipt names of a broken promise.
fn put_broken(object: &mut JsonObject, broken: &Broken) -> Result<(), AllocError>
    ensures { OnOk result (members_view object.new ≡ with_broken broken.now (members_view object.old)) }
{
    object.put_text("kind", kind_word(broken.kind))?;
    object.put_number("promise", u64::from(promise_of(broken.of)))?;
    object.put_number("need", broken.need)?;
    object.put_number("has", broken.has)?;
    object.put_array("side", broken.side.as_slice())
}

/// Puts a cut, whose least side this is.
fn put_cut(object: &mut JsonObject, side: &[u32], cut: &Cut) -> Result<(), AllocError>
    ensures { OnOk result (members_view object.new ≡ with_cut side.now (cut_in cut.now) (members_view object.old)) }
{
    object.put_array("far", cut.far.as_slice())?;
    object.put_text("part", part_word(cut.far.len() < side.len()))?;
    object.put_array("left", cut.left.as_slice())?;
    object.put_array("out", cut.out.as_slice())?;
    object.put_array("changes", cut.changes.as_slice())?;
    object.put_array("gone", cut.gone.as_slice())
}

/// The word for the smaller part of a cut.
fn part_word(is_far: bool) -> &'static [u8]
    ensures { result.now ≡ part_word_lem is_far }
{
    if is_far { b"far" } else { b"side" }
}

/// What a row lacks.
fn lack_json(alloc: Global, topo: &GroupTopo, row: Row, lack: Lack) -> Result<Json, AllocError>
    ensures { IfOk result (λ json. view json ≡ lack_data topo.now row lack) }
{
    let mut object = JsonObject::new(alloc);
    match lack {
        Lack::Level { of, level, needs } => {
            object.put_text("kind", b"level")?;
            object.put_number("of", number_of(topo, of))?;
            object.put_number("has", u64::from(level))?;
            object.put_number("needs", u64::from(needs))?;
        }
        Lack::PowerOff => {
            object.put_text("kind", b"off")?;
            object.put_number("of", number_of(topo, row.entity))?;
        }
    }
    Ok(Json::object(object))
}

/// A lock that bars an entity.
fn locked_json(
    alloc: Global,
    topo: &GroupTopo,
    entity: Entity,
    holder: u32,
    prio: Prio,
) -> Result<Json, AllocError>
    ensures { IfOk result (λ json. view json ≡ locked_data topo.now entity holder prio) }
{
    let mut object = JsonObject::new(alloc);
    object.put_text("kind", b"locked")?;
    object.put_number("of", number_of(topo, entity))?;
    object.put_number("by", u64::from(holder))?;
    object.put_text("prio", prio_word(prio))?;
    Ok(Json::object(object))
}

/// A promise that would break while the entities of these rows change.
fn broken_json(
    alloc: Global,
    world: &World,
    rows: &[Row],
    broken: &Broken,
) -> Result<Json, AllocError>
    requires { All (RowFits world.now.history.group) rows.now }
    ensures { IfOk result (λ json. view json ≡ broken_data world.now.history.group world.now.history.past rows.now broken.now) }
{
    let sets = weigh(alloc, world, rows)?;
    let cut = cut_by(alloc, world.control().topo(), &sets, broken)?;
    let mut object = JsonObject::new(alloc);
    put_broken(&mut object, broken)?;
    put_cut(&mut object, broken.side.as_slice(), &cut)?;
    Ok(Json::object(object))
}

/// Why rows were refused in a world.
pub(crate) fn cause_json(
    alloc: Global,
    world: &World,
    rows: &[Row],
    cause: &Cause,
) -> Result<Json, AllocError>
    requires { All (RowFits world.now.history.group) rows.now }
    ensures { IfOk result (λ json. view json ≡ cause_data world.now.history.group world.now.history.past rows.now cause.now) }
{
    let topo = world.control().topo();
    match cause {
        Cause::NotControllable { row, lack } => lack_json(alloc, topo, *row, *lack),
        Cause::Locked {
            entity,
            holder,
            prio,
        } => locked_json(alloc, topo, *entity, holder.0, *prio),
        Cause::Broken(broken) => broken_json(alloc, world, rows, broken),
    }
}
