//! The parts of a group, by their numbers: devices, links, and promises with what they need.

ghost use Rattle.std.specs.Prelude.{◌≡◌, ◌<◌, [], IfOk, OnOk, length, map};
ghost use Rattle.std.specs.List.{range_with_len};
ghost use Rattle.serde_json.specs.View.{view, members_view};
ghost use Rattle.st_net.specs.Groups.{promise_of};
ghost use Rattle.st_net.specs.Promises.{is_kept, need_of};
ghost use Rattle.st_event.specs.Observed.{actual};
ghost use Rattle.st_player.specs.Pictures.{device_data, link_data, promise_data};
ghost use Rattle.st_player.specs.PictureTexts.{with_other_parts};

use crate::safe_json::{Json, JsonList, JsonObject};
use st_control::Control;
use st_net::{Entity, GroupTopo};
use std::alloc::{AllocError, Global};

/// A device of a group.
fn device_json(alloc: Global, topo: &GroupTopo, i: u32) -> Result<Json, AllocError>
    requires { i < length topo.now.devices }
    ensures { IfOk result (λ json. view json ≡ device_data topo.now i) }
{
    let mut object = JsonObject::new(alloc);
    object.put_text("name", topo.name_of(Entity::Device(i)).bytes())?;
    object.put_where(topo.is_tor(i), "tor", Json::number(1))?;
    Ok(Json::object(object))
}

/// A link of a group.
fn link_json(alloc: Global, topo: &GroupTopo, i: u32) -> Result<Json, AllocError>
    requires { i < length topo.now.links }
    ensures { IfOk result (λ json. view json ≡ link_data topo.now i) }
{
    let (a, b) = topo.ends(i);
    let mut object = JsonObject::new(alloc);
    object.put_text("name", topo.name_of(Entity::Link(i)).bytes())?;
    object.put_array("ends", &[a, b])?;
    object.put_number("capacity", u64::from(topo.capacity(i)))?;
    Ok(Json::object(object))
}

/// A promise of a group, with what it needs, and whether it held at the opening.
fn promise_json(
    alloc: Global,
    topo: &GroupTopo,
    i: u32,
    need: u64,
    start: bool,
) -> Result<Json, AllocError>
    requires promise { i < length topo.now.promises }
    requires need { need ≡ need_of topo.now (promise_of topo.now i) }
    requires start { start ≡ is_kept topo.now (actual topo.now []) (promise_of topo.now i) }
    ensures { IfOk result (λ json. view json ≡ promise_data topo.now i) }
{
    let promise = topo.promise(i);
    let mut object = JsonObject::new(alloc);
    object.put_array("ends", &[promise.a, promise.b])?;
    object.put_number("percent", u64::from(promise.percent))?;
    object.put_number("need", need)?;
    object.put("start", Json::flag(start))?;
    Ok(Json::object(object))
}

/// The devices of a group, in order.
pub(crate) fn devices_json(alloc: Global, topo: &GroupTopo) -> Result<JsonList, AllocError>
    ensures { IfOk result (λ list. map view list ≡ map (device_data topo.now) (range_with_len 0 (length topo.now.devices))) }
{
    let mut list = JsonList::new(alloc);
    for i in 0..topo.device_count() {
        list.push(device_json(alloc, topo, i)?)?;
    }
    Ok(list)
}

/// The links of a group, in order.
fn links_json(alloc: Global, topo: &GroupTopo) -> Result<JsonList, AllocError>
    ensures { IfOk result (λ list. map view list ≡ map (link_data topo.now) (range_with_len 0 (length topo.now.links))) }
{
    let mut list = JsonList::new(alloc);
    for i in 0..topo.link_count() {
        list.push(link_json(alloc, topo, i)?)?;
    }
    Ok(list)
}

/// The promises of a group, in order, of which these held at the opening. Its checker tells what each needs.
fn promises_json(
    alloc: Global,
    topo: &GroupTopo,
    control: &Control,
    start: &[bool],
) -> Result<JsonList, AllocError>
    requires group { control.now.group ≡ topo.now }
    requires start { start.now ≡ map (is_kept topo.now (actual topo.now [])) topo.now.promises }
    ensures { IfOk result (λ list. map view list ≡ map (promise_data topo.now) (range_with_len 0 (length topo.now.promises))) }
{
    let mut list = JsonList::new(alloc);
    for i in 0..topo.promise_count() {
        let json = promise_json(alloc, topo, i, control.need(i), start[i as usize])?;
        list.push(json)?;
    }
    Ok(list)
}

/// Puts the parts of a group but its devices, of whose promises these held at the opening.
pub(crate) fn put_parts(
    object: &mut JsonObject,
    alloc: Global,
    topo: &GroupTopo,
    control: &Control,
    start: &[bool],
) -> Result<(), AllocError>
    requires group { control.now.group ≡ topo.now }
    requires start { start.now ≡ map (is_kept topo.now (actual topo.now [])) topo.now.promises }
    ensures { OnOk result (members_view object.new ≡ with_other_parts topo.now (members_view object.old)) }
{
    object.put_text("name", topo.name().bytes())?;
    object.put("links", Json::list(links_json(alloc, topo)?))?;
    object.put(
        "promises",
        Json::list(promises_json(alloc, topo, control, start)?),
    )
}
