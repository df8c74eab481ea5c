//! What differs after an entry. A snapshot is brought up to date where the entry can have touched it, and what differs there is told: the
//! states, the promises that turned in the network and in the sure set, the version, and how many proposals wait.

ghost use Rattle.std.specs.Prelude.{◌≡◌, ◌<◌, ◌==◌, ◌+◌, ◌++◌, IfOk, OnOk, codes, length, map, not, true};
ghost use Rattle.serde_json.specs.View.{view, members_view};
ghost use Rattle.st_net.specs.declared.entity.Entity.TheVariants.{Device};
ghost use Rattle.st_net.specs.Groups.{IsEntityOf};
ghost use Rattle.st_net.specs.InOrder.{entities_of};
ghost use Rattle.st_event.specs.History.{History as history_lem};
ghost use Rattle.st_player.specs.declared.touched.Touched.TheVariants.{Near};
ghost use Rattle.st_player.specs.Entries.{with_changes, with_counts};
ghost use Rattle.st_player.specs.Fields.{changes_from};
ghost use Rattle.st_player.specs.Json.{number_data, put_list as put_list_lem, put_where as put_where_lem};
ghost use Rattle.st_entry.specs.Plain.{is_plain};
ghost use Rattle.st_player.specs.Snapshots.{states_of as states_of_lem};
ghost use Rattle.st_player.specs.Steps.{IsSnapshot, shown_in};
ghost use Rattle.st_player.specs.Touched.{HasMarks, IsRenewed, Touches, change_at};

use crate::fields::{Fields, change_json};
use crate::playback::Playback;
use crate::safe_json::{Json, JsonList, JsonObject};
use crate::snapshot::Snapshot;
use crate::state::State;
use crate::touched::{Touched, shows_near};
use crate::turns::{next_network, next_sure};
use st_net::Entity;
use std::alloc::{AllocError, Global};

/// Adds what becomes of the entity of this number, where its state differs.
fn add_change(
    list: &mut JsonList,
    alloc: Global,
    number: u32,
    old: &State,
    new: &State,
) -> Result<(), AllocError>
    ensures { OnOk result (map view list.new ≡ map view list.old ++ change_at number old.now new.now) }
{
    if Fields::between(old, new).any() {
        list.push(change_json(alloc, number, old, new)?)?;
    }
    Ok(())
}

/// Brings the state of one entity up to date, and adds what becomes of it.
fn renew(
    list: &mut JsonList,
    alloc: Global,
    behind: &Playback,
    states: &mut [State],
    place: u32,
) -> Result<(), AllocError>
    requires place { place < length (entities_of behind.now.group) }
    requires count { length states.old ≡ length (entities_of behind.now.group) }
    ensures count { length states.new ≡ length states.old }
    ensures renewed { (h : history_lem) → IsRenewed h behind.now place states.old (map view list.old) → OnOk result (IsRenewed h behind.now (place + 1) states.new (map view list.new)) }
{
    let topo = behind.world().control().topo();
    let state = behind.state(topo.entity_at(place));
    let old = states[place as usize];
    states[place as usize] = state;
    add_change(list, alloc, place, &old, &state)
}

/// The same of the links that end at a device.
fn renew_links(
    list: &mut JsonList,
    alloc: Global,
    behind: &Playback,
    states: &mut [State],
    device: u32,
) -> Result<(), AllocError>
    requires count { length states.old ≡ length (entities_of behind.now.group) }
    ensures count { length states.new ≡ length states.old }
    ensures renewed { (h : history_lem) → Touches h behind.now (Near (Device device)) → IsRenewed h behind.now (length behind.now.group.devices) states.old (map view list.old) → OnOk result (IsRenewed h behind.now (length (entities_of behind.now.group)) states.new (map view list.new)) }
{
    let topo = behind.world().control().topo();
    topo.is_sound();
    for i in 0..topo.link_count() {
        if shows_near(topo, Entity::Device(device), Entity::Link(i)) {
            renew(list, alloc, behind, states, topo.device_count() + i)?;
        }
    }
    Ok(())
}

/// The same of all entities of which something else may be shown.
fn renew_shown(
    list: &mut JsonList,
    alloc: Global,
    behind: &Playback,
    states: &mut [State],
    touched: &Touched,
) -> Result<(), AllocError>
    requires marks { HasMarks behind.now.group touched.now }
    requires count { length states.old ≡ length (entities_of behind.now.group) }
    ensures count { length states.new ≡ length states.old }
    ensures renewed { (h : history_lem) → Touches h behind.now touched.now → IsRenewed h behind.now 0 states.old (map view list.old) → OnOk result (IsRenewed h behind.now (length (entities_of behind.now.group)) states.new (map view list.new)) }
{
    let topo = behind.world().control().topo();
    for place in 0..topo.entity_count() {
        if touched.may_show(topo, topo.entity_at(place)) {
            renew(list, alloc, behind, states, place)?;
        }
    }
    Ok(())
}

/// The same of an entity, and of the links that end there.
fn renew_near(
    list: &mut JsonList,
    alloc: Global,
    behind: &Playback,
    states: &mut [State],
    at: Entity,
) -> Result<(), AllocError>
    requires entity { IsEntityOf behind.now.group at }
    requires count { length states.old ≡ length (entities_of behind.now.group) }
    ensures renewed { (h : history_lem) → Touches h behind.now (Near at) → IsRenewed h behind.now 0 states.old (map view list.old) → OnOk result (IsRenewed h behind.now (length (entities_of behind.now.group)) states.new (map view list.new)) }
{
    let topo = behind.world().control().topo();
    topo.is_sound();
    renew(list, alloc, behind, states, topo.place(at) as u32)?;
    match at {
        Entity::Device(device) => renew_links(list, alloc, behind, states, device),
        Entity::Link(_) => Ok(()),
    }
}

/// Brings states up to date, and gives those that differ, with the numbers of their entities.
fn changes(
    alloc: Global,
    behind: &Playback,
    states: &mut [State],
    touched: &Touched,
) -> Result<JsonList, AllocError>
    requires { (h : history_lem) × Touches h behind.now touched.now × (states.old ≡ states_of_lem h.group h.past) }
    ensures states { OnOk result (states.new ≡ states_of_lem behind.now.group behind.now.past) }
    ensures list { IfOk result (λ list. map view list ≡ changes_from 0 states.old (states_of_lem behind.now.group behind.now.past)) }
{
    let mut list = JsonList::new(alloc);
    match touched {
        Touched::Nothing => Ok(list),
        Touched::Near(at) => {
            renew_near(&mut list, alloc, behind, states, *at)?;
            Ok(list)
        }
        Touched::Altered(_) => {
            renew_shown(&mut list, alloc, behind, states, touched)?;
            Ok(list)
        }
    }
}

/// Brings states up to date, and puts those that differ.
fn next_states(
    object: &mut JsonObject,
    alloc: Global,
    behind: &Playback,
    states: Vec<State>,
    touched: &Touched,
) -> Result<Vec<State>, AllocError>
    requires { (h : history_lem) × Touches h behind.now touched.now × (states.items ≡ states_of_lem h.group h.past) }
    ensures states { IfOk result (λ now. now.items ≡ states_of_lem behind.now.group behind.now.past) }
    ensures told { IfOk result (λ now. members_view object.new ≡ put_list_lem (codes "set") (changes_from 0 states.items now.items) (members_view object.old)) }
{
    let mut states = states;
    let list = changes(alloc, behind, states.as_mut_slice(), touched)?;
    object.put_list("set", list)?;
    Ok(states)
}

/// Puts a number that differs from before.
fn put_count(object: &mut JsonObject, key: &str, old: u32, new: u32) -> Result<(), AllocError>
    requires { is_plain key.now ≡ true }
    ensures { OnOk result (members_view object.new ≡ put_where_lem (not (old == new)) key.now (number_data new) (members_view object.old)) }
{
    object.put_where(old != new, key, Json::number(u64::from(new)))
}

/// Brings the snapshot of a group up to date behind an entry that can have changed no more than this, and puts what differs.
pub(crate) fn next_snapshot(
    object: &mut JsonObject,
    alloc: Global,
    behind: &Playback,
    before: Snapshot,
    touched: &Touched,
) -> Result<Snapshot, AllocError>
    requires { (h : history_lem) × Touches h behind.now touched.now × IsSnapshot h before }
    ensures shown { IfOk result (IsSnapshot behind.now) }
    ensures told { IfOk result (λ shown. members_view object.new ≡ with_counts (shown_in before) (shown_in shown) (with_changes (shown_in before) (shown_in shown) (members_view object.old))) }
{
    let world = behind.world();
    let version = world.control().store().version();
    let pending = world.control().store().pending();
    let states = next_states(object, alloc, behind, before.states, touched)?;
    let sure = next_sure(alloc, world, before.sure, touched)?;
    let network = next_network(alloc, world, &sure.held, before.network, touched)?;
    object.put_some("network", network.told)?;
    object.put_some("sure", sure.told)?;
    put_count(object, "version", before.version, version)?;
    put_count(object, "pending", before.pending, pending)?;
    Ok(Snapshot {
        states,
        network: network.held,
        sure: sure.held,
        version,
        pending,
    })
}
