//! Which promises turn with an entry, in the network and in the sure set. They are judged where the entry may have changed the set, but
//! where it is shown that all hold before and after, or where the entry overlays the target: then each holds as before.

ghost use Rattle.std.specs.Prelude.{◌≡◌, ◌<◌, ◌^◌, IfOk, IfSome, length, option_map, true};
ghost use Rattle.serde_json.specs.View.{view};
ghost use Rattle.st_net.specs.Groups.{IsEntityOf};
ghost use Rattle.st_net.specs.Sets.{HasSameMarks, IsMarkIn, MarksOf, is_in};
ghost use Rattle.st_event.specs.History.{History as history_lem};
ghost use Rattle.st_event.specs.Observed.{actual, sure as sure_lem};
ghost use Rattle.st_player.specs.Entries.{turned_data, turned_of};
ghost use Rattle.st_player.specs.Steps.{AllKept, IsHeld};
ghost use Rattle.st_player.specs.Touched.{IsTurned, Touches, set_at as set_at_lem};

use crate::entries::lost;
use crate::fields::is_same_flag;
use crate::safe_json::{Json, JsonObject};
use crate::snapshot::{Held, judge};
use crate::state::is_sure;
use crate::touched::Touched;
use st_control::Control;
use st_net::{Entity, EntitySet, GroupTopo};
use st_promise::is_within;
use st_world::World;
use std::alloc::{AllocError, Global};

/// The promises that hold in a set, and which of them turned; nothing where none did.
#[derive(Drop)]
pub(crate) struct Turned {
    pub(crate) held: Held,
    pub(crate) told: Option<Json>,
}

/// Which promises ceased to hold, and which hold again; nothing where none did.
fn turned_json(alloc: Global, lost: &[u32], back: &[u32]) -> Result<Option<Json>, AllocError>
    ensures { IfOk result (λ turned. option_map view turned ≡ turned_data lost.now back.now) }
{
    if lost.is_empty() && back.is_empty() {
        return Ok(None);
    }
    let mut object = JsonObject::new(alloc);
    object.put_numbers("lost", lost)?;
    object.put_numbers("back", back)?;
    Ok(Some(Json::object(object)))
}

/// Which promises turned, by those that held before.
fn turned_from(alloc: Global, before: &[bool], held: Held) -> Result<Turned, AllocError>
    requires count { length before.now ≡ length held.kept.items }
    requires few { length before.now < 2 ^ 32 }
    ensures held { IfOk result (λ turned. turned.held ≡ held) }
    ensures told { IfOk result (λ turned. option_map view turned.told ≡ turned_of before.now held.kept.items) }
{
    let lost_now = lost(alloc, before, held.kept.as_slice())?;
    let back = lost(alloc, held.kept.as_slice(), before)?;
    let told = turned_json(alloc, lost_now.as_slice(), back.as_slice())?;
    Ok(Turned { held, told })
}

/// Whether a set in which all promises hold is within another: then they hold in that one too.
fn shows_all(topo: &GroupTopo, within: &Held, up: &EntitySet) -> bool
    requires within { IsHeld topo.now (is_in within.now.up) within.now }
    requires marks { MarksOf topo.now up.now }
    ensures { result ≡ true → AllKept topo.now (is_in up.now) }
{
    topo.is_sound();
    within.all && is_within(topo, &within.up, up)
}

/// Whether all promises are shown to hold in a set: by a set beside it, where one is given, or else by the set before it.
fn is_shown(topo: &GroupTopo, beside: Option<&Held>, before: &Held, up: &EntitySet) -> bool
    requires beside { IfSome beside (λ held. IsHeld topo.now (is_in held.now.up) held.now) }
    requires before { IsHeld topo.now (is_in before.now.up) before.now }
    requires marks { MarksOf topo.now up.now }
    ensures { result ≡ true → AllKept topo.now (is_in up.now) }
{
    match beside {
        Some(beside) => shows_all(topo, beside, up),
        None => shows_all(topo, before, up),
    }
}

/// The promises that hold in a set where others held before. They are judged, but where all held, and all are shown to hold.
fn turn(
    alloc: Global,
    control: &Control,
    before: Held,
    up: EntitySet,
    is_shown: bool,
) -> Result<Turned, AllocError>
    requires before { IsHeld control.now.group (is_in before.up) before }
    requires marks { MarksOf control.now.group up }
    requires shown { is_shown ≡ true → AllKept control.now.group (is_in up) }
    ensures { IfOk result (IsTurned control.now.group (is_in up) before) }
{
    let Held { kept, all, .. } = before;
    if is_shown && all {
        let held = Held { up, kept, all };
        return Ok(Turned { held, told: None });
    }
    control.topo().is_sound();
    let held = judge(control, up)?;
    let turned = turned_from(alloc, kept.as_slice(), held)?;
    Ok(turned)
}

/// Puts an entity into a set, or takes it out.
fn set_at(set: &mut EntitySet, at: Entity, is: bool)
    requires { IsMarkIn set.old at }
    ensures members { is_in set.new ≡ set_at_lem (is_in set.old) at is }
    ensures same { HasSameMarks set.old set.new }
{
    if is {
        set.put(at);
    } else {
        set.remove(at);
    }
}

/// A copy of a set, into which an entity is put or from which it is taken.
fn moved_set(alloc: Global, set: &EntitySet, at: Entity, is: bool) -> Result<EntitySet, AllocError>
    requires { IsMarkIn set.now at }
    ensures members { IfOk result (λ moved. is_in moved ≡ set_at_lem (is_in set.now) at is) }
    ensures same { IfOk result (HasSameMarks set.now) }
{
    let mut moved = set.copy(alloc)?;
    set_at(&mut moved, at, is);
    Ok(moved)
}

/// The same where one entity may have come in or gone out. None is judged where all held and it came in, or where all hold in a set beside
/// it that is within it.
fn turn_at(
    alloc: Global,
    control: &Control,
    beside: Option<&Held>,
    before: Held,
    at: Entity,
    is: bool,
) -> Result<Turned, AllocError>
    requires beside { IfSome beside (λ held. IsHeld control.now.group (is_in held.now.up) held.now) }
    requires before { IsHeld control.now.group (is_in before.up) before }
    requires entity { IsEntityOf control.now.group at }
    ensures { IfOk result (IsTurned control.now.group (set_at_lem (is_in before.up) at is) before) }
{
    if is_same_flag(before.up.has(at), is) {
        return Ok(Turned {
            held: before,
            told: None,
        });
    }
    let up = moved_set(alloc, &before.up, at, is)?;
    let is_shown = is_shown(control.topo(), beside, &before, &up);
    turn(alloc, control, before, up, is_shown)
}

/// The promises that hold in the sure set.
pub(crate) fn next_sure(
    alloc: Global,
    world: &World,
    before: Held,
    touched: &Touched,
) -> Result<Turned, AllocError>
    requires { (h : history_lem) × Touches h world.now.history touched.now × IsHeld h.group (sure_lem h.group h.past) before }
    ensures { IfOk result (IsTurned world.now.history.group (sure_lem world.now.history.group world.now.history.past) before) }
{
    let control = world.control();
    match touched {
        Touched::Nothing => Ok(Turned {
            held: before,
            told: None,
        }),
        Touched::Near(at) => turn_at(alloc, control, None, before, *at, is_sure(world, *at)),
        Touched::Altered(_) => {
            let Held { kept, all, .. } = before;
            let up = control.sure()?;
            let held = Held { up, kept, all };
            Ok(Turned { held, told: None })
        }
    }
}

/// The promises that hold in the network, beside these of the sure set.
pub(crate) fn next_network(
    alloc: Global,
    world: &World,
    sure: &Held,
    before: Held,
    touched: &Touched,
) -> Result<Turned, AllocError>
    requires touches { (h : history_lem) × Touches h world.now.history touched.now × IsHeld h.group (actual h.group h.past) before }
    requires sure { IsHeld world.now.history.group (is_in sure.now.up) sure.now }
    ensures { IfOk result (IsTurned world.now.history.group (actual world.now.history.group world.now.history.past) before) }
{
    let control = world.control();
    match touched {
        Touched::Nothing => Ok(Turned {
            held: before,
            told: None,
        }),
        Touched::Near(at) => turn_at(alloc, control, Some(sure), before, *at, world.is_up(*at)),
        Touched::Altered(_) => Ok(Turned {
            held: before,
            told: None,
        }),
    }
}
