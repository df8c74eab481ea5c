//! How a group stands where its page begins: the state of each entity, the promises that do not hold, the version, and how many proposals
//! wait; and who set what differs from the opening.

ghost use Rattle.std.specs.Prelude.{◌≡◌, ◌<◌, ◌^◌, IfOk, OnOk, length, map, option_map, true};
ghost use Rattle.serde_json.specs.View.{view, members_view};
ghost use Rattle.st_player.specs.Fields.{state_data};
ghost use Rattle.st_player.specs.Pictures.{begun_data, is_same_state as is_same_state_lem, kind_in as kind_in_lem, kinds_of as kinds_of_lem, lost_data, opening_data, with_states};
ghost use Rattle.st_player.specs.Steps.{shown_in, IsSnapshot};

use crate::causes::causes_json;
use crate::entries::lost;
use crate::fields::{Fields, state_json};
use crate::playback::Playback;
use crate::safe_json::{Json, JsonList, JsonObject};
use crate::snapshot::Snapshot;
use crate::state::State;
use std::alloc::{AllocError, Global};

/// Whether two states are one.
fn is_same_state(a: &State, b: &State) -> bool
    ensures { result ≡ is_same_state_lem a.now b.now }
{
    !Fields::between(a, b).any()
}

/// The place of a state among these, or how many they are.
fn kind_in(kinds: &[State], state: &State) -> usize
    ensures { result ≡ kind_in_lem kinds.now state.now }
{
    for (i, kind) in kinds.iter().enumerate() {
        if is_same_state(kind, state) {
            return i;
        }
    }
    kinds.len()
}

/// Each state once, in the order of its first place.
fn kinds_of(alloc: Global, states: &[State]) -> Result<Vec<State>, AllocError>
    ensures { IfOk result (λ kinds. kinds.items ≡ kinds_of_lem states.now) }
{
    let mut kinds = Vec::new(alloc);
    for state in states {
        if kind_in(kinds.as_slice(), state) == kinds.len() {
            kinds.push(*state)?;
        }
    }
    Ok(kinds)
}

/// The places of states among these.
fn places_in(alloc: Global, kinds: &[State], states: &[State]) -> Result<Vec<u32>, AllocError>
    requires { length kinds.now < 2 ^ 32 }
    ensures { IfOk result (λ places. places.items ≡ map (kind_in_lem kinds.now) states.now) }
{
    let mut places = Vec::new(alloc);
    for state in states {
        places.push(kind_in(kinds, state) as u32)?;
    }
    Ok(places)
}

/// States as a list.
fn states_json(alloc: Global, states: &[State]) -> Result<JsonList, AllocError>
    ensures { IfOk result (λ list. map view list ≡ map state_data states.now) }
{
    let mut list = JsonList::new(alloc);
    for state in states {
        list.push(state_json(alloc, state)?)?;
    }
    Ok(list)
}

/// The promises that do not hold.
fn lost_json(alloc: Global, kept: &[bool]) -> Result<Json, AllocError>
    requires { length kept.now < 2 ^ 32 }
    ensures { IfOk result (λ json. view json ≡ lost_data kept.now) }
{
    let all = vec![in alloc; true; kept.len()]?;
    let mut object = JsonObject::new(alloc);
    object.put_array("lost", lost(alloc, all.as_slice(), kept)?.as_slice())?;
    Ok(Json::object(object))
}

/// Puts the states of all entities: each that there is, and its place for each entity.
fn put_states(object: &mut JsonObject, alloc: Global, states: &[State]) -> Result<(), AllocError>
    requires { length states.now < 2 ^ 32 }
    ensures { OnOk result (members_view object.new ≡ with_states states.now (members_view object.old)) }
{
    let kinds = kinds_of(alloc, states)?;
    object.put("states", Json::list(states_json(alloc, kinds.as_slice())?))?;
    object.put_array("of", places_in(alloc, kinds.as_slice(), states)?.as_slice())
}

/// How a group stands where its page begins.
fn opening_json(alloc: Global, shown: &Snapshot, causes: Option<Json>) -> Result<Json, AllocError>
    requires few { length shown.now.states.items < 2 ^ 32 }
    requires few_in_network { length shown.now.network.kept.items < 2 ^ 32 }
    requires few_sure { length shown.now.sure.kept.items < 2 ^ 32 }
    ensures { IfOk result (λ json. view json ≡ opening_data (shown_in shown.now) (option_map view causes)) }
{
    let mut object = JsonObject::new(alloc);
    put_states(&mut object, alloc, shown.states.as_slice())?;
    object.put("network", lost_json(alloc, shown.network.kept.as_slice())?)?;
    object.put("sure", lost_json(alloc, shown.sure.kept.as_slice())?)?;
    object.put_number("version", u64::from(shown.version))?;
    object.put_number("pending", u64::from(shown.pending))?;
    object.put_some("causes", causes)?;
    Ok(Json::object(object))
}

/// What is told of a group where its page begins.
pub(crate) fn tell_opening(
    alloc: Global,
    playback: &Playback,
    shown: &Snapshot,
) -> Result<Json, AllocError>
    requires { IsSnapshot playback.now shown.now }
    ensures { IfOk result (λ told. view told ≡ begun_data playback.now.group playback.now.past) }
{
    playback.world().is_legal();
    let causes = causes_json(alloc, playback)?;
    let told = opening_json(alloc, shown, causes)?;
    Ok(told)
}
