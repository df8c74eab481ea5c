//! Snapshots of a group on its way through its journal: what is shown of it after an entry. Entries are told by two of them.

ghost use Rattle.std.specs.Prelude.{◌≡◌, IfOk};
ghost use Rattle.std.specs.List.{list_all};
ghost use Rattle.st_net.specs.Sets.{MarksOf, is_in};
ghost use Rattle.st_event.specs.Observed.{actual, sure as sure_lem};
ghost use Rattle.st_player.specs.Snapshots.{states_of as states_of_lem};
ghost use Rattle.st_player.specs.Steps.{IsHeld, IsSnapshot};

use crate::playback::Playback;
use crate::state::State;
use st_control::Control;
use st_net::EntitySet;
use std::alloc::{AllocError, Global};

/// A set of entities that are up, whether each promise holds in it, and whether all do.
#[derive(Drop)]
pub(crate) struct Held {
    pub(crate) up: EntitySet,
    pub(crate) kept: Vec<bool>,
    pub(crate) all: bool,
}

/// What is shown of a group: the states of its entities in order, the promises that hold in the network and in the sure set, the version,
/// and how many proposals wait.
#[derive(Drop)]
pub(crate) struct Snapshot {
    pub(crate) states: Vec<State>,
    pub(crate) network: Held,
    pub(crate) sure: Held,
    pub(crate) version: u32,
    pub(crate) pending: u32,
}

/// The states of all entities, in order.
fn states_of(alloc: Global, playback: &Playback) -> Result<Vec<State>, AllocError>
    ensures { IfOk result (λ states. states.items ≡ states_of_lem playback.now.group playback.now.past) }
{
    let topo = playback.world().control().topo();
    let mut states = Vec::new(alloc);
    for place in 0..topo.entity_count() {
        states.push(playback.state(topo.entity_at(place)))?;
    }
    Ok(states)
}

/// Whether all of these are set.
fn are_all(marks: &[bool]) -> bool
    ensures { result ≡ list_all (λ mark. mark) marks.now }
{
    marks.iter().all(|mark| *mark)
}

/// Judges each promise in a set.
pub(crate) fn judge(control: &Control, up: EntitySet) -> Result<Held, AllocError>
    requires { MarksOf control.now.group up }
    ensures { IfOk result (IsHeld control.now.group (is_in up)) }
{
    let kept = control.held_in(&up)?;
    let all = are_all(kept.as_slice());
    Ok(Held { up, kept, all })
}

/// The snapshot of a group whose promises were judged.
fn snapshot_with(
    alloc: Global,
    playback: &Playback,
    network: Held,
    sure: Held,
) -> Result<Snapshot, AllocError>
    requires network { IsHeld playback.now.group (actual playback.now.group playback.now.past) network }
    requires sure { IsHeld playback.now.group (sure_lem playback.now.group playback.now.past) sure }
    ensures { IfOk result (IsSnapshot playback.now) }
{
    let states = states_of(alloc, playback)?;
    let store = playback.world().control().store();
    Ok(Snapshot {
        states,
        network,
        sure,
        version: store.version(),
        pending: store.pending(),
    })
}

/// The snapshot of a group, asked for as a whole.
pub(crate) fn first_snapshot(alloc: Global, playback: &Playback) -> Result<Snapshot, AllocError>
    ensures { IfOk result (IsSnapshot playback.now) }
{
    let world = playback.world();
    let control = world.control();
    let network = judge(control, world.up_set()?)?;
    let sure = judge(control, control.sure()?)?;
    snapshot_with(alloc, playback, network, sure)
}
