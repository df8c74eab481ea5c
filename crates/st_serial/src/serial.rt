//! The scripts of a document run on one thread: every act is done in its turn, and in the end what is pending is decided. Where an
//! event meets a full journal the run stops.

ghost use Rattle.std.specs.Prelude.{◌≡◌, ◌<◌, ◌^◌, All, IfOk, Some, None, length, if◌then◌else◌};
ghost use Rattle.st_world.specs.Rounds.{is_full};
ghost use Rattle.st_serial.specs.Schedule.{IsPlaceIn};
ghost use Rattle.st_serial.specs.Serial.{act_done as act_done_lem, place_done as place_done_lem, places_done as places_done_lem, all_decided, FitsIn, AllFitIn, groups_in, states_of};

use crate::schedule::Place;
use st_event::{Act, LogEntry};
use st_grammar::Script;
use st_net::{AppId, Items};
use st_world::{Going, World, group_number};
use std::alloc::AllocError;

/// The group of a number, where a course of it met a full journal.
fn full_at(group: u32, going: Going) -> Option<u32>
    ensures { result ≡ (if is_full going then Some group else None) }
{
    match going {
        Going::On => None,
        Going::Full => Some(group),
    }
}

/// Does an act of an application: it reads, or it does something to its group. Gives the group, where an event met its full journal.
fn act_done(
    worlds: &mut [World],
    logs: &mut [Items<LogEntry>],
    app: AppId,
    act: &Act,
) -> Result<Option<u32>, AllocError>
    requires fits { FitsIn act.now (groups_in (states_of worlds.old)) }
    requires app { app.0 < length logs.old }
    ensures { IfOk result (λ full. record { groups = states_of worlds.new; logs = logs.new; full = full } ≡ act_done_lem app act.now (record { groups = states_of worlds.old; logs = logs.old; full = None })) }
{
    let group = group_number(act);
    let world = &mut worlds[group as usize];
    match world.seen_by(act) {
        Some(entry) => {
            logs[app.0 as usize].add(entry)?;
            Ok(None)
        }
        None => Ok(full_at(group, world.act(app, act)?)),
    }
}

/// Does the act at a place.
fn place_done(
    worlds: &mut [World],
    logs: &mut [Items<LogEntry>],
    apps: &[Script],
    place: Place,
) -> Result<Option<u32>, AllocError>
    requires place { IsPlaceIn apps.now place }
    requires fits { AllFitIn apps.now (groups_in (states_of worlds.old)) }
    requires logs { length logs.old ≡ length apps.now }
    ensures { IfOk result (λ full. record { groups = states_of worlds.new; logs = logs.new; full = full } ≡ place_done_lem apps.now place (record { groups = states_of worlds.old; logs = logs.old; full = None })) }
{
    let acts = apps[place.app as usize].acts.as_slice();
    act_done(worlds, logs, AppId(place.app), &acts[place.act as usize])
}

/// Does the acts at these places, in order, up to an event that meets a full journal: then its group is given.
pub fn places_done(
    worlds: &mut [World],
    logs: &mut [Items<LogEntry>],
    apps: &[Script],
    places: &[Place],
) -> Result<Option<u32>, AllocError>
    requires places { All (IsPlaceIn apps.now) places.now }
    requires fits { AllFitIn apps.now (groups_in (states_of worlds.old)) }
    requires logs { length logs.old ≡ length apps.now }
    ensures { IfOk result (λ full. record { groups = states_of worlds.new; logs = logs.new; full = full } ≡ places_done_lem apps.now places.now (record { groups = states_of worlds.old; logs = logs.old; full = None })) }
{
    for place in places {
        let full = place_done(worlds, logs, apps, *place)?;
        if full.is_some() {
            return Ok(full);
        }
    }
    Ok(None)
}

/// Decides what is still pending in each group, in order, up to an event that meets a full journal: then its group is given.
pub fn decide_all(worlds: &mut [World]) -> Result<Option<u32>, AllocError>
    requires { length worlds.old < 2 ^ 32 }
    ensures { IfOk result (λ full. record { groups = states_of worlds.new; full = full } ≡ all_decided 0 (states_of worlds.old)) }
{
    let mut group = 0u32;
    for world in worlds.iter_mut() {
        if let Going::Full = world.check_all()? {
            return Ok(Some(group));
        }
        group += 1;
    }
    Ok(None)
}
