//! The order in which the acts of a document's applications are done, on one thread: first as the document's order asks
//! for them, and then lap after lap.

ghost use Rattle.std.specs.Prelude.{◌≡◌, ◌+◌, ◌<◌, ◌≤◌, ◌^◌, ◌++◌, [], ℕ, List, All, IfOk, OnOk, length, reverse, slice_index_or};
ghost use Rattle.st_grammar.specs.declared.limits.TheConstants.{MAX_ACTS};
ghost use Rattle.st_serial.specs.Schedule.{place_at, ordered as ordered_lem, lap as lap_lem, laps as laps_lem, schedule as schedule_lem, times, IsTally, IsPlaceIn, HasFewActs};

use st_grammar::{MAX_ACTS, Script};
use std::alloc::{AllocError, Global};

/// The place of an act: its application's number, and its own number among the application's acts, both from 0.
#[derive(Clone, Copy, Debug, PartialEq, Eq)]
pub struct Place {
    pub app: u32,
    pub act: u32,
}

/// Adds the place of an application's act number `k`, if it has so many.
fn add_place(places: &mut Vec<Place>, apps: &[Script], app: u32, k: usize) -> Result<(), AllocError>
    requires app { app < length apps.now }
    requires few { All HasFewActs apps.now }
    ensures { OnOk result (places.new.items ≡ places.old.items ++ place_at apps.now app k) }
{
    if k < apps[app as usize].acts.as_slice().len() {
        places.push(Place { app, act: k as u32 })?;
    }
    Ok(())
}

/// Adds the places of the acts that an order lets applications do, and counts how often it names each.
fn add_ordered(
    places: &mut Vec<Place>,
    tally: &mut [usize],
    apps: &[Script],
    order: &[u32],
) -> Result<(), AllocError>
    requires tally { IsTally apps.now [] tally.old }
    requires few { All HasFewActs apps.now }
    requires order { All (λ i. i < length apps.now) order.now }
    ensures places { OnOk result (places.new.items ≡ places.old.items ++ ordered_lem apps.now (reverse order.now)) }
    ensures tally { OnOk result (IsTally apps.now (reverse order.now) tally.new) }
{
    for &app in order {
        let done = tally[app as usize];
        add_place(places, apps, app, done)?;
        tally[app as usize] = done + 1;
    }
    Ok(())
}

/// Adds the places of one lap: of each application's next act, which is number `k` behind those that the order let it do.
fn add_lap(
    places: &mut Vec<Place>,
    tally: &[usize],
    apps: &[Script],
    k: usize,
) -> Result<(), AllocError>
    requires few_apps { length apps.now < 2 ^ 32 }
    requires few { All HasFewActs apps.now }
    requires within { k < MAX_ACTS }
    requires short { All (λ done. done < 2 ^ 63) tally.now }
    requires tally { length tally.now ≡ length apps.now }
    ensures { (order : List ℕ) → IsTally apps.now order tally.now → OnOk result (places.new.items ≡ places.old.items ++ lap_lem apps.now order k (length apps.now)) }
{
    for (app, done) in tally.iter().enumerate() {
        add_place(places, apps, app as u32, *done + k)?;
    }
    Ok(())
}

/// Adds the places of all laps.
fn add_laps(places: &mut Vec<Place>, tally: &[usize], apps: &[Script]) -> Result<(), AllocError>
    requires few_apps { length apps.now < 2 ^ 32 }
    requires few { All HasFewActs apps.now }
    requires short { All (λ done. done < 2 ^ 63) tally.now }
    requires tally { length tally.now ≡ length apps.now }
    ensures { (order : List ℕ) → IsTally apps.now order tally.now → OnOk result (places.new.items ≡ places.old.items ++ laps_lem apps.now order MAX_ACTS) }
{
    for k in 0..MAX_ACTS {
        add_lap(places, tally, apps, k)?;
    }
    Ok(())
}

/// The places of all acts, in the order in which they are done. Memory is linear in the acts.
pub fn schedule(alloc: Global, apps: &[Script], order: &[u32]) -> Result<Vec<Place>, AllocError>
    requires few_apps { length apps.now < 2 ^ 32 }
    requires few { All HasFewActs apps.now }
    requires order { All (λ i. i < length apps.now) order.now }
    ensures order { IfOk result (λ places. places.items ≡ schedule_lem apps.now order.now) }
    ensures within { IfOk result (λ places. All (IsPlaceIn apps.now) places.items) }
{
    let mut places = Vec::new(alloc);
    let mut tally = vec![in alloc; 0; apps.len()]?;
    add_ordered(&mut places, tally.as_mut_slice(), apps, order)?;
    add_laps(&mut places, tally.as_slice(), apps)?;
    Ok(places)
}
