//! The devices of a fat tree, pod by pod, and then the core.

ghost use Rattle.std.specs.Prelude.{◌≡◌, ◌++◌, ◌<◌, ◌≤◌, IfOk, OnOk, length, map};
ghost use Rattle.std.specs.List.{AllByRecursion};
ghost use Rattle.st_gen.specs.TreeNames.{IsSmall};
ghost use Rattle.st_gen.specs.FatTrees.{numbers, device as device_lem, tor, aggregation, core, pod_devices, devices as devices_lem};
ghost use Rattle.st_gen.specs.Generated.{IsPods};

use crate::names::name_at;
use crate::step::Step;
use st_net::{DEVICE_HEALTH, DevicePart, Items, Vals};
use std::alloc::{AllocError, Global};

/// The values that a device opens with.
const OPENING: Vals = Vals {
    v0: 1,
    v1: 1,
    v2: 1,
    v3: 1,
};

/// The device at the end of these steps.
fn device(alloc: Global, is_tor: bool, steps: &[Step]) -> Result<DevicePart, AllocError>
    requires some { 1 ≤ length steps.now }
    requires few { length steps.now ≤ 3 }
    requires small { AllByRecursion IsSmall steps.now }
    ensures { IfOk result (λ d. d ≡ device_lem is_tor steps.now) }
{
    Ok(DevicePart {
        name: name_at(alloc, steps)?,
        tor: is_tor,
        vals: OPENING,
        health: DEVICE_HEALTH,
    })
}

/// Adds the ToRs of a pod.
fn add_tors(
    alloc: Global,
    half: u32,
    pod: u32,
    parts: &mut Vec<DevicePart>,
) -> Result<(), AllocError>
    requires half { half ≤ 5 }
    requires pod { pod < 10 }
    ensures { OnOk result (parts.new.items ≡ parts.old.items ++ map (tor pod) (numbers half)) }
{
    for i in 0..half {
        let part = device(alloc, true, &[Step::Pod(pod), Step::Tor(i)])?;
        parts.push(part)?;
    }
    Ok(())
}

/// Adds the aggregation switches of a pod.
fn add_aggregations(
    alloc: Global,
    half: u32,
    pod: u32,
    parts: &mut Vec<DevicePart>,
) -> Result<(), AllocError>
    requires half { half ≤ 5 }
    requires pod { pod < 10 }
    ensures { OnOk result (parts.new.items ≡ parts.old.items ++ map (aggregation pod) (numbers half)) }
{
    for j in 0..half {
        let part = device(alloc, false, &[Step::Pod(pod), Step::Aggregation(j)])?;
        parts.push(part)?;
    }
    Ok(())
}

/// Adds the devices of a pod.
fn add_pod(
    alloc: Global,
    half: u32,
    pod: u32,
    parts: &mut Vec<DevicePart>,
) -> Result<(), AllocError>
    requires half { half ≤ 5 }
    requires pod { pod < 10 }
    ensures { OnOk result (parts.new.items ≡ parts.old.items ++ pod_devices half pod) }
{
    add_tors(alloc, half, pod, parts)?;
    add_aggregations(alloc, half, pod, parts)
}

/// Adds the core switches.
fn add_cores(alloc: Global, count: u32, parts: &mut Vec<DevicePart>) -> Result<(), AllocError>
    requires { count < 100 }
    ensures { OnOk result (parts.new.items ≡ parts.old.items ++ map core (numbers count)) }
{
    for n in 0..count {
        let part = device(alloc, false, &[Step::Core(n)])?;
        parts.push(part)?;
    }
    Ok(())
}

/// The devices of a fat tree.
pub fn devices(alloc: Global, pods: u32) -> Result<Items<DevicePart>, AllocError>
    requires { IsPods pods }
    ensures { IfOk result (λ parts. parts ≡ devices_lem pods) }
{
    let half = pods / 2;
    let mut parts = Vec::new(alloc);
    for pod in 0..pods {
        add_pod(alloc, half, pod, &mut parts)?;
    }
    add_cores(alloc, half * half, &mut parts)?;
    Ok(Items::new(parts))
}
