//! The scripts on a fat tree: one application upgrades the aggregation switches, and the other reads under a lock.

ghost use Rattle.std.specs.Prelude.{◌≡◌, ◌++◌, ◌+◌, ◌<◌, ◌≤◌, IfOk, OnOk};
ghost use Rattle.st_gen.specs.FatTrees.{half as half_lem};
ghost use Rattle.st_gen.specs.Scripts.{aggregation_number as aggregation_number_lem, first_core as first_core_lem, upgrade as upgrade_lem, firmware_row as firmware_row_lem, stage_rows as stage_rows_lem, pod_rows as pod_rows_lem, stage, whole_pod, upgrader as upgrader_lem, engineer as engineer_lem};
ghost use Rattle.st_gen.specs.Generated.{IsPods};

use crate::names::name_of;
use st_event::{Act, Rows};
use st_grammar::Script;
use st_net::{Entity, Items, Prio, Row, Var};
use std::alloc::{AllocError, Global};

/// The number of the only group.
const GROUP: u32 = 0;

/// The number among the devices of aggregation switch `j` of a pod.
fn aggregation_number(half: u32, pod: u32, j: u32) -> u32
    requires half { half ≤ 5 }
    requires pod { pod < 10 }
    requires j { j < 5 }
    ensures { result ≡ aggregation_number_lem half pod j }
{
    pod * (2 * half) + half + j
}

/// The number of the first core switch.
fn first_core(pods: u32) -> u32
    requires { IsPods pods }
    ensures { result ≡ first_core_lem pods }
{
    pods * (2 * (pods / 2))
}

/// The firmware that a seed chooses, from 2 to 1001.
fn upgrade(seed: u32) -> u32
    ensures value { result ≡ upgrade_lem seed }
    ensures bound { result ≤ 1001 }
{
    2 + seed % 1000
}

/// A new firmware of aggregation switch `j` of a pod.
fn firmware_row(half: u32, value: u32, pod: u32, j: u32) -> Row
    requires half { half ≤ 5 }
    requires pod { pod < 10 }
    requires j { j < 5 }
    ensures { result ≡ firmware_row_lem half value pod j }
{
    Row {
        entity: Entity::Device(aggregation_number(half, pod, j)),
        var: Var::Firmware,
        value,
    }
}

/// A new firmware of aggregation switch `j` of each pod.
fn stage_rows(alloc: Global, pods: u32, value: u32, j: u32) -> Result<Rows, AllocError>
    requires pods { IsPods pods }
    requires j { j < 5 }
    ensures { IfOk result (λ rows. rows ≡ stage_rows_lem pods value j) }
{
    let mut rows = Vec::new(alloc);
    for pod in 0..pods {
        rows.push(firmware_row(pods / 2, value, pod, j))?;
    }
    Ok(Rows::new(rows))
}

/// A new firmware of all aggregation switches of a pod.
fn pod_rows(alloc: Global, pods: u32, value: u32, pod: u32) -> Result<Rows, AllocError>
    requires pods { IsPods pods }
    requires pod { pod < pods }
    ensures { IfOk result (λ rows. rows ≡ pod_rows_lem pods value pod) }
{
    let half = pods / 2;
    let mut rows = Vec::new(alloc);
    for j in 0..half {
        rows.push(firmware_row(half, value, pod, j))?;
    }
    Ok(Rows::new(rows))
}

/// Adds a stage of the upgrade.
fn add_stage(
    alloc: Global,
    pods: u32,
    value: u32,
    j: u32,
    acts: &mut Vec<Act>,
) -> Result<(), AllocError>
    requires pods { IsPods pods }
    requires j { j < 5 }
    ensures { OnOk result (acts.new.items ≡ acts.old.items ++ stage pods value j) }
{
    let rows = stage_rows(alloc, pods, value, j)?;
    acts.push(Act::Propose { group: GROUP, rows })?;
    acts.push(Act::Await { group: GROUP })?;
    acts.push(Act::Settle {
        group: GROUP,
        rounds: 2,
    })?;
    Ok(())
}

/// Adds the upgrade of all aggregation switches of a pod at once.
fn add_whole_pod(
    alloc: Global,
    pods: u32,
    value: u32,
    pod: u32,
    acts: &mut Vec<Act>,
) -> Result<(), AllocError>
    requires pods { IsPods pods }
    requires pod { pod < pods }
    ensures { OnOk result (acts.new.items ≡ acts.old.items ++ whole_pod pods value pod) }
{
    let rows = pod_rows(alloc, pods, value, pod)?;
    acts.push(Act::Propose { group: GROUP, rows })?;
    acts.push(Act::Await { group: GROUP })?;
    Ok(())
}

/// The application that upgrades all aggregation switches stage by stage, and then those of one pod at once.
pub fn upgrader(alloc: Global, pods: u32, seed: u32) -> Result<Script, AllocError>
    requires { IsPods pods }
    ensures { IfOk result (λ script. script ≡ upgrader_lem pods seed) }
{
    let value = upgrade(seed);
    let mut acts = Vec::new(alloc);
    for j in 0..pods / 2 {
        add_stage(alloc, pods, value, j, &mut acts)?;
    }
    add_whole_pod(alloc, pods, value + 1, seed % pods, &mut acts)?;
    Ok(Script {
        name: name_of(alloc, b"up")?,
        acts: Items::new(acts),
    })
}

/// The application that reads a firmware while it holds the first core switch.
pub fn engineer(alloc: Global, pods: u32) -> Result<Script, AllocError>
    requires { IsPods pods }
    ensures { IfOk result (λ script. script ≡ engineer_lem pods) }
{
    let core = Entity::Device(first_core(pods));
    let lock = Act::Lock {
        group: GROUP,
        entity: core,
        prio: Prio::High,
    };
    let read = Act::Read {
        group: GROUP,
        entity: Entity::Device(aggregation_number(pods / 2, 0, 0)),
        var: Var::Firmware,
    };
    let unlock = Act::Unlock {
        group: GROUP,
        entity: core,
        prio: Prio::High,
    };
    Ok(Script {
        name: name_of(alloc, b"te")?,
        acts: Items::new(vec![in alloc; lock, read, unlock]?),
    })
}
