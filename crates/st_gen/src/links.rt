//! The links of a fat tree, pod by pod: first those between its ToRs and its aggregation switches, then those to the core.

ghost use Rattle.std.specs.Prelude.{◌≡◌, ◌++◌, ◌<◌, ◌≤◌, IfOk, OnOk, length, map, flat_map};
ghost use Rattle.std.specs.List.{AllByRecursion};
ghost use Rattle.st_gen.specs.TreeNames.{IsSmall};
ghost use Rattle.st_gen.specs.FatTrees.{numbers, end as end_lem, link as link_lem, tor_links, core_links, pod_links, links as links_lem};
ghost use Rattle.st_gen.specs.Generated.{IsPods};

use crate::names::name_at;
use crate::step::Step;
use st_net::{EndPart, Items, LINK_HEALTH, LinkPart, Vals};
use std::alloc::{AllocError, Global};

/// The values that a link opens with.
const OPENING: Vals = Vals {
    v0: 1,
    v1: 1,
    v2: 0,
    v3: 0,
};

/// The capacity of every link.
const CAPACITY: u32 = 10;

/// The end at the device at the end of these steps.
fn end(alloc: Global, steps: &[Step]) -> Result<EndPart, AllocError>
    requires some { 1 ≤ length steps.now }
    requires few { length steps.now ≤ 3 }
    requires small { AllByRecursion IsSmall steps.now }
    ensures { IfOk result (λ e. e ≡ end_lem steps.now) }
{
    Ok(EndPart {
        group: None,
        name: name_at(alloc, steps)?,
    })
}

/// The link at the end of three steps, between two devices, each at the end of some steps.
fn link(alloc: Global, steps: &[Step], a: &[Step], b: &[Step]) -> Result<LinkPart, AllocError>
    requires three { length steps.now ≡ 3 }
    requires small { AllByRecursion IsSmall steps.now }
    requires some_a { 1 ≤ length a.now }
    requires few_a { length a.now ≤ 3 }
    requires small_a { AllByRecursion IsSmall a.now }
    requires some_b { 1 ≤ length b.now }
    requires few_b { length b.now ≤ 3 }
    requires small_b { AllByRecursion IsSmall b.now }
    ensures { IfOk result (λ l. l ≡ link_lem steps.now a.now b.now) }
{
    Ok(LinkPart {
        name: name_at(alloc, steps)?,
        a: end(alloc, a)?,
        b: end(alloc, b)?,
        capacity: CAPACITY,
        vals: OPENING,
        health: LINK_HEALTH,
    })
}

/// Adds the links of a ToR.
fn add_tor_links(
    alloc: Global,
    half: u32,
    pod: u32,
    tor: u32,
    parts: &mut Vec<LinkPart>,
) -> Result<(), AllocError>
    requires half { half ≤ 5 }
    requires pod { pod < 10 }
    requires tor { tor < half }
    ensures { OnOk result (parts.new.items ≡ parts.old.items ++ tor_links half pod tor) }
{
    let (pod, tor) = (Step::Pod(pod), Step::Tor(tor));
    for j in 0..half {
        let aggregation = Step::Aggregation(j);
        let part = link(
            alloc,
            &[pod, tor, aggregation],
            &[pod, tor],
            &[pod, aggregation],
        )?;
        parts.push(part)?;
    }
    Ok(())
}

/// Adds the links of an aggregation switch to the core.
fn add_core_links(
    alloc: Global,
    half: u32,
    pod: u32,
    aggregation: u32,
    parts: &mut Vec<LinkPart>,
) -> Result<(), AllocError>
    requires half { half ≤ 5 }
    requires pod { pod < 10 }
    requires aggregation { aggregation < half }
    ensures { OnOk result (parts.new.items ≡ parts.old.items ++ core_links half pod aggregation) }
{
    for m in 0..half {
        let core = Step::Core(aggregation * half + m);
        let (pod, aggregation) = (Step::Pod(pod), Step::Aggregation(aggregation));
        let part = link(
            alloc,
            &[pod, aggregation, core],
            &[pod, aggregation],
            &[core],
        )?;
        parts.push(part)?;
    }
    Ok(())
}

/// Adds the links of a pod's ToRs.
fn add_tors_links(
    alloc: Global,
    half: u32,
    pod: u32,
    parts: &mut Vec<LinkPart>,
) -> Result<(), AllocError>
    requires half { half ≤ 5 }
    requires pod { pod < 10 }
    ensures { OnOk result (parts.new.items ≡ parts.old.items ++ flat_map (tor_links half pod) (numbers half)) }
{
    for tor in 0..half {
        add_tor_links(alloc, half, pod, tor, parts)?;
    }
    Ok(())
}

/// Adds the links of a pod to the core.
fn add_pod_core_links(
    alloc: Global,
    half: u32,
    pod: u32,
    parts: &mut Vec<LinkPart>,
) -> Result<(), AllocError>
    requires half { half ≤ 5 }
    requires pod { pod < 10 }
    ensures { OnOk result (parts.new.items ≡ parts.old.items ++ flat_map (core_links half pod) (numbers half)) }
{
    for aggregation in 0..half {
        add_core_links(alloc, half, pod, aggregation, parts)?;
    }
    Ok(())
}

/// Adds the links of a pod.
fn add_pod(alloc: Global, half: u32, pod: u32, parts: &mut Vec<LinkPart>) -> Result<(), AllocError>
    requires half { half ≤ 5 }
    requires pod { pod < 10 }
    ensures { OnOk result (parts.new.items ≡ parts.old.items ++ pod_links half pod) }
{
    add_tors_links(alloc, half, pod, parts)?;
    add_pod_core_links(alloc, half, pod, parts)
}

/// The links of a fat tree.
pub fn links(alloc: Global, pods: u32) -> Result<Items<LinkPart>, AllocError>
    requires { IsPods pods }
    ensures { IfOk result (λ parts. parts ≡ links_lem pods) }
{
    let half = pods / 2;
    let mut parts = Vec::new(alloc);
    for pod in 0..pods {
        add_pod(alloc, half, pod, &mut parts)?;
    }
    Ok(Items::new(parts))
}
