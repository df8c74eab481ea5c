//! The promises of a fat tree: one between every two ToRs.

ghost use Rattle.std.specs.Prelude.{◌≡◌, ◌++◌, ◌<◌, ◌≤◌, IfOk, OnOk, map};
ghost use Rattle.st_gen.specs.FatTrees.{pod_tor_names, tor_names as tor_names_lem, promise, promises_among as promises_among_lem};
ghost use Rattle.st_gen.specs.Generated.{IsPods};

use crate::names::name_at;
use crate::step::Step;
use st_net::{Items, Name, PromisePart};
use std::alloc::{AllocError, Global};

/// The share of what two ToRs can exchange that is promised, in percent.
const PERCENT: u32 = 50;

/// Adds the names of a pod's ToRs.
fn add_tor_names(
    alloc: Global,
    half: u32,
    pod: u32,
    names: &mut Vec<Name>,
) -> Result<(), AllocError>
    requires half { half ≤ 5 }
    requires pod { pod < 10 }
    ensures { OnOk result (names.new.items ≡ names.old.items ++ pod_tor_names half pod) }
{
    for i in 0..half {
        let name = name_at(alloc, &[Step::Pod(pod), Step::Tor(i)])?;
        names.push(name)?;
    }
    Ok(())
}

/// The names of all ToRs.
fn tor_names(alloc: Global, pods: u32) -> Result<Vec<Name>, AllocError>
    requires { IsPods pods }
    ensures { IfOk result (λ names. names.items ≡ tor_names_lem pods) }
{
    let half = pods / 2;
    let mut names = Vec::new(alloc);
    for pod in 0..pods {
        add_tor_names(alloc, half, pod, &mut names)?;
    }
    Ok(names)
}

/// Adds a promise between a ToR and each later one.
fn add_promises(
    alloc: Global,
    a: &Name,
    later: &[Name],
    parts: &mut Vec<PromisePart>,
) -> Result<(), AllocError>
    ensures { OnOk result (parts.new.items ≡ parts.old.items ++ map (promise a.now) later.now) }
{
    for b in later {
        let part = PromisePart {
            a: a.copy(alloc)?,
            b: b.copy(alloc)?,
            percent: PERCENT,
        };
        parts.push(part)?;
    }
    Ok(())
}

/// The promises between every two of these ToRs.
fn promises_among(alloc: Global, names: &[Name]) -> Result<Items<PromisePart>, AllocError>
    ensures { IfOk result (λ parts. parts ≡ promises_among_lem names.now) }
{
    let mut parts = Vec::new(alloc);
    for (i, a) in names.iter().enumerate() {
        add_promises(alloc, a, &names[i + 1..], &mut parts)?;
    }
    Ok(Items::new(parts))
}

/// The promises of a fat tree.
pub fn promises(alloc: Global, pods: u32) -> Result<Items<PromisePart>, AllocError>
    requires { IsPods pods }
    ensures { IfOk result (λ parts. parts ≡ promises_among_lem (tor_names_lem pods)) }
{
    let names = tor_names(alloc, pods)?;
    promises_among(alloc, names.as_slice())
}
