//! The whole document: the fat tree as its only group, and the two applications.

ghost use Rattle.std.specs.Prelude.{◌≡◌, ◌∷◌, [], IfOk};
ghost use Rattle.st_grammar.specs.Sound.{IsSoundDoc};
ghost use Rattle.st_gen.specs.FatTrees.{fat_tree as fat_tree_lem};
ghost use Rattle.st_gen.specs.Scripts.{upgrader as upgrader_lem, engineer as engineer_lem};
ghost use Rattle.st_gen.specs.Generated.{IsPods, generated};

use crate::devices::devices;
use crate::links::links;
use crate::names::name_of;
use crate::promises::promises;
use crate::scripts::{engineer, upgrader};
use st_grammar::{Doc, Script};
use st_net::{Items, Parts};
use st_wire::WireLine;
use std::alloc::{AllocError, Global};

/// The group of so many pods.
fn fat_tree(alloc: Global, pods: u32) -> Result<Parts, AllocError>
    requires { IsPods pods }
    ensures { IfOk result (λ parts. parts ≡ fat_tree_lem pods) }
{
    Ok(Parts::of(
        name_of(alloc, b"dc1")?,
        devices(alloc, pods)?,
        links(alloc, pods)?,
        promises(alloc, pods)?,
    ))
}

/// That group alone.
fn groups(alloc: Global, pods: u32) -> Result<Items<Parts>, AllocError>
    requires { IsPods pods }
    ensures { IfOk result (λ groups. groups ≡ fat_tree_lem pods ∷ []) }
{
    let group = fat_tree(alloc, pods)?;
    Ok(Items::new(vec![in alloc; group]?))
}

/// No wire lines of a group alone.
fn no_wires(alloc: Global) -> Result<Items<Items<WireLine>>, AllocError>
    ensures { IfOk result (λ wires. wires ≡ [] ∷ []) }
{
    Ok(Items::new(vec![in alloc; Items::none(alloc)]?))
}

/// The two applications.
fn apps(alloc: Global, pods: u32, seed: u32) -> Result<Items<Script>, AllocError>
    requires { IsPods pods }
    ensures { IfOk result (λ apps. apps ≡ upgrader_lem pods seed ∷ engineer_lem pods ∷ []) }
{
    let up = upgrader(alloc, pods, seed)?;
    let te = engineer(alloc, pods)?;
    Ok(Items::new(vec![in alloc; up, te]?))
}

/// The document of these numbers.
fn document(alloc: Global, pods: u32, seed: u32) -> Result<Doc, AllocError>
    requires { IsPods pods }
    ensures { IfOk result (λ doc. doc ≡ generated pods seed) }
{
    let wires = no_wires(alloc)?;
    let apps = apps(alloc, pods, seed)?;
    Ok(Doc {
        groups: groups(alloc, pods)?,
        wires,
        apps,
        order: Items::none(alloc),
        journal_at: None,
    })
}

/// The document of a number of pods, which is 4, 6, 8 or 10, and of a seed: a fat tree with a promise of 50 percent between every
/// two ToRs, an application `up` that upgrades its aggregation switches, and an application `te` that reads under a lock. The
/// seed chooses the firmware, from 2 to 1001, and the pod whose aggregation switches the last proposal names all at once. Takes
/// time and memory in the size of the document. `Err` is for want of memory alone.
pub fn generate(alloc: Global, pods: u32, seed: u32) -> Result<Doc, AllocError>
    requires { IsPods pods }
    ensures exact { IfOk result (λ doc. doc ≡ generated pods seed) }
    // It can be printed, and what is printed is read as this document.
    ensures sound { IfOk result IsSoundDoc }
{
    document(alloc, pods, seed)
}
