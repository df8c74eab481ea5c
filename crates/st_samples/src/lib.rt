//! Groups and worlds that are read from texts, and worlds of groups, for the tests of the crates below.
#![tactic(auto)]

ghost use Rattle.std.specs.Prelude.{◌≡◌, [], ◌∷◌, false, IfOk, IfSome, Ok, Some};
ghost use Rattle.st_grammar.specs.Reading.{read_of};
ghost use Rattle.st_grammar.specs.Sound.{IsSoundDoc};
ghost use Rattle.st_samples.specs.Samples.{declared_groups, declared_worlds};
ghost use Rattle.st_serial.specs.Serial.{state_of};

use st_doc::read_doc;
use st_grammar::{Doc, DocRead};
use st_net::GroupTopo;
use st_serial::{open_worlds, topos_of};
use st_wire::LossPlan;
use st_world::World;
use std::alloc::{AllocError, Global};
use std::test::Fail;

/// Two ToRs, t1 and t2, joined by way of two switches, a1 and a2, with a promise of half the capacity between them.
pub const TWO_PATH: &str = "statesman 1
group dc1
device t1 tor
device t2 tor
device a1 switch
device a2 switch
link l1 t1 a1 10
link l2 t1 a2 10
link l3 t2 a1 10
link l4 t2 a2 10
promise t1 t2 50
";

/// The document that a text is.
fn document(alloc: Global, text: &str) -> Result<Doc, Fail>
    ensures exact { IfOk result (λ doc. read_of false text.now ≡ Ok doc) }
    ensures sound { IfOk result IsSoundDoc }
{
    let bytes = text.as_bytes();
    if bytes.len() > 1_000_000 {
        return Err(Fail::new("too long a text"));
    }
    match read_doc(alloc, bytes, false)? {
        DocRead::Doc(doc) => Ok(doc),
        DocRead::Fault(_) => Err(Fail::new("a bad line")),
    }
}

/// The item of a list that has one.
fn only<T: Drop>(mut items: Vec<T>) -> Option<T>
    ensures { IfSome result (λ item. items.items ≡ item ∷ []) }
{
    let item = items.pop()?;
    if items.is_empty() { Some(item) } else { None }
}

/// The groups that a text declares, in order. `Err` tells that the text is no document, or has more than a million bytes, and is for want
/// of memory.
pub fn groups(alloc: Global, text: &str) -> Result<Vec<GroupTopo>, Fail>
    ensures { IfOk result (λ topos. declared_groups text.now ≡ Some topos.items) }
{
    let doc = document(alloc, text)?;
    Ok(topos_of(alloc, doc.groups.as_slice())?)
}

/// The group that a text declares. `Err` is as with `groups`, and tells that there is no group or another beside it.
pub fn group(alloc: Global, text: &str) -> Result<GroupTopo, Fail>
    ensures { IfOk result (λ topo. declared_groups text.now ≡ Some (topo ∷ [])) }
{
    Ok(only(groups(alloc, text)?).ok_or("not one group")?)
}

/// The world of the group that a text declares, before the first event, with the losses of its wire lines. `Err` is as with `group`.
pub fn world(alloc: Global, text: &str) -> Result<World, Fail>
    ensures { IfOk result (λ world. declared_worlds text.now ≡ Some (state_of world ∷ [])) }
{
    let doc = document(alloc, text)?;
    let worlds = open_worlds(alloc, doc.groups.as_slice(), doc.wires.as_slice())?;
    Ok(only(worlds).ok_or("not one group")?)
}

/// The world of this group before the first event, in which no message is lost. `Err` is for want of memory alone.
pub fn open_world(alloc: Global, topo: GroupTopo) -> Result<World, AllocError>
    ensures history { IfOk result (λ world. world.history ≡ record { group = topo; past = [] }) }
    ensures lines { IfOk result (λ world. world.lines ≡ []) }
{
    World::start(alloc, topo, LossPlan::none(alloc))
}
