//! Walks and single promises, worked by hand on two ToRs that two switches join, with a promise of half of the capacity: a half is left
//! while one of the switches is down, and nothing while both are.
ghost use Rattle.std.specs.Prelude.{◌<◌, length, IfOk};
ghost use Rattle.st_net.specs.Sets.{MarksOf};
ghost use Rattle.st_promise.specs.Book.{IsBookOf};

use super::every_entity;
use st_net::{Entity, EntitySet, GroupTopo};
use st_promise::{Book, Reached, reach};
use st_samples::{TWO_PATH, group};
use std::alloc::{AllocError, Global};
use std::test::Fail;

/// Every entity but these devices.
fn all_but(alloc: Global, topo: &GroupTopo, down: &[u32]) -> Result<EntitySet, AllocError>
    ensures { IfOk result (MarksOf topo.now) }
{
    let mut up = every_entity(alloc, topo)?;
    for device in down {
        let entity = Entity::Device(*device);
        if topo.has(entity) {
            up.remove(entity);
        }
    }
    Ok(up)
}

/// What the first ToR reaches on the way to a device, without these devices.
fn reached(alloc: Global, topo: &GroupTopo, down: &[u32], to: u32) -> Result<Reached, Fail> {
    if to >= topo.device_count() {
        return Err(Fail::new("no device"));
    }
    let up = all_but(alloc, topo, down)?;
    Ok(reach(alloc, topo, &up, 0, to)?)
}

/// How many links a walk has, if one was found.
fn link_count(found: &Reached) -> Option<usize> {
    match found {
        Reached::Walk(links) => Some(links.as_slice().len()),
        Reached::Closed(_) => None,
    }
}

/// Whether no walk was found, and the first ToR reaches itself alone.
fn is_alone(found: &Reached) -> bool {
    match found {
        Reached::Walk(_) => false,
        Reached::Closed(side) => side.as_slice() == [0].as_slice(),
    }
}

/// How many links the walk to a device has, if there is one, and whether the first ToR reaches itself alone.
fn walk(
    alloc: Global,
    topo: &GroupTopo,
    down: &[u32],
    to: u32,
) -> Result<(Option<usize>, bool), Fail> {
    let found = reached(alloc, topo, down, to)?;
    let told = (link_count(&found), is_alone(&found));
    drop(found);
    Ok(told)
}

/// The same in the group of the two paths.
fn walked(alloc: Global, down: &[u32], to: u32) -> Result<(Option<usize>, bool), Fail> {
    let topo = group(alloc, TWO_PATH)?;
    let told = walk(alloc, &topo, down, to);
    drop(topo);
    told
}

/// The devices that are down, a device, and how many links the walk to it has.
const WALKS: [(&[u32], u32, usize); 5] = [
    (&[], 1, 2),
    (&[2], 1, 2),
    (&[3], 1, 2),
    (&[], 3, 1),
    (&[], 0, 0),
];

#[test]
fn a_walk_goes_by_either_switch(rt: HostRuntime) -> Result<(), Fail> {
    for (down, to, links) in WALKS {
        assert_eq!(rt; walked(rt.alloc(), down, to)?, (Some(links), false), "{to}");
    }
    Ok(())
}

#[test]
fn without_both_switches_a_rack_stands_alone(rt: HostRuntime) -> Result<(), Fail> {
    assert_eq!(rt; walked(rt.alloc(), &[2, 3], 1)?, (None, true));
    Ok(())
}

/// Whether the promise holds without these devices, by a book of the group.
fn holds(alloc: Global, topo: &GroupTopo, book: &mut Book, down: &[u32]) -> Result<bool, AllocError>
    requires book { IsBookOf topo.now book.old.of }
    requires promise { 0 < length topo.now.promises }
    ensures book { IsBookOf topo.now book.new.of }
{
    let up = all_but(alloc, topo, down)?;
    book.promise_holds(topo, &up, 0)
}

/// Whether it holds without a switch, without both, and with all devices again.
fn held_of(alloc: Global, topo: &GroupTopo, book: &mut Book) -> Result<[bool; 3], AllocError>
    requires book { IsBookOf topo.now book.old.of }
    requires promise { 0 < length topo.now.promises }
{
    let first = holds(alloc, topo, book, [2].as_slice())?;
    let second = holds(alloc, topo, book, [2, 3].as_slice())?;
    let third = holds(alloc, topo, book, [].as_slice())?;
    Ok([first, second, third])
}

/// The same by a new book.
fn held(alloc: Global, topo: &GroupTopo) -> Result<[bool; 3], Fail> {
    if topo.promise_count() == 0 {
        return Err(Fail::new("no promise"));
    }
    let mut book = Book::start(alloc, topo)?;
    let held = held_of(alloc, topo, &mut book);
    drop(book);
    Ok(held?)
}

#[test]
fn half_the_capacity_holds_while_a_switch_is_up(rt: HostRuntime) -> Result<(), Fail> {
    let topo = group(rt.alloc(), TWO_PATH)?;
    let held = held(rt.alloc(), &topo);
    drop(topo);
    assert_eq!(rt; held?, [true, false, true]);
    Ok(())
}
