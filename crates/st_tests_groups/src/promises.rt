//! A fat tree of ten pods, whose promises are judged with a link and with a ToR down, and in which a book counts its runs. Small
//! groups that are judged in two ways have a module of their own.
ghost use Rattle.std.specs.Prelude.{IfOk};
ghost use Rattle.st_net.specs.Sets.{MarksOf};
ghost use Rattle.st_promise.specs.Book.{IsBookOf};

mod changes;
mod walks;

use st_gen::generate;
use st_net::{Broken, BrokenKind, BrokenOf, Entity, EntitySet, GroupTopo};
use st_promise::Book;
use st_serial::topo_of;
use std::alloc::{AllocError, Global};
use std::test::Fail;

/// A fat tree of ten pods.
pub fn fat_tree(alloc: Global) -> Result<GroupTopo, Fail> {
    let doc = generate(alloc, 10, 0)?;
    let topo = match doc.groups.as_slice().first() {
        Some(parts) => topo_of(alloc, parts),
        None => Err(AllocError),
    };
    drop(doc);
    Ok(topo?)
}

/// Every entity of a group.
fn every_entity(alloc: Global, topo: &GroupTopo) -> Result<EntitySet, AllocError>
    ensures { IfOk result (MarksOf topo.now) }
{
    let mut up = EntitySet::none(alloc, topo)?;
    for device in 0..topo.device_count() {
        up.put(Entity::Device(device));
    }
    for link in 0..topo.link_count() {
        up.put(Entity::Link(link));
    }
    Ok(up)
}

/// What the loss of one entity breaks, of a book of the group.
fn lost(
    alloc: Global,
    topo: &GroupTopo,
    book: &mut Book,
    down: Entity,
) -> Result<Option<Broken>, AllocError>
    requires book { IsBookOf topo.now book.old.of }
    ensures book { IsBookOf topo.now book.new.of }
{
    let before = every_entity(alloc, topo)?;
    let mut after = before.copy(alloc)?;
    if topo.has(down) {
        after.remove(down);
    }
    book.judge_pairs(topo, &before, &after)
}

/// The number of the promise that breaks.
pub(crate) fn promise_of(of: BrokenOf) -> u32 {
    match of {
        BrokenOf::Promise(number) => number,
    }
}

/// Whether it is promise number 44 that is cut off.
fn is_last_of_first(broken: Option<Broken>) -> bool {
    match broken {
        Some(broken) => {
            promise_of(broken.of) == 44
                && broken.kind == BrokenKind::CutOff
                && broken.need == 25
                && broken.has == 0
        }
        None => false,
    }
}

/// What was seen of a new book: after the loss of a link, and then of a ToR.
#[derive(Clone, Copy)]
struct Runs {
    promises: u32,
    link_breaks: bool,
    runs: u64,
    tor_cut_off: bool,
    more_runs: u64,
}

/// The link p9e0a0 is the first of the 50 of pod 9, the ToR p9e0 device 90, and the promise of p0e0 and p9e0 number 44.
fn seen_of(alloc: Global, topo: &GroupTopo, book: &mut Book) -> Result<Runs, AllocError>
    requires book { IsBookOf topo.now book.old.of }
{
    let link_breaks = lost(alloc, topo, book, Entity::Link(450))?.is_some();
    let runs = book.flows_run();
    let tor = lost(alloc, topo, book, Entity::Device(90))?;
    Ok(Runs {
        promises: topo.promise_count(),
        link_breaks,
        runs,
        tor_cut_off: is_last_of_first(tor),
        more_runs: book.flows_run(),
    })
}

fn seen_in(alloc: Global, topo: &GroupTopo) -> Result<Runs, AllocError> {
    let mut book = Book::start(alloc, topo)?;
    let seen = seen_of(alloc, topo, &mut book);
    drop(book);
    seen
}

#[test]
fn only_flows_that_lost_too_much_are_found_again(rt: HostRuntime) -> Result<(), Fail> {
    let topo = fat_tree(rt.alloc())?;
    let seen = seen_in(rt.alloc(), &topo);
    drop(topo);
    let seen = seen?;
    let few = seen.runs <= 98;
    let more = seen.more_runs > seen.runs;
    assert_eq!(rt;
        (seen.promises, seen.link_breaks, seen.tor_cut_off, few, more),
        (1225, false, true, true, true)
    );
    Ok(())
}

/// How many flows were run by two checks of one change where a ToR was down before, and whether that breaks a promise.
#[derive(Clone, Copy)]
struct Repeated {
    first: u64,
    second: u64,
    breaks: bool,
}

/// Whether a change of nothing breaks a promise.
fn breaks(topo: &GroupTopo, book: &mut Book, up: &EntitySet) -> Result<bool, AllocError>
    requires book { IsBookOf topo.now book.old.of }
    requires up { MarksOf topo.now up.now }
    ensures book { IsBookOf topo.now book.new.of }
{
    Ok(book.judge_pairs(topo, up, up)?.is_some())
}

fn repeated_of(topo: &GroupTopo, book: &mut Book, up: &EntitySet) -> Result<Repeated, AllocError>
    requires book { IsBookOf topo.now book.old.of }
    requires up { MarksOf topo.now up.now }
{
    let breaks_first = breaks(topo, book, up)?;
    let first = book.flows_run();
    let breaks_again = breaks(topo, book, up)?;
    Ok(Repeated {
        first,
        second: book.flows_run().saturating_sub(first),
        breaks: breaks_first || breaks_again,
    })
}

fn repeated_in(alloc: Global, topo: &GroupTopo) -> Result<Repeated, AllocError> {
    let mut up = every_entity(alloc, topo)?;
    if topo.has(Entity::Device(90)) {
        up.remove(Entity::Device(90));
    }
    let mut book = Book::start(alloc, topo)?;
    let repeated = repeated_of(topo, &mut book, &up);
    drop(book);
    repeated
}

#[test]
fn promises_that_fail_already_take_no_more_flows(rt: HostRuntime) -> Result<(), Fail> {
    let topo = fat_tree(rt.alloc())?;
    let seen = repeated_in(rt.alloc(), &topo);
    drop(topo);
    let seen = seen?;
    assert_eq!(rt;
        (seen.breaks, seen.first >= 49, seen.second),
        (false, true, 0)
    );
    Ok(())
}
