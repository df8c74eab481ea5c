//! The cut that would be left of a promise: what is joined to its far end, and which links about it are left and which are out. It is made
//! of the sets that a proposal was judged on, and told with its refusal.

ghost use Rattle.std.specs.Prelude.{◌≡◌, ℕ, ◌<◌, ◌^◌, ◌&&◌, ◌||◌, not, false, true, All, IfOk, length, slice_index_or, slice_set};
ghost use Rattle.std.specs.List.{list_any};
ghost use Rattle.st_net.specs.Cuts.{numbers_in};
ghost use Rattle.st_net.specs.Demands.{pair_of_broken};
ghost use Rattle.st_net.specs.Groups.{no_link, promise_of};
ghost use Rattle.st_net.specs.Sets.{IsMarkIn, MarksOf, is_in};
ghost use Rattle.st_net.specs.UpGraph.{is_up_link};
ghost use Rattle.st_player.specs.Cuts.{crossing_links, cut_by as cut_by_lem, end_alone, far_of, is_device_of, is_end_of, is_far, is_marked, is_one_across, is_one_of as is_one_of_lem, is_part_of as is_part_of_lem, joins, numbers_of, out_with, part_of, with_joined};
ghost use Rattle.st_player.specs.Steps.{cut_in};

use crate::weighing::Weighed;
use st_net::{Broken, BrokenOf, Entity, EntitySet, GroupTopo};
use std::alloc::{AllocError, Global};

/// What stands about the least side of a promise that breaks, by numbers: the devices that are joined to its far end, the links of the side
/// that are left, the links of the smaller part that are out, the entities that change, and what of the links that are out, with their
/// ends, was not sure before.
#[derive(Drop)]
pub(crate) struct Cut {
    pub(crate) far: Vec<u32>,
    pub(crate) left: Vec<u32>,
    pub(crate) out: Vec<u32>,
    pub(crate) changes: Vec<u32>,
    pub(crate) gone: Vec<u32>,
}

/// Whether a number is one of these.
fn is_one_of(numbers: &[u32], n: u32) -> bool
    ensures { result ≡ is_one_of_lem numbers.now n }
{
    numbers.iter().any(|number| *number == n)
}

/// A mark for each device of the group, set for those with these numbers.
fn device_marks(alloc: Global, topo: &GroupTopo, numbers: &[u32]) -> Result<Vec<bool>, AllocError>
    ensures count { IfOk result (λ marks. length marks.items ≡ length topo.now.devices) }
    ensures marks { IfOk result (λ marks. is_marked marks.items ≡ is_device_of topo.now numbers.now) }
{
    let mut marks = Vec::new(alloc);
    for d in 0..topo.device_count() {
        marks.push(is_one_of(numbers, d))?;
    }
    Ok(marks)
}

/// Whether a link is up, with both its ends.
fn is_up_link_in(topo: &GroupTopo, up: &EntitySet, link: u32) -> bool
    requires link { link < length topo.now.links }
    requires marks { MarksOf topo.now up.now }
    ensures { result ≡ is_up_link (is_in up.now) link (slice_index_or topo.now.links link no_link) }
{
    topo.is_sound();
    let (a, b) = topo.ends(link);
    up.has(Entity::Link(link)) && up.has(Entity::Device(a)) && up.has(Entity::Device(b))
}

/// Marks the one end of a link, where it is outside the side and the other end is near.
fn join(more: &mut [bool], side: &[bool], near: &[bool], from: usize, to: usize)
    requires more { length more.old ≡ length near.now }
    requires side { length side.now ≡ length near.now }
    requires from { from < length near.now }
    requires to { to < length near.now }
    ensures { more.new ≡ slice_set more.old to (is_marked more.old to || (not (is_marked side.now to) && is_marked near.now from)) }
{
    more[to] = more[to] || (!side[to] && near[from]);
}

/// Marks the ends of a link that is up, where they are outside the side and the other end is near.
fn join_ends(
    topo: &GroupTopo,
    up: &EntitySet,
    side: &[bool],
    near: &[bool],
    link: u32,
    more: &mut [bool],
)
    requires link { link < length topo.now.links }
    requires marks { MarksOf topo.now up.now }
    requires side { length side.now ≡ length topo.now.devices }
    requires near { length near.now ≡ length topo.now.devices }
    requires more { length more.old ≡ length topo.now.devices }
    ensures { (d : ℕ) → is_marked more.new d ≡ (is_marked more.old d || (not (is_marked side.now d) && joins (is_in up.now) (is_marked near.now) d link (slice_index_or topo.now.links link no_link))) }
{
    topo.is_sound();
    let (a, b) = topo.ends(link);
    if is_up_link_in(topo, up, link) {
        join(more, side, near, a as usize, b as usize);
        join(more, side, near, b as usize, a as usize);
    }
}

/// The devices that a walk of one more link joins to those that are near.
fn grow(
    alloc: Global,
    topo: &GroupTopo,
    up: &EntitySet,
    side: &[bool],
    near: &[bool],
) -> Result<Vec<bool>, AllocError>
    requires marks { MarksOf topo.now up.now }
    requires side { length side.now ≡ length topo.now.devices }
    requires near { length near.now ≡ length topo.now.devices }
    ensures count { IfOk result (λ more. length more.items ≡ length topo.now.devices) }
    ensures more { IfOk result (λ more. is_marked more.items ≡ with_joined topo.now (is_in up.now) (is_marked side.now) (is_marked near.now)) }
{
    let mut more = near.to_vec(alloc)?;
    for link in 0..topo.link_count() {
        join_ends(topo, up, side, near, link, more.as_mut_slice());
    }
    Ok(more)
}

/// A device alone, where it is outside the side.
fn end_marks(
    alloc: Global,
    topo: &GroupTopo,
    side: &[bool],
    end: u32,
) -> Result<Vec<bool>, AllocError>
    requires { length side.now ≡ length topo.now.devices }
    ensures count { IfOk result (λ marks. length marks.items ≡ length topo.now.devices) }
    ensures end { IfOk result (λ marks. is_marked marks.items ≡ end_alone topo.now (is_marked side.now) end) }
{
    let mut marks = Vec::new(alloc);
    for d in 0..topo.device_count() {
        marks.push(d == end && !side[d as usize])?;
    }
    Ok(marks)
}

/// The devices that walks of up links outside the side join to a device.
fn far_marks(
    alloc: Global,
    topo: &GroupTopo,
    up: &EntitySet,
    side: &[bool],
    end: u32,
) -> Result<Vec<bool>, AllocError>
    requires marks { MarksOf topo.now up.now }
    requires side { length side.now ≡ length topo.now.devices }
    ensures count { IfOk result (λ far. length far.items ≡ length topo.now.devices) }
    ensures far { IfOk result (λ far. is_marked far.items ≡ is_far topo.now (is_in up.now) (is_marked side.now) end) }
{
    let mut near = end_marks(alloc, topo, side, end)?;
    'walks: for _walk in 0..topo.device_count() {
        let more = grow(alloc, topo, up, side, near.as_slice())?;
        if more.as_slice() == near.as_slice() {
            return Ok(near);
        }
        near = more;
    }
    Ok(near)
}

/// The numbers of the devices that are marked, ascending.
fn marked(alloc: Global, marks: &[bool]) -> Result<Vec<u32>, AllocError>
    requires { length marks.now < 2 ^ 32 }
    ensures { IfOk result (λ numbers. numbers.items ≡ numbers_in (length marks.now) (is_marked marks.now)) }
{
    let mut numbers = Vec::new(alloc);
    for d in 0..marks.len() {
        if marks[d] {
            numbers.push(d as u32)?;
        }
    }
    Ok(numbers)
}

/// Whether a link has exactly one end that is marked, and is up, or is not.
fn is_across(topo: &GroupTopo, up: &EntitySet, are_up: bool, marks: &[bool], link: u32) -> bool
    requires link { link < length topo.now.links }
    requires marks { MarksOf topo.now up.now }
    requires count { length marks.now ≡ length topo.now.devices }
    ensures { result ≡ is_one_across (is_in up.now) are_up (is_marked marks.now) link (slice_index_or topo.now.links link no_link) }
{
    topo.is_sound();
    let (a, b) = topo.ends(link);
    is_up_link_in(topo, up, link) == are_up && marks[a as usize] != marks[b as usize]
}

/// The links that are up, or that are not, with exactly one end that is marked.
fn crossing(
    alloc: Global,
    topo: &GroupTopo,
    up: &EntitySet,
    are_up: bool,
    marks: &[bool],
) -> Result<Vec<u32>, AllocError>
    requires marks { MarksOf topo.now up.now }
    requires count { length marks.now ≡ length topo.now.devices }
    ensures { IfOk result (λ links. links.items ≡ crossing_links topo.now (is_in up.now) are_up (is_marked marks.now)) }
{
    let mut links = Vec::new(alloc);
    for link in 0..topo.link_count() {
        if is_across(topo, up, are_up, marks, link) {
            links.push(link)?;
        }
    }
    Ok(links)
}

/// The second end of a promise; 0 where there is no such promise.
fn far_end(topo: &GroupTopo, promise: u32) -> u32
    ensures { result ≡ (promise_of topo.now promise).b }
{
    if promise < topo.promise_count() {
        topo.promise(promise).b
    } else {
        0
    }
}

/// The second of the two devices between which a demand is broken.
fn far_end_of(topo: &GroupTopo, of: BrokenOf) -> u32
    ensures { result ≡ (pair_of_broken topo.now of).1 }
{
    match of {
        BrokenOf::Promise(number) => far_end(topo, number),
    }
}

/// Whether a device is an end of one of these links.
fn is_end_of_one(topo: &GroupTopo, links: &[u32], device: u32) -> bool
    requires { All (λ i. i < length topo.now.links) links.now }
    ensures { result ≡ list_any (is_end_of topo.now device) links.now }
{
    for link in links {
        let (a, b) = topo.ends(*link);
        if a == device || b == device {
            return true;
        }
    }
    false
}

/// Whether an entity is one of these links, or an end of one.
fn is_part_of(topo: &GroupTopo, links: &[u32], entity: Entity) -> bool
    requires { All (λ i. i < length topo.now.links) links.now }
    ensures { result ≡ is_part_of_lem topo.now links.now entity }
{
    match entity {
        Entity::Link(i) => is_one_of(links, i),
        Entity::Device(d) => is_end_of_one(topo, links, d),
    }
}

/// The entities of a set, by their numbers, ascending.
fn numbers_in_set(alloc: Global, topo: &GroupTopo, set: &EntitySet) -> Result<Vec<u32>, AllocError>
    requires { MarksOf topo.now set.now }
    ensures { IfOk result (λ numbers. numbers.items ≡ numbers_of topo.now (is_in set.now)) }
{
    let mut numbers = Vec::new(alloc);
    for place in 0..topo.entity_count() {
        if set.has(topo.entity_at(place)) {
            numbers.push(place)?;
        }
    }
    Ok(numbers)
}

/// Whether an entity is one of these links, or an end of one, and is not in a set.
fn is_gone(topo: &GroupTopo, links: &[u32], sure: &EntitySet, entity: Entity) -> bool
    requires links { All (λ i. i < length topo.now.links) links.now }
    requires mark { IsMarkIn sure.now entity }
    ensures { result ≡ (is_part_of_lem topo.now links.now entity && not (is_in sure.now entity)) }
{
    is_part_of(topo, links, entity) && !sure.has(entity)
}

/// What of these links and their ends is not in a set, by their numbers, ascending.
fn gone(
    alloc: Global,
    topo: &GroupTopo,
    links: &[u32],
    sure: &EntitySet,
) -> Result<Vec<u32>, AllocError>
    requires links { All (λ i. i < length topo.now.links) links.now }
    requires marks { MarksOf topo.now sure.now }
    ensures { IfOk result (λ numbers. numbers.items ≡ numbers_of topo.now (λ e. is_part_of_lem topo.now links.now e && not (is_in sure.now e))) }
{
    let mut numbers = Vec::new(alloc);
    for place in 0..topo.entity_count() {
        if is_gone(topo, links, sure, topo.entity_at(place)) {
            numbers.push(place)?;
        }
    }
    Ok(numbers)
}

/// The smaller part of a cut: what is joined to the far end where that has fewer devices, and else the side.
fn smaller_part<'a>(side: &'a [u32], far: &'a [u32]) -> &'a [u32]
    ensures { result.now ≡ part_of side.now far.now }
{
    if far.len() < side.len() { far } else { side }
}

/// The links that are not up, with one end in the smaller part of a cut.
fn out_of_part(
    alloc: Global,
    topo: &GroupTopo,
    up: &EntitySet,
    side: &[u32],
    far: &[u32],
) -> Result<Vec<u32>, AllocError>
    requires { MarksOf topo.now up.now }
    ensures links { IfOk result (λ links. links.items ≡ out_with topo.now (is_in up.now) side.now far.now) }
    ensures within { IfOk result (λ links. All (λ i. i < length topo.now.links) links.items) }
{
    let marks = device_marks(alloc, topo, smaller_part(side, far))?;
    crossing(alloc, topo, up, false, marks.as_slice())
}

/// The devices that are joined to the far end of a broken promise, by their numbers, ascending.
fn far(
    alloc: Global,
    topo: &GroupTopo,
    up: &EntitySet,
    side: &[bool],
    broken: &Broken,
) -> Result<Vec<u32>, AllocError>
    requires marks { MarksOf topo.now up.now }
    requires count { length side.now ≡ length topo.now.devices }
    requires side { is_marked side.now ≡ is_device_of topo.now broken.now.side }
    ensures { IfOk result (λ far. far.items ≡ far_of topo.now (is_in up.now) broken.now) }
{
    topo.is_sound();
    let marks = far_marks(alloc, topo, up, side, far_end_of(topo, broken.of))?;
    marked(alloc, marks.as_slice())
}

/// The cut of a promise that breaks while these sets stand.
pub(crate) fn cut_by(
    alloc: Global,
    topo: &GroupTopo,
    sets: &Weighed,
    broken: &Broken,
) -> Result<Cut, AllocError>
    requires changed { MarksOf topo.now sets.now.changed }
    requires sure { MarksOf topo.now sets.now.sure }
    requires after { MarksOf topo.now sets.now.after }
    ensures { IfOk result (λ cut. cut_in cut ≡ cut_by_lem topo.now (is_in sets.now.changed) (is_in sets.now.sure) (is_in sets.now.after) broken.now) }
{
    let side = broken.side.as_slice();
    let marks = device_marks(alloc, topo, side)?;
    let left = crossing(alloc, topo, &sets.after, true, marks.as_slice())?;
    let far = far(alloc, topo, &sets.after, marks.as_slice(), broken)?;
    let out = out_of_part(alloc, topo, &sets.after, side, far.as_slice())?;
    Ok(Cut {
        left,
        gone: gone(alloc, topo, out.as_slice(), &sets.sure)?,
        changes: numbers_in_set(alloc, topo, &sets.changed)?,
        far,
        out,
    })
}
