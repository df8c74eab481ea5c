//! What is wrong with the parts of a group: a function for each fault, which finds the first place where it stands.

ghost use Rattle.std.specs.Prelude.{◌≡◌, ◌+◌, ◌-◌, ◌^◌, ◌<◌, [], false, length, IfOk, IfSome, IfNone};
ghost use Rattle.st_net.specs.Faults.{device_names, is_tor_name, is_own as is_own_lem, is_unknown_end as is_unknown_end_lem, has_unknown_end as has_unknown_end_lem, has_unknown_tor as has_unknown_tor_lem, is_loop as is_loop_lem, is_cross as is_cross_lem, first_link, first_promise, device_limit as device_limit_lem, link_limit as link_limit_lem, promise_limit as promise_limit_lem, first_device_limit as first_device_limit_lem, first_link_limit as first_link_limit_lem, first_promise_limit as first_promise_limit_lem, first_bad_pair as first_bad_pair_lem, unknown_of, loop_of, cross_of, limit_of, pair_of};
ghost use Rattle.st_net.specs.PairsInside.{IsTorOf, IsPairOf, are_two_tors};
ghost use Rattle.st_net.specs.Building.{later_fault_of};

use crate::name::Name;
use crate::names::Names;
use crate::pairs::{Pair, Pairs};
use crate::parts::{DevicePart, EndPart, Limit, LinkPart, Parts, PromisePart, TopoFault};
use crate::range::{DEVICE_HEALTH, LINK_HEALTH, are_device_vals, are_link_vals};
use crate::topo::{MAX_CAPACITY, MAX_DEVICES, MAX_LINKS, MAX_PERCENT, MAX_PROMISES, MAX_TORS};
use std::alloc::{AllocError, Global};

/// Whether an end names no group, or this one.
fn is_own(group: &Name, end: &EndPart) -> bool
    ensures { result ≡ is_own_lem group.now end.now }
{
    match &end.group {
        None => true,
        Some(named) => named.is_same(group),
    }
}

/// Whether an end in this group names no device.
fn is_unknown_end(group: &Name, devices: &Names, end: &EndPart) -> bool
    ensures { result ≡ is_unknown_end_lem group.now devices.now end.now }
{
    is_own(group, end) && !devices.has(&end.name)
}

fn has_unknown_end(group: &Name, devices: &Names, link: &LinkPart) -> bool
    ensures { result ≡ has_unknown_end_lem group.now devices.now link.now }
{
    is_unknown_end(group, devices, &link.a) || is_unknown_end(group, devices, &link.b)
}

fn has_unknown_tor(devices: &Names, promise: &PromisePart) -> bool
    ensures { result ≡ has_unknown_tor_lem devices.now promise.now }
{
    !devices.has(&promise.a) || !devices.has(&promise.b)
}

/// Whether both ends are one device of this group.
fn is_loop(group: &Name, link: &LinkPart) -> bool
    ensures { result ≡ is_loop_lem group.now link.now }
{
    is_own(group, &link.a) && is_own(group, &link.b) && link.a.name.is_same(&link.b.name)
}

/// Whether an end is of another group.
fn is_cross(group: &Name, link: &LinkPart) -> bool
    ensures { result ≡ is_cross_lem group.now link.now }
{
    !is_own(group, &link.a) || !is_own(group, &link.b)
}

/// The place of the first link with an unknown end; links are placed from `at`.
fn first_unknown_link(group: &Name, devices: &Names, at: u32, links: &[LinkPart]) -> Option<u32>
    requires { at + length links.now < 2 ^ 32 }
    ensures { result ≡ first_link (has_unknown_end_lem group.now devices.now) at links.now }
{
    for (i, link) in links.iter().enumerate() {
        if has_unknown_end(group, devices, link) {
            return Some(at + i as u32);
        }
    }
    None
}

/// The place of the first promise with an unknown end; promises are placed from `at`.
fn first_unknown_promise(devices: &Names, at: u32, promises: &[PromisePart]) -> Option<u32>
    requires { at + length promises.now < 2 ^ 32 }
    ensures { result ≡ first_promise (has_unknown_tor_lem devices.now) at promises.now }
{
    for (i, promise) in promises.iter().enumerate() {
        if has_unknown_tor(devices, promise) {
            return Some(at + i as u32);
        }
    }
    None
}

/// The place of the first link whose ends are one device; links are placed from `at`.
fn first_loop(group: &Name, at: u32, links: &[LinkPart]) -> Option<u32>
    requires { at + length links.now < 2 ^ 32 }
    ensures { result ≡ first_link (is_loop_lem group.now) at links.now }
{
    for (i, link) in links.iter().enumerate() {
        if is_loop(group, link) {
            return Some(at + i as u32);
        }
    }
    None
}

/// The place of the first link with an end in another group; links are placed from `at`.
fn first_cross(group: &Name, at: u32, links: &[LinkPart]) -> Option<u32>
    requires { at + length links.now < 2 ^ 32 }
    ensures { result ≡ first_link (is_cross_lem group.now) at links.now }
{
    for (i, link) in links.iter().enumerate() {
        if is_cross(group, link) {
            return Some(at + i as u32);
        }
    }
    None
}

/// The limit that a device passes at its place, behind so many ToRs.
fn device_limit(at: usize, tors: usize, device: &DevicePart) -> Option<Limit>
    ensures { result ≡ device_limit_lem at tors device.now }
{
    if at >= MAX_DEVICES {
        Some(Limit::Devices)
    } else if device.tor && tors >= MAX_TORS {
        Some(Limit::Tors)
    } else if are_device_vals(device.vals) && device.health <= DEVICE_HEALTH {
        None
    } else {
        Some(Limit::Opening)
    }
}

/// The limit that a link passes as the one of this number.
fn link_limit(number: usize, link: &LinkPart) -> Option<Limit>
    ensures { result ≡ link_limit_lem number link.now }
{
    if number >= MAX_LINKS {
        Some(Limit::Links)
    } else if link.capacity < 1 || link.capacity > MAX_CAPACITY {
        Some(Limit::Capacity)
    } else if are_link_vals(link.vals) && link.health <= LINK_HEALTH {
        None
    } else {
        Some(Limit::Opening)
    }
}

/// The limit that a promise passes as the one of this number.
fn promise_limit(number: usize, promise: &PromisePart) -> Option<Limit>
    ensures { result ≡ promise_limit_lem number promise.now }
{
    if number >= MAX_PROMISES {
        Some(Limit::Promises)
    } else if promise.percent <= MAX_PERCENT {
        None
    } else {
        Some(Limit::Percent)
    }
}

/// The first limit that a device passes.
fn first_device_limit(devices: &[DevicePart]) -> Option<TopoFault>
    requires { length devices.now < 2 ^ 32 }
    ensures { result ≡ first_device_limit_lem 0 0 devices.now }
{
    let mut tors: usize = 0;
    for (i, device) in devices.iter().enumerate() {
        if let Some(limit) = device_limit(i, tors, device) {
            return Some(TopoFault::OverLimit {
                limit,
                place: i as u32,
            });
        }
        if device.tor {
            tors += 1;
        }
    }
    None
}

/// The first limit that a link passes, behind so many other parts.
fn first_link_limit(before: u32, links: &[LinkPart]) -> Option<TopoFault>
    requires { before + length links.now < 2 ^ 32 }
    ensures { result ≡ first_link_limit_lem before 0 links.now }
{
    for (i, link) in links.iter().enumerate() {
        if let Some(limit) = link_limit(i, link) {
            return Some(TopoFault::OverLimit {
                limit,
                place: before + i as u32,
            });
        }
    }
    None
}

/// The first limit that a promise passes, behind so many other parts.
fn first_promise_limit(before: u32, promises: &[PromisePart]) -> Option<TopoFault>
    requires { before + length promises.now < 2 ^ 32 }
    ensures { result ≡ first_promise_limit_lem before 0 promises.now }
{
    for (i, promise) in promises.iter().enumerate() {
        if let Some(limit) = promise_limit(i, promise) {
            return Some(TopoFault::OverLimit {
                limit,
                place: before + i as u32,
            });
        }
    }
    None
}

/// The number of the device of a name, where that is a ToR.
fn tor_of(names: &Names, devices: &[DevicePart], name: &Name) -> Option<u32>
    requires names { names.now ≡ device_names devices.now }
    requires few { length devices.now < 2 ^ 32 }
    ensures some { IfSome result (λ number. IsTorOf devices.now name.now number) }
    ensures none { IfNone result (is_tor_name devices.now name.now ≡ false) }
{
    let number = names.find(name.bytes())?;
    if devices[number].tor {
        Some(number as u32)
    } else {
        None
    }
}

/// The two ToRs of a promise, where its ends are that.
fn tors_of(names: &Names, devices: &[DevicePart], promise: &PromisePart) -> Option<Pair>
    requires names { names.now ≡ device_names devices.now }
    requires few { length devices.now < 2 ^ 32 }
    ensures some { IfSome result (λ pair. IsPairOf devices.now promise.now pair) }
    ensures none { IfNone result (are_two_tors devices.now promise.now ≡ false) }
{
    if promise.a.is_same(&promise.b) {
        return None;
    }
    let a = tor_of(names, devices, &promise.a)?;
    let b = tor_of(names, devices, &promise.b)?;
    Some(Pair { a, b })
}

/// The place of the first promise that is no new pair of two ToRs; promises are placed from `at`.
fn first_bad_pair(
    alloc: Global,
    names: &Names,
    devices: &[DevicePart],
    at: u32,
    promises: &[PromisePart],
) -> Result<Option<u32>, AllocError>
    requires names { names.now ≡ device_names devices.now }
    requires few { length devices.now < 2 ^ 32 }
    requires places { at + length promises.now < 2 ^ 32 }
    ensures { IfOk result (λ found. found ≡ first_bad_pair_lem devices.now [] at promises.now) }
{
    let mut pairs = Pairs::new(alloc);
    for (i, promise) in promises.iter().enumerate() {
        let Some(pair) = tors_of(names, devices, promise) else {
            return Ok(Some(at + i as u32));
        };
        if pairs.has_either(pair) {
            return Ok(Some(at + i as u32));
        }
        pairs.add(pair)?;
    }
    Ok(None)
}

/// The first part whose end in this group names no device.
fn unknown(parts: &Parts, devices: &Names) -> Option<TopoFault>
    requires names { devices.now ≡ device_names parts.now.devices }
    requires few { length parts.now.devices + length parts.now.links + length parts.now.promises < 2 ^ 32 - 1 }
    ensures { result ≡ unknown_of parts.now }
{
    let links_at = parts.devices.as_slice().len() as u32;
    let promises_at = links_at + parts.links.as_slice().len() as u32;
    match first_unknown_link(&parts.name, devices, links_at, parts.links.as_slice()) {
        Some(place) => Some(TopoFault::UnknownName { place }),
        None => match first_unknown_promise(devices, promises_at, parts.promises.as_slice()) {
            Some(place) => Some(TopoFault::UnknownName { place }),
            None => None,
        },
    }
}

/// The first link whose ends are one device.
fn loop_link(parts: &Parts) -> Option<TopoFault>
    requires { length parts.now.devices + length parts.now.links + length parts.now.promises < 2 ^ 32 - 1 }
    ensures { result ≡ loop_of parts.now }
{
    let at = parts.devices.as_slice().len() as u32;
    let place = first_loop(&parts.name, at, parts.links.as_slice())?;
    Some(TopoFault::LoopLink { place })
}

/// The first link with an end in another group.
fn cross(parts: &Parts) -> Option<TopoFault>
    requires { length parts.now.devices + length parts.now.links + length parts.now.promises < 2 ^ 32 - 1 }
    ensures { result ≡ cross_of parts.now }
{
    let at = parts.devices.as_slice().len() as u32;
    let place = first_cross(&parts.name, at, parts.links.as_slice())?;
    Some(TopoFault::CrossGroup { place })
}

/// The first limit that is passed.
fn limit(parts: &Parts) -> Option<TopoFault>
    requires { length parts.now.devices + length parts.now.links + length parts.now.promises < 2 ^ 32 - 1 }
    ensures { result ≡ limit_of parts.now }
{
    let links_at = parts.devices.as_slice().len() as u32;
    let promises_at = links_at + parts.links.as_slice().len() as u32;
    if let Some(fault) = first_device_limit(parts.devices.as_slice()) {
        return Some(fault);
    }
    match first_link_limit(links_at, parts.links.as_slice()) {
        Some(fault) => Some(fault),
        None => first_promise_limit(promises_at, parts.promises.as_slice()),
    }
}

/// The first promise that is no new pair of two ToRs.
fn pair(alloc: Global, parts: &Parts, devices: &Names) -> Result<Option<TopoFault>, AllocError>
    requires names { devices.now ≡ device_names parts.now.devices }
    requires few { length parts.now.devices + length parts.now.links + length parts.now.promises < 2 ^ 32 - 1 }
    ensures { IfOk result (λ found. found ≡ pair_of parts.now) }
{
    let at = parts.devices.as_slice().len() as u32 + parts.links.as_slice().len() as u32;
    match first_bad_pair(
        alloc,
        devices,
        parts.devices.as_slice(),
        at,
        parts.promises.as_slice(),
    )? {
        Some(place) => Ok(Some(TopoFault::BadPair { place })),
        None => Ok(None),
    }
}

/// What is wrong with parts of which no name stands twice.
pub(crate) fn later_fault(
    alloc: Global,
    parts: &Parts,
    devices: &Names,
) -> Result<Option<TopoFault>, AllocError>
    requires names { devices.now ≡ device_names parts.now.devices }
    requires few { length parts.now.devices + length parts.now.links + length parts.now.promises < 2 ^ 32 - 1 }
    ensures { IfOk result (λ found. found ≡ later_fault_of parts.now) }
{
    if let Some(fault) = unknown(parts, devices) {
        return Ok(Some(fault));
    }
    if let Some(fault) = loop_link(parts) {
        return Ok(Some(fault));
    }
    if let Some(fault) = cross(parts) {
        return Ok(Some(fault));
    }
    if let Some(fault) = limit(parts) {
        return Ok(Some(fault));
    }
    pair(alloc, parts, devices)
}
