//! Whether a walk of the up graph joins two devices, with the walk, or with all that the first reaches.

ghost use Rattle.std.specs.Prelude.{◌<◌, length, IfOk};
ghost use Rattle.st_net.specs.Sets.{is_in, MarksOf};
ghost use Rattle.st_promise.specs.Reach.{IsReached};

use crate::incidence::Incidence;
use crate::search::Search;
use st_net::{EntitySet, GroupTopo, Items, Side};
use std::alloc::{AllocError, Global};

/// What the first of two devices reaches.
#[derive(Drop)]
pub enum Reached {
    /// The second, by this walk: the numbers of its links, in order.
    Walk(Items<u32>),
    /// Not the second: all that walks from the first reach, a set that no link of the up graph leaves.
    Closed(Side),
}

/// A walk from `a` to `b` in the up graph, or the devices that walks from `a` reach, where `b` is none of them. From a device
/// to itself the walk has no link.
pub fn reach(
    alloc: Global,
    topo: &GroupTopo,
    up: &EntitySet,
    a: u32,
    b: u32,
) -> Result<Reached, AllocError>
    requires a { a < length topo.now.devices }
    requires b { b < length topo.now.devices }
    requires marks { MarksOf topo.now up.now }
    ensures { IfOk result (IsReached topo.now (is_in up.now) a b) }
{
    topo.is_sound();
    let incidence = Incidence::of(alloc, topo)?;
    let found = Search::run(alloc, topo, &incidence, up, a)?;
    match found.walk_to(alloc, b)? {
        Some(walk) => Ok(Reached::Walk(walk)),
        None => Ok(Reached::Closed(found.side(alloc)?)),
    }
}
