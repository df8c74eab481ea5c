//! Whether two groups have the same network and the same promises. What is judged of the one holds of the other, whatever else differs.

ghost use Rattle.std.specs.Prelude.{◌≡◌, ◌↔◌, ◌<◌, length, slice_index_or, IsTrue};
ghost use Rattle.st_net.specs.Groups.{no_link};
ghost use Rattle.st_promise.specs.Same.{HasSameNetwork};

use st_net::{Entity, GroupTopo};

/// Whether link number `i` is the same in both, with all that is said of it.
fn is_same_link(topo: &GroupTopo, other: &GroupTopo, i: u32) -> bool
    requires link { i < length topo.now.links }
    requires link_of_other { i < length other.now.links }
    ensures { IsTrue result ↔ (slice_index_or topo.now.links i no_link ≡ slice_index_or other.now.links i no_link) }
{
    let link = Entity::Link(i);
    let (a, b) = topo.ends(i);
    let (c, d) = other.ends(i);
    a == c
        && b == d
        && topo.capacity(i) == other.capacity(i)
        && topo.opening(link) == other.opening(link)
        && topo.health(link) == other.health(link)
}

/// Whether two groups have the same links, in order.
fn has_same_links(topo: &GroupTopo, other: &GroupTopo) -> bool
    ensures { IsTrue result ↔ (topo.now.links ≡ other.now.links) }
{
    if topo.link_count() != other.link_count() {
        return false;
    }
    for i in 0..topo.link_count() {
        if !is_same_link(topo, other, i) {
            return false;
        }
    }
    true
}

/// Whether two groups have the same promises, in order.
fn has_same_promises(topo: &GroupTopo, other: &GroupTopo) -> bool
    ensures { IsTrue result ↔ (topo.now.promises ≡ other.now.promises) }
{
    if topo.promise_count() != other.promise_count() {
        return false;
    }
    for i in 0..topo.promise_count() {
        if topo.promise(i) != other.promise(i) {
            return false;
        }
    }
    true
}

/// Whether two groups have as many devices, the same links and the same promises. Names are not compared, nor what devices open with.
pub fn has_same_network(topo: &GroupTopo, other: &GroupTopo) -> bool
    ensures { IsTrue result ↔ HasSameNetwork topo.now other.now }
{
    topo.device_count() == other.device_count()
        && has_same_links(topo, other)
        && has_same_promises(topo, other)
}
