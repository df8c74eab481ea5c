//! Which links are up. Searches go over them, and networks for flows are made of them.

ghost use Rattle.std.specs.Prelude.{◌≡◌, ◌<◌, length, slice_index_or};
ghost use Rattle.st_net.specs.Groups.{no_link};
ghost use Rattle.st_net.specs.Sets.{is_in, MarksOf};
ghost use Rattle.st_net.specs.UpGraph.{is_up_link};

use st_net::{Entity, EntitySet, GroupTopo};

/// Whether a link is up, with both its ends.
pub(crate) fn is_up(topo: &GroupTopo, up: &EntitySet, link: u32) -> bool
    requires link { link < length topo.now.links }
    requires marks { MarksOf topo.now up.now }
    ensures { result ≡ is_up_link (is_in up.now) link (slice_index_or topo.now.links link no_link) }
{
    topo.is_sound();
    let (a, b) = topo.ends(link);
    up.has(Entity::Link(link)) && up.has(Entity::Device(a)) && up.has(Entity::Device(b))
}
