//! Whether one set of entities is within another. More entities keep an ask, and fewer a failure.

ghost use Rattle.std.specs.Prelude.{◌≡◌, ◌↔◌, IsTrue};
ghost use Rattle.st_net.specs.Sets.{is_in, MarksOf, IsWithin};

use st_net::{EntitySet, GroupTopo};

/// Whether each entity of one set is in the other.
pub fn is_within(topo: &GroupTopo, set: &EntitySet, other: &EntitySet) -> bool
    requires set { MarksOf topo.now set.now }
    requires other { MarksOf topo.now other.now }
    ensures { IsTrue result ↔ IsWithin (is_in set.now) (is_in other.now) }
{
    for place in 0..topo.entity_count() {
        let entity = topo.entity_at(place);
        if set.has(entity) && !other.has(entity) {
            return false;
        }
    }
    true
}

/// Whether two sets have the same entities.
pub fn is_same_set(topo: &GroupTopo, set: &EntitySet, other: &EntitySet) -> bool
    requires set { MarksOf topo.now set.now }
    requires other { MarksOf topo.now other.now }
    ensures { IsTrue result ↔ is_in set.now ≡ is_in other.now }
{
    is_within(topo, set, other) && is_within(topo, other, set)
}
