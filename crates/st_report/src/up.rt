//! Which entities of a group carry traffic in the simulated network at its opening.

ghost use Rattle.std.specs.Prelude.{◌≡◌, [], IfOk};
ghost use Rattle.st_net.specs.Groups.{IsEntityOf};
ghost use Rattle.st_net.specs.Sets.{MarksOf, is_in};
ghost use Rattle.st_event.specs.Observed.{actual};

use st_net::{Entity, EntitySet, GroupTopo, carries, level_of};
use std::alloc::{AllocError, Global};

/// Whether an entity carries traffic at the opening of its group.
fn is_up_at_opening(topo: &GroupTopo, entity: Entity) -> bool
    requires { IsEntityOf topo.now entity }
    ensures { result ≡ actual topo.now [] entity }
{
    let vals = topo.opening(entity);
    carries(
        entity,
        vals,
        level_of(entity, vals, topo.health(entity), false),
    )
}

/// The entities that carry traffic at the opening of a group.
pub(crate) fn up_at_opening(alloc: Global, topo: &GroupTopo) -> Result<EntitySet, AllocError>
    ensures of { IfOk result (MarksOf topo.now) }
    ensures up { IfOk result (λ set. is_in set ≡ actual topo.now []) }
{
    EntitySet::passing(alloc, topo, |entity| is_up_at_opening(topo, entity))
}
