//! Which entities of a world carry traffic in the simulated network, whether a report that says so was heard or not.

ghost use Rattle.std.specs.Prelude.{◌≡◌, IfOk};
ghost use Rattle.st_net.specs.Groups.{IsEntityOf};
ghost use Rattle.st_net.specs.Sets.{MarksOf, is_in};
ghost use Rattle.st_event.specs.Observed.{actual};

use crate::world::World;
use st_net::{Entity, EntitySet};
use std::alloc::AllocError;

impl World {
    /// Whether an entity of the group carries traffic.
    pub fn is_up(&self, entity: Entity) -> bool
        requires { IsEntityOf self.now.history.group entity }
        ensures { result ≡ actual self.now.history.group self.now.history.past entity }
    {
        self.agent(entity).up()
    }

    /// The entities of the group that carry traffic.
    pub fn up_set(&self) -> Result<EntitySet, AllocError>
        ensures of { IfOk result (MarksOf self.now.history.group) }
        ensures up { IfOk result (λ set. is_in set ≡ actual self.now.history.group self.now.history.past) }
    {
        self.is_legal();
        EntitySet::passing(self.alloc, self.control().topo(), |entity| {
            self.is_up(entity)
        })
    }
}
