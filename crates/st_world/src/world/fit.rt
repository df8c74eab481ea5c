//! Which events may be entered in a world: the test of what a step asks of its caller.

ghost use Rattle.std.specs.Prelude.{◌↔◌, IsTrue};
ghost use Rattle.st_event.specs.Legal.{Fits, FailFits};

use crate::world::World;
use st_event::Event;
use st_net::{Entity, GroupTopo, Vals, are_in_range, is_health_of};

/// Whether an entity of a group may come to have these values and this health.
fn fail_fits(topo: &GroupTopo, entity: Entity, vals: Vals, health: u32) -> bool
    ensures { IsTrue result ↔ FailFits topo.now entity vals health }
{
    topo.has(entity) && are_in_range(entity, vals) && is_health_of(entity, health)
}

impl World {
    /// Whether a step may enter an event: the event names entities of the group, its rows are such as a proposal may hold, and its values
    /// and its health are in range.
    pub fn fits(&self, event: &Event) -> bool
        ensures { IsTrue result ↔ Fits self.now.history.group event.now }
    {
        let topo = self.control().topo();
        match event {
            Event::Submit { app: _, rows } => topo.rows_fit(rows.as_slice()),
            Event::Check | Event::Deliver { .. } | Event::Hear { .. } => true,
            Event::Lock { entity, .. }
            | Event::Unlock { entity, .. }
            | Event::Send { entity }
            | Event::Finish { entity }
            | Event::Report { entity }
            | Event::Withdraw { entity } => topo.has(*entity),
            Event::Fail {
                entity,
                vals,
                health,
            } => fail_fits(topo, *entity, *vals, *health),
        }
    }
}
