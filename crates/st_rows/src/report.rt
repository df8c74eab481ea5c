//! The kept reports of a group, one for each entity in the order of entities: devices first, then links.

ghost use Rattle.std.specs.Prelude.{◌≡◌, ◌+◌, length};
ghost use Rattle.st_net.specs.Groups.{IsEntityOf};
ghost use Rattle.st_net.specs.InOrder.{report_in};

use st_net::{Entity, GroupTopo, Report};

/// The report that is kept of an entity.
pub(crate) fn report_of(topo: &GroupTopo, observed: &[Report], e: Entity) -> Report
    requires entity { IsEntityOf topo.now e }
    requires reports { length observed.now ≡ length topo.now.devices + length topo.now.links }
    ensures { result ≡ report_in topo.now observed.now e }
{
    observed[topo.place(e)]
}
