//! The last report of each entity, in the order of entities: devices first, then links. The checker knows the entities by them.

ghost use Rattle.std.specs.Prelude.{◌≡◌, ◌+◌, ◌<◌, ◌^◌, length, IfOk};
ghost use Rattle.st_net.specs.Groups.{IsEntityOf};
ghost use Rattle.st_net.specs.Reports.{opening_report};
ghost use Rattle.st_net.specs.InOrder.{report_in};

use st_net::{Entity, GroupTopo, Report, level_of};
use std::alloc::{AllocError, Global};

/// The answer to a report.
#[derive(Clone, Copy, Debug, PartialEq, Eq)]
pub enum Keep {
    /// It is kept from now on.
    Taken,
    /// The kept report of its entity has this number, which is no lower: it was dropped.
    Old { kept: u32 },
}

/// The report that stands for an entity before any.
fn report_at_opening(topo: &GroupTopo, entity: Entity) -> Report
    requires { IsEntityOf topo.now entity }
    ensures { result ≡ opening_report topo.now entity }
{
    let vals = topo.opening(entity);
    let health = topo.health(entity);
    Report {
        entity,
        number: 0,
        fence: 0,
        busy: false,
        vals,
        level: level_of(entity, vals, health, false),
    }
}

/// The reports that stand for the entities of a group before any, in order.
pub fn opening_reports(alloc: Global, topo: &GroupTopo) -> Result<Vec<Report>, AllocError>
    ensures count { IfOk result (λ reports. length reports.items ≡ length topo.now.devices + length topo.now.links) }
    ensures opening { IfOk result (λ reports. report_in topo.now reports.items ≡ opening_report topo.now) }
{
    let mut reports = Vec::new(alloc);
    for place in 0..topo.entity_count() {
        reports.push(report_at_opening(topo, topo.entity_at(place)))?;
    }
    Ok(reports)
}
