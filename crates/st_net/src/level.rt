//! How much of an entity works, and whether it carries traffic.

ghost use Rattle.std.specs.Prelude.{◌≡◌};
ghost use Rattle.st_net.specs.Levels.{level_of as level_of_lem, carries as carries_lem};

use crate::entity::{Entity, Vals};

/// The working level of an entity: its health, and while it is busy or its power is 0 no more than 1 for a device, and 0 for
/// a link. Of a device 0 says that the power unit is not reached, 1 that power can be controlled, 2 firmware, 3 config,
/// 4 routing and the link ends, and 5 that all works.
pub fn level_of(entity: Entity, vals: Vals, health: u32, busy: bool) -> u32
    ensures { result ≡ level_of_lem entity vals health busy }
{
    let is_down = busy || vals.v0 == 0;
    match entity {
        Entity::Device(_) if is_down => health.min(1),
        Entity::Link(_) if is_down => 0,
        _ => health,
    }
}

/// Whether an entity with these values and this level carries traffic: its power is 1 and, for a device, its routing is 1 and
/// its level 5, for a link its level 1.
pub fn carries(entity: Entity, vals: Vals, level: u32) -> bool
    ensures { result ≡ carries_lem entity vals level }
{
    match entity {
        Entity::Device(_) => vals.v0 == 1 && vals.v3 == 1 && level == 5,
        Entity::Link(_) => vals.v0 == 1 && level == 1,
    }
}
