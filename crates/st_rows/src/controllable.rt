//! The dependency model: what a row needs of the entities that it rests on. A device's variables need its working level and,
//! above power, that its power is on in the target; a link's need that both its ends can be controlled.

ghost use Rattle.std.specs.Prelude.{◌≡◌, ◌+◌, ◌<◌, length, slice_index_or};
ghost use Rattle.st_net.specs.Groups.{IsEntityOf, no_link};
ghost use Rattle.st_net.specs.Merge.{target_with};
ghost use Rattle.st_event.specs.Judge.{needs_of as needs_of_lem, level_lack as level_lack_lem, power_lack as power_lack_lem, link_lack as link_lack_lem, lack_at};
ghost use Rattle.st_overlay.specs.Values.{IsTableOf, value_in};
ghost use Rattle.st_net.specs.InOrder.{report_in};

use crate::report::report_of;
use st_event::Lack;
use st_net::{Entity, GroupTopo, Report, Row, Var};
use st_overlay::Table;

/// The working level that a row on a link needs of both its ends.
const NEEDED_OF_ENDS: u32 = 4;

/// The working level that a row on the variable needs of its own entity. A link's power needs none.
fn needs_of(var: Var) -> u32
    ensures { result ≡ needs_of_lem var }
{
    match var {
        Var::LinkPower => 0,
        Var::Power | Var::Iface => 1,
        Var::Firmware => 2,
        Var::Config => 3,
        Var::Routing => 4,
    }
}

/// The level that was observed of an entity, where it is lower than needed.
fn level_lack(topo: &GroupTopo, observed: &[Report], of: Entity, needs: u32) -> Option<Lack>
    requires entity { IsEntityOf topo.now of }
    requires reports { length observed.now ≡ length topo.now.devices + length topo.now.links }
    ensures { result ≡ level_lack_lem (report_in topo.now observed.now) of needs }
{
    let level = report_of(topo, observed, of).level;
    if level < needs {
        Some(Lack::Level { of, level, needs })
    } else {
        None
    }
}

/// The power that would be off, where what needs so high a level needs it on.
fn power_lack(needs: u32, power: u32) -> Option<Lack>
    ensures { result ≡ power_lack_lem needs power }
{
    if needs >= 2 && power != 1 {
        Some(Lack::PowerOff)
    } else {
        None
    }
}

/// What a link's row lacks: of its first end, of its second, or of the link.
fn link_lack(topo: &GroupTopo, observed: &[Report], link: u32, var: Var) -> Option<Lack>
    requires link { link < length topo.now.links }
    requires reports { length observed.now ≡ length topo.now.devices + length topo.now.links }
    ensures { result ≡ link_lack_lem (report_in topo.now observed.now) link (slice_index_or topo.now.links link no_link) var }
{
    // The ends are devices of the group.
    topo.is_sound();
    let (a, b) = topo.ends(link);
    let first = level_lack(topo, observed, Entity::Device(a), NEEDED_OF_ENDS);
    let second = level_lack(topo, observed, Entity::Device(b), NEEDED_OF_ENDS);
    let own = level_lack(topo, observed, Entity::Link(link), needs_of(var));
    first.or(second).or(own)
}

/// Why a row can't be set, by what was observed and by the target that the table has with these rows set; `None` exactly where
/// it can. Of a device the level comes first, then the power that is off; of a link the first end, the second, and the link.
/// Whether the row changes a value doesn't matter.
pub fn lack(
    topo: &GroupTopo,
    observed: &[Report],
    table: &Table,
    rows: &[Row],
    row: &Row,
) -> Option<Lack>
    requires reports { length observed.now ≡ length topo.now.devices + length topo.now.links }
    requires table { IsTableOf topo.now table.now }
    requires row { IsEntityOf topo.now row.now.entity }
    ensures { result ≡ lack_at topo.now (report_in topo.now observed.now) (target_with (value_in table.now) rows.now) row.now.entity row.now.var }
{
    let entity = row.entity;
    match entity {
        Entity::Device(_) => {
            let needs = needs_of(row.var);
            let power = table.get_with(rows, entity).v0;
            level_lack(topo, observed, entity, needs).or(power_lack(needs, power))
        }
        Entity::Link(link) => link_lack(topo, observed, link, row.var),
    }
}
