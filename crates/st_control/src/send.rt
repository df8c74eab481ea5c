//! What an entity is to be sent, and what a report says of a command that was sent: the pieces of the update path that look at one entity
//! alone.

ghost use Rattle.std.specs.Prelude.{◌≡◌, ◌&&◌, ◌==◌, not};
ghost use Rattle.st_net.specs.Entities.{is_same_vals, value_of};
ghost use Rattle.st_event.specs.Replies.{governing as governing_lem, row_to};

use st_net::{Command, Entity, Report, Row, Vals, Var};

/// What an entity is to be sent.
#[derive(Clone, Copy, Debug, PartialEq, Eq)]
pub enum SendStep {
    /// This command.
    Command(Command),
    /// Nothing: the entity is as the target has it.
    Settled,
    /// Nothing now: this row, which sets the governing variable to its target value, can't be set.
    Blocked { row: Row },
}

/// The lowest variable of an entity whose value is not the target's, or else its power.
fn governing(entity: Entity, vals: Vals, target: Vals) -> Var
    ensures { result ≡ governing_lem entity vals (value_of entity target) }
{
    match entity {
        Entity::Device(_) if vals.v0 != target.v0 => Var::Power,
        Entity::Device(_) if vals.v1 != target.v1 => Var::Firmware,
        Entity::Device(_) if vals.v2 != target.v2 => Var::Config,
        Entity::Device(_) if vals.v3 != target.v3 => Var::Routing,
        Entity::Link(_) if vals.v0 != target.v0 => Var::LinkPower,
        Entity::Link(_) if vals.v1 != target.v1 => Var::Iface,
        _ => entity.power(),
    }
}

/// The row that sets the governing variable of an entity with these values to its target value.
pub fn governing_row(entity: Entity, vals: Vals, target: Vals) -> Row
    ensures { result ≡ row_to entity (governing_lem entity vals (value_of entity target)) (value_of entity target) }
{
    let var = governing(entity, vals, target);
    Row {
        entity,
        var,
        value: target.get(entity, var),
    }
}

/// Whether a report shows that the command of this stamp was carried out, and yet other values than the target's.
pub fn shows_other(report: &Report, stamp: u32, target: Vals) -> bool
    ensures { result ≡ (not report.now.busy && report.now.fence == stamp && not (is_same_vals report.now.vals target)) }
{
    !report.busy && report.fence == stamp && !report.vals.is_same(target)
}
