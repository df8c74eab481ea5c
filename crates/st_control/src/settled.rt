//! Whether an entity is settled, which is as the target has it, or sure, which is settled and seen to carry traffic.

ghost use Rattle.std.specs.Prelude.{◌≡◌};
ghost use Rattle.st_net.specs.Reports.{is_settled_by, is_sure_by};
ghost use Rattle.st_control.specs.Sure.{is_shown_by};

use st_net::{Entity, Report, Vals, carries};
use st_plan::settled;

/// What is asked of an entity by its report.
#[derive(Clone, Copy, Debug, PartialEq, Eq)]
pub enum Shown {
    /// That the entity is as the target has it.
    Settled,
    /// That the entity is settled and carries traffic.
    Sure,
}

/// Whether an entity is settled, and seen to carry traffic.
fn is_sure(entity: Entity, observed: &Report, stamp: u32, target: Vals) -> bool
    ensures { result ≡ is_sure_by entity observed.now stamp target }
{
    settled(observed, target, stamp) && carries(entity, observed.vals, observed.level)
}

/// Whether an entity is settled, or sure.
pub fn is_shown(shown: Shown, entity: Entity, observed: &Report, stamp: u32, target: Vals) -> bool
    ensures { result ≡ is_shown_by shown entity observed.now stamp target }
{
    match shown {
        Shown::Settled => settled(observed, target, stamp),
        Shown::Sure => is_sure(entity, observed, stamp, target),
    }
}
