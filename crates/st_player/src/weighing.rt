//! The sets of entities that a proposal is judged on. They are asked of a world, and cuts are made of them.

ghost use Rattle.std.specs.Prelude.{◌≡◌, All, IfOk};
ghost use Rattle.st_net.specs.Merge.{alters};
ghost use Rattle.st_net.specs.Ranges.{RowFits};
ghost use Rattle.st_net.specs.Sets.{MarksOf, is_in};
ghost use Rattle.st_event.specs.Proposals.{target};
ghost use Rattle.st_player.specs.Steps.{IsWeighed};

use st_net::{EntitySet, Row};
use st_overlay::changed;
use st_world::World;
use std::alloc::{AllocError, Global};

/// Sets of entities while a proposal's entities change: which change, which are sure, and which of these are left.
#[derive(Drop)]
pub(crate) struct Weighed {
    pub(crate) changed: EntitySet,
    pub(crate) sure: EntitySet,
    pub(crate) after: EntitySet,
}

/// The entities whose target these rows alter.
pub(crate) fn altered(alloc: Global, world: &World, rows: &[Row]) -> Result<EntitySet, AllocError>
    requires { All (RowFits world.now.history.group) rows.now }
    ensures of { IfOk result (MarksOf world.now.history.group) }
    ensures altered { IfOk result (λ set. is_in set ≡ alters world.now.history.group (target world.now.history.group world.now.history.past) rows.now) }
{
    let control = world.control();
    let set = changed(alloc, control.topo(), control.store().target(), rows)?;
    Ok(set)
}

/// The sets that a proposal of these rows is judged on.
pub(crate) fn weigh(alloc: Global, world: &World, rows: &[Row]) -> Result<Weighed, AllocError>
    requires { All (RowFits world.now.history.group) rows.now }
    ensures { IfOk result (IsWeighed world.now.history rows.now) }
{
    let changed = altered(alloc, world, rows)?;
    let sure = world.control().sure()?;
    let mut after = sure.copy(alloc)?;
    after.remove_all(&changed);
    Ok(Weighed {
        changed,
        sure,
        after,
    })
}
