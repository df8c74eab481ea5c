//! What rows do to a table of values: they are set in it, or only compared with it. The checker sets the rows that it accepts
//! and asks first which entities they would alter.

ghost use Rattle.std.specs.Prelude.{◌≡◌, All, IfOk};
ghost use Rattle.st_net.specs.Sets.{is_in, MarksOf};
ghost use Rattle.st_net.specs.Merge.{alters};
ghost use Rattle.st_overlay.specs.Values.{value_in, IsTableOf, IsRowIn, Overlays, LastWriterWins};

use crate::table::Table;
use st_net::{EntitySet, GroupTopo, Row};
use std::alloc::{AllocError, Global};

/// Sets each row's variable and leaves all else. Of two rows on one variable the later decides.
pub fn overlay(table: &mut Table, rows: &[Row])
    requires { All (IsRowIn table.old) rows.now }
    ensures { Overlays table.old table.new rows.now }
{
    table.overlay(rows);
}

/// The entities whose values the rows would alter. Only the entities of the rows are looked at.
pub fn changed(
    alloc: Global,
    topo: &GroupTopo,
    table: &Table,
    rows: &[Row],
) -> Result<EntitySet, AllocError>
    requires of { IsTableOf topo.now table.now }
    requires rows { All (IsRowIn table.now) rows.now }
    ensures of { IfOk result (MarksOf topo.now) }
    ensures altered { IfOk result (λ set. is_in set ≡ alters topo.now (value_in table.now) rows.now) }
{
    let mut set = EntitySet::none(alloc, topo)?;
    for row in rows {
        let entity = row.entity;
        if !table.get_with(rows, entity).is_same(table.get(entity)) {
            set.put(entity);
        }
    }
    Ok(set)
}

/// A table that stands as the group opened, and is overlaid by a list of proposals, the oldest first, has for each variable
/// the value of the last proposal with a row on it, and the opening value where none has.
pub fn last_writer_wins()
    ensures { LastWriterWins }
{}
