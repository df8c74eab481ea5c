//! The first two steps of the verdict on a proposal: its first row that can't be set, and then its first row whose entity
//! another application holds.

ghost use Rattle.std.specs.Prelude.{◌≡◌, ◌+◌, length, All, IfSome, None};
ghost use Rattle.st_net.specs.Holders.{effective_of};
ghost use Rattle.st_net.specs.Merge.{target_with};
ghost use Rattle.st_event.specs.Judge.{first_lack as first_lack_lem, first_locked as first_locked_lem, locked_cause, cause_or};
ghost use Rattle.st_overlay.specs.Values.{IsTableOf, IsRowIn, value_in};
ghost use Rattle.st_locks.specs.LockRows.{IsLockIn, holder_in, LocksOf};
ghost use Rattle.st_net.specs.InOrder.{report_in};
ghost use Rattle.st_rows.specs.Causes.{IsOfRow};

use crate::controllable::lack;
use st_event::Cause;
use st_locks::LockTable;
use st_net::{AppId, Entity, GroupTopo, Report, Row};
use st_overlay::Table;

/// The first row that can't be set, and what it lacks.
fn first_lack(topo: &GroupTopo, observed: &[Report], table: &Table, rows: &[Row]) -> Option<Cause>
    requires reports { length observed.now ≡ length topo.now.devices + length topo.now.links }
    requires table { IsTableOf topo.now table.now }
    requires rows { All (IsRowIn table.now) rows.now }
    ensures first { result ≡ first_lack_lem topo.now (report_in topo.now observed.now) (target_with (value_in table.now) rows.now) rows.now }
    ensures of_row { IfSome result IsOfRow }
{
    for row in rows {
        if let Some(lack) = lack(topo, observed, table, rows, row) {
            return Some(Cause::NotControllable { row: *row, lack });
        }
    }
    None
}

/// The holder that counts of an entity, and by which lock, where it is another application.
fn locked_out(locks: &LockTable, app: AppId, entity: Entity) -> Option<Cause>
    requires { IsLockIn locks.now entity }
    ensures cause { result ≡ locked_cause app entity (effective_of (holder_in locks.now) entity) None }
    ensures of_row { IfSome result IsOfRow }
{
    match locks.effective(entity) {
        Some((holder, prio)) if holder.0 != app.0 => Some(Cause::Locked {
            entity,
            holder,
            prio,
        }),
        _ => None,
    }
}

/// The entity of the first row that another application's lock bars.
fn first_locked(locks: &LockTable, app: AppId, rows: &[Row]) -> Option<Cause>
    requires { All (λ row. IsLockIn locks.now row.entity) rows.now }
    ensures first { result ≡ first_locked_lem (holder_in locks.now) app rows.now }
    ensures of_row { IfSome result IsOfRow }
{
    for row in rows {
        if let Some(cause) = locked_out(locks, app, row.entity) {
            return Some(cause);
        }
    }
    None
}

/// The first row that can't be set, judged by the target with all the rows set, or else the first row whose entity another
/// application holds by the lock that counts. `None` where each row can be set by this application. No promise is judged
/// here: `Broken` never comes.
pub fn judge_rows(
    topo: &GroupTopo,
    observed: &[Report],
    table: &Table,
    locks: &LockTable,
    app: AppId,
    rows: &[Row],
) -> Option<Cause>
    requires reports { length observed.now ≡ length topo.now.devices + length topo.now.links }
    requires table { IsTableOf topo.now table.now }
    requires locks { LocksOf topo.now locks.now }
    requires rows { All (IsRowIn table.now) rows.now }
    ensures first { result ≡ cause_or (first_lack_lem topo.now (report_in topo.now observed.now) (target_with (value_in table.now) rows.now) rows.now) (first_locked_lem (holder_in locks.now) app rows.now) }
    ensures of_row { IfSome result IsOfRow }
{
    match first_lack(topo, observed, table, rows) {
        Some(cause) => Some(cause),
        None => first_locked(locks, app, rows),
    }
}
