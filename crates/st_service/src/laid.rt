//! What the entries of a work lay over the target, so that a room can publish the rows: those that were copied before, where the work's
//! check accepts, and those of a withdrawal among the entries.

ghost use Rattle.std.specs.Prelude.{◌≡◌, unwrap_or};
ghost use Rattle.st_event.specs.Proposals.{withdrawal_in};
ghost use Rattle.st_service.specs.Laid.{laid_by};

use st_event::{Entry, Event, Reply};
use st_net::Row;

/// The rows that an entry withdraws; where an entry withdraws none, the rows that are handed in.
fn withdrawn_or<'a>(entry: &'a Entry, rows: &'a [Row]) -> &'a [Row]
    ensures { result.now ≡ unwrap_or (withdrawal_in entry.now.event entry.now.reply) rows.now }
{
    let Event::Withdraw { .. } = &entry.event else {
        return rows;
    };
    let Reply::Withdrawn {
        rows: withdrawn,
        ..
    } = &entry.reply
    else {
        return rows;
    };
    withdrawn.as_slice()
}

/// The rows that the newest of these entries that withdraws any withdraws, where the oldest stands first; where none does, the rows that
/// a check decides.
pub fn laid_rows<'a>(entries: &'a [Entry], decided: &'a [Row]) -> &'a [Row]
    ensures { result.now ≡ laid_by entries.now decided.now }
{
    let mut rows = decided;
    for entry in entries {
        rows = withdrawn_or(entry, rows);
    }
    rows
}
