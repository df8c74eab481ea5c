//! What passed the wire of a group: how many messages were sent, and how many of them came too late.

ghost use Rattle.std.specs.Prelude.{◌≡◌};
ghost use Rattle.st_report.specs.Counts.{is_stale as is_stale_lem, is_old as is_old_lem, stale_count as stale_count_lem, old_count as old_count_lem};

use st_event::{Entry, Reply};

/// Whether an entry is the arrival of a command that came too late.
fn is_stale(entry: &Entry) -> bool
    ensures { result ≡ is_stale_lem entry.now.reply }
{
    matches!(entry.reply, Reply::Stale { .. })
}

/// Whether it is that of a report that was no news.
fn is_old(entry: &Entry) -> bool
    ensures { result ≡ is_old_lem entry.now.reply }
{
    matches!(entry.reply, Reply::Old { .. })
}

/// How many commands came too late.
pub(crate) fn stale_count(entries: &[Entry]) -> usize
    ensures { result ≡ stale_count_lem entries.now }
{
    entries.iter().filter(|entry| is_stale(entry)).count()
}

/// How many reports were no news.
pub(crate) fn old_count(entries: &[Entry]) -> usize
    ensures { result ≡ old_count_lem entries.now }
{
    entries.iter().filter(|entry| is_old(entry)).count()
}
