//! Whether two replies are equal. A journal's reply is compared with the one that is called for, and neither is copied.

ghost use Rattle.std.specs.Prelude.{◌≡◌, ◌↔◌, IsTrue};
ghost use Rattle.st_event.specs.declared.reply.Reply.TheVariants.{Withdrawn as withdrawn};

use st_event::{Cause, Receipt, Reply, Rows, Verdict};
use st_net::{Broken, Row, Side};

/// Whether two sets of devices are one.
fn is_same_side(a: &Side, b: &Side) -> bool
    ensures { IsTrue result ↔ (a.now ≡ b.now) }
{
    a.as_slice() == b.as_slice()
}

/// Whether the same demand breaks, in the same way.
fn is_same_broken(a: &Broken, b: &Broken) -> bool
    ensures { IsTrue result ↔ (a.now ≡ b.now) }
{
    a.of == b.of
        && a.kind == b.kind
        && a.need == b.need
        && a.has == b.has
        && is_same_side(&a.side, &b.side)
}

/// Whether two refusals name the same.
fn is_same_cause(a: &Cause, b: &Cause) -> bool
    ensures { IsTrue result ↔ (a.now ≡ b.now) }
{
    match (a, b) {
        (
            Cause::NotControllable { row, lack },
            Cause::NotControllable {
                row: other_row,
                lack: other_lack,
            },
        ) => row == other_row && lack == other_lack,
        (
            Cause::Locked {
                entity,
                holder,
                prio,
            },
            Cause::Locked {
                entity: other_entity,
                holder: other_holder,
                prio: other_prio,
            },
        ) => entity == other_entity && holder == other_holder && prio == other_prio,
        (Cause::Broken(a), Cause::Broken(b)) => is_same_broken(a, b),
        _ => false,
    }
}

/// Whether two verdicts are equal.
fn is_same_verdict(a: &Verdict, b: &Verdict) -> bool
    ensures { IsTrue result ↔ (a.now ≡ b.now) }
{
    match (a, b) {
        (Verdict::Accepted { version }, Verdict::Accepted { version: other }) => version == other,
        (Verdict::Refused(a), Verdict::Refused(b)) => is_same_cause(a, b),
        _ => false,
    }
}

/// Whether two receipts are equal.
fn is_same_receipt(a: &Receipt, b: &Receipt) -> bool
    ensures { IsTrue result ↔ (a.now ≡ b.now) }
{
    a.ticket == b.ticket && a.entry == b.entry && is_same_verdict(&a.verdict, &b.verdict)
}

/// Whether two rows are equal.
fn is_same_row(a: &Row, b: &Row) -> bool
    ensures { IsTrue result ↔ (a.now ≡ b.now) }
{
    a == b
}

/// Whether two lists of rows are one.
fn are_same_rows(a: &[Row], b: &[Row]) -> bool
    ensures { IsTrue result ↔ (a.now ≡ b.now) }
{
    if a.len() != b.len() {
        return false;
    }
    for (i, row) in a.iter().enumerate() {
        if !is_same_row(row, &b[i]) {
            return false;
        }
    }
    true
}

/// Whether the same rows are withdrawn as the same version.
fn is_same_withdrawal(version: u32, rows: &Rows, b: &Reply) -> bool
    ensures { IsTrue result ↔ (withdrawn version rows.now ≡ b.now) }
{
    match b {
        Reply::Withdrawn {
            version: other,
            rows: others,
        } => *other == version && are_same_rows(rows.as_slice(), others.as_slice()),
        _ => false,
    }
}

/// Whether two replies are equal. Takes time in the devices of a side and in rows, and no memory.
pub fn is_same_reply(a: &Reply, b: &Reply) -> bool
    ensures { IsTrue result ↔ (a.now ≡ b.now) }
{
    match a {
        Reply::Queued { ticket } => matches!(b, Reply::Queued { ticket: other } if other == ticket),
        Reply::Full { pending } => matches!(b, Reply::Full { pending: other } if other == pending),
        Reply::Decided(receipt) =>
            matches!(b, Reply::Decided(other) if is_same_receipt(receipt, other)),
        Reply::Idle => matches!(b, Reply::Idle),
        Reply::Granted => matches!(b, Reply::Granted),
        Reply::Held { holder } => matches!(b, Reply::Held { holder: other } if other == holder),
        Reply::Released => matches!(b, Reply::Released),
        Reply::NotYours { holder } =>
            matches!(b, Reply::NotYours { holder: other } if other == holder),
        Reply::Sent { command } => matches!(b, Reply::Sent { command: other } if other == command),
        Reply::Settled => matches!(b, Reply::Settled),
        Reply::Blocked { row } => matches!(b, Reply::Blocked { row: other } if other == row),
        Reply::Begun => matches!(b, Reply::Begun),
        Reply::Stale { fence } => matches!(b, Reply::Stale { fence: other } if other == fence),
        Reply::NoSuch { sent } => matches!(b, Reply::NoSuch { sent: other } if other == sent),
        Reply::Done => matches!(b, Reply::Done),
        Reply::NotBusy => matches!(b, Reply::NotBusy),
        Reply::Reported { report } =>
            matches!(b, Reply::Reported { report: other } if other == report),
        Reply::Taken => matches!(b, Reply::Taken),
        Reply::Old { kept } => matches!(b, Reply::Old { kept: other } if other == kept),
        Reply::Changed => matches!(b, Reply::Changed),
        Reply::Withdrawn { version, rows } => is_same_withdrawal(*version, rows, b),
        Reply::Kept => matches!(b, Reply::Kept),
    }
}
