//! What the checker answers, as replies of a journal.

ghost use Rattle.std.specs.Prelude.{◌≡◌, IsTrue};
ghost use Rattle.st_event.specs.Events.{is_without_list};
ghost use Rattle.st_control.specs.Control.{reply_of_put, reply_of_check, reply_of_grant, reply_of_keep, reply_of_release};
ghost use Rattle.st_control.specs.Withdrawals.{reply_of_withdrawal};

use crate::control::checks::Check;
use crate::control::withdrawals::Withdrawal;
use st_event::Reply;
use st_locks::{Grant, Release};
use st_store::{Keep, Put};

/// The reply that stands for the answer to a proposal.
pub fn put_reply(put: Put) -> Reply
    ensures reply { result ≡ reply_of_put put }
    ensures plain { IsTrue (is_without_list result) }
{
    match put {
        Put::Ticket(ticket) => Reply::Queued { ticket },
        Put::Full { pending } => Reply::Full { pending },
    }
}

/// The reply that stands for the answer to a check.
pub fn check_reply(check: Check) -> Reply
    ensures { result ≡ reply_of_check check }
{
    match check {
        Check::Decided(receipt) => Reply::Decided(receipt),
        Check::Idle => Reply::Idle,
    }
}

/// The reply that stands for the answer to a request for a lock.
pub fn grant_reply(grant: Grant) -> Reply
    ensures reply { result ≡ reply_of_grant grant }
    ensures plain { IsTrue (is_without_list result) }
{
    match grant {
        Grant::Granted => Reply::Granted,
        Grant::Held { holder } => Reply::Held { holder },
    }
}

/// The reply that stands for the answer to a report.
pub fn keep_reply(keep: Keep) -> Reply
    ensures reply { result ≡ reply_of_keep keep }
    ensures plain { IsTrue (is_without_list result) }
{
    match keep {
        Keep::Taken => Reply::Taken,
        Keep::Old { kept } => Reply::Old { kept },
    }
}

/// The reply that stands for the answer to a release of a lock.
pub fn release_reply(release: Release) -> Reply
    ensures reply { result ≡ reply_of_release release }
    ensures plain { IsTrue (is_without_list result) }
{
    match release {
        Release::Released => Reply::Released,
        Release::NotYours { holder } => Reply::NotYours { holder },
    }
}

/// The reply that stands for the answer to a withdrawal.
pub fn withdrawal_reply(withdrawal: Withdrawal) -> Reply
    ensures { result ≡ reply_of_withdrawal withdrawal }
{
    match withdrawal {
        Withdrawal::Withdrawn { version, rows } => Reply::Withdrawn { version, rows },
        Withdrawal::Kept => Reply::Kept,
    }
}
