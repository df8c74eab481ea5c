//! The checker of one group: it queues proposals, judges the oldest against what is observed, and merges the rows that it accepts
//! into the group's target. What the checker answers, the group's journal has as replies.
#![tactic(auto)]

mod back;
mod basis;
mod control;
mod replies;
mod send;
mod settled;
mod stamps;
mod sure;
mod twice;

pub use basis::{Basis, Judged, judge_basis};
pub use control::Control;
pub use control::checks::Check;
pub use control::commits::{Begin, Commit};
pub use control::withdrawals::Withdrawal;
pub use replies::{
    check_reply, grant_reply, keep_reply, put_reply, release_reply, withdrawal_reply,
};
pub use send::SendStep;
pub use st_store::{Keep, Put};
pub use twice::Twice;
