//! The events of one group's journal and the reply to each, what applications ask for, and what their logs saw. The
//! definitions over journals stand in `specs/`: every crate that keeps or reads a journal cites them.
#![tactic(auto)]

mod act;
mod event;
mod journal;
pub mod laws;
mod reply;
mod rows;

pub use act::{Act, Log, LogEntry, LogSaw};
pub use event::{Event, Proposal};
pub use journal::{Entry, Journal, MAX_ENTRIES, MAX_PENDING, journal_limits};
pub use reply::{Cause, Lack, Receipt, Reply, Verdict};
pub use rows::Rows;
