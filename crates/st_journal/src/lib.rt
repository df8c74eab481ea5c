//! Journals as text: printed, read, and replayed.
#![tactic(auto)]

pub mod laws;
mod printing;
mod printing_back;
mod reader;
mod reading;
mod replaying;
mod same;

pub use printing::{print_journal, print_world};
pub use printing_back::prints_back;
pub use reading::{JournalsRead, read_journals};
pub use replaying::{Replayed, replay};
pub use st_token::FaultKind as JournalKind;
