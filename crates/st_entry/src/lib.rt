//! The words of an entry of a journal: its event and its reply. Journals are printed by them, and the lines of a report are made of
//! them.
#![tactic(auto)]

mod causes;
mod entries;
mod events;
mod keyword;
mod names;
mod replies;
mod saws;

pub use causes::{print_cause, print_verdict};
pub use entries::print_entry;
pub use events::{print_assignments, print_event};
pub use keyword::{CauseWord, EventWord, ReplyWord, VerdictWord, kind_word};
pub use names::{app_name, entity_name, holder_name};
pub use replies::print_reply;
pub use saws::print_saw;
