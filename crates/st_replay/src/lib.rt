//! Documents with their journals: read, and gone through again; and how a call on them begins and ends.
#![tactic(auto)]

mod args;
mod replaying;
mod status;

pub use args::after_name;
pub use replaying::{Again, app_names, journals_read, replay_all};
pub use status::{Status, status_line};
