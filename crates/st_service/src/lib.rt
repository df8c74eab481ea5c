//! The rooms of all groups behind their locks, and the passes by which threads work in them. `st_run` starts a service over worlds,
//! hands each job a pass, and takes journals and logs when the service closes.
#![tactic(auto)]

mod acts;
mod awaits;
mod close;
mod ended;
mod laid;
mod line;
mod locked;
mod makers;
mod naming;
mod offlock;
mod pass;
mod place;
mod room;
mod rounds;
mod service;
mod start;
mod work;

pub use acts::Acted;
pub use close::Closed;
pub use line::JournalLine;
pub use naming::Naming;
pub use offlock::OffLock;
pub use pass::Pass;
pub use service::Service;
pub use start::RoomLines;
