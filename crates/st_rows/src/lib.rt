//! Whether rows can be set and who may set them: the dependency model and the locks, over a group's kept reports, its target and
//! its lock table. The checker asks it first of each proposal.
#![tactic(auto)]

mod controllable;
mod judge;
mod report;

pub use controllable::lack;
pub use judge::judge_rows;
