//! What is left to do in a group: the entities that are not as the target has them, by the kept reports and the stamps. The updater
//! and the rounds of a group's world start from it; it keeps nothing between calls.
#![tactic(auto)]

mod unsettled;

pub use unsettled::{plan, settled};
