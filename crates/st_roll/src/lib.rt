//! Rolling upgrades: devices are divided into batches that the checker would accept one by one, with a certificate for each device that has
//! to wait.
#![tactic(auto)]

mod judging;
mod laws;
mod pass;
mod plan;

pub use laws::{accepted_of_all, plans_are_rolls, refusals_are_verdicts};
pub use plan::{Batch, Left, Roll, Stuck, Why, plan_roll};
