//! The whole call that the program makes: words and bytes in, a report and the journals out.
#![tactic(auto)]

mod answer;
mod ending;
pub mod laws;
mod output;
mod playing;
mod program;
mod replaying;
mod results;
mod reverting;
mod rolling;
mod task;
mod top;

pub use answer::Outcome;
pub use program::{ended, run_program};
pub use st_replay::Status;
pub use top::{statesman, statesman_alone};
