//! Jobs that run as threads, and the gate that they call at named points of their work. `st_run` makes a job of each application and of
//! each worker, and hands them to `crew_run`.
#![tactic(auto)]

mod crew;
mod gate;
mod job;

pub use crew::crew_run;
pub use gate::{Gate, NoGate, Point};
pub use job::Job;
