//! The scripts of a document run by threads: what it is that they were carried out, and a run that carries them out.
#![tactic(auto)]

mod application;
mod jobs;
pub mod laws;
mod playing;
mod tasks;
mod threads;
mod workers;

pub use playing::Played;
pub use threads::run_scripts;
