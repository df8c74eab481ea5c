//! The words after the program's name: what they ask the program to do, or that they are not in the grammar of words. They
//! are read through `clap` as one flat command; what the texts of its options mean is said here. The top call takes the job.
#![tactic(auto)]

mod command_line;
mod job;
pub mod laws;
mod options;

pub use command_line::read_words;
pub use job::{FatTree, Form, Job, Pods};
