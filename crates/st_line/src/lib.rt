//! A line: a list that stands in proofs alone, and to which one writer adds. What was seen of it begins what is seen of it later.
#![tactic(auto)]

mod link;
mod log;
mod writer;

pub use link::Tells;
pub use log::Log;
pub use writer::Writer;
