//! The scripts of a document run on one thread: the order of their acts, what each does to its group, and how many entries they can make.
#![tactic(auto)]

pub mod laws;
mod running;
mod schedule;
mod serial;

pub use running::{Ran, open_worlds, serial_done, topo_of, topos_of};
