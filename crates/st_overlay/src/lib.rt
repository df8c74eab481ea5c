//! The values of a group in a table, and rows set in it: the last writer wins. A table opens by a topology of `st_net`, and a
//! group's target is one.
#![tactic(auto)]

mod changes;
mod table;

pub use changes::{changed, last_writer_wins, overlay};
pub use table::Table;
