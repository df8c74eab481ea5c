//! The locks of a group's entities, a low and a high one of each: who holds them, and what a request and a release are
//! answered. The checker keeps one table a group, and reads from it which application a row is barred by.
#![tactic(auto)]

mod table;

pub use table::{Grant, LockTable, Release};
