//! A large document made from two numbers: a fat tree of so many pods, and two applications on it, one of which upgrades its
//! aggregation switches. Whoever wants a large document that no hand has written takes it from `generate`.
#![tactic(auto)]

mod devices;
mod document;
mod links;
mod names;
mod promises;
mod scripts;
mod step;

pub use document::generate;
