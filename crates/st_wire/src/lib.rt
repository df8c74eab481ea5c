//! The messages of a group: all commands and all reports ever sent, by their numbers, and the plan by which messages are lost, come
//! again or come late. The reader of documents makes the plan's lines from its text; a group's world keeps both.
#![tactic(auto)]

mod line;
mod plan;
mod wire;

pub use line::{WireKind, WireLine};
pub use plan::LossPlan;
pub use wire::{Took, Wire};
