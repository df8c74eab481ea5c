//! One group's world: its checker, its simulated agents, its messages and its journal. Every event of the group is entered here with its
//! reply, the events of applications' acts too; services and scripts drive worlds, and reports are read from them.
#![tactic(auto)]

pub mod laws;
mod machine;
mod plant;
mod world;

pub use world::acts::group_number;
pub use world::commits::Committed;
pub use world::rounds::{Going, Rounded};
pub use world::{Stepped, World};
