//! What a group keeps between its events: the proposals that wait and the tickets that were decided, the target at each of its
//! versions, and the last report of each entity. The checker stands on one store, and decides with what it reads here.
#![tactic(auto)]

mod change;
mod change_table;
pub mod laws;
mod pending;
mod reports;
mod store;
mod versions;

pub use pending::{Pending, Put};
pub use reports::Keep;
pub use store::{Store, ValueAt};
