//! What the lines of a document have declared so far, kept with indexes: a group with its parts, whose names, pairs and rows are
//! found in about one step. The reader of documents keeps its groups here.
#![tactic(auto)]

mod group;
mod numbers;
mod spelling;

pub use group::Group;
pub use spelling::wire_kind_in;
