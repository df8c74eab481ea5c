//! Promises of a group, judged over a set of entities that are up: what each needs, whether it holds, the first that a change
//! would break, and walks. They are judged by asks, the pairs that a group asks of its network. Topologies come from the network's
//! words; whoever judges a proposal asks here.
#![tactic(auto)]

mod book;
mod change;
mod cut_tree;
mod demand;
mod failing;
mod finding;
mod flow_index;
mod held;
mod incidence;
mod judge;
mod kept_flow;
mod reaching;
mod same;
mod search;
mod to_first;
mod up;
mod up_network;
mod wide;
mod within;

pub use book::Book;
pub use reaching::{Reached, reach};
pub use same::has_same_network;
pub use to_first::{ToFirst, judge_to_first};
pub use wide::{Wide, judge_wide};
pub use within::{is_same_set, is_within};
