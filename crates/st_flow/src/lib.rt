//! Maximum flow in a small undirected network, with certificates: a flow of the amount that was asked for, or the least
//! cut with its least side. A flow and a cut can be checked against the network again, with no search and no memory.
#![tactic(auto)]

mod cut;
mod direction;
mod edge;
mod flow;
mod graph;
mod maximum;
mod meeting;
mod push;
mod search;

pub use cut::{Cut, cut_value, flow_within_cut};
pub use edge::Edge;
pub use flow::{Flow, flow_holds};
pub use graph::{Graph, MAX_CAPACITY, MAX_EDGES, MAX_NODES, graph_limits};
pub use maximum::{Flowing, least_cut, max_flow};
