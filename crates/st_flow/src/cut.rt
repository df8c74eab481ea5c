//! A cut by one of its sides, the value of a cut, and the law that bounds every flow by it.
ghost use Rattle.std.specs.Prelude.{◌≡◌, ◌<◌, ◌≤◌, ℕ, ℤ, Bool, List, All, pos, ◌≤ℤ◌};
ghost use Rattle.st_flow.specs.Network.{Network, IsEdge, IsFlow, IsCut, Sends, net_out_of, cut_value, has};

use crate::graph::Graph;

/// A cut of two nodes by the side that has the first of them: the nodes of that side, ascending, and the sum of the
/// capacities of the edges with exactly one end in it.
#[derive(Drop)]
pub struct Cut {
    pub value: u64,
    pub side: Vec<u32>,
}

/// The value of the cut with these nodes on one side, in any order: the sum of the capacities of the edges with exactly
/// one end among them.
pub fn cut_value(g: &Graph, side: &[u32]) -> u64
    ensures { result ≡ cut_value g.now.edges (has side.now) }
{
    let edges = g.edges.as_slice();
    let mut value = 0u64;
    for edge in edges {
        if side.contains(&edge.u) != side.contains(&edge.v) {
            value += u64::from(edge.capacity);
        }
    }
    value
}

/// The law that the two certificates rest on: the amount of any flow is at most the value of any cut, and so is any need
/// that a flow meets. It does nothing.
pub fn flow_within_cut()
    ensures amount { (g : Network) (flow : List ℤ) (a b : ℕ) (s : ℕ → Bool) →
        All (IsEdge g.nodes) g.edges → a < g.nodes → IsFlow g.nodes g.edges flow a b → IsCut s a b → net_out_of g.edges flow a ≤ℤ pos (cut_value g.edges s) }
    ensures need { (g : Network) (flow : List ℤ) (a b need : ℕ) (s : ℕ → Bool) →
        All (IsEdge g.nodes) g.edges → a < g.nodes → Sends g flow a b need → IsCut s a b → need ≤ cut_value g.edges s }
{}
