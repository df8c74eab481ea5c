//! A flow as `max_flow` hands it out, and the test whether a flow holds in a network. The test adds up what leaves each
//! node along its row, and needs no search and no memory.
ghost use Rattle.std.specs.Prelude.{◌≡◌, ◌<◌, ◌≤◌, ◌↔◌, All, IsTrue, Some, length, slice_get};
ghost use Rattle.std.specs.List.{AllZip};
ghost use Rattle.st_flow.specs.Network.{IsEdge, FitsEdge, Sends, net_out_of};
ghost use Rattle.st_flow.specs.Rows.{IsRow, AreRows};

use crate::edge::Edge;
use crate::graph::Graph;
use std::marker::Model;

/// A flow: one signed amount for each edge of its network, counted from the edge's `u` to its `v`. Contracts see it as
/// the list of these amounts.
#[derive(Drop)]
pub struct Flow {
    pub(crate) amounts: Vec<i64>,
}

impl Model for Flow {
    ghost use Rattle.std.specs.Prelude.{List, ℤ};

    ghost Value = { List ℤ };

    ghost view = { λ f. f.amounts.items };
}

impl Flow {
    /// What the edge of this number carries from its `u` to its `v`.
    pub fn amount(&self, edge: u32) -> i64
        requires { edge < length self.now }
        ensures { slice_get self.now edge ≡ Some result }
    {
        self.amounts[edge as usize]
    }
}

/// Whether `f` is a flow from `a` to `b` in `g` of at least `need`: one amount for each edge, none larger than the
/// edge's capacity, as much into each other node as out of it, and at least `need` out of `a` in all.
pub fn flow_holds(g: &Graph, f: &Flow, a: u32, b: u32, need: u64) -> bool
    ensures { IsTrue result ↔ Sends g.now f.now a b need }
{
    let rows = g.rows.as_slice();
    let edges = g.edges.as_slice();
    let amounts = f.amounts.as_slice();
    if !fits_edges(edges, amounts) {
        return false;
    }
    for x in 0..rows.len() {
        let x = x as u32;
        if x != a && x != b && net_out_of(rows, edges, amounts, x) != 0 {
            return false;
        }
    }
    let sent = net_out_of(rows, edges, amounts, a);
    sent >= 0 && need <= sent as u64
}

/// Whether there is one amount for each edge, none larger than the edge's capacity.
fn fits_edges(edges: &[Edge], amounts: &[i64]) -> bool
    requires { length edges.now ≤ 4096 }
    ensures { IsTrue result ↔ AllZip FitsEdge edges.now amounts.now }
{
    if amounts.len() != edges.len() {
        return false;
    }
    for i in 0..edges.len() {
        let capacity = i64::from(edges[i].capacity);
        if amounts[i] < -capacity || amounts[i] > capacity {
            return false;
        }
    }
    true
}

/// What leaves the node `x`, less what enters it.
fn net_out_of(rows: &[Vec<u32>], edges: &[Edge], amounts: &[i64], x: u32) -> i64
    requires edges_fit { All (IsEdge (length rows.now)) edges.now }
    requires few { length edges.now ≤ 4096 }
    requires fits { AllZip FitsEdge edges.now amounts.now }
    requires rows { AreRows edges.now rows.now }
    ensures { result ≡ net_out_of edges.now amounts.now x }
{
    if (x as usize) < rows.len() {
        row_out(edges, amounts, rows[x as usize].as_slice(), x)
    } else {
        0
    }
}

/// What leaves the node `x` along the edges of its row, less what enters it.
fn row_out(edges: &[Edge], amounts: &[i64], row: &[u32], x: u32) -> i64
    requires few { length edges.now ≤ 4096 }
    requires bounded { All (λ e. e.capacity ≤ 1000000) edges.now }
    requires fits { AllZip FitsEdge edges.now amounts.now }
    requires row { IsRow edges.now x row.now }
    ensures { result ≡ net_out_of edges.now amounts.now x }
{
    let mut sum = 0i64;
    for i in row {
        sum += edges[*i as usize].out_of(amounts[*i as usize], x);
    }
    sum
}
