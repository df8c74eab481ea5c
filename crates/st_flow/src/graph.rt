//! A network as it is built, edge by edge. The searches read it by its rows, the edges at each node.
ghost use Rattle.std.specs.Prelude.{◌≡◌, ◌<◌, ◌≤◌, [], ◌∷◌, ◌++◌, length, IfOk, OnOk, OnErr};
ghost use Rattle.st_flow.specs.Network.{IsEdge};

use crate::edge::Edge;
use std::alloc::{AllocError, Global};
use std::marker::Model;

/// The most nodes of a graph.
pub const MAX_NODES: u32 = 512;
/// The most edges of a graph.
pub const MAX_EDGES: u32 = 4096;
/// The most that an edge can carry.
pub const MAX_CAPACITY: u32 = 1_000_000;

/// The numbers of these limits, as laws: it does nothing.
pub fn graph_limits()
    ensures nodes { MAX_NODES ≡ 512 }
    ensures edges { MAX_EDGES ≡ 4096 }
    ensures capacity { MAX_CAPACITY ≡ 1000000 }
{}

/// An undirected network: nodes numbered from 0, and edges numbered from 0 in the order of `add`. Contracts see it as
/// its number of nodes and the list of its edges.
#[derive(Drop)]
pub struct Graph {
    /// The numbers of the edges at each node.
    pub(crate) rows: Vec<Vec<u32>>,
    pub(crate) edges: Vec<Edge>,
}

impl Model for Graph {
    ghost use Rattle.std.specs.Prelude.{length};
    ghost use Rattle.st_flow.specs.Network.{Network};

    ghost Value = { Network };

    ghost use Rattle.st_flow.specs.Rows.{IsGraph};

    ghost view = { λ g. record { nodes = length g.rows.items; edges = g.edges.items } };

    ghost invariant = { λ g. IsGraph g.rows.items g.edges.items };
}

impl Graph {
    /// A network of `nodes` nodes, at most `MAX_NODES`, with no edge.
    pub fn new(alloc: Global, nodes: u32) -> Result<Graph, AllocError>
        requires { nodes ≤ 512 }
        ensures { IfOk result (λ g. g ≡ record { nodes = nodes; edges = [] }) }
    {
        let mut rows = Vec::new(alloc);
        for _ in 0..nodes {
            rows.push(Vec::new(alloc))?;
        }
        Ok(Graph {
            rows,
            edges: Vec::new(alloc),
        })
    }

    /// How many nodes it has.
    pub fn nodes(&self) -> u32
        ensures { result ≡ self.now.nodes }
    {
        self.rows.len() as u32
    }

    /// How many edges it has.
    pub fn edges(&self) -> u32
        ensures { result ≡ length self.now.edges }
    {
        self.edges.len() as u32
    }

    /// Adds an undirected edge between two different nodes, with a capacity of at most `MAX_CAPACITY`, to a network of
    /// fewer than `MAX_EDGES` edges. Its number is how many edges there were before. An edge of capacity 0 keeps its
    /// number and carries nothing: so networks with some edges down can have the same numbers.
    pub fn add(&mut self, u: u32, v: u32, capacity: u32) -> Result<(), AllocError>
        requires edge { IsEdge self.old.nodes (record { u = u; v = v; capacity = capacity }) }
        requires few { length self.old.edges < 4096 }
        ensures ok { OnOk result (self.new ≡ record self.old { edges = self.old.edges ++ record { u = u; v = v; capacity = capacity } ∷ [] }) }
        ensures err { OnErr result (self.new ≡ self.old) }
    {
        let i = self.edges.len() as u32;
        // Room first: it can fail, and what follows cannot.
        self.edges.reserve(1)?;
        self.rows[u as usize].reserve(1)?;
        self.rows[v as usize].reserve(1)?;
        self.rows[u as usize].push(i)?;
        self.rows[v as usize].push(i)?;
        self.edges.push(Edge { u, v, capacity })?;
        Ok(())
    }
}
