//! Small networks worked by hand.

use super::plain::Link;
use super::{NODES, network};
use st_flow::{Flow, Flowing, Graph, cut_value, flow_holds, least_cut, max_flow};
use std::alloc::{AllocError, Global};
use std::test::Fail;

/// Whether the least cut of two nodes has this value and this side.
pub(crate) fn has_cut(
    alloc: Global,
    g: &Graph,
    a: u32,
    b: u32,
    value: u64,
    side: &[u32],
) -> Result<bool, AllocError> {
    if a >= g.nodes() || b >= g.nodes() || a == b {
        return Ok(false);
    }
    let cut = least_cut(alloc, g, a, b)?;
    Ok(cut.value == value && cut.side.as_slice() == side)
}

/// Whether that of node 0 and node 5 has.
fn has_least_cut(
    alloc: Global,
    edges: &[Link],
    value: u64,
    side: &[u32],
) -> Result<bool, AllocError> {
    let g = network(alloc, NODES, edges)?;
    let has = has_cut(alloc, &g, 0, 5, value, side);
    drop(g);
    has
}

/// The edges of a network, the value of the least cut of node 0 and node 5, and its side.
const LEAST_CUTS: [(&[Link], u64, &[u32]); 6] = [
    // Two ways of 10.
    (&[(0, 1, 10), (1, 5, 10), (0, 2, 10), (2, 5, 10)], 20, &[0]),
    // One way of two edges of 10: the cuts 0 and 0 1 have the same value, and the least side is 0 alone.
    (&[(0, 1, 10), (1, 5, 10)], 10, &[0]),
    // Nested least cuts 0, 0 1, 0 1 2, 0 1 2 3 of one long way.
    (&[(0, 1, 7), (1, 2, 7), (2, 3, 7), (3, 5, 7)], 7, &[0]),
    // The least cuts 0 2 and 0 2 3 are nested behind a wide edge.
    (&[(0, 2, 30), (2, 3, 10), (3, 5, 10)], 10, &[0, 2]),
    // Parallel edges add up.
    (&[(0, 1, 9), (1, 5, 2), (5, 1, 3), (1, 5, 1)], 6, &[0, 1]),
    // No way leads to 5: the side is all that 0 is joined to.
    (&[(4, 0, 8), (3, 4, 1), (5, 1, 8)], 0, &[0, 3, 4]),
];

#[test]
fn least_cuts_worked_by_hand(rt: HostRuntime) -> Result<(), Fail> {
    for (edges, value, side) in LEAST_CUTS {
        assert!(rt; has_least_cut(rt.alloc(), edges, value, side)?, "{value}");
    }
    Ok(())
}

/// Two ways of 10 from node 0 to node 5, of which an edge was added from 5 to 1.
const TWO_WAYS: [Link; 4] = [(0, 1, 10), (5, 1, 10), (0, 2, 10), (2, 5, 10)];

/// The flow of so much from node 0 to node 5, where it fits.
fn flow_of(alloc: Global, g: &Graph, need: u64) -> Result<Option<Flow>, AllocError> {
    if g.nodes() != NODES {
        return Ok(None);
    }
    match max_flow(alloc, g, 0, 5, need)? {
        Flowing::Enough(flow) => Ok(Some(flow)),
        Flowing::Short(_) => Ok(None),
    }
}

/// Whether the flow of 12 is one, one of more, one to another node, where node 5 keeps what enters it, and one the other way.
fn twelve_holds(alloc: Global, g: &Graph) -> Result<Option<[bool; 4]>, AllocError> {
    match flow_of(alloc, g, 12)? {
        Some(flow) => {
            let holds = [
                flow_holds(g, &flow, 0, 5, 12),
                flow_holds(g, &flow, 0, 5, 21),
                flow_holds(g, &flow, 0, 1, 1),
                flow_holds(g, &flow, 5, 0, 1),
            ];
            drop(flow);
            Ok(Some(holds))
        }
        None => Ok(None),
    }
}

#[test]
fn a_flow_is_one_of_no_more_and_of_no_other_ends(rt: HostRuntime) -> Result<(), Fail> {
    let g = network(rt.alloc(), NODES, &TWO_WAYS)?;
    let holds = twelve_holds(rt.alloc(), &g);
    drop(g);
    assert_eq!(rt; holds?, Some([true, false, false, false]));
    Ok(())
}

/// All of both ways: what each edge carries.
fn twenty_amounts(alloc: Global, g: &Graph) -> Result<Option<[i64; 4]>, AllocError> {
    if g.nodes() != NODES || g.edges() != 4 {
        return Ok(None);
    }
    match max_flow(alloc, g, 0, 5, 20)? {
        Flowing::Enough(flow) => {
            let amounts = [
                flow.amount(0),
                flow.amount(1),
                flow.amount(2),
                flow.amount(3),
            ];
            drop(flow);
            Ok(Some(amounts))
        }
        Flowing::Short(_) => Ok(None),
    }
}

#[test]
fn the_edge_that_was_added_from_5_to_1_carries_its_amount_from_1_to_5(
    rt: HostRuntime,
) -> Result<(), Fail> {
    let g = network(rt.alloc(), NODES, &TWO_WAYS)?;
    let amounts = twenty_amounts(rt.alloc(), &g);
    drop(g);
    assert_eq!(rt; amounts?, Some([10, -10, 10, 10]));
    Ok(())
}

/// Whether a flow of nothing is one of its network, and one of another network.
fn nothing_holds(alloc: Global, g: &Graph, other: &Graph) -> Result<Option<[bool; 2]>, AllocError> {
    match flow_of(alloc, g, 0)? {
        Some(flow) => {
            let holds = [
                flow_holds(g, &flow, 0, 5, 0),
                flow_holds(other, &flow, 0, 5, 0),
            ];
            drop(flow);
            Ok(Some(holds))
        }
        None => Ok(None),
    }
}

/// A network with an edge less: the flow has an amount too many for it.
#[test]
fn a_flow_is_none_of_a_network_with_an_edge_less(rt: HostRuntime) -> Result<(), Fail> {
    let g = network(rt.alloc(), NODES, &TWO_WAYS)?;
    let other = network(rt.alloc(), NODES, &TWO_WAYS[..3])?;
    let holds = nothing_holds(rt.alloc(), &g, &other);
    drop(g);
    drop(other);
    assert_eq!(rt; holds?, Some([true, false]));
    Ok(())
}

#[test]
fn the_cut_of_a_side_is_what_leaves_it(rt: HostRuntime) -> Result<(), Fail> {
    let g = network(rt.alloc(), NODES, &TWO_WAYS)?;
    let values = [cut_value(&g, &[1, 0]), cut_value(&g, &[0, 1, 2, 5])];
    drop(g);
    assert_eq!(rt; values, [20, 0]);
    Ok(())
}
