//! Small networks whose cuts a plain program lists one by one, larger ones by a plain search, and some worked by hand.

mod by_hand;
pub(crate) mod plain;

use by_hand::has_cut;
use plain::{Link, least_cut_plainly};
use st_flow::{
    Cut, Flowing, Graph, MAX_CAPACITY, MAX_EDGES, MAX_NODES, cut_value, flow_holds, least_cut,
    max_flow,
};
use std::alloc::{AllocError, Global};
use std::test::Fail;

/// The number of nodes of the small networks, and of the sets of them, each written as a mask.
const NODES: u32 = 6;

const SETS: u32 = 64;

fn network(alloc: Global, nodes: u32, edges: &[Link]) -> Result<Graph, AllocError> {
    let mut g = Graph::new(alloc, nodes.min(MAX_NODES))?;
    for (u, v, capacity) in edges {
        if *u < g.nodes()
            && *v < g.nodes()
            && *u != *v
            && *capacity >= 1
            && *capacity <= MAX_CAPACITY
            && g.edges() < MAX_EDGES
        {
            g.add(*u, *v, *capacity)?;
        }
    }
    Ok(g)
}

fn is_in(set: u32, x: u32) -> bool {
    x < 32 && (set >> x) & 1 == 1
}

fn value_of(edges: &[Link], set: u32) -> u64 {
    let mut value = 0u64;
    for (u, v, capacity) in edges {
        if is_in(set, *u) != is_in(set, *v) {
            value = value.wrapping_add(u64::from(*capacity));
        }
    }
    value
}

/// The least value of a cut of `a` and `b`, and what all cuts of that value have in common.
fn least_of(edges: &[Link], a: u32, b: u32) -> (u64, u32) {
    let mut least = u64::MAX;
    let mut common = 0;
    for set in 0..SETS {
        if is_in(set, a) && !is_in(set, b) {
            let value = value_of(edges, set);
            if value < least {
                least = value;
                common = set;
            } else if value == least {
                common &= set;
            }
        }
    }
    (least, common)
}

fn set_of(side: &[u32]) -> u32 {
    let mut set = 0;
    for x in side {
        if *x < 32 {
            set |= 1 << *x;
        }
    }
    set
}

fn is_ascending(side: &[u32]) -> bool {
    side.windows(2).all(|pair| pair[0] < pair[1])
}

/// Whether a cut has this value and these nodes, in ascending order.
fn is_cut(g: &Graph, cut: &Cut, value: u64, set: u32) -> bool {
    let side = cut.side.as_slice();
    is_ascending(side) && cut.value == value && set_of(side) == set && cut_value(g, side) == value
}

/// Whether a least cut has this value, and its side these nodes.
fn is_least(
    alloc: Global,
    g: &Graph,
    a: u32,
    b: u32,
    value: u64,
    set: u32,
) -> Result<bool, AllocError> {
    if a >= g.nodes() || b >= g.nodes() || a == b {
        return Ok(false);
    }
    let cut = least_cut(alloc, g, a, b)?;
    Ok(is_cut(g, &cut, value, set))
}

/// Whether so much flows.
fn flows(alloc: Global, g: &Graph, a: u32, b: u32, need: u64) -> Result<bool, AllocError> {
    if a >= g.nodes() || b >= g.nodes() || a == b {
        return Ok(false);
    }
    match max_flow(alloc, g, a, b, need)? {
        Flowing::Enough(flow) => Ok(flow_holds(g, &flow, a, b, need)),
        Flowing::Short(_) => Ok(false),
    }
}

/// Whether this value bars one more, by a cut of these nodes.
fn bars_more(
    alloc: Global,
    g: &Graph,
    a: u32,
    b: u32,
    value: u64,
    set: u32,
) -> Result<bool, AllocError> {
    if a >= g.nodes() || b >= g.nodes() || a == b {
        return Ok(false);
    }
    match max_flow(alloc, g, a, b, value.wrapping_add(1))? {
        Flowing::Enough(_) => Ok(false),
        Flowing::Short(cut) => Ok(is_cut(g, &cut, value, set)),
    }
}

/// Whether all that the crate answers on a pair is what the list of all cuts says.
fn agrees(alloc: Global, g: &Graph, edges: &[Link], a: u32, b: u32) -> Result<bool, AllocError> {
    let (least, common) = least_of(edges, a, b);
    let is_least = is_least(alloc, g, a, b, least, common)?;
    let flows = flows(alloc, g, a, b, least)?;
    let bars_more = bars_more(alloc, g, a, b, least, common)?;
    Ok(is_least && flows && bars_more)
}

/// The first pair of nodes on which it is not.
fn differing_in(
    alloc: Global,
    g: &Graph,
    edges: &[Link],
) -> Result<Option<(u32, u32)>, AllocError> {
    for a in 0..NODES {
        for b in 0..NODES {
            if a != b && !agrees(alloc, g, edges, a, b)? {
                return Ok(Some((a, b)));
            }
        }
    }
    Ok(None)
}

/// The same of the network of these edges.
fn differing(alloc: Global, edges: &[Link]) -> Result<Option<(u32, u32)>, AllocError> {
    let g = network(alloc, NODES, edges)?;
    let differing = differing_in(alloc, &g, edges);
    drop(g);
    differing
}

/// The nodes of the larger networks, the first of which are the ends of the cuts.
const MANY: u32 = 24;

const ENDS: u32 = 4;

/// The next of numbers that look random, and are the same in every run.
fn roll(state: &mut u64) -> u32 {
    *state = state
        .wrapping_mul(6_364_136_223_846_793_005)
        .wrapping_add(1_442_695_040_888_963_407);
    ((*state >> 33) & 0xffff_ffff) as u32
}

/// A link between random nodes, with a capacity to `most`.
fn random_link(state: &mut u64, most: u32) -> Link {
    let (u, v, capacity) = (roll(state), roll(state), roll(state));
    (
        u % MANY,
        v % MANY,
        1 + capacity % most.clamp(1, MAX_CAPACITY),
    )
}

fn random_links(alloc: Global, seed: u64, count: u32, most: u32) -> Result<Vec<Link>, AllocError> {
    let mut links = Vec::new(alloc);
    let mut state = seed;
    for _ in 0..count {
        links.push(random_link(&mut state, most))?;
    }
    Ok(links)
}

/// Whether the least cut of two nodes is that of the plain search.
fn is_found_plainly(
    alloc: Global,
    g: &Graph,
    links: &[Link],
    a: u32,
    b: u32,
) -> Result<bool, AllocError> {
    let plain = least_cut_plainly(alloc, MANY, links, a, b)?;
    let value = u64::try_from(plain.value).unwrap_or(u64::MAX);
    let is_found = has_cut(alloc, g, a, b, value, plain.side.as_slice());
    drop(plain);
    is_found
}

/// The first pair of ends whose least cut is another.
fn other_in(alloc: Global, g: &Graph, links: &[Link]) -> Result<Option<(u32, u32)>, AllocError> {
    for a in 0..ENDS {
        for b in 0..ENDS {
            if a != b && !is_found_plainly(alloc, g, links, a, b)? {
                return Ok(Some((a, b)));
            }
        }
    }
    Ok(None)
}

/// The same of a network of random links.
fn other(
    alloc: Global,
    seed: u64,
    count: u32,
    most: u32,
) -> Result<Option<(u32, u32)>, AllocError> {
    let links = random_links(alloc, seed, count, most)?;
    let g = network(alloc, MANY, links.as_slice())?;
    let other = other_in(alloc, &g, links.as_slice());
    drop(g);
    drop(links);
    other
}

#[test]
fn the_plain_search_finds_the_same_cuts(rt: HostRuntime) -> Result<(), Fail> {
    for (seed, count, most) in [(1, 30, 1), (2, 60, 1_000_000), (3, 100, 4)] {
        assert_eq!(rt; other(rt.alloc(), seed, count, most)?, None, "{seed}");
    }
    Ok(())
}

const NETWORKS: [&[Link]; 6] = [
    &[],
    &[(0, 1, 3), (1, 2, 2), (2, 3, 3), (3, 4, 2), (4, 5, 3)],
    &[
        (0, 1, 16),
        (0, 2, 13),
        (2, 1, 4),
        (1, 3, 12),
        (3, 2, 9),
        (2, 4, 14),
        (4, 3, 7),
        (3, 5, 20),
        (4, 5, 4),
    ],
    &[
        (0, 1, 1),
        (1, 0, 1),
        (1, 2, 1),
        (2, 1, 1),
        (2, 0, 1),
        (3, 4, 5),
        (4, 5, 5),
        (5, 3, 5),
        (0, 3, 1),
    ],
    &[
        (0, 1, 1_000_000),
        (1, 2, 999_999),
        (2, 3, 1_000_000),
        (3, 4, 1),
        (4, 5, 1_000_000),
        (0, 5, 2),
        (1, 4, 3),
        (2, 5, 5),
    ],
    &[
        (0, 1, 1),
        (0, 2, 1),
        (0, 3, 1),
        (0, 4, 1),
        (0, 5, 1),
        (1, 2, 1),
        (1, 3, 1),
        (1, 4, 1),
        (1, 5, 1),
        (2, 3, 1),
        (2, 4, 1),
        (2, 5, 1),
        (3, 4, 1),
        (3, 5, 1),
        (4, 5, 1),
    ],
];

#[test]
fn every_cut_of_small_networks(rt: HostRuntime) -> Result<(), Fail> {
    for edges in NETWORKS {
        assert_eq!(rt; differing(rt.alloc(), edges)?, None);
    }
    Ok(())
}
