//! The plain way to a least cut, to compare with: one way after another, each found by going over all links again and
//! again until no more nodes are reached.
use std::alloc::{AllocError, Global};

/// The ends of a link, and its capacity.
pub(crate) type Link = (u32, u32, u32);

/// A link on a way, and the end that the way enters.
#[derive(Clone, Copy)]
struct Hop {
    link: usize,
    into: u32,
}

/// How much more can flow into an end of a link that carries `amount` from its first end to its second.
fn room(link: Link, amount: i64, into: u32) -> i64 {
    let (_, v, capacity) = link;
    if v == into {
        i64::from(capacity).wrapping_sub(amount)
    } else {
        i64::from(capacity).wrapping_add(amount)
    }
}

/// The hop over a link into a node that is not reached yet, from its other end, which is, where the link has room for more.
fn hop_over(
    hops: &[Option<Hop>],
    i: usize,
    link: Link,
    amount: i64,
    from: u32,
    into: u32,
) -> Option<Hop> {
    let is_new = is_reached(hops, from) && !is_reached(hops, into);
    if is_new && room(link, amount, into) > 0 {
        Some(Hop { link: i, into })
    } else {
        None
    }
}

/// Notes a hop at the node that it enters, and says whether there was one.
fn note(hops: &mut [Option<Hop>], hop: Option<Hop>) -> bool {
    let Some(hop) = hop else {
        return false;
    };
    match hops.get_mut(hop.into as usize) {
        Some(place) => {
            *place = Some(hop);
            true
        }
        None => false,
    }
}

/// Goes over all links once, and says whether a node was reached by one.
fn spread(links: &[Link], amounts: &[i64], hops: &mut [Option<Hop>]) -> bool {
    let mut found = false;
    for (i, link) in links.iter().enumerate() {
        let amount = amounts.get(i).copied().unwrap_or(0);
        let (u, v, _) = *link;
        let there = hop_over(hops, i, *link, amount, u, v);
        found |= note(hops, there);
        let back = hop_over(hops, i, *link, amount, v, u);
        found |= note(hops, back);
    }
    found
}

/// For each node that is reached from `a` the hop that led to it, itself for `a`.
fn hops_from(
    alloc: Global,
    nodes: u32,
    links: &[Link],
    amounts: &[i64],
    a: u32,
) -> Result<Vec<Option<Hop>>, AllocError> {
    let mut hops = vec![in alloc; None; nodes as usize]?;
    note(hops.as_mut_slice(), Some(Hop { link: 0, into: a }));
    for _ in 0..nodes {
        if !spread(links, amounts, hops.as_mut_slice()) {
            break;
        }
    }
    Ok(hops)
}

fn is_reached(hops: &[Option<Hop>], x: u32) -> bool {
    hops.get(x as usize).copied().flatten().is_some()
}

/// The hops of the way from `a` to `b`, the last first.
fn way_to(
    alloc: Global,
    links: &[Link],
    hops: &[Option<Hop>],
    a: u32,
    b: u32,
) -> Result<Vec<Hop>, AllocError> {
    let mut way = Vec::new(alloc);
    let mut x = b;
    for _ in 0..hops.len() {
        if x == a {
            break;
        }
        if let Some(hop) = hops.get(x as usize).copied().flatten() {
            way.push(hop)?;
            if let Some((u, v, _)) = links.get(hop.link).copied() {
                x = if v == x { u } else { v };
            }
        }
    }
    Ok(way)
}

/// Pushes what the narrowest hop of a way has room for along it, and says how much that is.
fn push_along(links: &[Link], amounts: &mut [i64], way: &[Hop]) -> i64 {
    let mut more = i64::MAX;
    for hop in way {
        if let Some(link) = links.get(hop.link).copied() {
            more = more.min(room(link, amounts.get(hop.link).copied().unwrap_or(0), hop.into));
        }
    }
    for hop in way {
        if let Some((_, v, _)) = links.get(hop.link).copied() {
            if let Some(amount) = amounts.get_mut(hop.link) {
                *amount = if v == hop.into {
                    amount.wrapping_add(more)
                } else {
                    amount.wrapping_sub(more)
                };
            }
        }
    }
    more
}

/// Pushes what one way from `a` to `b` has room for along it, and says how much that is, where there is a way.
fn push_more(
    alloc: Global,
    nodes: u32,
    links: &[Link],
    amounts: &mut [i64],
    a: u32,
    b: u32,
) -> Result<Option<i64>, AllocError> {
    let hops = hops_from(alloc, nodes, links, amounts, a)?;
    if !is_reached(hops.as_slice(), b) {
        return Ok(None);
    }
    let way = way_to(alloc, links, hops.as_slice(), a, b);
    drop(hops);
    Ok(Some(push_along(links, amounts, way?.as_slice())))
}

/// The nodes that are reached from `a`.
fn side_of(
    alloc: Global,
    nodes: u32,
    links: &[Link],
    amounts: &[i64],
    a: u32,
) -> Result<Vec<u32>, AllocError> {
    let hops = hops_from(alloc, nodes, links, amounts, a)?;
    let mut side = Vec::new(alloc);
    for x in 0..nodes {
        if is_reached(hops.as_slice(), x) {
            side.push(x)?;
        }
    }
    Ok(side)
}

/// What the plain search finds: the value of a least cut, and its side.
#[derive(Drop)]
pub(crate) struct PlainCut {
    pub(crate) value: i64,
    pub(crate) side: Vec<u32>,
}

fn filled(
    alloc: Global,
    nodes: u32,
    links: &[Link],
    amounts: &mut [i64],
    a: u32,
    b: u32,
) -> Result<PlainCut, AllocError> {
    let mut value = 0i64;
    // No network of the tests has so many ways.
    for _ in 0..1000u32 {
        let Some(more) = push_more(alloc, nodes, links, amounts, a, b)? else {
            break;
        };
        value = value.wrapping_add(more);
    }
    let side = side_of(alloc, nodes, links, amounts, a)?;
    Ok(PlainCut { value, side })
}

/// The value of the least cut of `a` and `b`, and the nodes that are reached from `a` once no way has room.
pub(crate) fn least_cut_plainly(
    alloc: Global,
    nodes: u32,
    links: &[Link],
    a: u32,
    b: u32,
) -> Result<PlainCut, AllocError> {
    let mut amounts = vec![in alloc; 0i64; links.len()]?;
    let found = filled(alloc, nodes, links, amounts.as_mut_slice(), a, b);
    drop(amounts);
    found
}
