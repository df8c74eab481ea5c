//! The two questions that a caller asks: is there a flow of so much, and what is the least cut. A flow is raised along
//! one way after another, each found by a search from either end, until there is enough or the searches cannot meet.
//! What the first of them has reached is then the least side.
ghost use Rattle.std.specs.Prelude.{◌≡◌, ◌≢◌, ◌<◌, ◌≤◌, ℕ, Bool, IfOk, length};
ghost use Rattle.st_flow.specs.Network.{IsCut, IsLeastCut, Sends, cut_value};
ghost use Rattle.st_flow.specs.Flowing.{IfEnough, IfShort};

use crate::cut::Cut;
use crate::flow::Flow;
use crate::graph::{Graph, MAX_CAPACITY};
use crate::meeting::meet;
use crate::push::push_across;
use crate::search::{Search, side_of};
use std::alloc::{AllocError, Global};

/// What `max_flow` found: a flow of at least the need, or the least cut, whose value is below it.
#[derive(Drop)]
pub enum Flowing {
    Enough(Flow),
    Short(Cut),
}

/// A flow of at least `need` from `a` to `b`, two different nodes of the graph, or the least cut where its value is
/// below `need`. It keeps no memory but what it answers.
pub fn max_flow(alloc: Global, g: &Graph, a: u32, b: u32, need: u64) -> Result<Flowing, AllocError>
    requires a_in { a < g.now.nodes }
    requires b_in { b < g.now.nodes }
    requires apart { a ≢ b }
    ensures enough { IfOk result (λ answer. IfEnough answer (λ flow. Sends g.now flow a b need)) }
    ensures amounts { IfOk result (λ answer. IfEnough answer (λ flow. length flow ≡ length g.now.edges)) }
    ensures every_cut { IfOk result (λ answer. IfEnough answer (λ _. (s : ℕ → Bool) → IsCut s a b → need ≤ cut_value g.now.edges s)) }
    ensures short { IfOk result (λ answer. IfShort answer (λ cut. cut.value < need)) }
    ensures least { IfOk result (λ answer. IfShort answer (λ cut. IsLeastCut g.now a b cut.value cut.side.items)) }
{
    let mut amounts = vec![in alloc; 0i64; g.edges.len()]?;
    let mut sent = 0u64;
    let mut near = Search::new(alloc, g.rows.len())?;
    let mut far = Search::new(alloc, g.rows.len())?;
    while sent < need {
        // No more than is still wanted, so that the amount stops at the need.
        let limit = (need - sent).min(u64::from(MAX_CAPACITY)) as u32;
        near.begin(a, limit)?;
        far.begin(b, limit)?;
        match meet(g, amounts.as_slice(), &mut near, &mut far)? {
            None => {
                let side = side_of(alloc, near.marks.as_slice())?;
                return Ok(Flowing::Short(Cut { value: sent, side }));
            }
            Some(meeting) => {
                let more = push_across(g, amounts.as_mut_slice(), &near, &far, meeting);
                sent += u64::from(more);
            }
        }
    }
    Ok(Flowing::Enough(Flow { amounts }))
}

/// The least value of a cut of `a` and `b`, two different nodes of the graph, with the side that each cut of that value
/// contains.
pub fn least_cut(alloc: Global, g: &Graph, a: u32, b: u32) -> Result<Cut, AllocError>
    requires a_in { a < g.now.nodes }
    requires b_in { b < g.now.nodes }
    requires apart { a ≢ b }
    ensures { IfOk result (λ cut. IsLeastCut g.now a b cut.value cut.side.items) }
{
    // Read for the proof alone: it shows what holds of each graph, so that no cut has this need.
    let _edges = &g.edges;
    match max_flow(alloc, g, a, b, u64::MAX)? {
        Flowing::Short(cut) => Ok(cut),
        Flowing::Enough(_) => unreachable!(),
    }
}
