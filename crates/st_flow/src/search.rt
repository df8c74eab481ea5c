//! One search for nodes that have room from a start, breadth first over the rows of a graph. It notes at each node how
//! it came there, for the push along the way, and stops where it meets the nodes of another search. What it has reached
//! once it has looked everywhere is the side of a cut.
ghost use Rattle.std.specs.Prelude.{◌≡◌, ◌+◌, ◌-◌, ◌<◌, ◌≤◌, [], ◌∷◌, ◌++◌, ℕ, ℤ, List, All, IfOk, OnOk, IfNone, IfSome, length, replicate, slice_set};
ghost use Rattle.std.specs.List.{AllZip};
ghost use Rattle.std.specs.List.Sorted.{IsStrictlyIncreasing};
ghost use Rattle.st_flow.specs.Network.{Network, FitsEdge, has};
ghost use Rattle.st_flow.specs.Residual.{turned};
ghost use Rattle.st_flow.specs.Search.{no_mark, mark_at, limit_of, reached, Runs, IsFurther, IsApart, IsMeeting};

use crate::direction::Direction;
use crate::graph::Graph;
use crate::meeting::Meeting;
use std::alloc::{AllocError, Global};

/// What a search notes of a node: its place in the order of the search, from 1, or 0 where it was not reached; the edge
/// that led to it; and how much more can flow between the start and it.
#[derive(Clone, Copy, Debug)]
pub(crate) struct Mark {
    pub(crate) level: u32,
    pub(crate) edge: u32,
    pub(crate) width: u32,
}

const NO_MARK: Mark = Mark {
    level: 0,
    edge: 0,
    width: 0,
};

/// A search under way: what it noted of each node, the nodes that it has reached in their order, and how many of these
/// it has looked from.
#[derive(Drop)]
pub(crate) struct Search {
    pub(crate) start: u32,
    pub(crate) marks: Vec<Mark>,
    pub(crate) queue: Vec<u32>,
    pub(crate) next: usize,
}

impl Search {
    /// The memory of a search of so many nodes, which is to be begun.
    pub(crate) fn new(alloc: Global, nodes: usize) -> Result<Search, AllocError>
        ensures { IfOk result (λ s. length s.marks.items ≡ nodes) }
    {
        Ok(Search {
            start: 0,
            marks: vec![in alloc; NO_MARK; nodes]?,
            queue: Vec::with_capacity(alloc, nodes)?,
            next: 0,
        })
    }

    /// Begins a search from `start`, along which no more than `limit` is wanted.
    pub(crate) fn begin(&mut self, start: u32, limit: u32) -> Result<(), AllocError>
        requires start_in { start < length self.old.marks.items }
        requires wide { 0 < limit }
        ensures start { OnOk result (self.new.start ≡ start) }
        ensures limit { OnOk result (limit_of self.new ≡ limit) }
        ensures alone { OnOk result ((y : ℕ) → 0 < (mark_at self.new.marks.items y).level → y ≡ start) }
        ensures running { OnOk result ((g : Network) (fs : List ℤ) → g.nodes ≡ length self.old.marks.items → Runs g fs self.new) }
    {
        self.start = start;
        self.next = 0;
        self.forget();
        self.queue.clear();
        self.reach(start, 0, limit)?;
        Ok(())
    }

    /// How many nodes it has reached and not looked from.
    pub(crate) fn waiting(&self) -> usize
        ensures { result ≡ length self.now.queue.items - self.now.next }
    {
        self.queue.len().saturating_sub(self.next)
    }

    /// Looks from the next node of the queue. Where an edge with room leads to a node of `across`, it stops there.
    pub(crate) fn step(
        &mut self,
        direction: Direction,
        g: &Graph,
        amounts: &[i64],
        across: &[Mark],
    ) -> Result<Option<Meeting>, AllocError>
        requires fits { AllZip FitsEdge g.now.edges amounts.now }
        requires running { Runs g.now (turned direction amounts.now) self.old }
        requires waiting { self.old.next < length self.old.queue.items }
        requires apart { IsApart self.old.marks.items across.now }
        ensures on { OnOk result (IsFurther self.old self.new) }
        ensures running { OnOk result (Runs g.now (turned direction amounts.now) self.new) }
        ensures apart { OnOk result (IsApart self.new.marks.items across.now) }
        ensures next { IfOk result (λ met. IfNone met (self.new.next ≡ self.old.next + 1)) }
        ensures met { IfOk result (λ met. IfSome met (λ m. IsMeeting g.now.edges (turned direction amounts.now) self.new.marks.items across.now m.edge m.from)) }
    {
        let rows = g.rows.as_slice();
        let edges = g.edges.as_slice();
        let x = self.queue[self.next];
        let row = rows[x as usize].as_slice();
        let width = self.marks[x as usize].width;
        for i in row {
            let edge = edges[*i as usize];
            let y = edge.other(x);
            if self.marks[y as usize].level > 0 {
                continue;
            }
            let room = edge.room_beyond(direction, amounts[*i as usize], x);
            if room == 0 {
                continue;
            }
            if across[y as usize].level > 0 {
                return Ok(Some(Meeting { edge: *i, from: x }));
            }
            self.reach(y, *i, width.min(room))?;
        }
        self.next += 1;
        Ok(None)
    }

    /// Forgets what it noted of each node.
    fn forget(&mut self)
        ensures start { self.new.start ≡ self.old.start }
        ensures next { self.new.next ≡ self.old.next }
        ensures marks { self.new.marks.items ≡ replicate (length self.old.marks.items) no_mark }
    {
        for y in 0..self.marks.len() {
            self.marks[y] = NO_MARK;
        }
    }

    /// Notes that the node `y` was reached.
    fn reach(&mut self, y: u32, edge: u32, width: u32) -> Result<(), AllocError>
        requires y_in { y < length self.old.marks.items }
        requires few { length self.old.queue.items < 4294967295 }
        ensures start { self.new.start ≡ self.old.start }
        ensures next { self.new.next ≡ self.old.next }
        ensures marks { OnOk result (self.new.marks.items ≡ slice_set self.old.marks.items y (record { level = length self.old.queue.items + 1; edge = edge; width = width })) }
        ensures queue { OnOk result (self.new.queue.items ≡ self.old.queue.items ++ y ∷ []) }
    {
        self.queue.push(y)?;
        let level = self.queue.len() as u32;
        self.marks[y as usize] = Mark { level, edge, width };
        Ok(())
    }
}

/// The nodes that a search has reached, ascending.
pub(crate) fn side_of(alloc: Global, marks: &[Mark]) -> Result<Vec<u32>, AllocError>
    requires { length marks.now ≤ 512 }
    ensures has { IfOk result (λ side. (x : ℕ) → has side.items x ≡ reached marks.now x) }
    ensures ascending { IfOk result (λ side. IsStrictlyIncreasing side.items) }
    ensures in_range { IfOk result (λ side. All (λ x. x < length marks.now) side.items) }
{
    let mut side = Vec::new(alloc);
    for x in 0..marks.len() {
        if marks[x].level > 0 {
            side.push(x as u32)?;
        }
    }
    Ok(side)
}
