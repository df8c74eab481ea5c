//! Which asks a link matters to: for each link those whose kept flow it carries. A book marks by it the few asks that a lost
//! link concerns, and looks through the flows of these alone.

ghost use Rattle.std.specs.Prelude.{◌≡◌, ◌≢◌, ℕ, ◌<◌, ◌⊎◌, All, true, false, length, slice_index_or, slice_set, Some, None, IfOk, OnOk};
ghost use Rattle.st_net.specs.Asks.{ask_count};
ghost use Rattle.st_net.specs.Groups.{no_link};
ghost use Rattle.st_net.specs.Sets.{is_in, MarksOf};
ghost use Rattle.st_net.specs.UpGraph.{is_up_link};
ghost use Rattle.st_flow.specs.Rows.{row_at};
ghost use Rattle.st_promise.specs.declared.kept_flow.Share.{Share};
ghost use Rattle.st_promise.specs.Reach.{is_member};
ghost use Rattle.st_promise.specs.FlowIndex.{IsEntered, AreEntered, AreUntouched};

use crate::failing::unmarked;
use crate::kept_flow::KeptFlow;
use crate::up::is_up;
use st_net::{EntitySet, GroupTopo};
use std::alloc::{AllocError, Global};

/// For each link the numbers of the asks whose kept flow it carries, in no order. It is a filter: a number too many costs a look.
#[derive(Drop)]
pub(crate) struct FlowIndex {
    pub(crate) lists: Vec<Vec<u32>>,
}

/// Marks these asks; a number past the end of the marks is left out.
fn mark_all(asks: &[u32], marks: &mut [bool])
    ensures count { length marks.new ≡ length marks.old }
    ensures marked { (i : ℕ) → i < length marks.old → is_member asks.now i ≡ true → slice_index_or marks.new i false ≡ true }
    ensures kept { (i : ℕ) → slice_index_or marks.old i false ≡ true → slice_index_or marks.new i false ≡ true }
{
    for ask in asks {
        let place = *ask as usize;
        if place < marks.len() {
            marks[place] = true;
        }
    }
}

impl FlowIndex {
    /// The index of a book that keeps no flow yet, for so many links.
    pub(crate) fn new(alloc: Global, links: u32) -> Result<FlowIndex, AllocError>
        ensures { IfOk result (λ index. length index.lists.items ≡ links) }
    {
        let mut lists = Vec::with_capacity(alloc, links as usize)?;
        for _ in 0..links {
            lists.push(Vec::new(alloc))?;
        }
        Ok(FlowIndex { lists })
    }

    /// Enters ask number `i` at each link that the flow goes over. After want of memory it is entered at some of them.
    fn enter(&mut self, i: u32, flow: &KeptFlow) -> Result<(), AllocError>
        requires { All (λ s. s.link < length self.old.lists.items) flow.now.shares.items }
        ensures count { length self.new.lists.items ≡ length self.old.lists.items }
        ensures entered { OnOk result (All (IsEntered self.new.lists.items i) flow.now.shares.items) }
        ensures kept { (j : ℕ) (s : Share) → IsEntered self.old.lists.items j s → IsEntered self.new.lists.items j s }
    {
        for share in &flow.shares {
            self.lists[share.link as usize].push(i)?;
        }
        Ok(())
    }

    /// Takes ask number `i` out at each link that the flow goes over.
    fn take_out(&mut self, i: u32, flow: &KeptFlow)
        requires { All (λ s. s.link < length self.old.lists.items) flow.now.shares.items }
        ensures count { length self.new.lists.items ≡ length self.old.lists.items }
        ensures others { (j : ℕ) (s : Share) → j ≢ i → IsEntered self.old.lists.items j s → IsEntered self.new.lists.items j s }
    {
        for share in &flow.shares {
            self.lists[share.link as usize].retain(|ask| *ask != i);
        }
    }

    /// A mark for each ask that stands in the list of a link which is not up with both its ends.
    pub(crate) fn touched(
        &self,
        alloc: Global,
        topo: &GroupTopo,
        up: &EntitySet,
    ) -> Result<Vec<bool>, AllocError>
        requires links { length self.now.lists.items ≡ length topo.now.links }
        requires marks { MarksOf topo.now up.now }
        ensures count { IfOk result (λ touched. length touched.items ≡ ask_count topo.now) }
        ensures untouched { IfOk result (λ touched. (i : ℕ) → i < ask_count topo.now → slice_index_or touched.items i false ≡ false → AreUntouched topo.now (is_in up.now) self.now.lists.items i) }
    {
        let mut touched = unmarked(alloc, topo.ask_count())?;
        for link in 0..topo.link_count() {
            if !is_up(topo, up, link) {
                mark_all(self.lists[link as usize].as_slice(), touched.as_mut_slice());
            }
        }
        Ok(touched)
    }
}

/// Keeps a flow of ask number `i` in place of that which was kept, and enters it. Where memory is refused none is kept.
pub(crate) fn exchange(
    flows: &mut Vec<Option<KeptFlow>>,
    index: &mut FlowIndex,
    i: u32,
    kept: KeptFlow,
)
    requires ask { i < length flows.old.items }
    requires entered { AreEntered index.old.lists.items flows.old.items }
    requires links { All (λ s. s.link < length index.old.lists.items) kept.shares.items }
    ensures flows { (flows.new.items ≡ slice_set flows.old.items i (Some kept)) ⊎ (flows.new.items ≡ slice_set flows.old.items i None) }
    ensures count { length index.new.lists.items ≡ length index.old.lists.items }
    ensures entered { AreEntered index.new.lists.items flows.new.items }
{
    if let Some(old) = &flows[i as usize] {
        index.take_out(i, old);
    }
    flows[i as usize] = match index.enter(i, &kept) {
        Ok(()) => Some(kept),
        Err(_error) => {
            index.take_out(i, &kept);
            None
        }
    };
}
