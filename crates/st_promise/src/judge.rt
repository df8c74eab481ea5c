//! Asks judged: by the flows that a book keeps, and where these show nothing, by the networks of what is up.

ghost use Rattle.std.specs.Prelude.{◌≡◌, ℕ, ◌<◌, ◌≤◌, Bool, true, false, max, is_none, slice_index_or, IfOk, IfSome, IsTrue};
ghost use Rattle.std.specs.List.Sorted.{IsStrictlyIncreasing};
ghost use Rattle.st_net.specs.declared.entity.Entity.{Entity};
ghost use Rattle.st_net.specs.Asks.{ask_count, ask_of};
ghost use Rattle.st_net.specs.Sets.{is_in, MarksOf};
ghost use Rattle.st_net.specs.Promises.{is_kept, need_of};
ghost use Rattle.st_flow.specs.Network.{Sends};
ghost use Rattle.st_promise.specs.UpNetwork.{up_network, IsLeastCutOf};
ghost use Rattle.st_promise.specs.Finding.{IfSent};
ghost use Rattle.st_promise.specs.Book.{IsBookOf, HasNotFallen, HasRisen};
ghost use Rattle.st_promise.specs.Change.{IsChange, IfBreaks};

use crate::book::Book;
use crate::change::Change;
use crate::demand::broken_by;
use crate::finding::Finding;
use crate::flow_index::exchange;
use crate::kept_flow::KeptFlow;
use crate::up_network::UpNetwork;
use st_flow::{Cut, Flow};
use st_net::{Entity, EntitySet, GroupTopo};
use std::alloc::{AllocError, Global};

/// Whether ask number `i` is marked. A list marks nothing past its end.
pub(crate) fn is_marked(marks: &[bool], i: u32) -> bool
    ensures { result ≡ slice_index_or marks.now i false }
{
    marks.get(i as usize).copied().unwrap_or(false)
}

/// Whether every ask is marked.
pub(crate) fn are_all_marked(topo: &GroupTopo, marks: &[bool]) -> bool
    ensures { IsTrue result → (i : ℕ) → i < ask_count topo.now → slice_index_or marks.now i false ≡ true }
{
    for i in 0..topo.ask_count() {
        if !is_marked(marks, i) {
            return false;
        }
    }
    true
}

/// How large a flow to look for where an ask needs so much: half-way to all that can flow with everything up, so that the flow
/// still shows that the ask holds after it has lost a part.
fn ample(need: u64, percent: u32) -> u64 {
    let most = need
        .saturating_mul(100)
        .checked_div(u64::from(percent))
        .unwrap_or(0);
    need / 2 + most / 2
}

impl Book {
    /// Counts a run of a flow; the count stays at its last value.
    fn count_run(&mut self)
        ensures same { self.new.of ≡ self.old.of }
        ensures rises { HasRisen self.old self.new }
        ensures runs { HasNotFallen self.old self.new }
    {
        self.flows_run = self.flows_run.saturating_add(1);
    }

    /// Keeps a flow of ask number `i`, which was found where some entities were up. Where memory is refused for it, the flow
    /// that was kept before stays; where it is refused for the index, none is kept.
    fn keep(&mut self, topo: &GroupTopo, i: u32, flow: &Flow, amount: u64)
        requires book { IsBookOf topo.now self.old.of }
        requires ask { i < ask_count topo.now }
        requires sends { (up : Entity → Bool) × Sends (up_network topo.now up) flow.now (ask_of topo.now i).a (ask_of topo.now i).b amount }
        requires enough { max (need_of topo.now (ask_of topo.now i)) 1 ≤ amount }
        ensures same { self.new ≡ self.old }
    {
        topo.is_sound();
        if let Ok(kept) = KeptFlow::of(self.alloc, topo, flow, amount) {
            exchange(&mut self.flows, &mut self.index, i, kept);
        }
    }

    /// Keeps the first flow of ask number `i`, of so much, where its network has that.
    pub(crate) fn keep_first(&mut self, topo: &GroupTopo, i: u32, amount: u64)
        requires book { IsBookOf topo.now self.old.of }
        requires ask { i < ask_count topo.now }
        ensures same { self.new ≡ self.old }
    {
        let found = self
            .whole
            .find(self.alloc, topo, i, self.needs[i as usize], amount);
        self.keep_found(topo, i, found);
    }

    /// Keeps the flow that was found of ask number `i`, if there is one.
    fn keep_found(&mut self, topo: &GroupTopo, i: u32, found: Result<Finding, AllocError>)
        requires book { IsBookOf topo.now self.old.of }
        requires ask { i < ask_count topo.now }
        requires sends { IfOk found (λ f. IfSent f (λ flow amount. (up : Entity → Bool) × Sends (up_network topo.now up) flow (ask_of topo.now i).a (ask_of topo.now i).b amount)) }
        requires enough { IfOk found (λ f. IfSent f (λ flow amount. max (need_of topo.now (ask_of topo.now i)) 1 ≤ amount)) }
        ensures same { self.new ≡ self.old }
    {
        match found {
            Ok(Finding::Sent { flow, amount }) => self.keep(topo, i, &flow, amount),
            Ok(Finding::Least { value: _value }) => {}
            Ok(Finding::Fails(_cut)) => {}
            Err(_error) => {}
        }
    }

    /// Whether the kept flow shows that ask number `i` holds while these entities are up.
    pub(crate) fn shows(&self, topo: &GroupTopo, up: &EntitySet, i: u32) -> bool
        requires book { IsBookOf topo.now self.now.of }
        requires ask { i < ask_count topo.now }
        requires marks { MarksOf topo.now up.now }
        ensures { result ≡ true → is_kept topo.now (is_in up.now) (ask_of topo.now i) ≡ true }
    {
        topo.is_sound();
        let first = self.asks[i as usize].a;
        match &self.flows[i as usize] {
            Some(flow) => {
                up.has(Entity::Device(first)) && flow.left(up) >= self.needs[i as usize].max(1)
            }
            None => false,
        }
    }

    /// The least cut of ask number `i` in the network of what is up, where the ask does not hold. Where it holds, a
    /// flow that shows it is kept, as far as there is memory.
    fn look(
        &mut self,
        topo: &GroupTopo,
        network: &UpNetwork,
        i: u32,
    ) -> Result<Option<Cut>, AllocError>
        requires book { IsBookOf topo.now self.old.of }
        requires ask { i < ask_count topo.now }
        requires network { (up : Entity → Bool) × (network.now ≡ up_network topo.now up) }
        ensures kept { (up : Entity → Bool) → network.now ≡ up_network topo.now up → IfOk result (λ cut. is_none cut ≡ is_kept topo.now up (ask_of topo.now i)) }
        ensures least { (up : Entity → Bool) → network.now ≡ up_network topo.now up → IfOk result (λ cut. IfSome cut (IsLeastCutOf topo.now up (ask_of topo.now i))) }
        ensures ascending { IfOk result (λ cut. IfSome cut (λ cut. IsStrictlyIncreasing cut.side.items)) }
        ensures same { self.new.of ≡ self.old.of }
        ensures runs { HasNotFallen self.old self.new }
        ensures rises { HasRisen self.old self.new }
    {
        let need = self.needs[i as usize];
        let ample = ample(need, topo.ask(i).percent);
        self.count_run();
        match network.find(self.alloc, topo, i, need, ample)? {
            Finding::Fails(cut) => Ok(Some(cut)),
            Finding::Sent { flow, amount } => {
                self.keep(topo, i, &flow, amount);
                Ok(None)
            }
            Finding::Least { value } => {
                // So much can flow, and no more.
                self.count_run();
                let found = network.find(self.alloc, topo, i, need, value);
                self.keep_found(topo, i, found);
                Ok(None)
            }
        }
    }

    /// The least cut of ask number `i` while these entities are up, where the ask does not hold; None where it holds.
    /// Their network is built where the kept flow does not show that, and stays for the next ask.
    pub(crate) fn failing_cut(
        &mut self,
        topo: &GroupTopo,
        up: &EntitySet,
        network: &mut Option<UpNetwork>,
        i: u32,
    ) -> Result<Option<Cut>, AllocError>
        requires book { IsBookOf topo.now self.old.of }
        requires ask { i < ask_count topo.now }
        requires marks { MarksOf topo.now up.now }
        requires network { IfSome network.old (λ n. n ≡ up_network topo.now (is_in up.now)) }
        ensures network { IfSome network.new (λ n. n ≡ up_network topo.now (is_in up.now)) }
        ensures kept { IfOk result (λ cut. is_none cut ≡ is_kept topo.now (is_in up.now) (ask_of topo.now i)) }
        ensures least { IfOk result (λ cut. IfSome cut (IsLeastCutOf topo.now (is_in up.now) (ask_of topo.now i))) }
        ensures ascending { IfOk result (λ cut. IfSome cut (λ cut. IsStrictlyIncreasing cut.side.items)) }
        ensures same { self.new.of ≡ self.old.of }
        ensures runs { HasNotFallen self.old self.new }
        ensures rises { IfOk result (λ cut. IfSome cut (λ _. HasRisen self.old self.new)) }
    {
        if self.shows(topo, up, i) {
            return Ok(None);
        }
        if network.is_none() {
            *network = Some(UpNetwork::of(self.alloc, topo, up)?);
        }
        match network {
            Some(network) => self.look(topo, network, i),
            None => unreachable!(),
        }
    }

    /// What the change does to ask number `i`.
    pub(crate) fn judge_ask(
        &mut self,
        topo: &GroupTopo,
        before: &EntitySet,
        before_network: &mut Option<UpNetwork>,
        after: &EntitySet,
        after_network: &mut Option<UpNetwork>,
        i: u32,
    ) -> Result<Change, AllocError>
        requires book { IsBookOf topo.now self.old.of }
        requires ask { i < ask_count topo.now }
        requires before { MarksOf topo.now before.now }
        requires after { MarksOf topo.now after.now }
        requires before_network { IfSome before_network.old (λ n. n ≡ up_network topo.now (is_in before.now)) }
        requires after_network { IfSome after_network.old (λ n. n ≡ up_network topo.now (is_in after.now)) }
        ensures before_network { IfSome before_network.new (λ n. n ≡ up_network topo.now (is_in before.now)) }
        ensures after_network { IfSome after_network.new (λ n. n ≡ up_network topo.now (is_in after.now)) }
        ensures change { IfOk result (IsChange topo.now (is_in before.now) (is_in after.now) i) }
        ensures same { self.new.of ≡ self.old.of }
        ensures runs { HasNotFallen self.old self.new }
        ensures rises { IfOk result (λ change. IfBreaks change (HasRisen self.old self.new)) }
    {
        let Some(cut) = self.failing_cut(topo, after, after_network, i)? else {
            return Ok(Change::Holds);
        };
        let failed = self.failing_cut(topo, before, before_network, i)?.is_some();
        if failed {
            return Ok(Change::Failed);
        }
        let need = self.needs[i as usize];
        let broken = broken_by(self.alloc, topo, i, need, &cut)?;
        Ok(Change::Breaks(broken))
    }
}
