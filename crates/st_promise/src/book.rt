//! The book of a group: what each of its asks needs, computed once, and a flow that showed that it holds. Whoever judges a
//! proposal turns to it, with sets of entities that are up.

ghost use Rattle.std.specs.Prelude.{◌≡◌, ℕ, ◌<◌, length, map, true, is_some, ◌&&◌, slice_get, slice_index_or, Some, None, IfOk, IfSome};
ghost use Rattle.st_net.specs.declared.entity.Entity.TheVariants.{Device};
ghost use Rattle.st_net.specs.Asks.{ask_count, ask_of, asks};
ghost use Rattle.st_net.specs.Groups.{promise_of};
ghost use Rattle.st_net.specs.Sets.{is_in, MarksOf};
ghost use Rattle.st_net.specs.Demands.{first_broken_of};
ghost use Rattle.st_net.specs.Promises.{need_of as need_of_lem, is_kept};
ghost use Rattle.st_promise.specs.UpNetwork.{up_network};
ghost use Rattle.st_promise.specs.CutTree.{IsCutTree};
ghost use Rattle.st_promise.specs.Book.{IsBookOf, AreKept, AreNeedsOf, HasNotFallen, HasRisen};

use crate::cut_tree::CutTree;
use crate::failing::Failing;
use crate::flow_index::FlowIndex;
use crate::judge::{are_all_marked, is_marked};
use crate::kept_flow::KeptFlow;
use crate::up_network::UpNetwork;
use st_net::{Broken, Entity, EntitySet, GroupTopo, Promise};
use std::alloc::{AllocError, Global};
use std::marker::Model;

/// What each ask of a group needs, for each the flow that showed last that it holds, where one is kept, and the asks that
/// were last found to fail. Contracts see the needs, in the order of the asks, what flows are kept of, and how many runs of a
/// flow were counted.
#[derive(Drop)]
pub struct Book {
    pub(crate) alloc: Global,
    pub(crate) needs: Vec<u64>,
    pub(crate) asks: Vec<Promise>,
    pub(crate) whole: UpNetwork,
    pub(crate) flows: Vec<Option<KeptFlow>>,
    pub(crate) index: FlowIndex,
    pub(crate) failing: Option<Failing>,
    pub(crate) flows_run: u64,
}

impl Model for Book {
    ghost use Rattle.st_promise.specs.Book.{BookView};
    ghost use Rattle.st_promise.specs.BookInside.{IsBook};

    ghost Value = { BookView };

    ghost view = { λ b. record { of = record { needs = b.needs.items; asks = b.asks.items; whole = b.whole }; flows_run = b.flows_run } };

    ghost invariant = { λ b. IsBook (record { needs = b.needs.items; asks = b.asks.items; whole = b.whole }) b.flows.items b.index.lists.items b.failing };
}

/// The asks of a group.
fn asks_of(alloc: Global, topo: &GroupTopo) -> Result<Vec<Promise>, AllocError>
    ensures { IfOk result (λ those. those.items ≡ asks topo.now) }
{
    let mut those = Vec::with_capacity(alloc, topo.ask_count() as usize)?;
    for i in 0..topo.ask_count() {
        those.push(topo.ask(i))?;
    }
    Ok(those)
}

/// What an ask needs, and the least cut that it is a share of: 0 for one of 0 percent.
#[derive(Clone, Copy, Debug, PartialEq, Eq)]
struct Needed {
    need: u64,
    of: u64,
}

/// What ask number `i` needs.
fn need_of(
    alloc: Global,
    topo: &GroupTopo,
    whole: &UpNetwork,
    tree: &CutTree,
    i: u32,
) -> Result<Needed, AllocError>
    requires whole { whole.now ≡ up_network topo.now (λ e. true) }
    requires tree { IsCutTree topo.now tree.now }
    requires ask { i < ask_count topo.now }
    ensures { IfOk result (λ needed. needed.need ≡ need_of_lem topo.now (ask_of topo.now i)) }
{
    topo.is_sound();
    let ask = topo.ask(i);
    if ask.percent == 0 {
        return Ok(Needed { need: 0, of: 0 });
    }
    let baseline = tree.least(alloc, topo, whole, ask.a, ask.b)?;
    let share = u64::from(ask.percent) * baseline;
    Ok(Needed {
        need: share.div_ceil(100),
        of: baseline,
    })
}

/// What each ask needs; the least cuts that they are shares of are added to `least`.
fn needs_of(
    alloc: Global,
    topo: &GroupTopo,
    whole: &UpNetwork,
    least: &mut Vec<u64>,
) -> Result<Vec<u64>, AllocError>
    requires whole { whole.now ≡ up_network topo.now (λ e. true) }
    ensures needs { IfOk result (λ needs. needs.items ≡ map (need_of_lem topo.now) (asks topo.now)) }
{
    let tree = CutTree::of(alloc, topo, whole)?;
    let mut needs = Vec::with_capacity(alloc, topo.ask_count() as usize)?;
    for i in 0..topo.ask_count() {
        let needed = need_of(alloc, topo, whole, &tree, i)?;
        needs.push(needed.need)?;
        least.push(needed.of)?;
    }
    Ok(needs)
}

/// No flow for each of so many asks.
fn no_flows(alloc: Global, count: u32) -> Result<Vec<Option<KeptFlow>>, AllocError>
    ensures count { IfOk result (λ flows. length flows.items ≡ count) }
    ensures none { IfOk result (λ flows. (i : ℕ) → slice_index_or flows.items i None ≡ None) }
{
    let mut flows = Vec::with_capacity(alloc, count as usize)?;
    for _ in 0..count {
        flows.push(None)?;
    }
    Ok(flows)
}

/// Whether a flow is kept, and the device up that it starts at.
fn starts(flow: &Option<KeptFlow>, first: u32, up: &EntitySet) -> bool
    requires { first < length up.now.devices }
    ensures { result ≡ (is_some flow.now && is_in up.now (Device first)) }
{
    flow.is_some() && up.has(Entity::Device(first))
}

impl Book {
    /// A book that keeps no flow yet, and the least cut of each ask of more than 0 percent.
    fn open(alloc: Global, topo: &GroupTopo, least: &mut Vec<u64>) -> Result<Book, AllocError>
        ensures book { IfOk result (λ book. IsBookOf topo.now book.of) }
        ensures no_runs { IfOk result (λ book. book.flows_run ≡ 0) }
    {
        let whole = UpNetwork::whole(alloc, topo)?;
        let needs = needs_of(alloc, topo, &whole, least)?;
        Ok(Book {
            alloc,
            needs,
            asks: asks_of(alloc, topo)?,
            whole,
            flows: no_flows(alloc, topo.ask_count())?,
            index: FlowIndex::new(alloc, topo.link_count())?,
            failing: None,
            flows_run: 0,
        })
    }

    /// The book of a group. It finds the least cut of each ask of more than 0 percent, and the flows to keep.
    pub fn start(alloc: Global, topo: &GroupTopo) -> Result<Book, AllocError>
        ensures book { IfOk result (λ book. IsBookOf topo.now book.of) }
        ensures no_runs { IfOk result (λ book. book.flows_run ≡ 0) }
    {
        let mut least = Vec::new(alloc);
        let mut book = Book::open(alloc, topo, &mut least)?;
        for i in 0..topo.ask_count() {
            let ample = least.as_slice().get(i as usize).copied().unwrap_or(0);
            book.keep_first(topo, i, ample);
        }
        Ok(book)
    }

    /// What promise number `i` needs: the least value that each cut of its pair has to have, in the unit of capacities.
    pub fn need(&self, i: u32) -> u64
        requires { i < length self.now.of.needs }
        ensures { slice_get self.now.of.needs i ≡ Some result }
    {
        self.needs[i as usize]
    }

    /// What each ask needs, in their order.
    pub fn needs(&self) -> &[u64]
        ensures { result.now ≡ self.now.of.needs }
    {
        self.needs.as_slice()
    }

    /// How many times the book looked for a flow since it was made, in the calls that may change it.
    pub fn flows_run(&self) -> u64
        ensures { result ≡ self.now.flows_run }
    {
        self.flows_run
    }

    /// Whether promise number `i` holds while these entities are up. Where the kept flow does not show it, their network is
    /// built, linear in devices and links, and asked for one flow, or two. What the book tells of the group stays, also after
    /// want of memory.
    pub fn promise_holds(
        &mut self,
        topo: &GroupTopo,
        up: &EntitySet,
        i: u32,
    ) -> Result<bool, AllocError>
        requires book { IsBookOf topo.now self.old.of }
        requires promise { i < length topo.now.promises }
        requires marks { MarksOf topo.now up.now }
        ensures holds { IfOk result (λ holds. holds ≡ is_kept topo.now (is_in up.now) (promise_of topo.now i)) }
        ensures same { self.new.of ≡ self.old.of }
        ensures runs { HasNotFallen self.old self.new }
    {
        let mut network = None;
        Ok(self.failing_cut(topo, up, &mut network, i)?.is_none())
    }

    /// Whether each ask, in order, holds while these entities are up, as far as the kept flows show it: each that is marked
    /// does. No flow is run, and only those flows are looked through that a link carries which is not up.
    pub fn shown_in(&self, topo: &GroupTopo, up: &EntitySet) -> Result<Vec<bool>, AllocError>
        requires book { IsBookOf topo.now self.now.of }
        requires marks { MarksOf topo.now up.now }
        ensures count { IfOk result (λ shown. length shown.items ≡ ask_count topo.now) }
        ensures kept { IfOk result (λ shown. AreKept topo.now (is_in up.now) shown.items) }
    {
        topo.is_sound();
        let mut shown = Vec::with_capacity(self.alloc, topo.ask_count() as usize)?;
        let touched = self.index.touched(self.alloc, topo, up)?;
        for i in 0..topo.ask_count() {
            let holds = if is_marked(touched.as_slice(), i) {
                self.shows(topo, up, i)
            } else {
                starts(&self.flows[i as usize], self.asks[i as usize].a, up)
            };
            shown.push(holds)?;
        }
        Ok(shown)
    }

    /// The first demand, in order, that holds before and not after: how it breaks, what it needs, and the least cut that is
    /// left, with its least side. It looks only at asks whose kept flow has lost so much that it shows no more that they
    /// hold, and builds the network of each set at most once, where one of these is met. What the book tells of the group
    /// stays, also after want of memory.
    pub fn judge_pairs(
        &mut self,
        topo: &GroupTopo,
        before: &EntitySet,
        after: &EntitySet,
    ) -> Result<Option<Broken>, AllocError>
        requires book { IsBookOf topo.now self.old.of }
        requires before { MarksOf topo.now before.now }
        requires after { MarksOf topo.now after.now }
        ensures broken { IfOk result (λ broken. broken ≡ first_broken_of topo.now (is_in before.now) (is_in after.now)) }
        ensures same { self.new.of ≡ self.old.of }
        ensures runs { HasNotFallen self.old self.new }
        ensures rises { IfOk result (λ broken. IfSome broken (λ _. HasRisen self.old self.new)) }
    {
        self.judge_rest(topo, &[], before, after)
    }

    /// The same answer, where some asks are known to hold after: number `i` where `known` is true there. These are not
    /// looked at, and where all asks are known to hold, nothing is.
    pub fn judge_rest(
        &mut self,
        topo: &GroupTopo,
        known: &[bool],
        before: &EntitySet,
        after: &EntitySet,
    ) -> Result<Option<Broken>, AllocError>
        requires book { IsBookOf topo.now self.old.of }
        requires known { AreKept topo.now (is_in after.now) known.now }
        requires before { MarksOf topo.now before.now }
        requires after { MarksOf topo.now after.now }
        ensures broken { IfOk result (λ broken. broken ≡ first_broken_of topo.now (is_in before.now) (is_in after.now)) }
        ensures same { self.new.of ≡ self.old.of }
        ensures runs { HasNotFallen self.old self.new }
        ensures rises { IfOk result (λ broken. IfSome broken (λ _. HasRisen self.old self.new)) }
    {
        // Where all asks are known to hold, nothing is looked at.
        if are_all_marked(topo, known) {
            return Ok(None);
        }
        let shown = self.shown_in(topo, after)?;
        let mut fails = self.failing_in(topo, before)?;
        let judged = self.first_broken(
            topo,
            known,
            shown.as_slice(),
            fails.as_mut_slice(),
            before,
            after,
        );
        self.keep_failing(topo, before, fails);
        judged
    }
}
