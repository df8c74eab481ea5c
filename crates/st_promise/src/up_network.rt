//! The network of what is up, as flows see it: the devices are its nodes, and the up links its edges. It is built once for
//! a set of entities, and answers for every ask.

ghost use Rattle.std.specs.Prelude.{◌≡◌, ◌≢◌, ℕ, ◌<◌, ◌≤◌, [], ◌∷◌, ◌++◌, Bool, true, max, length, slice_index_or, is_none, IfOk, IfSome, OnOk};
ghost use Rattle.std.specs.List.Sorted.{IsStrictlyIncreasing};
ghost use Rattle.st_net.specs.Asks.{ask_count, ask_of};
ghost use Rattle.st_net.specs.Groups.{no_link};
ghost use Rattle.st_net.specs.Sets.{is_in, MarksOf};
ghost use Rattle.st_net.specs.Promises.{need_of, is_kept};
ghost use Rattle.st_flow.specs.Network.{Sends, IsLeastCut};
ghost use Rattle.st_promise.specs.UpNetwork.{edge_of, up_network, baseline_of, IsLeastCutOf};
ghost use Rattle.st_promise.specs.Finding.{holds_by, IfSent, IfFails};

use crate::finding::Finding;
use crate::up::is_up;
use st_flow::{Cut, Flowing, Graph, least_cut, max_flow};
use st_net::{Entity, EntitySet, GroupTopo};
use std::alloc::{AllocError, Global};
use std::marker::Model;

/// The network of a set of entities that are up. Contracts see its nodes and edges.
#[derive(Drop)]
pub(crate) struct UpNetwork {
    graph: Graph,
}

impl Model for UpNetwork {
    ghost use Rattle.st_flow.specs.Network.{Network};

    ghost Value = { Network };

    ghost view = { λ n. n.graph };
}

/// Adds a link as an edge, which carries nothing where the link is down.
fn add_link(graph: &mut Graph, topo: &GroupTopo, link: u32, up: bool) -> Result<(), AllocError>
    requires link { link < length topo.now.links }
    requires nodes { graph.old.nodes ≡ length topo.now.devices }
    requires few { length graph.old.edges ≡ link }
    ensures { OnOk result (graph.new ≡ record graph.old { edges = graph.old.edges ++ edge_of up (slice_index_or topo.now.links link no_link) ∷ [] }) }
{
    topo.is_sound();
    let (a, b) = topo.ends(link);
    let capacity = if up { topo.capacity(link) } else { 0 };
    graph.add(a, b, capacity)
}

impl UpNetwork {
    /// The network of a set of entities.
    pub(crate) fn of(
        alloc: Global,
        topo: &GroupTopo,
        up: &EntitySet,
    ) -> Result<UpNetwork, AllocError>
        requires { MarksOf topo.now up.now }
        ensures { IfOk result (λ network. network ≡ up_network topo.now (is_in up.now)) }
    {
        topo.is_sound();
        let mut graph = Graph::new(alloc, topo.device_count())?;
        for link in 0..topo.link_count() {
            add_link(&mut graph, topo, link, is_up(topo, up, link))?;
        }
        Ok(UpNetwork { graph })
    }

    /// The network of all entities.
    pub(crate) fn whole(alloc: Global, topo: &GroupTopo) -> Result<UpNetwork, AllocError>
        ensures { IfOk result (λ network. network ≡ up_network topo.now (λ e. true)) }
    {
        topo.is_sound();
        let mut graph = Graph::new(alloc, topo.device_count())?;
        for link in 0..topo.link_count() {
            add_link(&mut graph, topo, link, true)?;
        }
        Ok(UpNetwork { graph })
    }

    /// The least cut of two devices, where this is the network of all entities.
    pub(crate) fn least(
        &self,
        alloc: Global,
        topo: &GroupTopo,
        a: u32,
        b: u32,
    ) -> Result<Cut, AllocError>
        requires whole { self.now ≡ up_network topo.now (λ e. true) }
        requires a { a < length topo.now.devices }
        requires b { b < length topo.now.devices }
        requires apart { a ≢ b }
        ensures least { IfOk result (λ cut. IsLeastCut (up_network topo.now (λ e. true)) a b cut.value cut.side.items) }
        ensures value { IfOk result (λ cut. cut.value ≡ baseline_of topo.now a b) }
    {
        topo.is_sound();
        let cut = least_cut(alloc, &self.graph, a, b)?;
        Ok(cut)
    }

    /// Whether ask number `i`, which needs so much, holds: a flow of `ample` or more shows it, or the least cut tells.
    pub(crate) fn find(
        &self,
        alloc: Global,
        topo: &GroupTopo,
        i: u32,
        need: u64,
        ample: u64,
    ) -> Result<Finding, AllocError>
        requires nodes { self.now.nodes ≡ length topo.now.devices }
        requires ask { i < ask_count topo.now }
        requires need { need ≡ need_of topo.now (ask_of topo.now i) }
        ensures kept { (up : Entity → Bool) → self.now ≡ up_network topo.now up → IfOk result (λ found. holds_by found ≡ is_kept topo.now up (ask_of topo.now i)) }
        ensures least { (up : Entity → Bool) → self.now ≡ up_network topo.now up → IfOk result (λ found. IfFails found (IsLeastCutOf topo.now up (ask_of topo.now i))) }
        ensures ascending { IfOk result (λ found. IfFails found (λ cut. IsStrictlyIncreasing cut.side.items)) }
        ensures sends { IfOk result (λ found. IfSent found (λ flow amount. Sends self.now flow (ask_of topo.now i).a (ask_of topo.now i).b amount)) }
        ensures enough { IfOk result (λ found. IfSent found (λ flow amount. max need 1 ≤ amount)) }
    {
        topo.is_sound();
        let ask = topo.ask(i);
        // A pair that no walk joins has the least cut 0.
        let least = need.max(1);
        let amount = ample.max(least);
        match max_flow(alloc, &self.graph, ask.a, ask.b, amount)? {
            Flowing::Enough(flow) => Ok(Finding::Sent { flow, amount }),
            Flowing::Short(cut) => {
                if cut.value < least {
                    Ok(Finding::Fails(cut))
                } else {
                    Ok(Finding::Least { value: cut.value })
                }
            }
        }
    }

    /// The least cut of ask number `i`, which needs so much, where it does not hold; None where it holds.
    pub(crate) fn failing_cut(
        &self,
        alloc: Global,
        topo: &GroupTopo,
        i: u32,
        need: u64,
    ) -> Result<Option<Cut>, AllocError>
        requires nodes { self.now.nodes ≡ length topo.now.devices }
        requires ask { i < ask_count topo.now }
        requires need { need ≡ need_of topo.now (ask_of topo.now i) }
        ensures kept { (up : Entity → Bool) → self.now ≡ up_network topo.now up → IfOk result (λ cut. is_none cut ≡ is_kept topo.now up (ask_of topo.now i)) }
        ensures least { (up : Entity → Bool) → self.now ≡ up_network topo.now up → IfOk result (λ cut. IfSome cut (IsLeastCutOf topo.now up (ask_of topo.now i))) }
        ensures ascending { IfOk result (λ cut. IfSome cut (λ cut. IsStrictlyIncreasing cut.side.items)) }
    {
        match self.find(alloc, topo, i, need, need)? {
            Finding::Fails(cut) => Ok(Some(cut)),
            Finding::Sent {
                flow: _flow,
                amount: _amount,
            } => Ok(None),
            Finding::Least { value: _value } => Ok(None),
        }
    }
}
