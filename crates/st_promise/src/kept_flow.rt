//! A flow that is kept to show later that an ask still holds, by the links that carry it. A book has one for each ask.

ghost use Rattle.std.specs.Prelude.{◌≡◌, ◌-◌, ◌<◌, true, All, length, slice_index_or, pos, IfOk, IfSome, IfNone};
ghost use Rattle.st_net.specs.Groups.{no_link};
ghost use Rattle.st_net.specs.Sets.{is_in};
ghost use Rattle.st_promise.specs.UpNetwork.{edge_of, up_edges};
ghost use Rattle.st_promise.specs.KeptFlow.{IsSmall, IsShareOf, IsEndIn, amounts_from, lost};

use st_flow::Flow;
use st_net::{Entity, EntitySet, GroupTopo};
use std::alloc::{AllocError, Global};

/// What one link carries: how much, and the device that it leads to.
#[derive(Clone, Copy, Debug, PartialEq, Eq)]
pub(crate) struct Share {
    pub(crate) link: u32,
    pub(crate) head: u32,
    pub(crate) amount: u32,
}

/// A flow of at least `sent`, by the links that carry it, in their order.
#[derive(Drop)]
pub(crate) struct KeptFlow {
    pub(crate) sent: u64,
    pub(crate) shares: Vec<Share>,
}

/// What a link carries by its amount, which is counted from its first end to its second; None where it carries nothing.
fn share_of(topo: &GroupTopo, link: u32, amount: i64) -> Option<Share>
    requires link { link < length topo.now.links }
    requires small { IsSmall amount }
    ensures some { IfSome result (IsShareOf link (edge_of true (slice_index_or topo.now.links link no_link)) amount) }
    ensures none { IfNone result (amount ≡ pos 0) }
{
    topo.is_sound();
    if amount == 0 {
        return None;
    }
    let (a, b) = topo.ends(link);
    Some(Share {
        link,
        head: if amount < 0 { a } else { b },
        amount: amount.unsigned_abs() as u32,
    })
}

impl KeptFlow {
    /// A flow of the network of what is up, by the links that carry it.
    pub(crate) fn of(
        alloc: Global,
        topo: &GroupTopo,
        flow: &Flow,
        sent: u64,
    ) -> Result<KeptFlow, AllocError>
        requires links { length flow.now ≡ length topo.now.links }
        requires small { All IsSmall flow.now }
        ensures sent { IfOk result (λ kept. kept.sent ≡ sent) }
        ensures in_range { IfOk result (λ kept. All (λ s. (s.link < length topo.now.links) × (s.head < length topo.now.devices)) kept.shares.items) }
        ensures ends { IfOk result (λ kept. All (IsEndIn (up_edges 0 topo.now.links (λ e. true))) kept.shares.items) }
        ensures amounts { IfOk result (λ kept. amounts_from 0 (up_edges 0 topo.now.links (λ e. true)) kept.shares.items ≡ flow.now) }
    {
        topo.is_sound();
        let mut shares = Vec::new(alloc);
        for link in 0..topo.link_count() {
            if let Some(share) = share_of(topo, link, flow.amount(link)) {
                shares.push(share)?;
            }
        }
        Ok(KeptFlow { sent, shares })
    }

    /// How much of the flow is left while these entities are up, at least: what no link brings to a device any more is lost.
    pub(crate) fn left(&self, up: &EntitySet) -> u64
        requires links { All (λ s. s.link < length up.now.links) self.now.shares.items }
        requires heads { All (λ s. s.head < length up.now.devices) self.now.shares.items }
        ensures { result ≡ self.now.sent - lost (is_in up.now) self.now.shares.items }
    {
        let mut left = self.sent;
        for share in &self.shares {
            if !(up.has(Entity::Link(share.link)) && up.has(Entity::Device(share.head))) {
                left = left.saturating_sub(u64::from(share.amount));
            }
        }
        left
    }
}
