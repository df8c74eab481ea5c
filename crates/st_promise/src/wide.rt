//! All asks of a group judged at once, in two sets, by as many threads as there are processors. It needs no book: whoever judges
//! away from a checker brings a copy of the needs.

ghost use Rattle.std.specs.Prelude.{◌≡◌, ◌<◌, ◌+◌, Bool, length, IfOk};
ghost use Rattle.st_net.specs.Asks.{ask_count};
ghost use Rattle.st_net.specs.Sets.{is_in, MarksOf};
ghost use Rattle.st_net.specs.Demands.{first_broken_of, held_list};
ghost use Rattle.st_promise.specs.UpNetwork.{up_network};
ghost use Rattle.st_promise.specs.Book.{AreNeedsOf};
ghost use Rattle.st_promise.specs.Wide.{held_at, held_in_both};

use crate::demand::{demands_held, first_lost};
use crate::up_network::UpNetwork;
use rayon::prelude::*;
use st_net::{Broken, Entity, EntitySet, GroupTopo};
use std::alloc::{AllocError, Global};
use std::thread::Threads;

/// What was found of all demands.
#[derive(Drop)]
pub struct Wide {
    /// The first demand, in order, that holds before and not after: how it breaks.
    pub first: Option<Broken>,
    /// Whether each demand, in order, holds after.
    pub holds: Vec<bool>,
}

/// Whether an ask holds: each after, in order, and then each before.
fn is_held(
    alloc: Global,
    topo: &GroupTopo,
    needs: &[u64],
    before: &UpNetwork,
    after: &UpNetwork,
    item: u32,
) -> Result<bool, AllocError>
    requires needs { AreNeedsOf topo.now needs.now }
    requires before { before.now.nodes ≡ length topo.now.devices }
    requires after { after.now.nodes ≡ length topo.now.devices }
    requires item { item < ask_count topo.now + ask_count topo.now }
    ensures { (up down : Entity → Bool) → before.now ≡ up_network topo.now up → after.now ≡ up_network topo.now down → IfOk result (λ held. held ≡ held_at topo.now up down item) }
{
    let count = topo.ask_count();
    if item < count {
        let cut = after.failing_cut(alloc, topo, item, needs[item as usize])?;
        return Ok(cut.is_none());
    }
    let i = item - count;
    let cut = before.failing_cut(alloc, topo, i, needs[i as usize])?;
    Ok(cut.is_none())
}

/// Whether each ask holds after, and then whether each holds before.
fn all_held(
    rt: &(impl Threads + Sync),
    alloc: Global,
    topo: &GroupTopo,
    needs: &[u64],
    before: &UpNetwork,
    after: &UpNetwork,
) -> Result<Vec<bool>, AllocError>
    requires needs { AreNeedsOf topo.now needs.now }
    requires before { before.now.nodes ≡ length topo.now.devices }
    requires after { after.now.nodes ≡ length topo.now.devices }
    ensures { (up down : Entity → Bool) → before.now ≡ up_network topo.now up → after.now ≡ up_network topo.now down → IfOk result (λ held. held.items ≡ held_in_both topo.now up down) }
{
    topo.is_sound();
    let count = topo.ask_count();
    // A flow is worth a thread, however few there are.
    (0..count + count)
        .into_par_iter()
        .map(
            |item: u32| -> Result<bool, AllocError>
                requires { AreNeedsOf topo.now needs.now × (before.now.nodes ≡ length topo.now.devices) × (after.now.nodes ≡ length topo.now.devices) × (item < ask_count topo.now + ask_count topo.now) }
                ensures { (up down : Entity → Bool) → before.entry.now ≡ up_network topo.entry.now up → after.entry.now ≡ up_network topo.entry.now down → IfOk result (λ held. held ≡ held_at topo.entry.now up down item) }
            { is_held(alloc, topo, needs, before, after, item) },
        )
        .with_min_len(1)
        .collect::<Result<Vec<bool>, AllocError>>(rt, alloc)?
}

/// Judges all asks in both sets, in parallel: one item for each ask and set. The answer is that of `Book::judge_pairs`, however
/// the items are shared among threads.
pub fn judge_wide(
    rt: &(impl Threads + Sync),
    alloc: Global,
    topo: &GroupTopo,
    needs: &[u64],
    before: &EntitySet,
    after: &EntitySet,
) -> Result<Wide, AllocError>
    requires needs { AreNeedsOf topo.now needs.now }
    requires before { MarksOf topo.now before.now }
    requires after { MarksOf topo.now after.now }
    ensures first { IfOk result (λ wide. wide.first ≡ first_broken_of topo.now (is_in before.now) (is_in after.now)) }
    ensures holds { IfOk result (λ wide. wide.holds.items ≡ held_list topo.now (is_in after.now)) }
{
    let before = UpNetwork::of(alloc, topo, before)?;
    let after = UpNetwork::of(alloc, topo, after)?;
    let held = all_held(rt, alloc, topo, needs, &before, &after)?;
    let first = first_lost(alloc, topo, needs, &after, held.as_slice())?;
    let holds = demands_held(topo, held);
    Ok(Wide { first, holds })
}
