//! The asks of a group judged in order, up to the first demand that a change breaks: a few at a time, and these by several threads. As in
//! `judge_wide` no book is needed; but an ask that holds after is not judged before, and of what lies behind a broken ask only
//! what is judged together with it is judged.

ghost use Rattle.std.specs.Prelude.{◌≡◌, ◌<◌, Bool, List, All, false, length, map, take, slice_index_or, IfOk, IfSome, OnOk};
ghost use Rattle.std.specs.List.{AllZip};
ghost use Rattle.st_net.specs.declared.entity.Entity.{Entity};
ghost use Rattle.st_net.specs.Asks.{ask_count, ask_of};
ghost use Rattle.st_net.specs.Groups.{Group};
ghost use Rattle.st_net.specs.Sets.{is_in, MarksOf};
ghost use Rattle.st_net.specs.Demands.{first_broken_of};
ghost use Rattle.st_net.specs.Promises.{need_of};
ghost use Rattle.st_promise.specs.UpNetwork.{up_network};
ghost use Rattle.st_promise.specs.Book.{AreNeedsOf, AreKept, held_asks};
ghost use Rattle.st_promise.specs.Change.{IsChange};
ghost use Rattle.st_promise.specs.ToFirst.{open_from as open_from_lem, told_to, AreNetworks, IsAheadAt};

use crate::change::Change;
use crate::demand::broken_by;
use crate::judge::is_marked;
use crate::up_network::UpNetwork;
use rayon::prelude::*;
use st_net::{Broken, EntitySet, GroupTopo};
use std::alloc::{AllocError, Global};
use std::thread::Threads;

/// How many asks are judged together first, and how many times as many each time after: a change that breaks an ask mostly breaks
/// one of the first that are not known to hold, and what is judged together is shared among threads.
const FIRST: usize = 1;

const TIMES: usize = 4;

/// How many asks are worth a thread of their own: to start one takes as long as some flows.
const LEAST_SHARE: usize = 16;

/// What was found of the demands of a group and of its asks, in order.
#[derive(Drop)]
pub struct ToFirst {
    /// The first demand that holds before and not after: how it breaks.
    pub first: Option<Broken>,
    /// Whether each ask holds after: up to that of this demand, with it, or whether each does.
    pub holds: Vec<bool>,
}

/// The networks of what is up before a change and after it.
#[derive(Drop)]
struct Networks {
    before: UpNetwork,
    after: UpNetwork,
}

/// What is judged ahead of the ask that is looked at.
#[derive(Drop)]
struct Ahead {
    /// The two networks, once an ask was judged.
    networks: Option<Networks>,
    /// What the change does to the asks that were judged together.
    changes: Vec<Change>,
    /// How many of these were looked at.
    place: usize,
    /// How many are judged together next.
    most: usize,
}

/// What the change does to ask number `i`, which needs so much.
fn change_of(
    alloc: Global,
    topo: &GroupTopo,
    before: &UpNetwork,
    after: &UpNetwork,
    i: u32,
    need: u64,
) -> Result<Change, AllocError>
    requires before { before.now.nodes ≡ length topo.now.devices }
    requires after { after.now.nodes ≡ length topo.now.devices }
    requires ask { i < ask_count topo.now }
    requires need { need ≡ need_of topo.now (ask_of topo.now i) }
    ensures { (up down : Entity → Bool) → before.now ≡ up_network topo.now up → after.now ≡ up_network topo.now down → IfOk result (IsChange topo.now up down i) }
{
    let Some(cut) = after.failing_cut(alloc, topo, i, need)? else {
        return Ok(Change::Holds);
    };
    if before.failing_cut(alloc, topo, i, need)?.is_some() {
        return Ok(Change::Failed);
    }
    let broken = broken_by(alloc, topo, i, need, &cut)?;
    Ok(Change::Breaks(broken))
}

/// The numbers of the first asks from number `from` on that are not known to hold, at most so many, ascending.
fn open_from(
    alloc: Global,
    topo: &GroupTopo,
    known: &[bool],
    from: u32,
    most: usize,
) -> Result<Vec<u32>, AllocError>
    ensures { IfOk result (λ those. those.items ≡ take most (open_from_lem known.now from (ask_count topo.now))) }
{
    (from..topo.ask_count())
        .filter(|i| !is_marked(known, *i))
        .take(most)
        .collect(alloc)
}

/// What the change does to each of these asks, found by as many threads as they are worth.
fn changes_of(
    rt: &(impl Threads + Sync),
    alloc: Global,
    topo: &GroupTopo,
    needs: &[u64],
    networks: &Networks,
    those: &[u32],
) -> Result<Vec<Change>, AllocError>
    requires needs { AreNeedsOf topo.now needs.now }
    requires before { networks.now.before.nodes ≡ length topo.now.devices }
    requires after { networks.now.after.nodes ≡ length topo.now.devices }
    requires those { All (λ i. i < ask_count topo.now) those.now }
    ensures count { IfOk result (λ changes. length changes.items ≡ length those.now) }
    ensures each { (up down : Entity → Bool) → AreNetworks topo.now up down networks.now → IfOk result (λ changes. AllZip (IsChange topo.now up down) those.now changes.items) }
{
    let Networks { before, after } = networks;
    those
        .par_iter()
        .copied()
        .map(
            |i: u32| -> Result<Change, AllocError>
                requires { AreNeedsOf topo.now needs.now × (before.now.nodes ≡ length topo.now.devices) × (after.now.nodes ≡ length topo.now.devices) × (i < ask_count topo.now) }
                ensures { (up down : Entity → Bool) → before.entry.now ≡ up_network topo.entry.now up → after.entry.now ≡ up_network topo.entry.now down → IfOk result (IsChange topo.entry.now up down i) }
            { change_of(alloc, topo, before, after, i, needs[i as usize]) },
        )
        .with_min_len(LEAST_SHARE)
        .collect::<Result<Vec<Change>, AllocError>>(rt, alloc)?
}

impl Networks {
    /// The networks of these sets.
    fn of(
        alloc: Global,
        topo: &GroupTopo,
        before: &EntitySet,
        after: &EntitySet,
    ) -> Result<Networks, AllocError>
        requires before { MarksOf topo.now before.now }
        requires after { MarksOf topo.now after.now }
        ensures { IfOk result (AreNetworks topo.now (is_in before.now) (is_in after.now)) }
    {
        Ok(Networks {
            before: UpNetwork::of(alloc, topo, before)?,
            after: UpNetwork::of(alloc, topo, after)?,
        })
    }
}

impl Ahead {
    /// Nothing is judged yet.
    fn none(alloc: Global) -> Ahead
        ensures { (g : Group) (before after : Entity → Bool) (marks : List Bool) → IsAheadAt g before after marks 0 result }
    {
        Ahead {
            networks: None,
            changes: Vec::new(alloc),
            place: 0,
            most: FIRST,
        }
    }

    /// Judges more asks from number `i` on, which is not known to hold, where none is judged ahead.
    fn fill(
        &mut self,
        rt: &(impl Threads + Sync),
        alloc: Global,
        topo: &GroupTopo,
        needs: &[u64],
        known: &[bool],
        before: &EntitySet,
        after: &EntitySet,
        i: u32,
    ) -> Result<(), AllocError>
        requires needs { AreNeedsOf topo.now needs.now }
        requires before { MarksOf topo.now before.now }
        requires after { MarksOf topo.now after.now }
        requires ask { i < ask_count topo.now }
        requires open { slice_index_or known.now i false ≡ false }
        requires ahead { IsAheadAt topo.now (is_in before.now) (is_in after.now) known.now i self.old }
        ensures ahead { OnOk result (IsAheadAt topo.now (is_in before.now) (is_in after.now) known.now i self.new) }
        ensures some { OnOk result (self.new.place < length self.new.changes.items) }
    {
        if self.place < self.changes.len() {
            return Ok(());
        }
        if self.networks.is_none() {
            self.networks = Some(Networks::of(alloc, topo, before, after)?);
        }
        let Some(networks) = &self.networks else {
            unreachable!()
        };
        let those = open_from(alloc, topo, known, i, self.most)?;
        self.changes = changes_of(rt, alloc, topo, needs, networks, those.as_slice())?;
        self.place = 0;
        self.most = self.most.saturating_mul(TIMES);
        Ok(())
    }
}

/// Judges the asks of a group in order, up to the first that holds before and not after, where some are known to hold after: number
/// `i` where `known` is true there. These are not looked at. The others are judged a few at a time, each after and, where it fails there,
/// before; what is judged together is shared among threads, and the answer does not depend on how.
pub fn judge_to_first(
    rt: &(impl Threads + Sync),
    alloc: Global,
    topo: &GroupTopo,
    needs: &[u64],
    known: &[bool],
    before: &EntitySet,
    after: &EntitySet,
) -> Result<ToFirst, AllocError>
    requires needs { AreNeedsOf topo.now needs.now }
    requires known { AreKept topo.now (is_in after.now) known.now }
    requires before { MarksOf topo.now before.now }
    requires after { MarksOf topo.now after.now }
    ensures first { IfOk result (λ told. told.first ≡ first_broken_of topo.now (is_in before.now) (is_in after.now)) }
    ensures holds { IfOk result (λ told. told.holds.items ≡ take (told_to topo.now told.first) (held_asks topo.now (is_in after.now))) }
{
    let mut holds = Vec::with_capacity(alloc, topo.ask_count() as usize)?;
    let mut ahead = Ahead::none(alloc);
    for i in 0..topo.ask_count() {
        if is_marked(known, i) {
            holds.push(true)?;
            continue;
        }
        ahead.fill(rt, alloc, topo, needs, known, before, after, i)?;
        match &ahead.changes[ahead.place] {
            Change::Holds => holds.push(true)?,
            Change::Failed => holds.push(false)?,
            Change::Breaks(broken) => {
                let first = Some(broken.copy(alloc)?);
                holds.push(false)?;
                return Ok(ToFirst { first, holds });
            }
        }
        ahead.place += 1;
    }
    Ok(ToFirst { first: None, holds })
}
