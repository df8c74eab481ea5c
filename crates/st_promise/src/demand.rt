//! From asks to demands. All else in this crate is judged by asks; what is told of the demands of a group, by their numbers, is told
//! here: a promise holds where its ask does, and breaks as its ask does.

ghost use Rattle.std.specs.Prelude.{◌≡◌, ◌<◌, ◌+◌, Bool, true, false, length, take, Some, None, IfOk, IfSome, if◌then◌else◌};
ghost use Rattle.std.specs.List.Sorted.{IsStrictlyIncreasing};
ghost use Rattle.st_net.specs.declared.entity.Entity.{Entity};
ghost use Rattle.st_net.specs.Asks.{ask_count, ask_of};
ghost use Rattle.st_net.specs.Sets.{is_in, MarksOf};
ghost use Rattle.st_net.specs.Demands.{first_broken_of, held_list};
ghost use Rattle.st_net.specs.Promises.{is_kept, is_broken, broken_at, need_of};
ghost use Rattle.st_promise.specs.UpNetwork.{up_network, IsLeastCutOf};
ghost use Rattle.st_promise.specs.Book.{IsBookOf, AreNeedsOf, AreKept, AreFailing, held_asks, HasNotFallen, HasRisen};
ghost use Rattle.st_promise.specs.Wide.{held_in_both};

use crate::book::Book;
use crate::change::Change;
use crate::judge::is_marked;
use crate::up_network::UpNetwork;
use st_flow::Cut;
use st_net::{Broken, BrokenKind, BrokenOf, EntitySet, GroupTopo, Side};
use std::alloc::{AllocError, Global};

/// How promise number `i` is broken, whose ask needs so much, where this is the least cut that is left of its pair.
pub(crate) fn broken_by(
    alloc: Global,
    topo: &GroupTopo,
    i: u32,
    need: u64,
    cut: &Cut,
) -> Result<Broken, AllocError>
    requires need { need ≡ need_of topo.now (ask_of topo.now i) }
    requires ascending { IsStrictlyIncreasing cut.now.side.items }
    ensures { (up : Entity → Bool) → IsLeastCutOf topo.now up (ask_of topo.now i) cut.now → IfOk result (λ broken. broken ≡ broken_at topo.now up i (ask_of topo.now i)) }
{
    let kind = if cut.value == 0 {
        BrokenKind::CutOff
    } else {
        BrokenKind::Short
    };
    Ok(Broken {
        of: BrokenOf::Promise(i),
        kind,
        need,
        has: cut.value,
        side: Side::from_slice(alloc, cut.side.as_slice())?,
    })
}

/// Whether each demand, in order, holds, where these are the answers of all asks, or begin with them.
pub(crate) fn demands_held(topo: &GroupTopo, answers: Vec<bool>) -> Vec<bool>
    ensures { (up : Entity → Bool) → take (ask_count topo.now) answers.items ≡ held_asks topo.now up → result.items ≡ held_list topo.now up }
{
    let mut answers = answers;
    answers.truncate(topo.promise_count() as usize);
    answers
}

/// How promise number `i` is broken after, whose ask needs so much and holds before, if it fails there.
fn lost_in(
    alloc: Global,
    topo: &GroupTopo,
    after: &UpNetwork,
    i: u32,
    need: u64,
) -> Result<Option<Broken>, AllocError>
    requires after { after.now.nodes ≡ length topo.now.devices }
    requires ask { i < ask_count topo.now }
    requires need { need ≡ need_of topo.now (ask_of topo.now i) }
    ensures { (up down : Entity → Bool) → after.now ≡ up_network topo.now down → is_kept topo.now up (ask_of topo.now i) ≡ true → IfOk result (λ broken. broken ≡ (if is_broken topo.now up down (ask_of topo.now i) then Some (broken_at topo.now down i (ask_of topo.now i)) else None)) }
{
    let Some(cut) = after.failing_cut(alloc, topo, i, need)? else {
        return Ok(None);
    };
    Ok(Some(broken_by(alloc, topo, i, need, &cut)?))
}

/// The first demand, in order, that holds before and not after, where these are the answers of all asks after, and then before. Its ask
/// is judged once more, for what it lacks.
pub(crate) fn first_lost(
    alloc: Global,
    topo: &GroupTopo,
    needs: &[u64],
    after: &UpNetwork,
    answers: &[bool],
) -> Result<Option<Broken>, AllocError>
    requires needs { AreNeedsOf topo.now needs.now }
    requires after { after.now.nodes ≡ length topo.now.devices }
    requires answers { length answers.now ≡ ask_count topo.now + ask_count topo.now }
    ensures { (up down : Entity → Bool) → after.now ≡ up_network topo.now down → answers.now ≡ held_in_both topo.now up down → IfOk result (λ broken. broken ≡ first_broken_of topo.now up down) }
{
    let (holds, held_before) = answers.split_at(topo.ask_count() as usize);
    for i in 0..topo.promise_count() {
        if held_before[i as usize] && !holds[i as usize] {
            return lost_in(alloc, topo, after, i, needs[i as usize]);
        }
    }
    Ok(None)
}

impl Book {
    /// Whether each demand, in order, holds while these entities are up. Their network is built at most once, and not at all where
    /// the kept flows show that all asks hold.
    pub fn held_in(&self, topo: &GroupTopo, up: &EntitySet) -> Result<Vec<bool>, AllocError>
        requires book { IsBookOf topo.now self.now.of }
        requires marks { MarksOf topo.now up.now }
        ensures { IfOk result (λ held. held.items ≡ held_list topo.now (is_in up.now)) }
    {
        let answers = self.asks_held_in(topo, up)?;
        Ok(demands_held(topo, answers))
    }

    /// The first demand, in order, that holds before and not after. Asks that are known or shown to hold after are passed over, and so
    /// are those that are known to fail before; others that are found to fail before are marked among these.
    pub(crate) fn first_broken(
        &mut self,
        topo: &GroupTopo,
        known: &[bool],
        shown: &[bool],
        fails: &mut [bool],
        before: &EntitySet,
        after: &EntitySet,
    ) -> Result<Option<Broken>, AllocError>
        requires book { IsBookOf topo.now self.old.of }
        requires known { AreKept topo.now (is_in after.now) known.now }
        requires shown { AreKept topo.now (is_in after.now) shown.now }
        requires fails { AreFailing topo.now (is_in before.now) fails.old }
        requires marks { length fails.old ≡ ask_count topo.now }
        requires before { MarksOf topo.now before.now }
        requires after { MarksOf topo.now after.now }
        ensures broken { IfOk result (λ broken. broken ≡ first_broken_of topo.now (is_in before.now) (is_in after.now)) }
        ensures fails { AreFailing topo.now (is_in before.now) fails.new }
        ensures same { self.new.of ≡ self.old.of }
        ensures runs { HasNotFallen self.old self.new }
        ensures rises { IfOk result (λ broken. IfSome broken (λ _. HasRisen self.old self.new)) }
    {
        let mut before_network = None;
        let mut after_network = None;
        for i in 0..topo.promise_count() {
            if is_marked(known, i) || is_marked(shown, i) || is_marked(fails, i) {
                continue;
            }
            let change = self.judge_ask(
                topo,
                before,
                &mut before_network,
                after,
                &mut after_network,
                i,
            )?;
            match change {
                Change::Holds => {}
                Change::Failed => fails[i as usize] = true,
                Change::Breaks(broken) => return Ok(Some(broken)),
            }
        }
        Ok(None)
    }
}
