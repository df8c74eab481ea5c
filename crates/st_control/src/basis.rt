//! A check away from its checker. A basis is what the oldest proposal is judged on, in copies but for the group, which is shared; threads
//! judge it with no checker at hand, and the checker decides by what was found, as far as that still tells of how it stands.

ghost use Rattle.std.specs.Prelude.{◌≡◌, ◌<◌, IfOk, IfSome};
ghost use Rattle.st_net.specs.Demands.{first_broken_of};
ghost use Rattle.st_net.specs.Sets.{is_in, MarksOf};
ghost use Rattle.std.specs.Arc.{arc_value};
ghost use Rattle.st_promise.specs.Book.{AreNeedsOf, AreKept};
ghost use Rattle.st_control.specs.Basis.{IsJudgedOf};

use st_net::{Broken, EntitySet, GroupTopo};
use st_promise::{ToFirst, has_same_network, is_same_set, is_within, judge_to_first};
use std::alloc::{AllocError, Global};
use std::marker::Model;
use std::sync::Arc;
use std::thread::Threads;

/// What a proposal is judged on: its group, which is shared with the checker and other bases and not copied, with what its asks need;
/// its ticket; the sure entities, and those of them that its rows leave as they are; and which asks the checker's kept flows showed to
/// hold while these are up.
#[derive(Drop)]
pub struct Basis {
    topo: Arc<GroupTopo, Global>,
    needs: Vec<u64>,
    ticket: u32,
    sure: EntitySet,
    after: EntitySet,
    known: Vec<bool>,
}

impl Model for Basis {
    ghost use Rattle.std.specs.Arc.{arc_value};
    ghost use Rattle.st_control.specs.Basis.{BasisView, IsBasis};

    ghost Value = { BasisView };

    ghost view = { λ b. record { group = arc_value b.topo; needs = b.needs.items; ticket = b.ticket; sure = b.sure; after = b.after; known = b.known.items } };

    ghost invariant = { λ b. IsBasis (record { group = arc_value b.topo; needs = b.needs.items; ticket = b.ticket; sure = b.sure; after = b.after; known = b.known.items }) };
}

/// What was found of a basis: the first demand of its group that holds while the sure entities are up, and not while only those of them
/// are that it leaves as they are; and of each ask up to that of this demand whether it holds then.
#[derive(Drop)]
pub struct Judged {
    topo: Arc<GroupTopo, Global>,
    ticket: u32,
    sure: EntitySet,
    after: EntitySet,
    first: Option<Broken>,
    holds: Vec<bool>,
}

impl Model for Judged {
    ghost use Rattle.std.specs.Arc.{arc_value};
    ghost use Rattle.st_control.specs.Basis.{JudgedView, IsJudged};

    ghost Value = { JudgedView };

    ghost view = { λ j. record { group = arc_value j.topo; ticket = j.ticket; sure = j.sure; after = j.after; first = j.first; holds = j.holds.items } };

    ghost invariant = { λ j. IsJudged (record { group = arc_value j.topo; ticket = j.ticket; sure = j.sure; after = j.after; first = j.first; holds = j.holds.items }) };
}

impl Basis {
    /// A basis of these parts.
    pub(crate) fn new(
        topo: Arc<GroupTopo, Global>,
        needs: Vec<u64>,
        ticket: u32,
        sure: EntitySet,
        after: EntitySet,
        known: Vec<bool>,
    ) -> Basis
        requires needs { AreNeedsOf (arc_value topo) needs.items }
        requires ticket { 0 < ticket }
        requires sure { MarksOf (arc_value topo) sure }
        requires after { MarksOf (arc_value topo) after }
        requires known { AreKept (arc_value topo) (is_in after) known.items }
        ensures { result ≡ record { group = arc_value topo; needs = needs.items; ticket = ticket; sure = sure; after = after; known = known.items } }
    {
        Basis {
            topo,
            needs,
            ticket,
            sure,
            after,
            known,
        }
    }

    /// The ticket of the proposal.
    pub fn ticket(&self) -> u32
        ensures { result ≡ self.now.ticket }
    {
        self.ticket
    }
}

impl Judged {
    /// The ticket of the proposal.
    pub fn ticket(&self) -> u32
        ensures ticket { result ≡ self.now.ticket }
        ensures given { 0 < result }
    {
        self.ticket
    }

    /// The first demand that holds in one set and not in another, where the group has the network and the promises of
    /// the judged one, and these are the judged sets. Elsewhere that is not known.
    pub(crate) fn found_in(
        &self,
        topo: &GroupTopo,
        before: &EntitySet,
        after: &EntitySet,
    ) -> Option<&Option<Broken>>
        requires before { MarksOf topo.now before.now }
        requires after { MarksOf topo.now after.now }
        ensures { IfSome result (λ first. first.now ≡ first_broken_of topo.now (is_in before.now) (is_in after.now)) }
    {
        if has_same_network(&self.topo, topo)
            && is_same_set(topo, &self.sure, before)
            && is_same_set(topo, &self.after, after)
        {
            Some(&self.first)
        } else {
            None
        }
    }

    /// The asks that are known to hold in a set: those that were found to hold, where the group has the network and the promises of the
    /// judged one, and the set has all that the judged set has. More entities keep an ask. Elsewhere none is known.
    pub(crate) fn known_in(&self, topo: &GroupTopo, up: &EntitySet) -> &[bool]
        requires { MarksOf topo.now up.now }
        ensures { AreKept topo.now (is_in up.now) result.now }
    {
        topo.keeps_with_more();
        topo.held_means_kept();
        if has_same_network(&self.topo, topo) && is_within(topo, &self.after, up) {
            self.holds.as_slice()
        } else {
            &[]
        }
    }
}

/// Judges a basis: the asks of which it is not known that they hold, up to the first demand that breaks, in as many threads as they are
/// worth. No checker is asked, so it needs no lock.
pub fn judge_basis(
    rt: &(impl Threads + Sync),
    alloc: Global,
    basis: Basis,
) -> Result<Judged, AllocError>
    ensures { IfOk result (IsJudgedOf basis) }
{
    let Basis {
        topo,
        needs,
        ticket,
        sure,
        after,
        known,
    } = basis;
    let ToFirst { first, holds } = judge_to_first(
        rt,
        alloc,
        &topo,
        needs.as_slice(),
        known.as_slice(),
        &sure,
        &after,
    )?;
    Ok(Judged {
        topo,
        ticket,
        sure,
        after,
        first,
        holds,
    })
}
