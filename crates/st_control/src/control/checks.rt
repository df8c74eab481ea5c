//! The decision of the oldest proposal, in three steps: its rows are judged, then the demands of the group, and then the proposal is
//! decided as one entry. A judgement that was made away from the checker can spare flows, and changes no verdict.

ghost use Rattle.std.specs.Prelude.{◌≡◌, option_map, ◌<◌, ◌≤◌, ◌^◌, ◌+◌, length, IfOk, IfSome, OnErr, OnOk};
ghost use Rattle.st_net.specs.Demands.{first_broken_of};
ghost use Rattle.st_net.specs.Ranges.{RowsFit};
ghost use Rattle.st_net.specs.Sets.{is_in, MarksOf};
ghost use Rattle.st_event.specs.declared.event.Event.TheVariants.{Check as check_event};
ghost use Rattle.st_event.specs.declared.event.Proposal.{Proposal};
ghost use Rattle.st_event.specs.Judge.{refusal_or_version};
ghost use Rattle.st_event.specs.declared.reply.Cause.TheVariants.{Broken as broken_cause};
ghost use Rattle.st_event.specs.declared.reply.Reply.TheVariants.{Decided as decided_reply};
ghost use Rattle.st_store.specs.Store.{proposal_of};
ghost use Rattle.st_control.specs.Control.{IsSameButRuns, Moves, reply_of_check};
ghost use Rattle.st_control.specs.Verdict.{IsDue, IsLatest, first_broken_without, AreJudgedIn, IsJudgedIn};
ghost use Rattle.st_promise.specs.Book.{AreKept};

use crate::basis::Judged;
use crate::control::{Control, SureSets};
use crate::stamps::stamp_all;
use crate::twice::Twice;
use st_event::{Cause, Receipt, Verdict};
use st_net::{Broken, EntitySet, GroupTopo};
use st_overlay::changed;
use st_rows::judge_rows;
use st_store::Pending;
use std::alloc::{AllocError, Global};

/// The answer to a check.
#[derive(Drop)]
pub enum Check {
    /// The oldest proposal was decided.
    Decided(Receipt),
    /// No proposal is pending.
    Idle,
}

/// The cause to refuse a proposal, if one was found so far, and the entities that the proposal's rows alter.
#[derive(Drop)]
struct Weighed {
    refusal: Option<Cause>,
    changed: EntitySet,
}

/// What is to be decided of the oldest proposal: the receipt that the proposal is to get, and the entities that its rows alter.
#[derive(Drop)]
struct Decision {
    receipt: Receipt,
    changed: EntitySet,
}

/// Marks of asks that hold in a set, by a judgement that was made away from the checker; no marks where there is no such judgement.
fn known_in<'a>(judged: Option<&'a Judged>, topo: &GroupTopo, up: &EntitySet) -> &'a [bool]
    requires { MarksOf topo.now up.now }
    ensures { AreKept topo.now (is_in up.now) result.now }
{
    match judged {
        Some(judged) => judged.known_in(topo, up),
        None => &[],
    }
}

/// The first demand that breaks from one set to another, by a judgement of just these sets that was made away from the checker; None where
/// there is no such judgement.
fn found_in<'a>(
    judged: Option<&'a Judged>,
    topo: &GroupTopo,
    before: &EntitySet,
    after: &EntitySet,
) -> Option<&'a Option<Broken>>
    requires before { MarksOf topo.now before.now }
    requires after { MarksOf topo.now after.now }
    ensures { IfSome result (λ first. first.now ≡ first_broken_of topo.now (is_in before.now) (is_in after.now)) }
{
    judged?.found_in(topo, before, after)
}

/// The cause to refuse a proposal of which this is the first demand that breaks; None where no demand does.
fn cause_of(alloc: Global, first: &Option<Broken>) -> Result<Option<Cause>, AllocError>
    ensures { IfOk result (λ cause. cause ≡ option_map broken_cause first.now) }
{
    match first {
        Some(broken) => Ok(Some(Cause::Broken(broken.copy(alloc)?))),
        None => Ok(None),
    }
}

/// The verdict: a refusal for this cause, or else an acceptance, where the target has this version.
fn verdict_of(refusal: Option<Cause>, version: u32) -> Verdict
    requires { version + 1 < 2 ^ 32 }
    ensures { result ≡ refusal_or_version refusal version }
{
    match refusal {
        Some(cause) => Verdict::Refused(cause),
        None => Verdict::Accepted {
            version: version + 1,
        },
    }
}

impl Control {
    /// Judges the rows of a proposal by themselves, without what the group asks of the network.
    fn weigh_rows(&self, proposal: &Pending) -> Result<Weighed, AllocError>
        requires { RowsFit self.now.group proposal.now.rows }
        ensures judged { IfOk result (AreJudgedIn self.now (proposal_of proposal.now)) }
        ensures latest { IsLatest self.now.store }
    {
        let rows = proposal.rows.as_slice();
        let table = self.store.target();
        let changed = changed(self.alloc, &self.topo, table, rows)?;
        let refusal = judge_rows(
            &self.topo,
            self.store.observed(),
            table,
            &self.locks,
            proposal.app,
            rows,
        );
        Ok(Weighed { refusal, changed })
    }

    /// The first demand that would break while these entities change, as a cause. A judgement of just the same sets, made away from the
    /// checker, is taken over. Of another judgement only the asks are taken over that the judgement shows to hold in these sets too.
    fn broken(
        &mut self,
        changed: &EntitySet,
        judged: Option<&Judged>,
    ) -> Result<Option<Cause>, AllocError>
        requires { MarksOf self.old.group changed.now }
        ensures broken { IfOk result (λ cause. cause ≡ option_map broken_cause (first_broken_without self.old changed.now)) }
        ensures same { IsSameButRuns self.old self.new }
        ensures runs { self.old.flows_run ≤ self.new.flows_run }
    {
        let SureSets { sure, after } = self.sure_sets(changed)?;
        if let Some(first) = found_in(judged, &self.topo, &sure, &after) {
            return cause_of(self.alloc, first);
        }
        let known = known_in(judged, &self.topo, &after);
        let broken = self.book.judge_rest(&self.topo, known, &sure, &after)?;
        Ok(broken.map(Cause::Broken))
    }

    /// Judges a proposal whose rows were judged: where the rows give no cause to refuse the proposal, the group's demands are judged.
    fn weigh(&mut self, rows: Weighed, judged: Option<&Judged>) -> Result<Weighed, AllocError>
        requires marks { MarksOf self.old.group rows.changed }
        ensures judged { (p : Proposal) → AreJudgedIn self.old p rows → IfOk result (IsJudgedIn self.old p) }
        ensures same { IsSameButRuns self.old self.new }
        ensures runs { self.old.flows_run ≤ self.new.flows_run }
    {
        let Weighed { refusal, changed } = rows;
        match refusal {
            Some(cause) => Ok(Weighed {
                refusal: Some(cause),
                changed,
            }),
            None => Ok(Weighed {
                refusal: self.broken(&changed, judged)?,
                changed,
            }),
        }
    }

    /// What is to be decided of the oldest proposal as entry number `entry`, by how the checker stands now. Nothing changes but the count
    /// of runs.
    fn judge_oldest(&mut self, entry: u32, judged: Option<&Judged>) -> Result<Decision, AllocError>
        requires waits { 0 < length self.old.store.pending }
        requires version { self.old.store.version + 1 < 2 ^ 32 }
        ensures due { IfOk result (IsDue self.new) }
        ensures ticket { IfOk result (λ decision. decision.receipt.ticket ≡ length self.old.store.decided + 1) }
        ensures entry { IfOk result (λ decision. decision.receipt.entry ≡ entry) }
        ensures latest { IsLatest self.new.store }
        ensures same { IsSameButRuns self.old self.new }
        ensures runs { self.old.flows_run ≤ self.new.flows_run }
    {
        let version = self.store.version();
        let Some(oldest) = self.store.oldest() else {
            unreachable!()
        };
        let ticket = oldest.ticket;
        let rows = self.weigh_rows(oldest)?;
        let Weighed { refusal, changed } = self.weigh(rows, judged)?;
        let receipt = Receipt {
            ticket,
            entry,
            verdict: verdict_of(refusal, version),
        };
        Ok(Decision { receipt, changed })
    }

    /// Decides the oldest proposal by a decision that is due. At `Err` nothing has changed.
    fn decide(&mut self, decision: &Decision) -> Result<(), AllocError>
        requires due { IsDue self.old decision.now }
        requires latest { IsLatest self.old.store }
        requires version { self.old.store.version + 1 < 2 ^ 32 }
        ensures ok { OnOk result (Moves self.old self.new decision.now.receipt.entry check_event (decided_reply decision.now.receipt)) }
        ensures err { OnErr result (self.new ≡ self.old) }
        ensures runs { self.new.flows_run ≡ self.old.flows_run }
    {
        let entry = decision.receipt.entry;
        match &decision.receipt.verdict {
            Verdict::Refused(_) => {
                let _version = self.store.decide(entry, false)?;
                Ok(())
            }
            Verdict::Accepted { .. } => {
                let _version = self.store.decide(entry, true)?;
                // What follows cannot fail.
                stamp_all(
                    &self.topo,
                    self.stamps.as_mut_slice(),
                    &decision.changed,
                    entry,
                );
                Ok(())
            }
        }
    }

    /// Judges and decides the oldest proposal, as entry number `entry`. At `Err` nothing has changed but the count of runs.
    pub(crate) fn decide_oldest(
        &mut self,
        entry: u32,
        judged: Option<&Judged>,
    ) -> Result<Receipt, AllocError>
        requires waits { 0 < length self.old.store.pending }
        requires version { self.old.store.version + 1 < 2 ^ 32 }
        ensures ok { IfOk result (λ receipt. Moves self.old self.new entry check_event (decided_reply receipt)) }
        ensures ticket { IfOk result (λ receipt. receipt.ticket ≡ length self.old.store.decided + 1) }
        ensures err { OnErr result (IsSameButRuns self.old self.new) }
        ensures runs { self.old.flows_run ≤ self.new.flows_run }
    {
        let decision = self.judge_oldest(entry, judged)?;
        self.decide(&decision)?;
        Ok(decision.receipt)
    }

    /// Does what `decide_oldest` does, and gives the receipt twice: a journal keeps one.
    pub(crate) fn decide_oldest_twice(
        &mut self,
        entry: u32,
        judged: Option<&Judged>,
    ) -> Result<Twice<Receipt>, AllocError>
        requires waits { 0 < length self.old.store.pending }
        requires version { self.old.store.version + 1 < 2 ^ 32 }
        ensures ok { IfOk result (λ receipts. Moves self.old self.new entry check_event (decided_reply receipts.told)) }
        ensures ticket { IfOk result (λ receipts. receipts.told.ticket ≡ length self.old.store.decided + 1) }
        ensures kept { IfOk result (λ receipts. receipts.kept ≡ receipts.told) }
        ensures err { OnErr result (IsSameButRuns self.old self.new) }
        ensures runs { self.old.flows_run ≤ self.new.flows_run }
    {
        let decision = self.judge_oldest(entry, judged)?;
        // The copy comes first: it can fail, and once the proposal is decided that is too late.
        let kept = decision.receipt.copy(self.alloc)?;
        self.decide(&decision)?;
        Ok(Twice {
            told: decision.receipt,
            kept,
        })
    }

    /// Decides the oldest proposal, as entry number `entry`. The target's version has to be below 4294967295. At `Err` nothing has changed
    /// but the count of runs.
    pub fn check(&mut self, entry: u32) -> Result<Check, AllocError>
        requires version { self.old.store.version + 1 < 2 ^ 32 }
        ensures ok { IfOk result (λ check. Moves self.old self.new entry check_event (reply_of_check check)) }
        ensures err { OnErr result (IsSameButRuns self.old self.new) }
        ensures runs { self.old.flows_run ≤ self.new.flows_run }
    {
        if self.store.oldest().is_none() {
            return Ok(Check::Idle);
        }
        Ok(Check::Decided(self.decide_oldest(entry, None)?))
    }

    /// Does what `check` does, and gives the answer twice: one to hand out and one to enter in a journal. The receipt is copied before the
    /// proposal is decided, since a copy can be refused memory. The target's version has to be below 4294967295. At `Err` nothing has
    /// changed but the count of runs.
    pub fn check_twice(&mut self, entry: u32) -> Result<Twice<Check>, AllocError>
        requires version { self.old.store.version + 1 < 2 ^ 32 }
        ensures ok { IfOk result (λ checks. Moves self.old self.new entry check_event (reply_of_check checks.told)) }
        ensures kept { IfOk result (λ checks. checks.kept ≡ checks.told) }
        ensures err { OnErr result (IsSameButRuns self.old self.new) }
        ensures runs { self.old.flows_run ≤ self.new.flows_run }
    {
        if self.store.oldest().is_none() {
            return Ok(Twice {
                told: Check::Idle,
                kept: Check::Idle,
            });
        }
        let Twice { told, kept } = self.decide_oldest_twice(entry, None)?;
        Ok(Twice {
            told: Check::Decided(told),
            kept: Check::Decided(kept),
        })
    }
}
