//! Checks that are judged away from their checker: a basis is taken from the checker, and the judgement of the basis is committed to the
//! checker as one entry. A world calls both, and what lies between the two calls is `basis`.

ghost use Rattle.std.specs.Prelude.{◌≡◌, ◌↔◌, ◌+◌, ◌<◌, ◌≤◌, ◌^◌, length, IfOk, IsTrue, OnErr};
ghost use Rattle.st_event.specs.declared.event.Event.TheVariants.{Check as check_event};
ghost use Rattle.st_event.specs.declared.reply.Reply.TheVariants.{Decided as decided_reply};
ghost use Rattle.st_control.specs.Commits.{Begins, MayCommit, Commits};
ghost use Rattle.st_control.specs.Control.{IsSameButRuns, Moves};

use crate::basis::{Basis, Judged};
use crate::control::{Control, SureSets};
use crate::twice::Twice;
use st_event::Receipt;
use st_overlay::changed;
use std::alloc::AllocError;
use std::sync::Arc;

/// The answer to a begin.
#[derive(Drop)]
pub enum Begin {
    /// What the oldest proposal is judged on.
    Basis(Basis),
    /// No proposal is pending.
    Idle,
}

/// The answer to a commit.
#[derive(Drop)]
pub enum Commit {
    /// The judged proposal was decided.
    Decided(Receipt),
    /// The entry of this number had decided the judged proposal before.
    Gone { entry: u32 },
}

impl Control {
    /// What the oldest proposal is judged on, in copies but for the group, which is shared: so the proposal can be judged while the checker
    /// goes on. `Idle` comes exactly where no proposal is pending.
    pub fn begin_check(&self) -> Result<Begin, AllocError>
        ensures { IfOk result (Begins self.now) }
    {
        // The version is read for the proof alone: that call tells that tickets are counted, so that the oldest ticket was given.
        let _version = self.store.version();
        let Some(oldest) = self.store.oldest() else {
            return Ok(Begin::Idle);
        };
        let rows = oldest.rows.as_slice();
        let changed = changed(self.alloc, &self.topo, self.store.target(), rows)?;
        let SureSets { sure, after } = self.sure_sets(&changed)?;
        let topo = Arc::try_clone(&self.shared)?;
        let needs = self.book.needs().to_vec(self.alloc)?;
        let known = self.book.shown_in(&self.topo, &after)?;
        let ticket = oldest.ticket;
        Ok(Begin::Basis(Basis::new(topo, needs, ticket, sure, after, known)))
    }

    /// Whether a proposal that was judged away from the checker may be committed: this checker gave the proposal's ticket, and each lower
    /// ticket is decided.
    pub fn may_commit(&self, judged: &Judged) -> bool
        ensures { IsTrue result ↔ MayCommit self.now judged.now.ticket }
    {
        // The version is read for the proof alone: tickets are counted, so that a ticket that is decided was given.
        let _version = self.store.version();
        if self.store.decided(judged.ticket()).is_some() {
            return true;
        }
        match self.store.oldest() {
            Some(oldest) => oldest.ticket == judged.ticket(),
            None => false,
        }
    }

    /// Decides the judged proposal, which is the oldest that is pending, as entry number `entry`, and gives the receipt twice, as
    /// `check_twice` does. The verdict is that of how the checker stands now, whatever was judged. The target's version has to be below
    /// 4294967295. At `Err` nothing has changed but the count of runs.
    pub fn commit_twice(
        &mut self,
        entry: u32,
        judged: &Judged,
    ) -> Result<Twice<Receipt>, AllocError>
        requires oldest { judged.now.ticket ≡ length self.old.store.decided + 1 }
        requires given { judged.now.ticket ≤ self.old.store.tickets }
        requires version { self.old.store.version + 1 < 2 ^ 32 }
        ensures ok { IfOk result (λ receipts. Moves self.old self.new entry check_event (decided_reply receipts.told)) }
        ensures ticket { IfOk result (λ receipts. receipts.told.ticket ≡ judged.now.ticket) }
        ensures kept { IfOk result (λ receipts. receipts.kept ≡ receipts.told) }
        ensures err { OnErr result (IsSameButRuns self.old self.new) }
        ensures runs { self.old.flows_run ≤ self.new.flows_run }
    {
        // The version is read for the proof alone: tickets are counted, so that a ticket that was given and is not decided is pending.
        let _version = self.store.version();
        self.decide_oldest_twice(entry, Some(judged))
    }

    /// Decides a proposal that was judged away from the checker, as entry number `entry`. This checker gave the proposal's ticket, and each
    /// lower ticket is decided. `Gone` comes exactly where the ticket is decided too, and changes nothing. Else the verdict is that of how
    /// the checker stands now, whatever was judged. The target's version has to be below 4294967295. At `Err` nothing has changed but the
    /// count of runs.
    pub fn commit(&mut self, entry: u32, judged: &Judged) -> Result<Commit, AllocError>
        requires may { MayCommit self.old judged.now.ticket }
        requires version { self.old.store.version + 1 < 2 ^ 32 }
        ensures ok { IfOk result (Commits self.old self.new entry judged.now.ticket) }
        ensures err { OnErr result (IsSameButRuns self.old self.new) }
        ensures runs { self.old.flows_run ≤ self.new.flows_run }
    {
        if let Some(entry) = self.store.decided(judged.ticket()) {
            return Ok(Commit::Gone { entry });
        }
        // The version is read for the proof alone, as in `commit_twice`.
        let _version = self.store.version();
        let receipt = self.decide_oldest(entry, Some(judged))?;
        Ok(Commit::Decided(receipt))
    }
}
