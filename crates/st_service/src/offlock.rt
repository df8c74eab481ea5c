//! A check off the lock: a basis is taken under a room's lock, judged while others may hold the lock, and committed under the lock again.
//! Who commits first decides the ticket; who comes later is told by which entry.

ghost use Rattle.std.specs.Prelude.{◌≡◌, ◌<◌, None, length, IfOk};
ghost use Rattle.st_control.specs.Basis.{IsJudgedOf};
ghost use Rattle.st_world.specs.Commits.{Begins, IsBasisAt, MayCommit};
ghost use Rattle.st_service.specs.Kept.{Kept};
ghost use Rattle.st_service.specs.Made.{past_in};
ghost use Rattle.st_service.specs.OffLock.{ChecksOff, CommitsIn, IsToldOf, IsVerdictOf, off_of};
ghost use Rattle.st_service.specs.Passes.{front_at, mine_at, IsTaught};
ghost use Rattle.st_service.specs.Shares.{check_share};

use crate::locked::Locked;
use crate::naming::Naming;
use crate::pass::Pass;
use crate::service::Service;
use crate::work::Work;
use st_control::{Basis, Begin, Judged, judge_basis};
use st_crew::{Gate, Point};
use st_event::{Entry, MAX_ENTRIES, Receipt, Reply};
use st_world::{Committed, Going};
use std::alloc::{AllocError, Global};
use std::sync::Wait;
use std::sync::ledger::Ledger;
use std::thread::Threads;

/// The answer to a check off the lock.
#[derive(Drop)]
pub enum OffLock {
    /// The ticket that was the oldest is decided now, with this receipt, by one Check of the pass.
    Decided(Receipt),
    /// That ticket was decided meanwhile, by this entry, counted from 1. Nothing was entered.
    Gone { entry: u32 },
    /// Nothing was pending. Nothing was entered.
    Idle,
    /// The journal has as many entries as it may have, which is this number. Nothing was entered.
    JournalFull { entries: u32 },
}

/// Judges a basis, with no room at hand: so no lock is held meanwhile. The gate is called first.
fn judge_at<R: Threads + Wait + Sync, G: Gate>(
    rt: &R,
    alloc: Global,
    group: u32,
    basis: Basis,
    gate: &G,
) -> Result<Judged, AllocError>
    ensures { IfOk result (IsJudgedOf basis) }
{
    let ticket = basis.ticket();
    gate.at(rt, Point::BeforeJudge { group, ticket });
    judge_basis(rt, alloc, basis)
}

/// The receipt of the first of these entries, which is a verdict, in a copy.
fn receipt_in(alloc: Global, entries: &[Entry]) -> Result<Receipt, AllocError>
    requires { (receipt : _) × IsVerdictOf entries.now receipt }
    ensures { IfOk result (IsVerdictOf entries.now) }
{
    match entries.first() {
        Some(
            Entry {
                reply: Reply::Decided(receipt),
                ..
            },
        ) => receipt.copy(alloc),
        _ => unreachable!(),
    }
}

/// What is told of a commit that met no full journal: the entry that had decided the ticket before, or the receipt of the entry that the
/// commit made.
fn told_of(alloc: Global, gone: Option<u32>, made: &[Entry]) -> Result<Committed, AllocError>
    requires { gone ≡ None → (receipt : _) × IsVerdictOf made.now receipt }
    ensures { IfOk result (IsToldOf gone made.now) }
{
    match gone {
        Some(entry) => Ok(Committed::Gone { entry }),
        None => {
            let receipt = receipt_in(alloc, made)?;
            Ok(Committed::Did(receipt))
        }
    }
}

/// Commits a ticket in a room that is lent to a pass.
fn commit_in<J: Naming, L: Ledger, H: Wait + Drop>(
    alloc: Global,
    pass: &mut Pass<J, L>,
    room: &mut Locked<J, L, H>,
    judged: &Judged,
) -> Result<Committed, AllocError>
    requires room { room.old.group < length pass.old.fronts }
    requires may { MayCommit (past_in (front_at pass.old.fronts room.old.group)) judged.now.ticket }
    ensures kept { Kept pass.old pass.new room.old.group check_share }
    ensures log { pass.new.log ≡ pass.old.log }
    ensures committed { IfOk result (λ committed. CommitsIn committed (J.group room.old.group) judged.now.ticket pass.old.number (front_at pass.old.fronts room.old.group) (mine_at pass.old.mines room.old.group) (front_at pass.new.fronts room.old.group) (mine_at pass.new.mines room.old.group)) }
    ensures reads { IfOk result (λ _. IsTaught pass.new room.old.group) }
{
    let gone = room.room.decided(judged.ticket());
    let from = room.room.count();
    let going = pass.work_in(alloc, room, Work::Commit(judged))?;
    match going {
        Going::On => told_of(alloc, gone, room.room.since(from)),
        Going::Full => Ok(Committed::JournalFull {
            entries: MAX_ENTRIES as u32,
        }),
    }
}

/// What a check off the lock answers by its commit.
fn off_lock(committed: Committed) -> OffLock
    ensures { result ≡ off_of committed }
{
    match committed {
        Committed::Did(receipt) => OffLock::Decided(receipt),
        Committed::Gone { entry } => OffLock::Gone { entry },
        Committed::JournalFull { entries } => OffLock::JournalFull { entries },
    }
}

impl<J: Naming, L: Ledger, H: Wait + Drop> Service<J, L, H> {
    /// What the oldest proposal of a room is judged on, if one is pending. May wait for the room.
    fn begin<R: Wait>(
        &self,
        rt: &R,
        pass: &mut Pass<J, L>,
        group: usize,
    ) -> Result<Begin, AllocError>
        requires room { (group < length self.now.rooms.items) × (length pass.old.fronts ≡ length self.now.rooms.items) }
        ensures kept { Kept pass.old pass.new group 0 }
        ensures log { pass.new.log ≡ pass.old.log }
        ensures begins { IfOk result (Begins (record { group = J.group group; past = past_in (front_at pass.new.fronts group) })) }
        ensures reads { IfOk result (λ _. IsTaught pass.new group) }
    {
        let mut room = self.room_at(rt, group)?;
        match pass.look_in(&mut room) {
            Ok(()) => room.room.begin_check(),
            Err(error) => Err(error),
        }
    }

    /// Commits a ticket in a room. May wait for the room, and for readers.
    fn commit<R: Wait>(
        &self,
        rt: &R,
        alloc: Global,
        pass: &mut Pass<J, L>,
        group: usize,
        judged: &Judged,
    ) -> Result<Committed, AllocError>
        requires room { (group < length self.now.rooms.items) × (length pass.old.fronts ≡ length self.now.rooms.items) }
        requires may { MayCommit (past_in (front_at pass.old.fronts group)) judged.now.ticket }
        ensures kept { Kept pass.old pass.new group check_share }
        ensures log { pass.new.log ≡ pass.old.log }
        ensures committed { IfOk result (λ committed. CommitsIn committed (J.group group) judged.now.ticket pass.old.number (front_at pass.old.fronts group) (mine_at pass.old.mines group) (front_at pass.new.fronts group) (mine_at pass.new.mines group)) }
        ensures reads { IfOk result (λ _. IsTaught pass.new group) }
    {
        let mut room = self.room_at(rt, group)?;
        commit_in(alloc, pass, &mut room, judged)
    }

    /// Judges a basis that was taken in a room, and commits the basis's ticket there.
    pub(crate) fn decide<R: Threads + Wait + Sync, G: Gate>(
        &self,
        rt: &R,
        alloc: Global,
        pass: &mut Pass<J, L>,
        group: u32,
        basis: Basis,
        gate: &G,
    ) -> Result<Committed, AllocError>
        requires room { (group < length self.now.rooms.items) × (length pass.old.fronts ≡ length self.now.rooms.items) }
        requires basis { IsBasisAt (J.group group) (past_in (front_at pass.old.fronts group)) basis }
        ensures kept { Kept pass.old pass.new group check_share }
        ensures log { pass.new.log ≡ pass.old.log }
        ensures committed { IfOk result (λ committed. CommitsIn committed (J.group group) basis.ticket pass.old.number (front_at pass.old.fronts group) (mine_at pass.old.mines group) (front_at pass.new.fronts group) (mine_at pass.new.mines group)) }
        ensures reads { IfOk result (λ _. IsTaught pass.new group) }
    {
        match judge_at(rt, alloc, group, basis, gate) {
            Ok(judged) => self.commit(rt, alloc, pass, group as usize, &judged),
            Err(error) => Err(error),
        }
    }

    /// A check for any pass, which is judged off the lock. Under the lock a basis is taken of the oldest proposal; the gate is called at
    /// `BeforeJudge`, and the basis judged, with no lock held; and the ticket is committed under the lock, by what is sure then. `Idle`
    /// comes only where nothing was pending at the first lock. At `Err` a Check may have been entered, which stands and is in the pass's
    /// list; a room whose publication is refused is spent, as by an act. May wait for the room, and for readers.
    pub fn check_off_lock<R: Threads + Wait + Sync, G: Gate>(
        &self,
        rt: &R,
        alloc: Global,
        pass: &mut Pass<J, L>,
        group: u32,
        gate: &G,
    ) -> Result<OffLock, AllocError>
        requires room { (group < length self.now.rooms.items) × (length pass.old.fronts ≡ length self.now.rooms.items) }
        ensures kept { Kept pass.old pass.new group check_share }
        ensures log { pass.new.log ≡ pass.old.log }
        ensures checked { IfOk result (λ off. ChecksOff off (J.group group) pass.old.number (front_at pass.old.fronts group) (mine_at pass.old.mines group) (front_at pass.new.fronts group) (mine_at pass.new.mines group)) }
        ensures reads { IfOk result (λ _. IsTaught pass.new group) }
    {
        let begun = self.begin(rt, pass, group as usize)?;
        match begun {
            Begin::Basis(basis) => {
                let committed = self.decide(rt, alloc, pass, group, basis, gate)?;
                Ok(off_lock(committed))
            }
            Begin::Idle => Ok(OffLock::Idle),
        }
    }
}
