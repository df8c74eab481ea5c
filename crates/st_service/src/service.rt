//! The rooms behind their locks. Threads share a service, and each carries a pass of its own through the service's calls. A call holds one
//! lock at the most.

ghost use Rattle.std.specs.Prelude.{◌≡◌, ◌+◌, ◌*◌, ◌^◌, ◌<◌, ◌≤◌, List, length, IfOk, OnOk};
ghost use Rattle.std.specs.Sync.Mutex.{mutex_guard_value};
ghost use Rattle.st_world.specs.Rounds.{unsettled as unsettled_lem};
ghost use Rattle.st_service.specs.Kept.{Kept};
ghost use Rattle.st_service.specs.Made.{Made, past_in};
ghost use Rattle.st_service.specs.Passes.{front_at, mine_at, IsTaught};
ghost use Rattle.st_service.specs.Puts.{Enters};
ghost use Rattle.st_service.specs.Shares.{work_share};
ghost use Rattle.st_service.specs.Works.{MayDo, WorkFits, course_at};

use crate::locked::Locked;
use crate::naming::Naming;
use crate::pass::Pass;
use crate::work::Work;
use st_net::Entity;
use st_world::Going;
use std::alloc::{AllocError, Global};
use std::sync::ledger::{Ledger, Share, Total};
use std::sync::{Mutex, MutexGuard, Wait};

/// The share to which the others come back at the end. This share lies behind a lock, since a share is not `Sync`.
#[derive(Drop)]
pub struct Own<L: Ledger> {
    pub(crate) share: Share<L>,
    pub ghost part: { (share.parts ≡ 1) × (share.amount ≡ 0) },
}

/// The rooms, each behind its lock, of so many passes, the first of which are the applications'. `H` is the handle by which a board is
/// ended: dropping a service ends its boards, which may wait for readers.
#[derive(Drop)]
pub struct Service<J: Naming, L: Ledger, H: Wait + Drop> {
    pub(crate) rooms: Vec<Mutex<Locked<J, L, H>>>,
    pub(crate) total: Total<L>,
    pub(crate) own: Mutex<Own<L>>,
    pub(crate) apps: u32,
    pub(crate) passes: usize,
    pub ghost parts: { total.parts ≡ passes + length rooms.items + 1 },
    pub ghost amount: { total.amount ≡ 200000 * length rooms.items },
    pub ghost few: { length rooms.items ≤ 16 },
    pub ghost apps_first: { apps ≤ passes },
}

/// What is answered where a room stands at another number than its own, which never comes: `Service::start` puts each room at its number,
/// and no call moves one. A proof knows only the type of what lies under a lock, and a type can't name the lock's place. So the room's
/// number is asked.
pub(crate) fn cannot_be() -> AllocError {
    AllocError
}

impl<J: Naming, L: Ledger, H: Wait + Drop> Service<J, L, H> {
    /// The room of a number, under the room's lock. May wait for the room, and is never refused (`cannot_be`).
    pub(crate) fn room_at<R: Wait>(
        &self,
        rt: &R,
        group: usize,
    ) -> Result<MutexGuard<'_, Locked<J, L, H>>, AllocError>
        requires room { group < length self.now.rooms.items }
        ensures group { IfOk result (λ room. (mutex_guard_value room).group ≡ group) }
    {
        let room = self.rooms[group].lock(rt);
        if room.group != group {
            return Err(cannot_be());
        }
        Ok(room)
    }

    /// Does a work in a room, under one hold of the room's lock. May wait for the room.
    pub(crate) fn work<R: Wait>(
        &self,
        rt: &R,
        alloc: Global,
        pass: &mut Pass<J, L>,
        group: usize,
        work: Work<'_>,
    ) -> Result<Going, AllocError>
        requires room { (group < length self.now.rooms.items) × (length pass.old.fronts ≡ length self.now.rooms.items) }
        requires fits { WorkFits work (J.group group) }
        requires may { MayDo work (past_in (front_at pass.old.fronts group)) }
        ensures kept { Kept pass.old pass.new group (work_share work.entry (J.group group) (J.lines group)) }
        ensures log { pass.new.log ≡ pass.old.log }
        ensures entered { IfOk result (λ going. (mid : List Made) × Enters (course_at pass.old.number work.entry (J.group group) (J.lines group)) going pass.old.number mid (front_at pass.old.fronts group) (mine_at pass.old.mines group) (front_at pass.new.fronts group) (mine_at pass.new.mines group)) }
        ensures reads { IfOk result (λ _. IsTaught pass.new group) }
    {
        let mut room = self.room_at(rt, group)?;
        pass.work_in(alloc, &mut room, work)
    }

    /// Teaches a pass a room's latest front. May wait for the room.
    pub(crate) fn look<R: Wait>(
        &self,
        rt: &R,
        pass: &mut Pass<J, L>,
        group: usize,
    ) -> Result<(), AllocError>
        requires room { (group < length self.now.rooms.items) × (length pass.old.fronts ≡ length self.now.rooms.items) }
        ensures kept { Kept pass.old pass.new group 0 }
        ensures log { pass.new.log ≡ pass.old.log }
        ensures reads { OnOk result (IsTaught pass.new group) }
    {
        let mut room = self.room_at(rt, group)?;
        pass.look_in(&mut room)
    }

    /// The entities that are not settled in a room's latest front, which the pass is taught. May wait for the room.
    pub(crate) fn unsettled<R: Wait>(
        &self,
        rt: &R,
        pass: &mut Pass<J, L>,
        group: usize,
    ) -> Result<Vec<Entity>, AllocError>
        requires room { (group < length self.now.rooms.items) × (length pass.old.fronts ≡ length self.now.rooms.items) }
        ensures kept { Kept pass.old pass.new group 0 }
        ensures log { pass.new.log ≡ pass.old.log }
        ensures entities { IfOk result (λ entities. entities.items ≡ unsettled_lem (J.group group) (past_in (front_at pass.new.fronts group))) }
        ensures few { IfOk result (λ entities. length entities.items < 2 ^ 32) }
        ensures reads { IfOk result (λ _. IsTaught pass.new group) }
    {
        let mut room = self.room_at(rt, group)?;
        match pass.look_in(&mut room) {
            Ok(()) => room.room.unsettled(),
            Err(error) => Err(error),
        }
    }

    /// Ends the service without its passes, at any time. May wait for readers, and cannot be refused.
    pub fn give_up(self) {}
}
