//! What lies under a room's lock: the room, and the line that tells which pass made each entry of the room's journal. Each hold of the lock
//! makes one call of this type, to which the place of a pass is lent; what else a hold asks, it asks of the room.

ghost use Rattle.std.specs.Prelude.{◌≡◌, ◌+◌, ◌<◌, true, false, length, IfOk, IsErr, OnOk, OnErr};
ghost use mathlib.Core.List.{IsPrefix};
ghost use Rattle.st_event.specs.Legal.{IsLegal};
ghost use Rattle.st_event.specs.Proposals.{overlays};
ghost use Rattle.st_service.specs.Kept.{Grows};
ghost use Rattle.st_service.specs.Lines.{flat};
ghost use Rattle.st_service.specs.Made.{past_in};
ghost use Rattle.st_service.specs.Puts.{Enters, EntersOrNot};
ghost use Rattle.st_service.specs.Rooms.{WasRefused};
ghost use Rattle.st_service.specs.Shares.{work_share};
ghost use Rattle.st_service.specs.Works.{MayDo, WorkFits, course_at};

use crate::makers::Makers;
use crate::naming::Naming;
use crate::place::Place;
use crate::room::Room;
use crate::work::Work;
use st_world::Going;
use std::alloc::{AllocError, Global};
use std::sync::Wait;
use std::sync::ledger::{Ledger, Share};

/// A room with the line of the room's journal.
#[derive(Drop)]
pub struct Locked<J: Naming, L: Ledger, H: Wait + Drop> {
    pub group: usize,
    pub room: Room<H>,
    pub makers: Makers<J, L>,
    pub ghost of_group: { makers.group ≡ group },
    pub ghost group_is: { room.history.group ≡ J.group group },
    pub ghost lines_are: { room.lines ≡ J.lines group },
    pub ghost board_is: { room.published.book ≡ J.board group },
    pub ghost kept: { past_in (flat makers.line.log) ≡ room.history.past },
    pub ghost left: { makers.units.amount + length room.history.past ≡ 200000 },
}

impl<J: Naming, L: Ledger, H: Wait + Drop> Locked<J, L, H> {
    /// Does a work for a pass, and teaches the pass the journal and what is published. At `Full` an event met a full journal; then, and at
    /// `Err`, a part of the events was entered, from the first, and stands. What was entered is the pass's, whatever the answer. A spent
    /// room stays as it is.
    pub fn work(
        &mut self,
        alloc: Global,
        place: &mut Place<J>,
        share: &mut Share<L>,
        work: Work<'_>,
    ) -> Result<Going, AllocError>
        requires group { place.old.group ≡ self.old.group }
        requires part { 0 < share.old.parts }
        requires fits { WorkFits work (J.group self.old.group) }
        requires may { MayDo work (past_in (flat place.old.seen.log)) }
        ensures group { self.new.group ≡ self.old.group }
        ensures place { (place.new.group ≡ place.old.group) × (place.new.number ≡ place.old.number) }
        ensures share { (share.new.parts ≡ share.old.parts) × (share.new.amount + length place.old.mine.items ≡ share.old.amount + length place.new.mine.items) }
        ensures entered { IfOk result (λ going. Enters (course_at place.old.number work.entry (J.group self.old.group) (J.lines self.old.group)) going place.old.number (flat self.old.makers.line.log) (flat place.old.seen.log) place.old.mine.items (flat place.new.seen.log) place.new.mine.items) }
        ensures journal { IfOk result (λ _. past_in (flat place.new.seen.log) ≡ self.new.room.history.past) }
        ensures refused { OnErr result (EntersOrNot (course_at place.old.number work.entry (J.group self.old.group) (J.lines self.old.group)) place.old.number (flat self.old.makers.line.log) (flat place.old.seen.log) place.old.mine.items (flat place.new.seen.log) place.new.mine.items) }
        ensures open { OnOk result (self.old.room.spent ≡ false) }
        ensures shut { self.old.room.spent ≡ true → self.new.room ≡ self.old.room }
        ensures spent { self.old.room.spent ≡ false → self.new.room.spent ≡ true → WasRefused self.old.room self.new.room × IsErr result }
        ensures grows { Grows (work_share work.entry (J.group self.old.group) (J.lines self.old.group)) (flat place.old.seen.log) place.old.mine.items (flat place.new.seen.log) place.new.mine.items }
        ensures legal { IsLegal (J.group self.old.group) (past_in (flat place.old.seen.log)) → IsLegal (J.group self.old.group) (past_in (flat place.new.seen.log)) }
        ensures reader { IsPrefix place.old.reader.proposals place.new.reader.proposals }
        ensures reads { IfOk result (λ _. IsPrefix (overlays (past_in (flat place.new.seen.log))) place.new.reader.proposals) }
    {
        self.room.still_open()?;
        // First, since it may be refused: each entry that the work makes needs a place in the pass's list.
        place.mine.reserve(self.room.most_of(work))?;
        self.makers.has_all(place);
        let from = self.room.count();
        // No `?` here: at `Err` too what was entered is the pass's.
        let going = self.room.work(alloc, place.number, work);
        self.room.is_legal();
        let entries = self.room.since(from);
        self.makers.take_in(place, share, entries, from);
        self.room.tell(&mut place.reader, going)
    }

    /// Teaches a pass the journal and what is published. The room stays as it is.
    pub fn look(&mut self, place: &mut Place<J>) -> Result<(), AllocError>
        requires group { place.old.group ≡ self.old.group }
        ensures room { (self.new.group ≡ self.old.group) × (self.new.room ≡ self.old.room) }
        ensures place { (place.new.group ≡ place.old.group) × (place.new.number ≡ place.old.number) × (place.new.mine ≡ place.old.mine) }
        ensures seen { IsPrefix (flat place.old.seen.log) (flat place.new.seen.log) }
        ensures journal { OnOk result (past_in (flat place.new.seen.log) ≡ self.new.room.history.past) }
        ensures open { OnOk result (self.old.room.spent ≡ false) }
        ensures legal { IsLegal (J.group self.old.group) (past_in (flat place.old.seen.log)) → IsLegal (J.group self.old.group) (past_in (flat place.new.seen.log)) }
        ensures reader { IsPrefix place.old.reader.proposals place.new.reader.proposals }
        ensures reads { OnOk result (IsPrefix (overlays (past_in (flat place.new.seen.log))) place.new.reader.proposals) }
    {
        self.room.still_open()?;
        self.room.is_legal();
        self.makers.has_all(place);
        self.makers.show(place);
        place.reader.learn(&self.room.note(), self.room.target());
        Ok(())
    }
}
