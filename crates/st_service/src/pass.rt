//! A pass: what a thread has seen of each room, and made there. A thread carries one through the calls of a service.

ghost use Rattle.std.specs.Prelude.{ℕ, ◌≡◌, ◌+◌, ◌<◌, ◌++◌, ◌∷◌, [], length, IfOk, IfSome, OnOk, OnErr};
ghost use Rattle.st_net.specs.Groups.{IsEntityOf};
ghost use Rattle.st_world.specs.Acts.{seen_at as seen_at_lem};
ghost use Rattle.st_service.specs.Kept.{Kept};
ghost use Rattle.st_service.specs.Lines.{flat};
ghost use Rattle.st_service.specs.Made.{past_in};
ghost use Rattle.st_service.specs.Passes.{front_at, mine_at, IsTaught, Reads};
ghost use Rattle.st_service.specs.Puts.{Enters};
ghost use Rattle.st_service.specs.Shares.{work_share};
ghost use Rattle.st_service.specs.Tickets.{latest_in};
ghost use Rattle.st_service.specs.Works.{IsGiven, MayDo, WorkFits, course_at};

use crate::locked::Locked;
use crate::naming::Naming;
use crate::place::Place;
use crate::work::Work;
use st_event::{LogEntry, LogSaw};
use st_net::{Entity, Items, Var};
use st_world::Going;
use std::alloc::{AllocError, Global};
use std::marker::Model;
use std::sync::Wait;
use std::sync::ledger::{Ledger, Share};

/// What one thread has seen of each room, the places of the entries that the thread made there, and its log.
#[derive(Drop)]
pub struct Pass<J: Naming, L: Ledger> {
    pub(crate) number: u32,
    pub(crate) places: Vec<Place<J>>,
    pub(crate) share: Share<L>,
    pub(crate) log: Items<LogEntry>,
}

impl<J: Naming, L: Ledger> Model for Pass<J, L> {
    ghost use Rattle.std.specs.Prelude.{◌≡◌, ◌<◌, ℕ, length, map, sum_by, slice_index_or};
    ghost use Rattle.st_service.specs.Lines.{flat};
    ghost use Rattle.st_event.specs.Legal.{IsLegal};
    ghost use Rattle.st_service.specs.Made.{past_in};
    ghost use Rattle.st_service.specs.Passes.{Holder};

    ghost Value = { Holder };

    ghost view = { λ p. record { number = p.number; fronts = map (λ q. flat q.seen.log) p.places.items; mines = map (λ q. q.mine.items) p.places.items; readers = map (λ q. q.reader) p.places.items; log = p.log } };

    ghost invariant = { λ p. ((k : ℕ) (d : _) → k < length p.places.items → ((slice_index_or p.places.items k d).group ≡ k) × ((slice_index_or p.places.items k d).number ≡ p.number) × IsLegal (J.group k) (past_in (flat (slice_index_or p.places.items k d).seen.log))) × (p.share.parts ≡ 1) × (p.share.amount ≡ sum_by (λ q. length q.mine.items) p.places.items) };
}

impl<J: Naming, L: Ledger> Pass<J, L> {
    /// A pass of no room yet.
    pub(crate) fn new(alloc: Global, number: u32, share: Share<L>) -> Pass<J, L>
        requires share { (share.parts ≡ 1) × (share.amount ≡ 0) }
        ensures { result ≡ record { number = number; fronts = []; mines = []; readers = []; log = [] } }
    {
        Pass {
            number,
            places: Vec::new(alloc),
            share,
            log: Items::none(alloc),
        }
    }

    /// Takes a place in the next room, of which nothing was seen, and where nothing was made. At `Err` nothing has changed.
    pub(crate) fn seat(&mut self, place: Place<J>) -> Result<(), AllocError>
        requires next { (place.group ≡ length self.old.fronts) × (place.number ≡ self.old.number) }
        requires opens { (place.seen.log ≡ []) × (place.mine.items ≡ []) }
        ensures ok { OnOk result (self.new ≡ record self.old { fronts = self.old.fronts ++ [] ∷ []; mines = self.old.mines ++ [] ∷ []; readers = self.old.readers ++ place.reader ∷ [] }) }
        ensures err { OnErr result (self.new ≡ self.old) }
    {
        self.places.push(place)?;
        Ok(())
    }

    /// The number of the pass: those of applications come first, in their order, and then those of workers.
    pub fn number(&self) -> u32
        ensures { result ≡ self.now.number }
    {
        self.number
    }

    /// In how many rooms the pass has a place.
    pub fn rooms(&self) -> usize
        ensures { result ≡ length self.now.fronts }
    {
        self.places.len()
    }

    /// What the pass has logged, in order.
    pub fn log(&self) -> &Items<LogEntry>
        ensures { result.now ≡ self.now.log }
    {
        &self.log
    }

    /// The ticket of the last proposal that the pass made in a room; `None` where the pass made none there. No lock is taken.
    pub fn latest(&self, group: usize) -> Option<u32>
        requires { group < length self.now.fronts }
        ensures latest { result ≡ latest_in (front_at self.now.fronts group) (mine_at self.now.mines group) }
        ensures given { IfSome result (λ ticket. IsGiven ticket (past_in (front_at self.now.fronts group))) }
    {
        self.places[group].latest
    }

    /// Does a work in a room that is lent to the pass.
    pub(crate) fn work_in<H: Wait + Drop>(
        &mut self,
        alloc: Global,
        room: &mut Locked<J, L, H>,
        work: Work<'_>,
    ) -> Result<Going, AllocError>
        requires room { room.old.group < length self.old.fronts }
        requires fits { WorkFits work (J.group room.old.group) }
        requires may { MayDo work (past_in (front_at self.old.fronts room.old.group)) }
        ensures kept { Kept self.old self.new room.old.group (work_share work.entry (J.group room.old.group) (J.lines room.old.group)) }
        ensures log { self.new.log ≡ self.old.log }
        ensures entered { IfOk result (λ going. Enters (course_at self.old.number work.entry (J.group room.old.group) (J.lines room.old.group)) going self.old.number (flat room.old.makers.line.log) (front_at self.old.fronts room.old.group) (mine_at self.old.mines room.old.group) (front_at self.new.fronts room.old.group) (mine_at self.new.mines room.old.group)) }
        ensures journal { IfOk result (λ _. past_in (front_at self.new.fronts room.old.group) ≡ room.new.room.history.past) }
        ensures reads { IfOk result (λ _. IsTaught self.new room.old.group) }
        ensures room { room.new.group ≡ room.old.group }
    {
        let group = room.group;
        room.work(alloc, &mut self.places[group], &mut self.share, work)
    }

    /// Learns what stands in a room that is lent to the pass. The room stays as it is.
    pub(crate) fn look_in<H: Wait + Drop>(
        &mut self,
        room: &mut Locked<J, L, H>,
    ) -> Result<(), AllocError>
        requires room { room.old.group < length self.old.fronts }
        ensures kept { Kept self.old self.new room.old.group 0 }
        ensures log { self.new.log ≡ self.old.log }
        ensures journal { OnOk result (past_in (front_at self.new.fronts room.old.group) ≡ room.new.room.history.past) }
        ensures reads { OnOk result (IsTaught self.new room.old.group) }
        ensures room { (room.new.group ≡ room.old.group) × (room.new.room ≡ room.old.room) }
    {
        let group = room.group;
        room.look(&mut self.places[group])
    }

    /// Logs a variable's value at a version, or that there is no such version, by a room that is lent to the pass.
    pub(crate) fn read_at_in<H: Wait + Drop>(
        &mut self,
        room: &mut Locked<J, L, H>,
        version: u32,
        entity: Entity,
        var: Var,
    ) -> Result<(), AllocError>
        requires room { (room.old.group < length self.old.fronts) × (room.old.group < 16) }
        requires fits { IsEntityOf (J.group room.old.group) entity }
        ensures kept { Kept self.old self.new room.old.group 0 }
        ensures logged { OnOk result (self.new.log ≡ self.old.log ++ record { group = room.old.group; entity = entity; var = var; saw = seen_at_lem (record { group = J.group room.old.group; past = past_in (front_at self.new.fronts room.old.group) }) version entity var } ∷ []) }
        ensures reads { OnOk result (IsTaught self.new room.old.group) }
        ensures err { OnErr result (self.new.log ≡ self.old.log) }
    {
        self.look_in(room)?;
        self.log.add(LogEntry {
            group: room.group as u32,
            entity,
            var,
            saw: room.room.seen_at(version, entity, var),
        })
    }

    /// Reads a variable's value in the published target of a group in whose room the pass has a place, and logs the value with the
    /// target's version. No lock is taken, and nobody waited for. At `Err` nothing is logged; what the pass's reader has caught up with
    /// stays.
    pub fn read(&mut self, group: usize, entity: Entity, var: Var) -> Result<(), AllocError>
        requires room { (group < length self.old.fronts) × (group < 16) }
        requires fits { IsEntityOf (J.group group) entity }
        ensures kept { Kept self.old self.new group 0 }
        ensures entries { (self.new.fronts ≡ self.old.fronts) × (self.new.mines ≡ self.old.mines) }
        ensures logged { OnOk result (Reads (J.group group) group entity var self.old self.new) }
        ensures err { OnErr result (self.new.log ≡ self.old.log) }
    {
        let seen = self.places[group].read(entity, var);
        self.log.add(LogEntry {
            group: group as u32,
            entity,
            var,
            saw: LogSaw::Seen {
                version: seen.version,
                value: seen.value,
            },
        })
    }
}
