//! Rounds in a room, each a chain of holds: one at which the entities that are not settled are listed, and one for each entity's turn; a
//! `round` or a half has one more, which counts what is left. The lock is given back between them.

ghost use Rattle.std.specs.Prelude.{◌≡◌, ◌*◌, ◌<◌, All, length, IfOk};
ghost use Rattle.st_net.specs.Groups.{IsEntityOf};
ghost use Rattle.st_service.specs.declared.work.Part.TheVariants.{Whole as whole, Update as update_half, Monitor as monitor_half};
ghost use Rattle.st_service.specs.Kept.{Kept};
ghost use Rattle.st_service.specs.Passes.{front_at, mine_at, IsTaught};
ghost use Rattle.st_service.specs.Shares.{round_share, turn_share};
ghost use Rattle.st_service.specs.Turns.{RoundTold, Settled, Turned};

use crate::naming::Naming;
use crate::pass::Pass;
use crate::service::Service;
use crate::work::{Part, Work};
use st_event::MAX_ENTRIES;
use st_net::Entity;
use st_world::{Going, Rounded};
use std::alloc::{AllocError, Global};
use std::sync::Wait;
use std::sync::ledger::Ledger;

impl<J: Naming, L: Ledger, H: Wait + Drop> Service<J, L, H> {
    /// The turns of these entities, or a half of each, each under one hold of the lock.
    fn turns<R: Wait>(
        &self,
        rt: &R,
        alloc: Global,
        pass: &mut Pass<J, L>,
        group: usize,
        part: Part,
        entities: &[Entity],
    ) -> Result<Going, AllocError>
        requires room { (group < length self.now.rooms.items) × (length pass.old.fronts ≡ length self.now.rooms.items) }
        requires fits { All (IsEntityOf (J.group group)) entities.now }
        ensures kept { Kept pass.old pass.new group (length entities.now * turn_share part (J.lines group)) }
        ensures log { pass.new.log ≡ pass.old.log }
        ensures teaches { IfOk result (λ _. IsTaught pass.old group → IsTaught pass.new group) }
        ensures turned { IfOk result (λ going. Turned going part (J.group group) (J.lines group) pass.old.number entities.now (front_at pass.old.fronts group) (mine_at pass.old.mines group) (front_at pass.new.fronts group) (mine_at pass.new.mines group)) }
    {
        for entity in entities {
            match self.work(rt, alloc, pass, group, Work::Turn(part, *entity))? {
                Going::On => {}
                Going::Full => return Ok(Going::Full),
            }
        }
        Ok(Going::On)
    }

    /// A round, or a half of one, of the entities that are not settled as the round begins.
    fn round_of<R: Wait>(
        &self,
        rt: &R,
        alloc: Global,
        pass: &mut Pass<J, L>,
        group: usize,
        part: Part,
    ) -> Result<Rounded, AllocError>
        requires room { (group < length self.now.rooms.items) × (length pass.old.fronts ≡ length self.now.rooms.items) }
        ensures kept { Kept pass.old pass.new group (round_share part (J.group group) (J.lines group)) }
        ensures log { pass.new.log ≡ pass.old.log }
        ensures told { IfOk result (λ rounded. RoundTold rounded part (J.group group) (J.lines group) pass.old.number (front_at pass.old.fronts group) (mine_at pass.old.mines group) (front_at pass.new.fronts group) (mine_at pass.new.mines group)) }
        ensures reads { IfOk result (λ _. IsTaught pass.new group) }
    {
        let entities = self.unsettled(rt, pass, group)?;
        match self.turns(rt, alloc, pass, group, part, &entities)? {
            Going::On => {
                let left = self.unsettled(rt, pass, group)?;
                Ok(Rounded::Did {
                    unsettled: left.len() as u32,
                })
            }
            Going::Full => Ok(Rounded::JournalFull {
                entries: MAX_ENTRIES as u32,
            }),
        }
    }

    /// A round for any pass: each entity that is not settled as the round begins has a turn, in order, under a hold of its own. `Did` says
    /// how many are not settled behind the round. At `JournalFull` an event met a full journal. What was entered before that, or before
    /// `Err`, stands. May wait for the room.
    pub fn round<R: Wait>(
        &self,
        rt: &R,
        alloc: Global,
        pass: &mut Pass<J, L>,
        group: u32,
    ) -> Result<Rounded, AllocError>
        requires room { (group < length self.now.rooms.items) × (length pass.old.fronts ≡ length self.now.rooms.items) }
        ensures kept { Kept pass.old pass.new group (round_share whole (J.group group) (J.lines group)) }
        ensures log { pass.new.log ≡ pass.old.log }
        ensures told { IfOk result (λ rounded. RoundTold rounded whole (J.group group) (J.lines group) pass.old.number (front_at pass.old.fronts group) (mine_at pass.old.mines group) (front_at pass.new.fronts group) (mine_at pass.new.mines group)) }
        ensures reads { IfOk result (λ _. IsTaught pass.new group) }
    {
        self.round_of(rt, alloc, pass, group as usize, Part::Whole)
    }

    /// The half of a round that updates: for each entity that is not settled as the half begins, a Send, the deliveries of the command that
    /// was sent, and a Finish. All else is as with `round`.
    pub fn update<R: Wait>(
        &self,
        rt: &R,
        alloc: Global,
        pass: &mut Pass<J, L>,
        group: u32,
    ) -> Result<Rounded, AllocError>
        requires room { (group < length self.now.rooms.items) × (length pass.old.fronts ≡ length self.now.rooms.items) }
        ensures kept { Kept pass.old pass.new group (round_share update_half (J.group group) (J.lines group)) }
        ensures log { pass.new.log ≡ pass.old.log }
        ensures told { IfOk result (λ rounded. RoundTold rounded update_half (J.group group) (J.lines group) pass.old.number (front_at pass.old.fronts group) (mine_at pass.old.mines group) (front_at pass.new.fronts group) (mine_at pass.new.mines group)) }
        ensures reads { IfOk result (λ _. IsTaught pass.new group) }
    {
        self.round_of(rt, alloc, pass, group as usize, Part::Update)
    }

    /// The half of a round that monitors: for each entity that is not settled as the half begins, a Report, and the hearings of that report.
    /// All else is as with `round`.
    pub fn monitor<R: Wait>(
        &self,
        rt: &R,
        alloc: Global,
        pass: &mut Pass<J, L>,
        group: u32,
    ) -> Result<Rounded, AllocError>
        requires room { (group < length self.now.rooms.items) × (length pass.old.fronts ≡ length self.now.rooms.items) }
        ensures kept { Kept pass.old pass.new group (round_share monitor_half (J.group group) (J.lines group)) }
        ensures log { pass.new.log ≡ pass.old.log }
        ensures told { IfOk result (λ rounded. RoundTold rounded monitor_half (J.group group) (J.lines group) pass.old.number (front_at pass.old.fronts group) (mine_at pass.old.mines group) (front_at pass.new.fronts group) (mine_at pass.new.mines group)) }
        ensures reads { IfOk result (λ _. IsTaught pass.new group) }
    {
        self.round_of(rt, alloc, pass, group as usize, Part::Monitor)
    }

    /// Rounds, so many at the most, stopping before one where every entity is settled.
    pub(crate) fn settle<R: Wait>(
        &self,
        rt: &R,
        alloc: Global,
        pass: &mut Pass<J, L>,
        group: usize,
        rounds: u32,
    ) -> Result<Going, AllocError>
        requires room { (group < length self.now.rooms.items) × (length pass.old.fronts ≡ length self.now.rooms.items) }
        ensures kept { Kept pass.old pass.new group (rounds * round_share whole (J.group group) (J.lines group)) }
        ensures log { pass.new.log ≡ pass.old.log }
        ensures teaches { IfOk result (λ _. 0 < rounds → IsTaught pass.new group) }
        ensures settled { IfOk result (λ going. Settled going (J.group group) (J.lines group) pass.old.number rounds (front_at pass.old.fronts group) (mine_at pass.old.mines group) (front_at pass.new.fronts group) (mine_at pass.new.mines group)) }
    {
        for _round in 0..rounds {
            let entities = self.unsettled(rt, pass, group)?;
            if entities.is_empty() {
                return Ok(Going::On);
            }
            match self.turns(rt, alloc, pass, group, Part::Whole, &entities)? {
                Going::On => {}
                Going::Full => return Ok(Going::Full),
            }
        }
        Ok(Going::On)
    }
}
