//! The acts of an application, done by its pass on a service. Each kind of act is a hold, a chain of holds, or a read that takes no lock.

ghost use Rattle.std.specs.Prelude.{◌≡◌, ◌<◌, ◌++◌, ◌∷◌, [], length, IfOk, OnOk, OnErr};
ghost use Rattle.st_net.specs.Groups.{IsEntityOf};
ghost use Rattle.st_world.specs.Acts.{group_number as group_number_lem, seen_at as seen_at_lem};
ghost use Rattle.st_world.specs.declared.world.rounds.Going.TheVariants.{On as all_done, Full as met_full};
ghost use Rattle.st_service.specs.Acts.{ActDone, ActFull, Acts, CanDo};
ghost use Rattle.st_service.specs.Kept.{Kept};
ghost use Rattle.st_service.specs.Made.{past_in};
ghost use Rattle.st_service.specs.Passes.{front_at, IsTaught};
ghost use Rattle.st_service.specs.Shares.{act_share};

use crate::naming::Naming;
use crate::pass::Pass;
use crate::service::Service;
use crate::work::Work;
use st_crew::{Gate, Point};
use st_event::Act;
use st_net::{Entity, Var};
use st_world::{Going, group_number};
use std::alloc::{AllocError, Global};
use std::sync::Wait;
use std::sync::ledger::Ledger;
use std::thread::Threads;

/// The answer to an act.
#[derive(Clone, Copy, Debug, PartialEq, Eq)]
pub enum Acted {
    /// All that the act asks for was entered, or logged.
    Done,
    /// An event met the journal of this group full. What was entered before stands.
    JournalFull { group: u32 },
}

impl<J: Naming, L: Ledger, H: Wait + Drop> Service<J, L, H> {
    /// Does an act for the pass of an application. An act that takes the lock of a room teaches the pass the room's latest front, and what
    /// that front overlays the target with; a read takes no lock, and the gate is called behind the read; the checks of an await are judged
    /// off the lock, and the gate is called before each. Entries made before a refusal stand, and are in the pass's list. Where a
    /// publication is refused the room is spent: this call answers want of memory, and so does each later call that takes the room's lock,
    /// and enters nothing. A read goes on. At `Err` nothing is logged. What is said of a spent room stands in clauses inside the crate
    /// (`Room::work`, `Locked::work`). May wait for the room, and for readers.
    pub fn step_app<R: Threads + Wait + Sync, G: Gate>(
        &self,
        rt: &R,
        alloc: Global,
        pass: &mut Pass<J, L>,
        act: &Act,
        gate: &G,
    ) -> Result<Acted, AllocError>
        requires app { pass.old.number < self.now.apps }
        requires rooms { length pass.old.fronts ≡ length self.now.rooms.items }
        requires act { CanDo J.group (length self.now.rooms.items) act.now }
        ensures kept { Kept pass.old pass.new (group_number_lem act.now) (act_share act.now (J.group (group_number_lem act.now)) (J.lines (group_number_lem act.now))) }
        ensures done { IfOk result (λ acted. Acts acted act.now (J.group (group_number_lem act.now)) (J.lines (group_number_lem act.now)) pass.old pass.new) }
        ensures err { OnErr result (pass.new.log ≡ pass.old.log) }
    {
        let group = group_number(act);
        match self.act(rt, alloc, pass, act, gate)? {
            Going::On => Ok(Acted::Done),
            Going::Full => Ok(Acted::JournalFull { group }),
        }
    }

    /// Does an act for a pass. At `Full` an event met the journal of the act's group full.
    fn act<R: Threads + Wait + Sync, G: Gate>(
        &self,
        rt: &R,
        alloc: Global,
        pass: &mut Pass<J, L>,
        act: &Act,
        gate: &G,
    ) -> Result<Going, AllocError>
        requires rooms { length pass.old.fronts ≡ length self.now.rooms.items }
        requires act { CanDo J.group (length self.now.rooms.items) act.now }
        ensures kept { Kept pass.old pass.new (group_number_lem act.now) (act_share act.now (J.group (group_number_lem act.now)) (J.lines (group_number_lem act.now))) }
        ensures done { IfOk result (λ going. going ≡ all_done → ActDone act.now (J.group (group_number_lem act.now)) (J.lines (group_number_lem act.now)) pass.old pass.new) }
        ensures full { IfOk result (λ going. going ≡ met_full → ActFull act.now pass.old pass.new) }
        ensures err { OnErr result (pass.new.log ≡ pass.old.log) }
    {
        let group = group_number(act) as usize;
        match act {
            Act::Await { .. } => self.await_latest(rt, alloc, pass, group, gate),
            Act::Settle { rounds, .. } => self.settle(rt, alloc, pass, group, *rounds),
            Act::Read { entity, var, .. } => {
                pass.read(group, *entity, *var)?;
                gate.at(rt, Point::AfterRead { app: pass.number() });
                Ok(Going::On)
            }
            Act::ReadAt {
                version,
                entity,
                var,
                ..
            } => {
                self.read_at(rt, pass, group, *version, *entity, *var)?;
                Ok(Going::On)
            }
            Act::Propose { .. }
            | Act::Lock { .. }
            | Act::Unlock { .. }
            | Act::Fail { .. }
            | Act::Poll { .. } => self.work(rt, alloc, pass, group, Work::OneAct(act)),
            Act::Span { .. } => unreachable!(),
        }
    }

    /// Logs a variable's value at a version, by the room's latest front.
    fn read_at<R: Wait>(
        &self,
        rt: &R,
        pass: &mut Pass<J, L>,
        group: usize,
        version: u32,
        entity: Entity,
        var: Var,
    ) -> Result<(), AllocError>
        requires room { (group < length self.now.rooms.items) × (length pass.old.fronts ≡ length self.now.rooms.items) }
        requires fits { IsEntityOf (J.group group) entity }
        ensures kept { Kept pass.old pass.new group 0 }
        ensures logged { OnOk result (pass.new.log ≡ pass.old.log ++ record { group = group; entity = entity; var = var; saw = seen_at_lem (record { group = J.group group; past = past_in (front_at pass.new.fronts group) }) version entity var } ∷ []) }
        ensures reads { OnOk result (IsTaught pass.new group) }
        ensures err { OnErr result (pass.new.log ≡ pass.old.log) }
    {
        let mut room = self.room_at(rt, group)?;
        pass.read_at_in(&mut room, version, entity, var)
    }
}
