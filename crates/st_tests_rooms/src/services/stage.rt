//! The stage of a test: a service of one room, with the room's group. What a call asks of its pass and its act is looked at as the test
//! runs, so that no scenario has to carry it along.

ghost use Rattle.std.specs.Prelude.{ℕ, ◌≡◌, ◌<◌, true, length, MatchBool, slice_index_or};
ghost use Rattle.st_net.specs.Entities.{is_var_of};
ghost use Rattle.st_net.specs.Groups.{Group};
ghost use Rattle.st_net.specs.Ranges.{is_health_of as is_health_of_lem};
ghost use Rattle.st_service.specs.Acts.{CanDo};

use st_crew::Gate;
use st_event::Act;
use st_net::{Entity, GroupTopo, Var, is_health_of};
use st_service::{Acted, Naming, OffLock, Pass, Service};
use st_world::{Rounded, group_number};
use std::alloc::{AllocError, Global};
use std::sync::Wait;
use std::sync::ledger::Ledger;
use std::thread::Threads;

/// Whether this is a variable that the tests read.
fn is_read(entity: Entity, var: Var) -> bool
    ensures { MatchBool result (is_var_of entity var ≡ true) (Unit {0}) }
{
    matches!((entity, var), (Entity::Device(_), Var::Firmware))
}

/// Whether this is a switch, and a health that it may have.
fn is_switch_health(entity: Entity, health: u32) -> bool
    ensures { MatchBool result (is_health_of_lem entity health ≡ true) (Unit {0}) }
{
    match entity {
        Entity::Device(_) => is_health_of(entity, health),
        Entity::Link(_) => false,
    }
}

/// Whether an act is on the first room, and fits its group.
fn can_do(topo: &GroupTopo, act: &Act) -> bool
    ensures { MatchBool result ((groups : ℕ → Group) → groups 0 ≡ topo.now → CanDo groups 1 act.now) (Unit {0}) }
{
    match act {
        Act::Propose { group, rows } => *group == 0 && topo.rows_fit(rows.as_slice()),
        Act::Await { group } => *group == 0,
        Act::Settle { group, rounds } => *group == 0 && *rounds > 0,
        Act::Lock { group, entity, .. }
        | Act::Unlock { group, entity, .. }
        | Act::Poll { group, entity } => *group == 0 && topo.has(*entity),
        Act::Read { group, entity, var }
        | Act::ReadAt {
            group,
            entity,
            var,
            ..
        } => { *group == 0 && topo.has(*entity) && is_read(*entity, *var) }
        Act::Fail {
            group,
            entity,
            health,
            rows,
        } => {
            *group == 0
                && topo.has(*entity)
                && is_switch_health(*entity, *health)
                && rows.as_slice().is_empty()
        }
        Act::Span { .. } => false,
    }
}

/// A service of one room with so many applications, and the group of that room.
#[derive(Drop)]
pub struct Stage<'a, J: Naming, L: Ledger, H: Wait + Drop> {
    pub alloc: Global,
    pub service: &'a Service<J, L, H>,
    pub topo: &'a GroupTopo,
    pub apps: u32,
    pub ghost group_is: { topo.now ≡ J.group 0 },
    pub ghost one_room: { length service.now.rooms.items ≡ 1 },
    pub ghost apps_are: { service.now.apps ≡ apps },
}

impl<J: Naming, L: Ledger, H: Wait + Drop> Stage<'_, J, L, H> {
    /// Whether the pass is of one room.
    fn has(&self, pass: &Pass<J, L>) -> bool
        ensures { MatchBool result (length pass.now.fronts ≡ 1) (Unit {0}) }
    {
        pass.rooms() == 1
    }

    /// Does an act for the pass of an application. Want of memory stands for an act that may not be done here, too.
    pub fn act<R: Threads + Wait + Sync, G: Gate>(
        &self,
        rt: &R,
        pass: &mut Pass<J, L>,
        act: &Act,
        gate: &G,
    ) -> Result<Acted, AllocError> {
        if !self.has(pass) || pass.number() >= self.apps || !can_do(self.topo, act) {
            return Err(AllocError);
        }
        self.service.step_app(rt, self.alloc, pass, act, gate)
    }

    /// Does these acts in order, each to its end.
    pub fn do_all<R: Threads + Wait + Sync, G: Gate>(
        &self,
        rt: &R,
        pass: &mut Pass<J, L>,
        acts: &[Act],
        gate: &G,
    ) -> Result<(), AllocError> {
        for act in acts {
            match self.act(rt, pass, act, gate)? {
                Acted::Done => {}
                Acted::JournalFull { .. } => return Err(AllocError),
            }
        }
        Ok(())
    }

    /// A check off the lock.
    pub fn check<R: Threads + Wait + Sync, G: Gate>(
        &self,
        rt: &R,
        pass: &mut Pass<J, L>,
        gate: &G,
    ) -> Result<OffLock, AllocError> {
        if !self.has(pass) {
            return Err(AllocError);
        }
        self.service.check_off_lock(rt, self.alloc, pass, 0, gate)
    }

    /// A round.
    pub fn round<R: Wait>(&self, rt: &R, pass: &mut Pass<J, L>) -> Result<Rounded, AllocError> {
        if !self.has(pass) {
            return Err(AllocError);
        }
        self.service.round(rt, self.alloc, pass, 0)
    }

    /// The half of a round that updates.
    pub fn update<R: Wait>(&self, rt: &R, pass: &mut Pass<J, L>) -> Result<Rounded, AllocError> {
        if !self.has(pass) {
            return Err(AllocError);
        }
        self.service.update(rt, self.alloc, pass, 0)
    }

    /// The half of a round that monitors.
    pub fn monitor<R: Wait>(&self, rt: &R, pass: &mut Pass<J, L>) -> Result<Rounded, AllocError> {
        if !self.has(pass) {
            return Err(AllocError);
        }
        self.service.monitor(rt, self.alloc, pass, 0)
    }
}

/// Whether this is the ticket of the last proposal that a pass made in its one room.
pub fn has_latest<J: Naming, L: Ledger>(pass: &Pass<J, L>, latest: Option<u32>) -> bool {
    pass.rooms() == 1 && pass.latest(0) == latest
}

/// Whether these are so many passes, in their order, each of one room.
pub fn are_passes_of<J: Naming, L: Ledger>(passes: &[Pass<J, L>], all: usize) -> bool
    ensures all { MatchBool result (length passes.now ≡ all) (Unit {0}) }
    ensures numbers { MatchBool result ((n : ℕ) (p : _) → n < length passes.now → (slice_index_or passes.now n p).number ≡ n) (Unit {0}) }
    ensures rooms { MatchBool result ((n : ℕ) (p : _) → n < length passes.now → length (slice_index_or passes.now n p).fronts ≡ 1) (Unit {0}) }
{
    for n in 0..passes.len() {
        if passes[n].number() as usize != n || passes[n].rooms() != 1 {
            return false;
        }
    }
    passes.len() == all
}
