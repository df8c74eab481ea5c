//! A table with the holders of each entity's two locks, found by the entity's number. No call takes memory but the making of
//! the table.

ghost use Rattle.std.specs.Prelude.{◌≡◌, IfOk, None, Some, option_map};
ghost use Rattle.st_net.specs.Holders.{holder_freed, effective_of};
ghost use Rattle.st_locks.specs.LockRows.{IsLockIn, holders_with, holder_of, holder_in, lock_set, HasSameLocks, LocksOf, pair_of};
ghost use Rattle.st_locks.specs.Answers.{grant_of, release_of, holder_granted, holder_released, HeldChangesNothing, NotYoursChangesNothing};

use st_net::{AppId, Entity, GroupTopo, Prio};
use std::alloc::{AllocError, Global};
use std::marker::Model;

/// The answer to a request for a lock.
#[derive(Clone, Copy, Debug, PartialEq, Eq)]
pub enum Grant {
    /// The lock is the caller's; it may have been before.
    Granted,
    /// Another application holds the lock.
    Held { holder: AppId },
}

/// The answer to a release of a lock.
#[derive(Clone, Copy, Debug, PartialEq, Eq)]
pub enum Release {
    /// The caller held the lock, and nobody holds it now.
    Released,
    /// The caller does not hold the lock; this is who does.
    NotYours { holder: Option<AppId> },
}

/// The holders of one entity's locks.
#[derive(Clone, Copy, Debug, PartialEq, Eq)]
struct Holders {
    low: Option<AppId>,
    high: Option<AppId>,
}

/// Who holds the locks of each entity of a group. Contracts see the holders of each device's and of each link's locks, in
/// order.
#[derive(Drop)]
pub struct LockTable {
    devices: Vec<Holders>,
    links: Vec<Holders>,
}

impl Model for LockTable {
    ghost use Rattle.st_locks.specs.LockRows.{LockRows};

    ghost Value = { LockRows };

    ghost view = { λ t. record { devices = t.devices.items; links = t.links.items } };
}

impl Holders {
    /// The holder of one of the locks.
    fn get(self, prio: Prio) -> Option<AppId>
        ensures { result ≡ holder_of self prio }
    {
        match prio {
            Prio::Low => self.low,
            Prio::High => self.high,
        }
    }

    /// These holders with one lock's replaced.
    fn with(self, prio: Prio, holder: Option<AppId>) -> Holders
        ensures { result ≡ holders_with self prio holder }
    {
        let Holders { low, high } = self;
        match prio {
            Prio::Low => Holders { low: holder, high },
            Prio::High => Holders { low, high: holder },
        }
    }
}

impl LockTable {
    /// Nobody holds a lock.
    pub fn start(alloc: Global, topo: &GroupTopo) -> Result<LockTable, AllocError>
        ensures of { IfOk result (LocksOf topo.now) }
        ensures free { IfOk result (λ table. holder_in table ≡ (λ e prio. None)) }
    {
        let none = Holders {
            low: None,
            high: None,
        };
        Ok(LockTable {
            devices: vec![in alloc; none; topo.device_count() as usize]?,
            links: vec![in alloc; none; topo.link_count() as usize]?,
        })
    }

    /// Who holds a lock of an entity: None exactly where nobody does.
    pub fn holder(&self, e: Entity, prio: Prio) -> Option<AppId>
        requires { IsLockIn self.now e }
        ensures { result ≡ holder_in self.now e prio }
    {
        match e {
            Entity::Device(i) => self.devices[i as usize].get(prio),
            Entity::Link(i) => self.links[i as usize].get(prio),
        }
    }

    /// The holder that counts, and by which lock: of the high lock, or else of the low one. None exactly where nobody holds
    /// either.
    pub fn effective(&self, e: Entity) -> Option<(AppId, Prio)>
        requires { IsLockIn self.now e }
        ensures { result ≡ option_map pair_of (effective_of (holder_in self.now) e) }
    {
        match self.holder(e, Prio::High) {
            Some(app) => Some((app, Prio::High)),
            None => match self.holder(e, Prio::Low) {
                Some(app) => Some((app, Prio::Low)),
                None => None,
            },
        }
    }

    /// Replaces the holder of a lock.
    fn set(&mut self, e: Entity, prio: Prio, holder: Option<AppId>)
        requires { IsLockIn self.old e }
        ensures { self.new ≡ lock_set self.old e prio holder }
    {
        match e {
            Entity::Device(i) => {
                let holders = self.devices[i as usize];
                self.devices[i as usize] = holders.with(prio, holder);
            }
            Entity::Link(i) => {
                let holders = self.links[i as usize];
                self.links[i as usize] = holders.with(prio, holder);
            }
        }
    }

    /// Gives a lock to an application, unless another holds it. Its own repeated request is granted again. At `Held` nothing
    /// changes.
    pub fn grant(&mut self, app: AppId, e: Entity, prio: Prio) -> Grant
        requires { IsLockIn self.old e }
        ensures answer { result ≡ grant_of app (holder_in self.old e prio) }
        ensures holders { holder_in self.new ≡ holder_granted result (holder_in self.old) e prio app }
        ensures held { HeldChangesNothing result self.old self.new }
        ensures same { HasSameLocks self.old self.new }
    {
        match self.holder(e, prio) {
            Some(holder) if holder.0 != app.0 => Grant::Held { holder },
            _ => {
                self.set(e, prio, Some(app));
                Grant::Granted
            }
        }
    }

    /// Takes a lock back from its holder. At `NotYours` nothing changes.
    pub fn release(&mut self, app: AppId, e: Entity, prio: Prio) -> Release
        requires { IsLockIn self.old e }
        ensures answer { result ≡ release_of app (holder_in self.old e prio) }
        ensures holders { holder_in self.new ≡ holder_released result (holder_in self.old) e prio }
        ensures freed { holder_in self.new ≡ holder_freed (holder_in self.old) e prio app }
        ensures not_yours { NotYoursChangesNothing result self.old self.new }
        ensures same { HasSameLocks self.old self.new }
    {
        match self.holder(e, prio) {
            Some(holder) if holder.0 == app.0 => {
                self.set(e, prio, None);
                Release::Released
            }
            holder => Release::NotYours { holder },
        }
    }
}
