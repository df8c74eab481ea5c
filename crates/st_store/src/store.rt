//! The store of one group. Proposals go in at one end and are decided at the other; what is accepted becomes the next version
//! of the target, and so does what is withdrawn. Reports come in by entity. The checker reads all of it.

ghost use Rattle.std.specs.Prelude.{◌≡◌, ℕ, ◌+◌, ◌==◌, ◌<◌, ◌≤◌, ◌^◌, ◌⊎◌, ◌↔◌, [], All, length, IfOk, IfSome, IsNone, OnErr};
ghost use Rattle.std.specs.List.{list_any};
ghost use Rattle.st_net.specs.declared.entity.Entity.{Entity};
ghost use Rattle.st_net.specs.Groups.{Group};
ghost use Rattle.st_net.specs.Numbered.{nth};
ghost use Rattle.st_overlay.specs.Values.{IsIn, IsRowIn, value_in};
ghost use Rattle.st_store.specs.Changes.{value_at as value_at_lem};
ghost use Rattle.st_store.specs.Store.{StoreView, IsStoreOf, IsStart, IsCounted, IsOldest, IsWaiting, IsNeverGiven, IsValueAt, Decides, Keeps, OldChangesNothing, Withdraws, put_answer, store_put};

use crate::pending::{Pending, Put};
use crate::reports::{Keep, opening_reports};
use crate::versions::Versions;
use st_event::{MAX_PENDING, Rows};
use st_net::{AppId, Entity, GroupTopo, Report, Var};
use st_overlay::Table;
use std::alloc::{AllocError, Global};
use std::collections::VecDeque;
use std::marker::Model;

/// The answer to a question for a value of the target.
#[derive(Clone, Copy, Debug, PartialEq, Eq)]
pub enum ValueAt {
    /// The value at that version.
    Value(u32),
    /// There is no such version: this is the last one.
    NoVersion { latest: u32 },
}

/// The proposals, the versions of the target, and the kept reports of one group.
#[derive(Drop)]
pub struct Store {
    queue: VecDeque<Pending>,
    tickets: u32,
    decided: Vec<u32>,
    versions: Versions,
    observed: Vec<Report>,
}

impl Model for Store {
    ghost use Rattle.st_store.specs.Store.{StoreView};

    ghost Value = { StoreView };

    ghost use Rattle.st_store.specs.Inside.{store_of, IsConsistent};

    ghost view = { store_of };

    ghost invariant = { λ s. IsConsistent s.queue.items (store_of s) };
}

impl Store {
    /// The store of a group at its opening: version 0 of the target has the opening values, nothing waits, and each entity is
    /// known as it opened.
    pub fn start(alloc: Global, topo: &GroupTopo) -> Result<Store, AllocError>
        ensures { IfOk result (IsStart topo.now) }
    {
        let versions = Versions::opening(alloc, topo)?;
        let observed = opening_reports(alloc, topo)?;
        Ok(Store {
            queue: VecDeque::new(alloc),
            tickets: 0,
            decided: Vec::new(alloc),
            versions,
            observed,
        })
    }

    /// Puts a proposal at the end of the queue and gives its ticket. Where `MAX_PENDING` wait it is dropped, and nothing
    /// changes. At `Err` nothing has changed either, and the proposal is dropped.
    pub fn put(&mut self, app: AppId, rows: Rows) -> Result<Put, AllocError>
        requires fits { All (IsRowIn self.old.target) rows }
        requires tickets { self.old.tickets + 1 < 2 ^ 32 }
        ensures answer { IfOk result (λ put. put ≡ put_answer self.old) }
        ensures store { IfOk result (λ put. self.new ≡ store_put put self.old (record { app = app; rows = rows })) }
        ensures err { OnErr result (self.new ≡ self.old) }
    {
        let pending = self.queue.len();
        if pending >= MAX_PENDING {
            return Ok(Put::Full {
                pending: pending as u32,
            });
        }
        let ticket = self.tickets + 1;
        self.queue.push_back(Pending { ticket, app, rows })?;
        self.tickets = ticket;
        Ok(Put::Ticket(ticket))
    }

    /// The proposal that waits longest.
    pub fn oldest(&self) -> Option<&Pending>
        ensures some { IfSome result (λ oldest. IsOldest self.now oldest.now) }
        ensures none { IsNone result ↔ (self.now.pending ≡ []) }
    {
        self.queue.front()
    }

    /// How many proposals wait.
    pub fn pending(&self) -> u32
        ensures count { result ≡ length self.now.pending }
        ensures few { result ≤ MAX_PENDING }
    {
        self.queue.len() as u32
    }

    /// Whether a proposal of an application waits. The time grows with the proposals that wait.
    pub fn has_one_of(&self, app: AppId) -> bool
        ensures { result ≡ list_any (λ p. p.app.0 == app.0) self.now.pending }
    {
        self.queue.iter().any(|pending| pending.app.0 == app.0)
    }

    /// Decides the oldest proposal, as entry number `entry`, and gives the version behind the decision: an accepted proposal is merged as
    /// the next version. The latest version has to be below 4294967295. At `Err` nothing has changed.
    pub fn decide(&mut self, entry: u32, accept: bool) -> Result<u32, AllocError>
        requires waits { 0 < length self.old.pending }
        requires version { self.old.version + 1 < 2 ^ 32 }
        ensures version { IfOk result (λ version. version ≡ self.new.version) }
        ensures ok { IfOk result (λ version. Decides self.old self.new entry accept) }
        ensures err { OnErr result (self.new ≡ self.old) }
    {
        // Room first: it can fail, and what follows the merge cannot.
        self.decided.reserve(1)?;
        let rows = self.queue[0].rows.as_slice();
        self.versions.merge_if(accept, rows)?;
        let _decided = self.queue.pop_front();
        self.decided.push_reserved(entry);
        Ok(self.versions.version())
    }

    /// Merges rows that are withdrawn as the next version, and gives that version; no proposal is decided. The latest version has to be
    /// below 4294967295. At `Err` nothing has changed, and the rows are dropped.
    pub fn withdraw(&mut self, rows: Rows) -> Result<u32, AllocError>
        requires fits { All (IsRowIn self.old.target) rows }
        requires version { self.old.version + 1 < 2 ^ 32 }
        ensures version { IfOk result (λ version. version ≡ self.new.version) }
        ensures ok { IfOk result (λ version. Withdraws self.old self.new rows) }
        ensures err { OnErr result (self.new ≡ self.old) }
    {
        self.versions.merge(rows.as_slice())?;
        Ok(self.versions.version())
    }

    /// The value of a variable at a version. The time grows with the logarithm of the changes of that entity alone.
    pub fn value_at(&self, version: u32, entity: Entity, var: Var) -> ValueAt
        requires { IsIn self.now.target entity }
        ensures { IsValueAt self.now version entity var result }
    {
        let latest = self.versions.version();
        if version > latest {
            return ValueAt::NoVersion { latest };
        }
        ValueAt::Value(self.versions.value_at(version, entity, var))
    }

    /// The entry that decided a ticket.
    pub fn decided(&self, ticket: u32) -> Option<u32>
        ensures entry { result ≡ nth self.now.decided ticket }
        ensures none { IsNone result ↔ (IsWaiting self.now ticket ⊎ IsNeverGiven self.now ticket) }
    {
        if ticket == 0 {
            return None;
        }
        self.decided.as_slice().get(ticket as usize - 1).copied()
    }

    /// Keeps a report of an entity, unless the kept one has a number that is no lower.
    pub fn keep(&mut self, report: Report) -> Keep
        requires { IsIn self.old.target report.entity }
        ensures keeps { (g : Group) → IsStoreOf g self.old → Keeps g self.old self.new report result }
        ensures rest { self.new ≡ record self.old { observed = self.new.observed } }
        ensures old { OldChangesNothing result self.old self.new }
    {
        let place = report.entity.place_behind(self.versions.device_count());
        let kept = self.observed[place].number;
        if report.number <= kept {
            return Keep::Old { kept };
        }
        self.observed[place] = report;
        Keep::Taken
    }

    /// The values of the target, which are those at the last version.
    pub fn target(&self) -> &Table
        ensures target { result.now ≡ self.now.target }
        ensures latest { (v : ℕ) → self.now.version ≤ v → value_at_lem self.now.versions v ≡ value_in result.now }
    {
        self.versions.table()
    }

    /// The kept reports, in the order of entities.
    pub fn observed(&self) -> &[Report]
        ensures { result.now ≡ self.now.observed }
    {
        self.observed.as_slice()
    }

    /// The last version of the target, which is how many overlays it has.
    pub fn version(&self) -> u32
        ensures version { result ≡ self.now.version }
        ensures counted { IsCounted self.now }
    {
        self.versions.version()
    }
}
