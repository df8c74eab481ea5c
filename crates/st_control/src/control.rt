//! The checker of one group. What a checker keeps is enough to answer an event as the group's whole journal calls for. `checks` decides
//! proposals, and `commits` those that were judged away from the checker.

ghost use Rattle.std.specs.Prelude.{◌≡◌, ℕ, ◌<◌, ◌^◌, ◌+◌, length, IfOk, OnErr};
ghost use Rattle.std.specs.Arc.{arc_value};
ghost use Rattle.st_net.specs.declared.entity.Entity.{Entity};
ghost use Rattle.st_net.specs.Groups.{IsEntityOf, promise_of};
ghost use Rattle.st_net.specs.Demands.{held_list};
ghost use Rattle.st_net.specs.Promises.{is_kept, need_of};
ghost use Rattle.st_net.specs.Ranges.{RowsFit};
ghost use Rattle.st_net.specs.Sets.{is_in, MarksOf};
ghost use Rattle.st_event.specs.declared.event.Event.TheVariants.{Submit, Lock, Unlock};
ghost use Rattle.st_event.specs.Standing.{sure_in, settled_in};
ghost use Rattle.st_locks.specs.LockRows.{LocksOf, holder_in};
ghost use Rattle.st_store.specs.Store.{IsStart as is_start_store, IsStoreOf};
ghost use Rattle.st_control.specs.Control.{Moves, Sends, Hears, OldChangesNothing, IsStart, standing_in, reply_of_put, reply_of_grant, reply_of_release};
ghost use Rattle.st_control.specs.Verdict.{sure_without};
ghost use Rattle.st_promise.specs.Book.{IsBookOf};
ghost use Rattle.st_net.specs.InOrder.{entity_count, stamp_in};
ghost use Rattle.st_control.specs.Sure.{MarksShown};

pub mod checks;
pub mod commits;
pub mod withdrawals;

use crate::send::{SendStep, governing_row, shows_other};
use crate::settled::Shown;
use crate::stamps::opening_stamps;
use crate::sure::shown_set;
use st_event::Rows;
use st_locks::{Grant, LockTable, Release};
use st_net::{AppId, Command, Entity, EntitySet, GroupTopo, Prio, Report};
use st_plan::settled;
use st_promise::Book;
use st_rows::lack;
use st_store::{Keep, Put, Store};
use std::alloc::{AllocError, Global};
use std::marker::Model;
use std::sync::Arc;

/// The sure entities, and those of them that a change leaves as they are.
#[derive(Drop)]
struct SureSets {
    sure: EntitySet,
    after: EntitySet,
}

/// A copy of a group that can be shared.
fn shared_copy(alloc: Global, topo: &GroupTopo) -> Result<Arc<GroupTopo, Global>, AllocError>
    ensures { IfOk result (λ shared. arc_value shared ≡ topo.now) }
{
    let copy = topo.copy(alloc)?;
    match Arc::new(alloc, copy) {
        Ok(shared) => Ok(shared),
        Err(_copy) => Err(AllocError),
    }
}

/// The checker of one group. The group is copied once, and the copy is shared with each basis that is judged away from the checker.
#[derive(Drop)]
pub struct Control {
    alloc: Global,
    topo: GroupTopo,
    shared: Arc<GroupTopo, Global>,
    book: Book,
    store: Store,
    stamps: Vec<u32>,
    locks: LockTable,
}

impl Model for Control {
    ghost use Rattle.st_control.specs.Control.{ControlView};

    ghost Value = { ControlView };

    ghost use Rattle.std.specs.Arc.{arc_value};
    ghost use Rattle.st_control.specs.Inside.{checker_of, IsConsistent};

    ghost view = { checker_of };

    ghost invariant = { λ c. IsConsistent (checker_of c) (arc_value c.shared) };
}

/// The book of a group, and a copy of the group that can be shared.
fn opening_book(
    alloc: Global,
    topo: &GroupTopo,
) -> Result<(Book, Arc<GroupTopo, Global>), AllocError>
    ensures book { IfOk result (λ parts. IsBookOf topo.now parts.0.of) }
    ensures no_runs { IfOk result (λ parts. parts.0.flows_run ≡ 0) }
    ensures shared { IfOk result (λ parts. arc_value parts.1 ≡ topo.now) }
{
    let book = Book::start(alloc, topo)?;
    Ok((book, shared_copy(alloc, topo)?))
}

/// What a checker keeps of the entities at the opening of their group: values and reports, stamps, and locks.
fn opening_tables(
    alloc: Global,
    topo: &GroupTopo,
) -> Result<(Store, Vec<u32>, LockTable), AllocError>
    ensures store { IfOk result (λ parts. is_start_store topo.now parts.0) }
    ensures count { IfOk result (λ parts. length parts.1.items ≡ entity_count topo.now) }
    ensures opening { IfOk result (λ parts. stamp_in topo.now parts.1.items ≡ (λ e. 0)) }
    ensures locks { IfOk result (λ parts. LocksOf topo.now parts.2) }
    ensures free { IfOk result (λ parts. holder_in parts.2 ≡ (λ e prio. None)) }
{
    let store = Store::start(alloc, topo)?;
    let stamps = opening_stamps(alloc, topo)?;
    Ok((store, stamps, LockTable::start(alloc, topo)?))
}

impl Control {
    /// The checker of a group at its opening.
    pub fn start(alloc: Global, topo: GroupTopo) -> Result<Control, AllocError>
        ensures { IfOk result (IsStart topo) }
    {
        let (book, shared) = opening_book(alloc, &topo)?;
        let (store, stamps, locks) = opening_tables(alloc, &topo)?;
        Ok(Control {
            alloc,
            topo,
            shared,
            book,
            store,
            stamps,
            locks,
        })
    }

    /// The group.
    pub fn topo(&self) -> &GroupTopo
        ensures topo { result.now ≡ self.now.group }
    {
        &self.topo
    }

    /// The proposals, the target with its versions, and the kept reports.
    pub fn store(&self) -> &Store
        ensures store { result.now ≡ self.now.store }
        ensures of { IsStoreOf self.now.group result.now }
    {
        &self.store
    }

    /// The locks.
    pub fn locks(&self) -> &LockTable
        ensures locks { result.now ≡ self.now.locks }
        ensures of { LocksOf self.now.group result.now }
    {
        &self.locks
    }

    /// The stamp of each entity, in the order of entities: the number of the last entry that changed or renewed the entity's target, and 0
    /// before any such entry.
    pub fn stamps(&self) -> &[u32]
        ensures stamps { result.now ≡ self.now.stamps }
        ensures count { length result.now ≡ entity_count self.now.group }
    {
        self.stamps.as_slice()
    }

    /// How many runs of a flow the book of the promises has counted since the checker was started: those of the calls that may change the
    /// book. The count never falls.
    pub fn flows_run(&self) -> u64
        ensures { result ≡ self.now.flows_run }
    {
        self.book.flows_run()
    }

    /// What promise number `i` needs: the least value that each cut of its pair has to have, in the unit of capacities.
    pub fn need(&self, i: u32) -> u64
        requires { i < length self.now.group.promises }
        ensures { result ≡ need_of self.now.group (promise_of self.now.group i) }
    {
        self.book.need(i)
    }

    /// Whether promise number `i` holds while these entities are up. The flow that is kept of the promise may show so; else the network of
    /// the set is built, and a flow is run that is not kept.
    pub fn is_held(&self, up: &EntitySet, i: u32) -> Result<bool, AllocError>
        requires promise { i < length self.now.group.promises }
        requires marks { MarksOf self.now.group up.now }
        ensures { IfOk result (λ held. held ≡ is_kept self.now.group (is_in up.now) (promise_of self.now.group i)) }
    {
        self.book.is_held(&self.topo, up, i)
    }

    /// Whether each demand, in order, holds while these entities are up. Where the kept flows show all, no network is built, and else
    /// one.
    pub fn held_in(&self, up: &EntitySet) -> Result<Vec<bool>, AllocError>
        requires { MarksOf self.now.group up.now }
        ensures { IfOk result (λ held. held.items ≡ held_list self.now.group (is_in up.now)) }
    {
        self.book.held_in(&self.topo, up)
    }

    /// The entities that are settled, or sure.
    fn shown(&self, shown: Shown) -> Result<EntitySet, AllocError>
        ensures shown { IfOk result (MarksShown shown self.now.group self.now.store.observed self.now.stamps self.now.store.target) }
        ensures reports { length self.now.store.observed ≡ entity_count self.now.group }
    {
        shown_set(
            self.alloc,
            shown,
            &self.topo,
            self.store.target(),
            self.store.observed(),
            self.stamps.as_slice(),
        )
    }

    /// The sure entities.
    pub fn sure(&self) -> Result<EntitySet, AllocError>
        ensures of { IfOk result (MarksOf self.now.group) }
        ensures sure { IfOk result (λ set. is_in set ≡ sure_in self.now.group (standing_in self.now)) }
    {
        self.shown(Shown::Sure)
    }

    /// The settled entities of the group.
    pub fn settled(&self) -> Result<EntitySet, AllocError>
        ensures of { IfOk result (MarksOf self.now.group) }
        ensures settled { IfOk result (λ set. (e : Entity) → IsEntityOf self.now.group e → is_in set e ≡ settled_in self.now.group (standing_in self.now) e) }
    {
        self.shown(Shown::Settled)
    }

    /// Puts a proposal at the end of the queue. Where 64 proposals are pending, the new one is dropped. At `Err` nothing has changed.
    pub fn submit(&mut self, app: AppId, rows: Rows) -> Result<Put, AllocError>
        requires fits { RowsFit self.old.group rows }
        requires tickets { self.old.store.tickets + 1 < 2 ^ 32 }
        ensures ok { IfOk result (λ put. (n : ℕ) → Moves self.old self.new n (Submit app rows) (reply_of_put put)) }
        ensures err { OnErr result (self.new ≡ self.old) }
        ensures runs { self.new.flows_run ≡ self.old.flows_run }
    {
        self.store.put(app, rows)
    }

    /// The sure entities, and those of them that a change of these entities leaves as they are.
    fn sure_sets(&self, changed: &EntitySet) -> Result<SureSets, AllocError>
        requires { MarksOf self.now.group changed.now }
        ensures sure_of { IfOk result (λ sets. MarksOf self.now.group sets.sure) }
        ensures after_of { IfOk result (λ sets. MarksOf self.now.group sets.after) }
        ensures sure { IfOk result (λ sets. is_in sets.sure ≡ sure_in self.now.group (standing_in self.now)) }
        ensures after { IfOk result (λ sets. is_in sets.after ≡ sure_without self.now changed.now) }
    {
        let sure = self.sure()?;
        let mut after = sure.copy(self.alloc)?;
        after.remove_all(changed);
        Ok(SureSets { sure, after })
    }

    /// What an entity is to be sent, so that the entity becomes as the target has it. `Settled` comes exactly where the entity is settled.
    /// Else the governing variable is the lowest one whose observed value is not the target's, and power where there is none: `Blocked`
    /// comes exactly where the governing variable can't be set to its target value now, and carries the row that would set it. A command
    /// has the entity's stamp and all target values of the entity. The call takes constant time.
    pub fn send(&self, entity: Entity) -> SendStep
        requires { IsEntityOf self.now.group entity }
        ensures { Sends self.now entity result }
    {
        let place = self.topo.place(entity);
        let observed = self.store.observed();
        let table = self.store.target();
        let target = table.get(entity);
        let stamp = self.stamps[place];
        if settled(&observed[place], target, stamp) {
            return SendStep::Settled;
        }
        let row = governing_row(entity, observed[place].vals, target);
        match lack(&self.topo, observed, table, &[], &row) {
            Some(_) => SendStep::Blocked { row },
            None => SendStep::Command(Command {
                entity,
                stamp,
                vals: target,
            }),
        }
    }

    /// Hears a report as entry number `entry`. The report is taken where its number is above that of the entity's kept report, and is then
    /// the kept one; at `Old` nothing changes. A taken report renews its entity, whose stamp is then `entry`, where the report shows that
    /// the command of the entity's stamp was carried out, and yet other values than the target's. The call takes constant time.
    pub fn hear(&mut self, entry: u32, report: Report) -> Keep
        requires { IsEntityOf self.old.group report.entity }
        ensures hears { Hears self.old self.new entry report result }
        ensures old { OldChangesNothing result self.old self.new }
        ensures runs { self.new.flows_run ≡ self.old.flows_run }
    {
        let place = self.topo.place(report.entity);
        let target = self.store.target().get(report.entity);
        let is_renewed = shows_other(&report, self.stamps[place], target);
        let keep = self.store.keep(report);
        if keep == Keep::Taken && is_renewed {
            self.stamps[place] = entry;
        }
        keep
    }

    /// Gives a lock of an entity to an application, where no other application holds the lock. At `Held` nothing changes.
    pub fn lock(&mut self, app: AppId, entity: Entity, prio: Prio) -> Grant
        requires { IsEntityOf self.old.group entity }
        ensures moves { (n : ℕ) → Moves self.old self.new n (Lock app entity prio) (reply_of_grant result) }
        ensures runs { self.new.flows_run ≡ self.old.flows_run }
    {
        self.locks.grant(app, entity, prio)
    }

    /// Takes a lock of an entity back from the application that holds it. At `NotYours` nothing changes.
    pub fn unlock(&mut self, app: AppId, entity: Entity, prio: Prio) -> Release
        requires { IsEntityOf self.old.group entity }
        ensures moves { (n : ℕ) → Moves self.old self.new n (Unlock app entity prio) (reply_of_release result) }
        ensures runs { self.new.flows_run ≡ self.old.flows_run }
    {
        self.locks.release(app, entity, prio)
    }
}
