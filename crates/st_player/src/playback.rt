//! A group on its way through its journal: its world, and what is kept beside it of the entries so far. Snapshots are taken of it.

ghost use Rattle.std.specs.Prelude.{◌≡◌, ◌<◌, [], All, IfOk, OnOk, length};
ghost use Rattle.st_net.specs.Groups.{IsEntityOf};
ghost use Rattle.st_net.specs.InOrder.{entity_count};
ghost use Rattle.st_net.specs.Numbered.{nth};
ghost use Rattle.st_event.specs.History.{with_entry};
ghost use Rattle.st_event.specs.Legal.{Fits, IsNext};
ghost use Rattle.st_player.specs.declared.playback.Told.{Told as told_lem};
ghost use Rattle.st_event.specs.Moments.{reports};
ghost use Rattle.st_player.specs.Causes.{origin_of};
ghost use Rattle.st_player.specs.Entries.{askers, askers_after};
ghost use Rattle.st_player.specs.Inside.{all_since, heard_since, told_after};
ghost use Rattle.st_player.specs.Known.{makers_after};
ghost use Rattle.st_player.specs.States.{state_of as state_of_lem};

use crate::origins::{Origin, keep_origins, no_origin};
use crate::state::{State, observed_of, state_of};
use st_event::{Entry, Event, MAX_ENTRIES, Reply};
use st_net::{Entity, GroupTopo};
use st_wire::{LossPlan, Took};
use st_world::{Stepped, World};
use std::alloc::{AllocError, Global};
use std::marker::Model;

/// How many reports an entity has made, and how many it had made when it last failed.
#[derive(Clone, Copy)]
pub(crate) struct Told {
    made: u32,
    failed: Option<u32>,
}

/// A group that has gone through a part of its journal: its world; what its entities have told, in the order of entities; the numbers of the
/// entries that gave tickets, and of those that made reports; and by which entries the reports were made that are kept, and what became of
/// each entity, both in the order of entities. The world stands on the heap, since a playback goes from hand to hand.
#[derive(Drop)]
pub(crate) struct Playback {
    world: Box<World>,
    told: Vec<Told>,
    askers: Vec<u32>,
    makers: Vec<u32>,
    since: Vec<u32>,
    origins: Vec<Origin>,
}

impl Model for Playback {
    ghost use Rattle.st_event.specs.History.{History};
    ghost use Rattle.st_player.specs.Inside.{IsPlayback};

    ghost Value = { History };

    ghost view = { λ p. p.world.value.history };

    ghost invariant = { λ p. IsPlayback p.world.value.history p.told.items p.askers.items p.makers.items p.since.items p.origins.items };
}

/// Keeps what an event tells of its entity, behind these entries.
fn keep_told(topo: &GroupTopo, told: &mut [Told], event: &Event)
    requires fits { Fits topo.now event.now }
    requires count { length told.old ≡ entity_count topo.now }
    requires room { All (λ (one : told_lem). one.made < MAX_ENTRIES) told.old }
    ensures { told.new ≡ told_after topo.now event.now told.old }
{
    match event {
        Event::Report { entity } => {
            let place = topo.place(*entity);
            let Told { made, failed } = told[place];
            told[place] = Told {
                made: made + 1,
                failed,
            };
        }
        Event::Fail { entity, .. } => {
            let place = topo.place(*entity);
            let made = told[place].made;
            told[place] = Told {
                made,
                failed: Some(made),
            };
        }
        _ => {}
    }
}

/// Keeps the number of an entry that gives a ticket.
fn keep_asker(askers: &mut Vec<u32>, number: u32, entry: &Entry) -> Result<(), AllocError>
    ensures { OnOk result (askers.new.items ≡ askers_after entry.now.event entry.now.reply number askers.old.items) }
{
    match (&entry.event, &entry.reply) {
        (Event::Submit { .. }, Reply::Queued { .. }) => {
            askers.push(number)?;
            Ok(())
        }
        _ => Ok(()),
    }
}

/// Keeps the number of an entry that makes a report.
fn keep_maker(makers: &mut Vec<u32>, number: u32, event: &Event) -> Result<(), AllocError>
    ensures { OnOk result (makers.new.items ≡ makers_after event.now number makers.old.items) }
{
    match event {
        Event::Report { .. } => {
            makers.push(number)?;
            Ok(())
        }
        _ => Ok(()),
    }
}

/// The number that stands at a place, counted from 1.
fn numbered(numbers: &[u32], place: u32) -> Option<u32>
    ensures { result ≡ nth numbers.now place }
{
    if place == 0 {
        return None;
    }
    numbers.get(place as usize - 1).copied()
}

/// Keeps by which entry a report of this number was made, where it is later than the one that is kept of its entity.
fn keep_heard(world: &World, since: &mut [u32], number: u32, maker: u32)
    requires { length since.old ≡ entity_count world.now.history.group }
    ensures { since.new ≡ heard_since world.now.history.group world.now.history.past (nth (reports world.now.history.group world.now.history.past) number) maker since.old }
{
    world.is_legal();
    if let Took::Got(report) = world.wire().report(number) {
        if observed_of(world, report.entity).number < report.number {
            since[world.control().topo().place(report.entity)] = maker;
        }
    }
}

/// Keeps by which entry the report was made that an event hears, behind the entries of a world.
fn keep_since(world: &World, since: &mut [u32], makers: &[u32], event: &Event)
    requires { length since.old ≡ entity_count world.now.history.group }
    ensures { since.new ≡ all_since world.now.history.group world.now.history.past event.now makers.now since.old }
{
    if let Event::Hear { report } = event {
        keep_heard(
            world,
            since,
            *report,
            numbered(makers, *report).unwrap_or(0),
        );
    }
}

/// Lets a world enter an entry that is the next of a legal journal.
fn enter_legal(alloc: Global, world: &mut World, entry: &Entry) -> Result<(), AllocError>
    requires { IsNext world.old.history.group world.old.history.past entry.now }
    ensures { OnOk result (world.new.history ≡ with_entry world.old.history entry.now) }
{
    match world.step(entry.event.copy(alloc)?)? {
        Stepped::Did(_) => Ok(()),
        Stepped::JournalFull { .. } => unreachable!(),
    }
}

impl Playback {
    /// A group at its opening.
    pub(crate) fn start(alloc: Global, topo: GroupTopo) -> Result<Playback, AllocError>
        ensures { IfOk result (λ playback. playback ≡ record { group = topo; past = [] }) }
    {
        let none = Told {
            made: 0,
            failed: None,
        };
        let count = topo.entity_count() as usize;
        let told = vec![in alloc; none; count]?;
        let since = vec![in alloc; 0; count]?;
        let origins = vec![in alloc; no_origin(); count]?;
        let world = Box::new(alloc, World::start(alloc, topo, LossPlan::none(alloc))?)?;
        Ok(Playback {
            world,
            told,
            askers: Vec::new(alloc),
            makers: Vec::new(alloc),
            since,
            origins,
        })
    }

    /// Goes through the next entry of a legal journal.
    pub(crate) fn enter(self, alloc: Global, entry: &Entry) -> Result<Playback, AllocError>
        requires { IsNext self.group self.past entry.now }
        ensures { IfOk result (λ playback. playback ≡ with_entry self entry.now) }
    {
        let Playback {
            mut world,
            mut told,
            mut askers,
            mut makers,
            mut since,
            mut origins,
        } = self;
        let number = world.entries() + 1;
        world.is_legal();
        keep_told(world.control().topo(), told.as_mut_slice(), &entry.event);
        keep_since(
            &world,
            since.as_mut_slice(),
            makers.as_slice(),
            &entry.event,
        );
        keep_origins(&world, origins.as_mut_slice(), number, entry);
        keep_asker(&mut askers, number, entry)?;
        keep_maker(&mut makers, number, &entry.event)?;
        enter_legal(alloc, &mut world, entry)?;
        Ok(Playback {
            world,
            told,
            askers,
            makers,
            since,
            origins,
        })
    }

    /// The world.
    pub(crate) fn world(&self) -> &World
        ensures { result.now.history ≡ self.now }
    {
        &self.world
    }

    /// The number of the entry that gave a ticket.
    pub(crate) fn asker(&self, ticket: u32) -> Option<u32>
        ensures { result ≡ nth (askers self.now.past) ticket }
    {
        numbered(self.askers.as_slice(), ticket)
    }

    /// Who set each variable of an entity last, and its newest failure.
    pub(crate) fn origin(&self, entity: Entity) -> Origin
        requires { IsEntityOf self.now.group entity }
        ensures { result ≡ origin_of self.now.past entity }
    {
        self.origins[self.world.control().topo().place(entity)]
    }

    /// What is shown of an entity now.
    pub(crate) fn state(&self, entity: Entity) -> State
        requires { IsEntityOf self.now.group entity }
        ensures { result ≡ state_of_lem self.now.group self.now.past entity }
    {
        let place = self.world.control().topo().place(entity);
        state_of(
            &self.world,
            self.told[place].failed,
            self.since[place],
            entity,
        )
    }
}
