//! The scripts of a document run on one thread, and what comes of them: worlds and logs.

ghost use Rattle.std.specs.Prelude.{◌≡◌, ◌<◌, ◌^◌, [], All, map, replicate, length, IfOk};
ghost use Rattle.st_net.specs.Faults.{group_of};
ghost use Rattle.st_grammar.specs.Sound.{IsSoundGroup, IsSoundDoc};
ghost use Rattle.st_serial.specs.Serial.{all_opened, scripts_done as scripts_done_lem, decided as decided_lem, serial_end, states_of, run_in};

use crate::schedule::schedule;
use crate::serial::{decide_all, places_done};
use st_event::LogEntry;
use st_grammar::Doc;
use st_net::{Built, GroupTopo, Items, Parts};
use st_wire::{LossPlan, WireLine};
use st_world::World;
use std::alloc::{AllocError, Global};

/// The topology of a group of a document that was read: nothing is wrong with its parts.
pub fn topo_of(alloc: Global, parts: &Parts) -> Result<GroupTopo, AllocError>
    requires { IsSoundGroup parts.now }
    ensures { IfOk result (λ topo. topo ≡ group_of parts.now) }
{
    match GroupTopo::build(alloc, parts)? {
        Built::Topo(topo) => Ok(topo),
        Built::Fault(_) => unreachable!(),
    }
}

/// A topology of each group of a document, in order.
pub fn topos_of(alloc: Global, groups: &[Parts]) -> Result<Vec<GroupTopo>, AllocError>
    requires { All IsSoundGroup groups.now }
    ensures { IfOk result (λ topos. topos.items ≡ map group_of groups.now) }
{
    let mut topos = Vec::new(alloc);
    for parts in groups {
        topos.push(topo_of(alloc, parts)?)?;
    }
    Ok(topos)
}

/// The losses of these wire lines.
fn losses_of(alloc: Global, lines: &[WireLine]) -> Result<LossPlan, AllocError>
    ensures { IfOk result (λ losses. losses ≡ lines.now) }
{
    Ok(LossPlan::from_lines(alloc, lines.to_vec(alloc)?))
}

/// The worlds of a document's groups at their opening, in order, each with the losses of its wire lines.
pub fn open_worlds(
    alloc: Global,
    groups: &[Parts],
    wires: &[Items<WireLine>],
) -> Result<Vec<World>, AllocError>
    requires sound { All IsSoundGroup groups.now }
    requires each { length wires.now ≡ length groups.now }
    ensures { IfOk result (λ worlds. states_of worlds.items ≡ all_opened groups.now wires.now) }
{
    let mut worlds = Vec::new(alloc);
    for (i, parts) in groups.iter().enumerate() {
        let losses = losses_of(alloc, wires[i].as_slice())?;
        worlds.push(World::start(alloc, topo_of(alloc, parts)?, losses)?)?;
    }
    Ok(worlds)
}

/// An empty log for each application.
fn empty_logs(alloc: Global, count: usize) -> Result<Vec<Items<LogEntry>>, AllocError>
    ensures { IfOk result (λ logs. logs.items ≡ replicate count []) }
{
    let mut logs = Vec::new(alloc);
    for _app in 0..count {
        logs.push(Items::none(alloc))?;
    }
    Ok(logs)
}

/// A document after the acts of its scripts: the groups, what the applications saw, and the group at whose full journal the run
/// stopped, if it did.
#[derive(Drop)]
pub struct Ran {
    pub worlds: Vec<World>,
    pub logs: Vec<Items<LogEntry>>,
    pub full: Option<u32>,
}

/// Does the acts of a document's scripts.
fn scripts_done(alloc: Global, doc: &Doc) -> Result<Ran, AllocError>
    requires { IsSoundDoc doc.now }
    ensures { IfOk result (λ ran. run_in ran ≡ scripts_done_lem doc.now) }
{
    let apps = doc.apps.as_slice();
    let places = schedule(alloc, apps, doc.order.as_slice())?;
    let mut worlds = open_worlds(alloc, doc.groups.as_slice(), doc.wires.as_slice())?;
    let mut logs = empty_logs(alloc, apps.len())?;
    let full = places_done(
        worlds.as_mut_slice(),
        logs.as_mut_slice(),
        apps,
        places.as_slice(),
    )?;
    Ok(Ran { worlds, logs, full })
}

/// Decides what is still pending in each group, where no journal was met full.
fn decided(ran: Ran) -> Result<Ran, AllocError>
    requires { length ran.worlds.items < 2 ^ 32 }
    ensures { IfOk result (λ end. run_in end ≡ decided_lem (run_in ran)) }
{
    let Ran {
        mut worlds,
        logs,
        full,
    } = ran;
    let full = match full {
        Some(group) => Some(group),
        None => decide_all(worlds.as_mut_slice())?,
    };
    Ok(Ran { worlds, logs, full })
}

/// Runs the scripts of a document, and decides what is pending in the end, as far as no event meets a full journal.
pub fn serial_done(alloc: Global, doc: &Doc) -> Result<Ran, AllocError>
    requires { IsSoundDoc doc.now }
    ensures { IfOk result (λ ran. run_in ran ≡ serial_end doc.now) }
{
    decided(scripts_done(alloc, doc)?)
}
