//! Plans of upgrades, of groups that are drawn, of a fat tree of four pods and of switches that nobody needs, beside those of a planner that
//! keeps nothing.
ghost use Rattle.std.specs.Prelude.{◌<◌, length, All, IfOk};

mod plain;
mod sight;
mod words;

use super::drawn::{Dice, drawn_document};
use plain::{Upgrade, plan_words, refusal};
use sight::Sight;
use st_control::Control;
use st_event::{Event, Rows};
use st_gen::generate;
use st_net::{AppId, Entity, GroupTopo, Prio, Row, Var};
use st_roll::plan_roll;
use st_samples::{open_world, world};
use st_serial::topo_of;
use st_world::World;
use std::alloc::{AllocError, Global};
use std::test::Fail;
use words::words_of;

/// The application that upgrades.
const UPGRADER: AppId = AppId(0);

const UPGRADE: Upgrade = Upgrade {
    app: UPGRADER,
    firmware: 2,
};

/// Enters an event.
fn enter(world: &mut World, event: Event) -> Result<(), Fail> {
    if !world.fits(&event) {
        return Err(Fail::new("the event does not fit"));
    }
    world.step(event)?;
    Ok(())
}

/// An application locks a device, in the world and for the plain planner.
fn lock(
    world: &mut World,
    sight: &mut Sight,
    app: AppId,
    device: u32,
    prio: Prio,
) -> Result<(), Fail> {
    let entity = Entity::Device(device);
    enter(world, Event::Lock { app, entity, prio })?;
    sight.lock(device, app, prio);
    Ok(())
}

/// Some devices are locked, by the application that upgrades or by another.
fn lock_some(world: &mut World, sight: &mut Sight, dice: &mut Dice) -> Result<(), Fail> {
    for device in 0..world.control().topo().device_count() {
        for prio in [Prio::Low, Prio::High] {
            if dice.is_one_in(10) {
                let app = AppId(dice.roll() % 2);
                lock(world, sight, app, device, prio)?;
            }
        }
    }
    Ok(())
}

/// Asks for the upgrade of a device, and has it checked.
fn ask(alloc: Global, world: &mut World, device: u32) -> Result<(), Fail> {
    let row = Row {
        entity: Entity::Device(device),
        var: Var::Firmware,
        value: UPGRADE.firmware,
    };
    let rows = Rows::from_slice(alloc, [row].as_slice())?;
    let app = UPGRADER;
    enter(world, Event::Submit { app, rows })?;
    enter(world, Event::Check)
}

/// Asks for the upgrade of a device, which is under way then where it is accepted.
fn upgrade_one(
    alloc: Global,
    world: &mut World,
    sight: &mut Sight,
    device: u32,
) -> Result<(), Fail> {
    ask(alloc, world, device)?;
    if refusal(alloc, sight, [device].as_slice(), UPGRADE)?.is_none() {
        sight.accept(device, UPGRADE.firmware);
    }
    Ok(())
}

/// Most of a group's devices, and then a few once more.
fn drawn_devices(alloc: Global, topo: &GroupTopo, dice: &mut Dice) -> Result<Vec<u32>, AllocError>
    ensures { IfOk result (λ devices. All (λ d. d < length topo.now.devices) devices.items) }
{
    let mut devices = Vec::new(alloc);
    for device in 0..topo.device_count() {
        if !dice.is_one_in(12) {
            devices.push(device)?;
        }
    }
    for device in 0..topo.device_count() {
        if dice.is_one_in(8) {
            devices.push(device)?;
        }
    }
    Ok(devices)
}

/// The words of the plan that is made and of the plain one.
#[derive(Drop)]
struct Two {
    made: String,
    plain: String,
}

/// The words of the plan for these devices.
fn made_words(alloc: Global, control: &Control, devices: &[u32]) -> Result<String, AllocError>
    requires { All (λ d. d < length control.now.group.devices) devices.now }
{
    let roll = plan_roll(alloc, control, UPGRADER, devices, UPGRADE.firmware)?;
    let words = words_of(alloc, &roll);
    drop(roll);
    words
}

/// Both plans of the upgrade of devices that are drawn.
fn plans(
    alloc: Global,
    control: &Control,
    sight: &Sight,
    dice: &mut Dice,
) -> Result<Two, AllocError> {
    let devices = drawn_devices(alloc, control.topo(), dice)?;
    let made = made_words(alloc, control, devices.as_slice())?;
    let plain = plan_words(alloc, sight, devices.as_slice(), UPGRADE)?;
    Ok(Two { made, plain })
}

/// The same of a world in which some devices are locked, and one upgrade is under way.
fn plans_under_way(alloc: Global, world: &mut World, dice: &mut Dice) -> Result<Two, Fail> {
    let mut sight = Sight::of(alloc, world.control().topo())?;
    lock_some(world, &mut sight, dice)?;
    upgrade_one(alloc, world, &mut sight, dice.roll() % 10)?;
    Ok(plans(alloc, world.control(), &sight, dice)?)
}

/// The same of a world that is not needed any more.
fn plans_once(alloc: Global, mut world: World, dice: &mut Dice) -> Result<Two, Fail> {
    let two = plans_under_way(alloc, &mut world, dice);
    drop(world);
    two
}

/// What was seen of plans: in how many of them each thing stands, and how many are not the plain ones.
#[derive(Clone, Copy)]
struct Tally {
    second_batches: u32,
    full: u32,
    lacking: u32,
    locked: u32,
    short: u32,
    cut_off: u32,
    wrong: u32,
}

fn count(counts: bool, number: u32) -> u32 {
    if counts {
        number.saturating_add(1)
    } else {
        number
    }
}

impl Tally {
    fn none() -> Tally {
        Tally {
            second_batches: 0,
            full: 0,
            lacking: 0,
            locked: 0,
            short: 0,
            cut_off: 0,
            wrong: 0,
        }
    }

    fn with(self, two: &Two) -> Tally {
        let words = two.plain.as_str();
        Tally {
            second_batches: count(words.matches("batch").count() > 1, self.second_batches),
            full: count(words.contains("full"), self.full),
            lacking: count(words.contains("lacks"), self.lacking),
            locked: count(words.contains("locked"), self.locked),
            short: count(words.contains("Short"), self.short),
            cut_off: count(words.contains("CutOff"), self.cut_off),
            wrong: count(two.made.as_str() != words, self.wrong),
        }
    }

    /// Whether some plans have each thing that drawn groups may have.
    fn has_each(self) -> bool {
        let found = [
            self.second_batches,
            self.lacking,
            self.locked,
            self.short,
            self.cut_off,
        ];
        found.iter().all(|number| *number >= 3)
    }
}

/// Both plans of a group that is drawn.
fn drawn_plans(alloc: Global, dice: &mut Dice) -> Result<Two, Fail> {
    let text = drawn_document(alloc, dice)?;
    let world = world(alloc, text.as_str())?;
    plans_once(alloc, world, dice)
}

fn plans_of_drawn_groups(alloc: Global) -> Result<Tally, Fail> {
    let mut dice = Dice { state: 7 };
    let mut tally = Tally::none();
    for _ in 0..40 {
        tally = tally.with(&drawn_plans(alloc, &mut dice)?);
    }
    Ok(tally)
}

#[test]
fn plans_of_drawn_groups_are_those_of_a_plain_planner(rt: HostRuntime) -> Result<(), Fail> {
    let tally = plans_of_drawn_groups(rt.alloc())?;
    assert_eq!(rt; (tally.has_each(), tally.wrong), (true, 0));
    Ok(())
}

/// A fat tree of four pods: 20 devices, and promises between eight ToRs.
fn small_tree(alloc: Global) -> Result<GroupTopo, Fail> {
    let doc = generate(alloc, 4, 0)?;
    match doc.groups.as_slice().first() {
        Some(parts) => Ok(topo_of(alloc, parts)?),
        None => Err(Fail::new("no group")),
    }
}

/// Both plans of the fat tree.
fn tree_plans(alloc: Global, dice: &mut Dice) -> Result<Two, Fail> {
    let topo = small_tree(alloc)?;
    let world = open_world(alloc, topo)?;
    plans_once(alloc, world, dice)
}

fn plans_of_trees(alloc: Global) -> Result<Tally, Fail> {
    let mut dice = Dice { state: 3 };
    let mut tally = Tally::none();
    for _ in 0..4 {
        tally = tally.with(&tree_plans(alloc, &mut dice)?);
    }
    Ok(tally)
}

#[test]
fn plans_of_a_fat_tree_are_those_of_a_plain_planner(rt: HostRuntime) -> Result<(), Fail> {
    let tally = plans_of_trees(rt.alloc())?;
    assert_eq!(rt; (tally.second_batches, tally.wrong), (4, 0));
    Ok(())
}

/// Forty switches that nobody needs.
fn lone_switches(alloc: Global) -> Result<String, AllocError> {
    let mut text = String::from_str(alloc, "statesman 1\ngroup g\n")?;
    for device in 0..40u32 {
        text.push_str(format!(in alloc; "device d{device} switch\n")?.as_str())?;
    }
    Ok(text)
}

fn plans_of_lone_switches(alloc: Global) -> Result<Tally, Fail> {
    let text = lone_switches(alloc)?;
    let two = plans_once(alloc, world(alloc, text.as_str())?, &mut Dice { state: 1 })?;
    Ok(Tally::none().with(&two))
}

#[test]
fn full_batches_are_those_of_a_plain_planner(rt: HostRuntime) -> Result<(), Fail> {
    let tally = plans_of_lone_switches(rt.alloc())?;
    assert_eq!(rt; (tally.full, tally.second_batches, tally.wrong), (1, 1, 0));
    Ok(())
}
