//! Rows that lead drawn groups back to each of their versions, beside those that a plain merge of the accepted proposals gives.

use super::drawn::Dice;
use st_event::{Event, Reply, Rows, Verdict};
use st_net::{AppId, Entity, Row, Vals, Var};
use st_revert::{Revert, revert_rows};
use st_samples::world;
use st_world::{Stepped, World};
use std::alloc::{AllocError, Global};
use std::test::Fail;

/// Five devices in a row, without promises. Some variables open with other values than 1.
const ROW: &str = "statesman 1
group dc1
device d0 switch
device d1 switch
device d2 switch
device d3 switch
device d4 switch
link l0 d0 d1 10
link l1 d1 d2 10
link l2 d2 d3 10
link l3 d3 d4 10
open d1.firmware=3
open d2.config=2
open l3.iface=4
";

const DEVICES: u32 = 5;

const LINKS: u32 = 4;

/// How many proposals a course has. Most are accepted.
const PROPOSALS: u32 = 20;

const DEVICE_VARS: [Var; 4] = [Var::Power, Var::Firmware, Var::Config, Var::Routing];

const LINK_VARS: [Var; 2] = [Var::LinkPower, Var::Iface];

/// The value that a variable of the group opens with.
fn opening(entity: Entity, var: Var) -> u32 {
    match (entity, var) {
        (Entity::Device(1), Var::Firmware) => 3,
        (Entity::Device(2), Var::Config) => 2,
        (Entity::Link(3), Var::Iface) => 4,
        _ => 1,
    }
}

/// The value of a variable after these rows: that of the last row on it.
fn value_after(rows: &[Row], entity: Entity, var: Var) -> u32 {
    let mut value = opening(entity, var);
    for row in rows {
        if row.entity == entity && row.var == var {
            value = row.value;
        }
    }
    value
}

/// The rows of all accepted proposals, one behind the other, and how many there were up to each version.
#[derive(Drop)]
struct Accepted {
    rows: Vec<Row>,
    ends: Vec<usize>,
}

impl Accepted {
    /// The rows of the proposals up to a version.
    fn up_to(&self, version: usize) -> Option<&[Row]> {
        let end = self.ends.as_slice().get(version).copied()?;
        self.rows.as_slice().get(..end)
    }

    fn add(&mut self, rows: &[Row]) -> Result<(), AllocError> {
        for row in rows {
            self.rows.push(*row)?;
        }
        self.ends.push(self.rows.len())?;
        Ok(())
    }
}

/// Adds the rows of an entity's variables that differ after one list of rows from what they are after another.
fn add_differing(
    entity: Entity,
    vars: &[Var],
    from: &[Row],
    to: &[Row],
    rows: &mut Vec<Row>,
) -> Result<(), AllocError> {
    for var in vars {
        let value = value_after(to, entity, *var);
        if value != value_after(from, entity, *var) {
            let var = *var;
            rows.push(Row { entity, var, value })?;
        }
    }
    Ok(())
}

/// The rows of all variables that differ.
fn differing(alloc: Global, from: &[Row], to: &[Row]) -> Result<Vec<Row>, AllocError> {
    let mut rows = Vec::new(alloc);
    for device in 0..DEVICES {
        let entity = Entity::Device(device);
        add_differing(entity, DEVICE_VARS.as_slice(), from, to, &mut rows)?;
    }
    for link in 0..LINKS {
        let entity = Entity::Link(link);
        add_differing(entity, LINK_VARS.as_slice(), from, to, &mut rows)?;
    }
    Ok(rows)
}

/// The answer to who wants to get back, as words: the rows are listed.
fn rows_words(alloc: Global, rows: &[Row]) -> Result<String, AllocError> {
    match rows.len() {
        0 => String::from_str(alloc, "same"),
        1..=16 => format!(in alloc; "{rows:?}"),
        count => format!(in alloc; "{count} rows"),
    }
}

fn plain_words(alloc: Global, accepted: &Accepted, version: usize) -> Result<String, AllocError> {
    match accepted.up_to(version) {
        Some(to) => {
            let rows = differing(alloc, accepted.rows.as_slice(), to)?;
            rows_words(alloc, rows.as_slice())
        }
        None => format!(in alloc; "latest {}", accepted.ends.len().saturating_sub(1)),
    }
}

fn revert_words(alloc: Global, revert: &Revert) -> Result<String, AllocError> {
    match revert {
        Revert::Rows(rows) => format!(in alloc; "{:?}", rows.as_slice()),
        Revert::NoVersion { latest } => format!(in alloc; "latest {latest}"),
        Revert::Same => String::from_str(alloc, "same"),
        Revert::TooMany { rows } => format!(in alloc; "{rows} rows"),
    }
}

/// A row that is drawn; opening values come again often.
fn drawn_row(dice: &mut Dice) -> Row {
    let (entity, var) = match dice.roll() % 6 {
        0 => (Entity::Device(dice.roll() % DEVICES), Var::Power),
        1 => (Entity::Device(dice.roll() % DEVICES), Var::Firmware),
        2 => (Entity::Device(dice.roll() % DEVICES), Var::Config),
        3 => (Entity::Device(dice.roll() % DEVICES), Var::Routing),
        4 => (Entity::Link(dice.roll() % LINKS), Var::LinkPower),
        _ => (Entity::Link(dice.roll() % LINKS), Var::Iface),
    };
    let number = dice.roll() % 8;
    let value = match var {
        // A device that is to be without power refuses most rows.
        Var::Power => number.min(1),
        Var::Routing | Var::LinkPower => number % 2,
        _ => number % 4,
    };
    Row { entity, var, value }
}

fn drawn_rows(alloc: Global, dice: &mut Dice) -> Result<Rows, AllocError> {
    let mut rows = Vec::new(alloc);
    for _ in 0..1 + dice.roll() % 8 {
        rows.push(drawn_row(dice))?;
    }
    Ok(Rows::new(rows))
}

/// Enters an event, and says whether it decided a proposal that is accepted.
fn is_accepted(world: &mut World, event: Event) -> Result<bool, Fail> {
    if !world.fits(&event) {
        return Err(Fail::new("the event does not fit"));
    }
    match world.step(event)? {
        Stepped::Did(Reply::Decided(receipt)) => match receipt.verdict {
            Verdict::Accepted { .. } => Ok(true),
            Verdict::Refused(_) => Ok(false),
        },
        _ => Ok(false),
    }
}

/// Proposes rows that fit, and says whether they are accepted.
fn are_accepted(world: &mut World, rows: Rows) -> Result<bool, Fail> {
    if !world.control().topo().rows_fit(rows.as_slice()) {
        return Ok(false);
    }
    let app = AppId(0);
    is_accepted(world, Event::Submit { app, rows })?;
    is_accepted(world, Event::Check)
}

/// Proposes rows that are drawn, and notes them where they are accepted.
fn propose(
    alloc: Global,
    world: &mut World,
    accepted: &mut Accepted,
    dice: &mut Dice,
) -> Result<(), Fail> {
    let rows = drawn_rows(alloc, dice)?;
    let copy = rows.copy(alloc)?;
    if are_accepted(world, rows)? {
        accepted.add(copy.as_slice())?;
    }
    Ok(())
}

/// What was seen of answers: how many there are of each kind, and how many are not the plain ones.
#[derive(Clone, Copy)]
struct Tally {
    rows: u32,
    same: u32,
    too_many: u32,
    no_version: u32,
    wrong: u32,
}

fn count(counts: bool, number: u32) -> u32 {
    if counts {
        number.saturating_add(1)
    } else {
        number
    }
}

impl Tally {
    fn none() -> Tally {
        Tally {
            rows: 0,
            same: 0,
            too_many: 0,
            no_version: 0,
            wrong: 0,
        }
    }

    /// With an answer, told in these words, and in those of the plain one.
    fn with(self, words: &str, plain: &str) -> Tally {
        Tally {
            rows: count(plain.starts_with("["), self.rows),
            same: count(plain == "same", self.same),
            too_many: count(plain.ends_with(" rows"), self.too_many),
            no_version: count(plain.starts_with("latest"), self.no_version),
            wrong: count(words != plain, self.wrong),
        }
    }

    fn has_each(self) -> bool {
        self.rows >= 5 && self.same >= 5 && self.too_many >= 5 && self.no_version >= 5
    }
}

/// Asks for a way back to a version, and counts the answer.
fn with_version(
    alloc: Global,
    world: &World,
    accepted: &Accepted,
    version: u32,
    tally: Tally,
) -> Result<Tally, AllocError> {
    let revert = revert_rows(alloc, world.control(), version)?;
    let words = revert_words(alloc, &revert)?;
    let plain = plain_words(alloc, accepted, version as usize)?;
    Ok(tally.with(words.as_str(), plain.as_str()))
}

/// The same of all versions, and of some that there are not.
fn with_versions(
    alloc: Global,
    world: &World,
    accepted: &Accepted,
    tally: Tally,
) -> Result<Tally, AllocError> {
    let mut tally = tally;
    for version in 0..PROPOSALS + 2 {
        tally = with_version(alloc, world, accepted, version, tally)?;
    }
    Ok(tally)
}

/// Proposes rows again and again, and asks for each version behind each of them.
fn with_course(
    alloc: Global,
    world: &mut World,
    accepted: &mut Accepted,
    dice: &mut Dice,
    tally: Tally,
) -> Result<Tally, Fail> {
    let mut tally = tally;
    for _ in 0..PROPOSALS {
        propose(alloc, world, accepted, dice)?;
        tally = with_versions(alloc, world, accepted, tally)?;
    }
    Ok(tally)
}

/// The same of a world that is not needed any more.
fn with_whole_course(
    alloc: Global,
    mut world: World,
    mut accepted: Accepted,
    dice: &mut Dice,
    tally: Tally,
) -> Result<Tally, Fail> {
    let tally = with_course(alloc, &mut world, &mut accepted, dice, tally);
    drop(world);
    tally
}

/// No proposal has been accepted.
fn none_accepted(alloc: Global) -> Result<Accepted, AllocError> {
    let ends = vec![in alloc; 0]?;
    let rows = Vec::new(alloc);
    Ok(Accepted { rows, ends })
}

/// The same of a new world.
fn with_new_world(alloc: Global, dice: &mut Dice, tally: Tally) -> Result<Tally, Fail> {
    let accepted = none_accepted(alloc)?;
    let world = world(alloc, ROW)?;
    with_whole_course(alloc, world, accepted, dice, tally)
}

fn seen_of_courses(alloc: Global) -> Result<Tally, Fail> {
    let mut dice = Dice { state: 5 };
    let mut tally = Tally::none();
    for _ in 0..6 {
        tally = with_new_world(alloc, &mut dice, tally)?;
    }
    Ok(tally)
}

#[test]
fn rows_that_lead_back_are_those_of_a_plain_merge(rt: HostRuntime) -> Result<(), Fail> {
    let tally = seen_of_courses(rt.alloc())?;
    assert_eq!(rt; (tally.has_each(), tally.wrong), (true, 0));
    Ok(())
}
