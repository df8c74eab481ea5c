//! What is shown of an entity at one moment: how it is in the network, how it is known, and what stands against it. A world is asked
//! for all of it.

ghost use Rattle.std.specs.Prelude.{◌≡◌, Some, None};
ghost use Rattle.st_net.specs.Groups.{IsEntityOf};
ghost use Rattle.st_event.specs.Observed.{observed as observed_lem, sure};
ghost use Rattle.st_event.specs.Moments.{stamp as stamp_lem};
ghost use Rattle.st_event.specs.Proposals.{target as target_lem};
ghost use Rattle.st_net.specs.Merge.{vals_in};
ghost use Rattle.st_player.specs.Fields.{carriage_word, knowledge_word, is_same_carriage, is_same_knowledge};
ghost use Rattle.st_player.specs.Inside.{carriage_in, last_fail, is_since as is_since_lem};
ghost use Rattle.st_player.specs.Known.{health_told as health_told_lem, known_since};
ghost use Rattle.st_player.specs.States.{greatest as greatest_lem, knowledge_of as knowledge_of_lem, open_of as open_of_lem, state_of as state_of_lem};

use st_agent::Agent;
use st_control::SendStep;
use st_net::{AppId, Entity, Prio, Report, Vals, carries};
use st_world::World;

/// How an entity is in the network.
#[derive(Clone, Copy)]
pub(crate) enum Carriage {
    /// A command is in work.
    Busy,
    /// It carries traffic.
    Up,
    /// Its power is 0.
    Off,
    /// It does not work as well as it could.
    Failed,
    /// It works, and its routing is 0.
    Drained,
}

/// How an entity is known.
#[derive(Clone, Copy)]
pub(crate) enum Knowledge {
    /// It is as its target has it, and was seen to carry.
    Sure,
    /// It is as its target has it.
    Settled,
    /// It is to change, and what it waits for can't be set now.
    Blocked,
    /// It is to change.
    Waiting,
}

/// What is shown of an entity. `level` and `fence` are those of the report that is kept, `told` is the entry by which that was made, 0 where it
/// is the opening's, and `health` the health that it tells, where it hides none. `works` is the level in the network; `is_open` is said of a
/// link alone.
#[derive(Clone, Copy)]
pub(crate) struct State {
    pub(crate) carriage: Carriage,
    pub(crate) knowledge: Knowledge,
    pub(crate) untold: bool,
    pub(crate) target: Vals,
    pub(crate) seen: Vals,
    pub(crate) real: Vals,
    pub(crate) level: u32,
    pub(crate) works: u32,
    pub(crate) stamp: u32,
    pub(crate) fence: u32,
    pub(crate) told: u32,
    pub(crate) health: Option<u32>,
    pub(crate) low: Option<AppId>,
    pub(crate) high: Option<AppId>,
    pub(crate) is_open: Option<bool>,
}

impl Carriage {
    /// The word for it.
    pub(crate) fn word(self) -> &'static [u8]
        ensures { result.now ≡ carriage_word self }
    {
        match self {
            Carriage::Busy => b"busy",
            Carriage::Up => b"up",
            Carriage::Off => b"off",
            Carriage::Failed => b"failed",
            Carriage::Drained => b"drained",
        }
    }

    /// Whether two are one.
    pub(crate) fn is_same(self, other: Carriage) -> bool
        ensures { result ≡ is_same_carriage self other }
    {
        match (self, other) {
            (Carriage::Busy, Carriage::Busy) => true,
            (Carriage::Up, Carriage::Up) => true,
            (Carriage::Off, Carriage::Off) => true,
            (Carriage::Failed, Carriage::Failed) => true,
            (Carriage::Drained, Carriage::Drained) => true,
            _ => false,
        }
    }
}

impl Knowledge {
    /// The word for it.
    pub(crate) fn word(self) -> &'static [u8]
        ensures { result.now ≡ knowledge_word self }
    {
        match self {
            Knowledge::Sure => b"sure",
            Knowledge::Settled => b"settled",
            Knowledge::Blocked => b"blocked",
            Knowledge::Waiting => b"waiting",
        }
    }

    /// Whether two are one.
    pub(crate) fn is_same(self, other: Knowledge) -> bool
        ensures { result ≡ is_same_knowledge self other }
    {
        match (self, other) {
            (Knowledge::Sure, Knowledge::Sure) => true,
            (Knowledge::Settled, Knowledge::Settled) => true,
            (Knowledge::Blocked, Knowledge::Blocked) => true,
            (Knowledge::Waiting, Knowledge::Waiting) => true,
            _ => false,
        }
    }
}

/// The level of an entity all of which works.
pub(crate) fn greatest(entity: Entity) -> u32
    ensures { result ≡ greatest_lem entity }
{
    match entity {
        Entity::Device(_) => 5,
        Entity::Link(_) => 1,
    }
}

/// How an entity is in the network, by its agent.
fn carriage_by(entity: Entity, agent: &Agent) -> Carriage
    requires { agent.now.entity ≡ entity }
    ensures { result ≡ carriage_in entity agent.now.agent }
{
    if agent.busy() {
        Carriage::Busy
    } else if agent.up() {
        Carriage::Up
    } else if agent.vals().v0 == 0 {
        Carriage::Off
    } else if agent.level() < greatest(entity) {
        Carriage::Failed
    } else {
        Carriage::Drained
    }
}

/// The report of an entity that is kept.
pub(crate) fn observed_of(world: &World, entity: Entity) -> Report
    requires { IsEntityOf world.now.history.group entity }
    ensures { result ≡ observed_lem world.now.history.group world.now.history.past entity }
{
    let control = world.control();
    let place = control.topo().place(entity);
    control.store().observed()[place]
}

/// The values that an entity is to have.
pub(crate) fn target_of(world: &World, entity: Entity) -> Vals
    requires { IsEntityOf world.now.history.group entity }
    ensures { result ≡ vals_in world.now.history.group (target_lem world.now.history.group world.now.history.past) entity }
{
    world.control().store().target().get(entity)
}

/// The entry that changed or renewed an entity's target last.
fn stamp_of(world: &World, entity: Entity) -> u32
    requires { IsEntityOf world.now.history.group entity }
    ensures { result ≡ stamp_lem world.now.history.group world.now.history.past entity }
{
    let control = world.control();
    control.stamps()[control.topo().place(entity)]
}

/// How an entity is known.
fn knowledge_of(world: &World, entity: Entity) -> Knowledge
    requires { IsEntityOf world.now.history.group entity }
    ensures { result ≡ knowledge_of_lem world.now.history.group world.now.history.past entity }
{
    let seen = observed_of(world, entity);
    match world.control().send(entity) {
        SendStep::Settled if carries(entity, seen.vals, seen.level) => Knowledge::Sure,
        SendStep::Settled => Knowledge::Settled,
        SendStep::Blocked { .. } => Knowledge::Blocked,
        SendStep::Command(_) => Knowledge::Waiting,
    }
}

/// Whether an entity is sure.
pub(crate) fn is_sure(world: &World, entity: Entity) -> bool
    requires { IsEntityOf world.now.history.group entity }
    ensures { result ≡ sure world.now.history.group world.now.history.past entity }
{
    match knowledge_of(world, entity) {
        Knowledge::Sure => true,
        _ => false,
    }
}

/// Of a link, whether it is up with both its ends.
fn open_of(world: &World, entity: Entity) -> Option<bool>
    requires { IsEntityOf world.now.history.group entity }
    ensures { result ≡ open_of_lem world.now.history.group world.now.history.past entity }
{
    match entity {
        Entity::Device(_) => None,
        Entity::Link(i) => {
            world.is_legal();
            let (a, b) = world.control().topo().ends(i);
            let is_open = world.is_up(entity)
                && world.is_up(Entity::Device(a))
                && world.is_up(Entity::Device(b));
            Some(is_open)
        }
    }
}

/// Whether an entity failed since the making of its report of this number, where it last failed behind so many reports.
fn is_since(failed: Option<u32>, number: u32) -> bool
    ensures { result ≡ is_since_lem failed number }
{
    match failed {
        Some(made) => number <= made,
        None => false,
    }
}

/// The health that a report tells: none where it is of a busy entity, or of one without power.
fn health_told(report: Report) -> Option<u32>
    ensures { result ≡ health_told_lem report }
{
    if report.busy || report.vals.v0 == 0 {
        None
    } else {
        Some(report.level)
    }
}

/// What is shown of an entity, which last failed behind so many reports of its own, and whose report that is kept was made by this entry.
pub(crate) fn state_of(world: &World, failed: Option<u32>, since: u32, entity: Entity) -> State
    requires entity { IsEntityOf world.now.history.group entity }
    requires failed { failed ≡ last_fail world.now.history.past entity }
    requires since { since ≡ known_since world.now.history.group world.now.history.past entity }
    ensures { result ≡ state_of_lem world.now.history.group world.now.history.past entity }
{
    let agent = world.agent(entity);
    let seen = observed_of(world, entity);
    let locks = world.control().locks();
    State {
        carriage: carriage_by(entity, agent),
        knowledge: knowledge_of(world, entity),
        untold: is_since(failed, seen.number),
        target: target_of(world, entity),
        seen: seen.vals,
        real: agent.vals(),
        level: seen.level,
        works: agent.level(),
        stamp: stamp_of(world, entity),
        fence: seen.fence,
        told: since,
        health: health_told(seen),
        low: locks.holder(entity, Prio::Low),
        high: locks.holder(entity, Prio::High),
        is_open: open_of(world, entity),
    }
}
