//! What an entry can change of what is shown of its group: where it overlays the target the entities that the overlay alters there, and
//! else at most one, with the links that end at these. All else stays as it was shown, and is neither asked for again nor compared.

ghost use Rattle.std.specs.Prelude.{◌≡◌, IfOk, option_map};
ghost use Rattle.std.specs.Option.{option_copied};
ghost use Rattle.st_net.specs.Groups.{IsEntityOf};
ghost use Rattle.st_net.specs.Numbered.{nth};
ghost use Rattle.st_event.specs.History.{with_entry};
ghost use Rattle.st_event.specs.Legal.{IsNext};
ghost use Rattle.st_event.specs.Moments.{commands, reports};
ghost use Rattle.st_event.specs.Proposals.{first_rows, pending};
ghost use Rattle.st_player.specs.declared.touched.Touched.TheVariants.{Near};
ghost use Rattle.st_player.specs.Causes.{overlay_of as overlay_of_lem};
ghost use Rattle.st_player.specs.Touched.{HasMark, HasMarks, Touches, may_move as may_move_lem, may_show as may_show_lem, moved_by as moved_by_lem};

use crate::weighing::altered;
use st_event::{Entry, Event, Reply, Verdict};
use st_net::{Entity, EntitySet, GroupTopo, Row};
use st_wire::Took;
use st_world::World;
use std::alloc::{AllocError, Global};

/// What an entry can change.
#[derive(Drop)]
pub(crate) enum Touched {
    /// No entity.
    Nothing,
    /// This one, and what is shown of the links that end at it.
    Near(Entity),
    /// These, whose target an overlay alters, and what is shown of the links that end at them. The network is as it was, and the same
    /// promises hold in the sure set.
    Altered(EntitySet),
}

impl Touched {
    /// Whether an entity may be another than before: in the network, by its locks, or as it is known.
    pub(crate) fn may_move(&self, entity: Entity) -> bool
        requires { HasMark self.now entity }
        ensures { result ≡ may_move_lem self.now entity }
    {
        match self {
            Touched::Nothing => false,
            Touched::Near(at) => at.is_same(entity),
            Touched::Altered(set) => set.has(entity),
        }
    }

    /// Whether what is shown of it may be: of a link, its ends are shown too.
    pub(crate) fn may_show(&self, topo: &GroupTopo, entity: Entity) -> bool
        requires marks { HasMarks topo.now self.now }
        requires entity { IsEntityOf topo.now entity }
        ensures { result ≡ may_show_lem topo.now self.now entity }
    {
        topo.is_sound();
        match entity {
            Entity::Device(_) => self.may_move(entity),
            Entity::Link(i) => {
                let (a, b) = topo.ends(i);
                self.may_move(entity)
                    || self.may_move(Entity::Device(a))
                    || self.may_move(Entity::Device(b))
            }
        }
    }
}

/// Whether what is shown of an entity may be another than before, where the one at `at` may be: of a link, its ends are shown too.
pub(crate) fn shows_near(topo: &GroupTopo, at: Entity, entity: Entity) -> bool
    requires { IsEntityOf topo.now entity }
    ensures { result ≡ may_show_lem topo.now (Near at) entity }
{
    Touched::Near(at).may_show(topo, entity)
}

/// The entity that a command of this number is for.
pub(crate) fn command_entity(world: &World, command: u32) -> Option<Entity>
    ensures { result ≡ option_map (λ c. c.entity) (nth (commands world.now.history.group world.now.history.past) command) }
{
    match world.wire().command(command) {
        Took::Got(command) => Some(command.entity),
        Took::NoSuch { .. } => None,
    }
}

/// The entity that a report of this number is of.
pub(crate) fn report_entity(world: &World, report: u32) -> Option<Entity>
    ensures { result ≡ option_map (λ r. r.entity) (nth (reports world.now.history.group world.now.history.past) report) }
{
    match world.wire().report(report) {
        Took::Got(report) => Some(report.entity),
        Took::NoSuch { .. } => None,
    }
}

/// The entity that an event moves where it overlays nothing, if it moves one.
fn moved_by(world: &World, event: &Event) -> Option<Entity>
    ensures { result ≡ moved_by_lem world.now.history.group world.now.history.past event.now }
{
    match event {
        Event::Submit { .. }
        | Event::Check
        | Event::Send { .. }
        | Event::Report { .. }
        | Event::Withdraw { .. } => None,
        Event::Lock { entity, .. }
        | Event::Unlock { entity, .. }
        | Event::Finish { entity }
        | Event::Fail { entity, .. } => Some(*entity),
        Event::Deliver { command } => command_entity(world, *command),
        Event::Hear { report } => report_entity(world, *report),
    }
}

/// The rows of the oldest proposal that waits.
pub(crate) fn oldest_rows(world: &World) -> &[Row]
    ensures { result.now ≡ first_rows (pending world.now.history.past) }
{
    match world.control().store().oldest() {
        Some(oldest) => oldest.rows.as_slice(),
        None => &[],
    }
}

/// What an entry overlays the target with, behind the entries of a world, where it overlays it.
pub(crate) fn overlay_of<'a>(world: &'a World, entry: &'a Entry) -> Option<&'a [Row]>
    ensures { option_copied result ≡ overlay_of_lem world.now.history.past entry.now }
{
    match (&entry.event, &entry.reply) {
        (Event::Check, Reply::Decided(receipt)) => match &receipt.verdict {
            Verdict::Accepted { .. } => Some(oldest_rows(world)),
            Verdict::Refused(_) => None,
        },
        (Event::Withdraw { .. }, Reply::Withdrawn { rows, .. }) => Some(rows.as_slice()),
        _ => None,
    }
}

/// What the next entry of a legal journal can change, behind the entries of a world.
pub(crate) fn touched_by(alloc: Global, world: &World, entry: &Entry) -> Result<Touched, AllocError>
    requires { IsNext world.now.history.group world.now.history.past entry.now }
    ensures { IfOk result (Touches world.now.history (with_entry world.now.history entry.now)) }
{
    world.is_legal();
    if let Some(rows) = overlay_of(world, entry) {
        let set = altered(alloc, world, rows)?;
        return Ok(Touched::Altered(set));
    }
    match moved_by(world, &entry.event) {
        Some(entity) => Ok(Touched::Near(entity)),
        None => Ok(Touched::Nothing),
    }
}
