//! The promises of a group: which held at the opening and which hold now, both in the simulated network.

ghost use Rattle.std.specs.Prelude.{◌≡◌, ◌++◌, ◌∷◌, ◌<◌, [], IfOk, OnOk, length, count_by, map, not, ◌&&◌, if◌then◌else◌};
ghost use Rattle.std.specs.List.{filter};
ghost use Rattle.st_text.specs.Words.{spaced};
ghost use Rattle.st_net.specs.declared.entity.Entity.TheVariants.{Device};
ghost use Rattle.st_net.specs.Groups.{name_of, promise_of};
ghost use Rattle.st_net.specs.Promises.{is_kept};
ghost use Rattle.st_event.specs.Observed.{actual};
ghost use Rattle.st_report.specs.Inside.{lost_text};
ghost use Rattle.st_report.specs.Lines.{lost_words};

use crate::lines::Lines;
use crate::up::up_at_opening;
use st_entry::entity_name;
use st_net::{Entity, GroupTopo};
use st_text::{Text, Word, print_words};
use st_world::World;
use std::alloc::{AllocError, Global};

/// Whether each promise, in order, held at the opening, and whether it holds now.
#[derive(Drop)]
pub(crate) struct Held {
    pub(crate) at_start: Vec<bool>,
    pub(crate) at_end: Vec<bool>,
}

/// The promises of a world's group that held and that hold.
pub(crate) fn judge_promises(alloc: Global, world: &World) -> Result<Held, AllocError>
    ensures start { IfOk result (λ held. held.at_start.items ≡ map (is_kept world.now.history.group (actual world.now.history.group [])) world.now.history.group.promises) }
    ensures end { IfOk result (λ held. held.at_end.items ≡ map (is_kept world.now.history.group (actual world.now.history.group world.now.history.past)) world.now.history.group.promises) }
{
    let control = world.control();
    let opening = up_at_opening(alloc, control.topo())?;
    let now = world.up_set()?;
    Ok(Held {
        at_start: control.held_in(&opening)?,
        at_end: control.held_in(&now)?,
    })
}

/// How many marks are set.
pub(crate) fn mark_count(marks: &[bool]) -> usize
    ensures { result ≡ count_by (λ mark. mark) marks.now }
{
    marks.iter().filter(|mark| **mark).count()
}

/// Adds the ends of promise number `i`, where it held and does not hold now.
fn add_lost(
    alloc: Global,
    topo: &GroupTopo,
    i: u32,
    held: bool,
    holds: bool,
    lines: &mut Lines,
) -> Result<(), AllocError>
    requires { i < length topo.now.promises }
    ensures { OnOk result (lines.new ≡ lines.old ++ (if held && not holds then lost_text topo.now (promise_of topo.now i) ∷ [] else [])) }
{
    if !held || holds {
        return Ok(());
    }
    topo.is_sound();
    let promise = topo.promise(i);
    let a = entity_name(topo, Entity::Device(promise.a));
    let b = entity_name(topo, Entity::Device(promise.b));
    let mut text = Text::new(alloc);
    print_words(&[Word::Plain(a), Word::Plain(b)], &mut text)?;
    lines.add(text)
}

/// The promises that held and do not hold now, in order: the two ends of each.
pub(crate) fn lost_lines(alloc: Global, world: &World, held: &Held) -> Result<Lines, AllocError>
    requires start { held.now.at_start.items ≡ map (is_kept world.now.history.group (actual world.now.history.group [])) world.now.history.group.promises }
    requires end { held.now.at_end.items ≡ map (is_kept world.now.history.group (actual world.now.history.group world.now.history.past)) world.now.history.group.promises }
    ensures { IfOk result (λ lines. lines ≡ map spaced (lost_words world.now.history.group world.now.history.past)) }
{
    let topo = world.control().topo();
    let mut lines = Lines::new(alloc);
    for i in 0..topo.promise_count() {
        let before = held.at_start[i as usize];
        let after = held.at_end[i as usize];
        add_lost(alloc, topo, i, before, after, &mut lines)?;
    }
    Ok(lines)
}
