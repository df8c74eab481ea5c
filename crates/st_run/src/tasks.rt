//! The tasks of a run's workers, by the commands of all scripts.

ghost use Rattle.std.specs.Prelude.{◌≡◌, ◌<◌, ◌≤◌, ◌++◌, ◌^◌, length, sum_by, count_by, IfOk};
ghost use Rattle.st_run.specs.Tasks.{is_propose_of, is_settle_of, proposes_of as proposes_of_lem, settles_of as settles_of_lem, tasks_by, tasks_for};

use crate::workers::{Duty, Task};
use st_event::Act;
use st_grammar::Script;
use std::alloc::{AllocError, Global};

/// Whether a command settles this group.
fn is_settle_of(group: u32, act: &Act) -> bool
    ensures { result ≡ is_settle_of group act.now }
{
    match act {
        Act::Settle { group: settled, .. } => *settled == group,
        _ => false,
    }
}

/// How many of the commands settle a group.
fn settles_in(acts: &[Act], group: u32) -> usize
    ensures { result ≡ count_by (is_settle_of group) acts.now }
{
    acts.iter().filter(|act| is_settle_of(group, *act)).count()
}

/// How many commands of all scripts settle this group.
fn settles_of(apps: &[Script], group: u32) -> usize
    requires { sum_by (λ app. length app.acts) apps.now < 2 ^ 32 }
    ensures { result ≡ settles_of_lem group apps.now }
{
    let mut count: usize = 0;
    for app in apps {
        count += settles_in(app.acts.as_slice(), group);
    }
    count
}

/// Whether a command proposes to this group.
fn is_propose_of(group: u32, act: &Act) -> bool
    ensures { result ≡ is_propose_of group act.now }
{
    match act {
        Act::Propose { group: asked, .. } => *asked == group,
        _ => false,
    }
}

/// How many of the commands propose to a group.
fn proposes_in(acts: &[Act], group: u32) -> usize
    ensures { result ≡ count_by (is_propose_of group) acts.now }
{
    acts.iter().filter(|act| is_propose_of(group, *act)).count()
}

/// How many commands of all scripts propose to this group.
fn proposes_of(apps: &[Script], group: u32) -> usize
    requires { sum_by (λ app. length app.acts) apps.now < 2 ^ 32 }
    ensures { result ≡ proposes_of_lem group apps.now }
{
    let mut count: usize = 0;
    for app in apps {
        count += proposes_in(app.acts.as_slice(), group);
    }
    count
}

/// Adds a task for each of a group's duties, to be done `times` times; none where that is 0.
fn add_tasks(
    tasks: &mut Vec<Task>,
    group: u32,
    times: usize,
    duties: &[Duty],
) -> Result<(), AllocError>
    ensures { IfOk result (λ _. tasks.new.items ≡ tasks.old.items ++ tasks_for group times duties.now) }
{
    if times == 0 {
        return Ok(());
    }
    for duty in duties {
        tasks.push(Task {
            group,
            duty: *duty,
            times,
        })?;
    }
    Ok(())
}

/// The tasks of the workers of groups, whose number is `rooms`. Each group to which a `propose` goes has a checker, which makes a check for
/// each such command. Each group that a `settle` names has an updater and a monitor, each of which makes a half of a round for each such
/// command.
pub fn tasks_of(alloc: Global, rooms: usize, apps: &[Script]) -> Result<Vec<Task>, AllocError>
    requires rooms { rooms ≤ 16 }
    requires few { sum_by (λ app. length app.acts) apps.now < 2 ^ 32 }
    ensures { IfOk result (λ tasks. tasks.items ≡ tasks_by apps.now rooms) }
{
    let mut tasks = Vec::new(alloc);
    for room in 0..rooms {
        let group = room as u32;
        add_tasks(&mut tasks, group, proposes_of(apps, group), &[Duty::Check])?;
        add_tasks(
            &mut tasks,
            group,
            settles_of(apps, group),
            &[Duty::Update, Duty::Monitor],
        )?;
    }
    Ok(tasks)
}
