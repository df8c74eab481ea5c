//! What applications read: each entry of each log, with the names of its application, its group and its variable.

ghost use Rattle.std.specs.Prelude.{◌≡◌, ◌++◌, ◌∷◌, [], IfOk, OnOk, map, true};
ghost use Rattle.st_text.specs.Words.{spaced};
ghost use Rattle.st_net.specs.Groups.{are_names as are_names_lem, name_of};
ghost use Rattle.st_entry.specs.Plain.{is_plain};
ghost use Rattle.st_report.specs.Lines.{group_at, histories, read_words, seen_words};

use crate::lines::Lines;
use crate::names::are_names;
use st_entry::{app_name, entity_name, print_saw};
use st_event::{Log, LogEntry};
use st_net::{AppId, Entity, Name};
use st_text::{Text, Word, print_words};
use st_token::var_word;
use st_world::World;
use std::alloc::{AllocError, Global};

/// The name of the group of a number; no bytes where there are not so many.
fn group_name(worlds: &[World], group: u32) -> &[u8]
    ensures name { result.now ≡ (group_at (histories worlds.now) group).name }
    ensures plain { is_plain result.now ≡ true }
{
    match worlds.get(group as usize) {
        Some(world) => world.control().topo().name().bytes(),
        None => b"",
    }
}

/// The name of an entity of that group; no bytes where it has none.
fn name_in(worlds: &[World], group: u32, entity: Entity) -> &[u8]
    ensures name { result.now ≡ name_of (group_at (histories worlds.now) group) entity }
    ensures plain { is_plain result.now ≡ true }
{
    match worlds.get(group as usize) {
        Some(world) => {
            let topo = world.control().topo();
            topo.is_sound();
            entity_name(topo, entity)
        }
        None => b"",
    }
}

/// Adds an entry of an application's log.
fn add_seen(
    alloc: Global,
    worlds: &[World],
    apps: &[Name],
    app: AppId,
    entry: &LogEntry,
    lines: &mut Lines,
) -> Result<(), AllocError>
    requires { are_names_lem apps.now ≡ true }
    ensures { OnOk result (lines.new ≡ lines.old ++ spaced (seen_words (histories worlds.now) apps.now app entry.now) ∷ []) }
{
    let variable = Word::Variable {
        name: name_in(worlds, entry.group, entry.entity),
        var: var_word(entry.var),
    };
    let group = group_name(worlds, entry.group);
    let mut text = Text::new(alloc);
    print_words(
        &[
            Word::Plain(app_name(apps, app)),
            Word::Plain(group),
            variable,
        ],
        &mut text,
    )?;
    print_saw(entry.saw, &mut text)?;
    lines.add(text)
}

/// Adds the entries of an application's log.
fn add_log(
    alloc: Global,
    worlds: &[World],
    apps: &[Name],
    log: &Log,
    lines: &mut Lines,
) -> Result<(), AllocError>
    requires { are_names_lem apps.now ≡ true }
    ensures { OnOk result (lines.new ≡ lines.old ++ map spaced (map (seen_words (histories worlds.now) apps.now log.now.app) log.now.entries)) }
{
    for entry in log.entries.as_slice() {
        add_seen(alloc, worlds, apps, log.app, entry, lines)?;
    }
    Ok(())
}

/// Each entry of each log, in order.
pub(crate) fn read_lines(
    alloc: Global,
    worlds: &[World],
    apps: &[Name],
    logs: &[Log],
) -> Result<Lines, AllocError>
    ensures { IfOk result (λ lines. lines ≡ map spaced (read_words (histories worlds.now) apps.now logs.now)) }
{
    are_names(apps);
    let mut lines = Lines::new(alloc);
    for log in logs {
        add_log(alloc, worlds, apps, log, &mut lines)?;
    }
    Ok(lines)
}
