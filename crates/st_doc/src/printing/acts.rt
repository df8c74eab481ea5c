//! The lines of commands.

ghost use Rattle.std.specs.Prelude.{◌≡◌, ◌++◌, ◌∷◌, [], OnOk, map, codes, decimal};
ghost use Rattle.st_text.specs.Words.{text_of, spaced};
ghost use Rattle.st_net.specs.Groups.{name_of};
ghost use Rattle.st_net.specs.Faults.{group_of};
ghost use Rattle.st_token.specs.Words.{prio_word as prio_word_lem, variable_word};
ghost use Rattle.st_doc.specs.Printed.{group_at, entity_word, assignment_words, value_words, act_words};

use crate::printing::words::print_line;
use st_event::Act;
use st_net::{Entity, Parts, Prio, Row, Var};
use st_text::{Text, Word, begin_line, print_word};
use st_token::{prio_word, var_word};
use std::alloc::AllocError;

/// The name of a group, by its number; no bytes where there are not so many.
fn group_name(groups: &[Parts], group: u32) -> &[u8]
    ensures { result.now ≡ (group_at groups.now group).name }
{
    match groups.get(group as usize) {
        Some(parts) => parts.name.bytes(),
        None => b"",
    }
}

/// The name of an entity of a group; no bytes where it is not one of the group.
fn part_name(group: &Parts, entity: Entity) -> &[u8]
    ensures { result.now ≡ name_of (group_of group.now) entity }
{
    match entity {
        Entity::Device(place) => match group.devices.as_slice().get(place as usize) {
            Some(device) => device.name.bytes(),
            None => b"",
        },
        Entity::Link(place) => match group.links.as_slice().get(place as usize) {
            Some(link) => link.name.bytes(),
            None => b"",
        },
    }
}

/// The name of an entity of the group of a number; no bytes where there is none.
fn entity_name(groups: &[Parts], group: u32, entity: Entity) -> &[u8]
    ensures { result.now ≡ entity_word groups.now group entity }
{
    match groups.get(group as usize) {
        Some(parts) => part_name(parts, entity),
        None => b"",
    }
}

/// Adds the assignments of a proposal to a group, each behind a space.
fn print_assignments(
    groups: &[Parts],
    group: u32,
    rows: &[Row],
    out: &mut Text,
) -> Result<(), AllocError>
    ensures { OnOk result (out.new ≡ out.old ++ spaced (assignment_words groups.now group rows.now)) }
{
    for row in rows {
        let word = Word::Assignment {
            name: entity_name(groups, group, row.entity),
            var: var_word(row.var),
            value: row.value,
        };
        print_word(word, out)?;
    }
    Ok(())
}

/// Adds the values of a failure, each behind a space.
fn print_values(rows: &[Row], out: &mut Text) -> Result<(), AllocError>
    ensures { OnOk result (out.new ≡ out.old ++ spaced (value_words rows.now)) }
{
    for row in rows {
        print_word(
            Word::Value {
                var: var_word(row.var),
                value: row.value,
            },
            out,
        )?;
    }
    Ok(())
}

/// Adds the line of a proposal.
fn print_propose(
    groups: &[Parts],
    group: u32,
    rows: &[Row],
    out: &mut Text,
) -> Result<(), AllocError>
    ensures { OnOk result (out.new ≡ out.old ++ text_of ((codes "propose" ∷ (group_at groups.now group).name ∷ assignment_words groups.now group rows.now) ∷ [])) }
{
    begin_line(b"propose", &[Word::Plain(group_name(groups, group))], out)?;
    print_assignments(groups, group, rows, out)?;
    out.word(b"\n")
}

/// Adds the line of a failure.
fn print_fail(
    groups: &[Parts],
    group: u32,
    entity: Entity,
    health: u32,
    rows: &[Row],
    out: &mut Text,
) -> Result<(), AllocError>
    ensures { OnOk result (out.new ≡ out.old ++ text_of ((codes "fail" ∷ (group_at groups.now group).name ∷ entity_word groups.now group entity ∷ decimal health ∷ value_words rows.now) ∷ [])) }
{
    let words = [
        Word::Plain(group_name(groups, group)),
        Word::Plain(entity_name(groups, group, entity)),
        Word::Number(u64::from(health)),
    ];
    begin_line(b"fail", &words, out)?;
    print_values(rows, out)?;
    out.word(b"\n")
}

/// Adds the line of a lock that is asked for or given back, by its first word.
fn print_lock(
    head: &[u8],
    groups: &[Parts],
    group: u32,
    entity: Entity,
    prio: Prio,
    out: &mut Text,
) -> Result<(), AllocError>
    ensures { OnOk result (out.new ≡ out.old ++ text_of ((head.now ∷ (group_at groups.now group).name ∷ entity_word groups.now group entity ∷ prio_word_lem prio ∷ []) ∷ [])) }
{
    let words = [
        Word::Plain(group_name(groups, group)),
        Word::Plain(entity_name(groups, group, entity)),
        Word::Plain(prio_word(prio)),
    ];
    print_line(head, &words, out)
}

/// Adds the line of a look at a variable.
fn print_read(
    groups: &[Parts],
    group: u32,
    entity: Entity,
    var: Var,
    out: &mut Text,
) -> Result<(), AllocError>
    ensures { OnOk result (out.new ≡ out.old ++ text_of ((codes "read" ∷ (group_at groups.now group).name ∷ variable_word (entity_word groups.now group entity) var ∷ []) ∷ [])) }
{
    let name = entity_name(groups, group, entity);
    let words = [
        Word::Plain(group_name(groups, group)),
        Word::Variable {
            name,
            var: var_word(var),
        },
    ];
    print_line(b"read", &words, out)
}

/// Adds the line of a look at a variable at a version.
fn print_readat(
    groups: &[Parts],
    group: u32,
    version: u32,
    entity: Entity,
    var: Var,
    out: &mut Text,
) -> Result<(), AllocError>
    ensures { OnOk result (out.new ≡ out.old ++ text_of ((codes "readat" ∷ (group_at groups.now group).name ∷ decimal version ∷ variable_word (entity_word groups.now group entity) var ∷ []) ∷ [])) }
{
    let name = entity_name(groups, group, entity);
    let words = [
        Word::Plain(group_name(groups, group)),
        Word::Number(u64::from(version)),
        Word::Variable {
            name,
            var: var_word(var),
        },
    ];
    print_line(b"readat", &words, out)
}

/// Adds the line of rounds.
fn print_settle(groups: &[Parts], group: u32, rounds: u32, out: &mut Text) -> Result<(), AllocError>
    ensures { OnOk result (out.new ≡ out.old ++ text_of ((codes "settle" ∷ (group_at groups.now group).name ∷ decimal rounds ∷ []) ∷ [])) }
{
    let words = [
        Word::Plain(group_name(groups, group)),
        Word::Number(u64::from(rounds)),
    ];
    print_line(b"settle", &words, out)
}

/// Adds the line of a poll.
fn print_poll(
    groups: &[Parts],
    group: u32,
    entity: Entity,
    out: &mut Text,
) -> Result<(), AllocError>
    ensures { OnOk result (out.new ≡ out.old ++ text_of ((codes "poll" ∷ (group_at groups.now group).name ∷ entity_word groups.now group entity ∷ []) ∷ [])) }
{
    let words = [
        Word::Plain(group_name(groups, group)),
        Word::Plain(entity_name(groups, group, entity)),
    ];
    print_line(b"poll", &words, out)
}

/// Adds the line of a command.
fn print_act(groups: &[Parts], act: &Act, out: &mut Text) -> Result<(), AllocError>
    ensures { OnOk result (out.new ≡ out.old ++ text_of (act_words groups.now act.now ∷ [])) }
{
    match act {
        Act::Propose { group, rows } => print_propose(groups, *group, rows.as_slice(), out),
        Act::Await { group } => {
            print_line(b"await", &[Word::Plain(group_name(groups, *group))], out)
        }
        Act::Settle { group, rounds } => print_settle(groups, *group, *rounds, out),
        Act::Lock {
            group,
            entity,
            prio,
        } => print_lock(b"lock", groups, *group, *entity, *prio, out),
        Act::Unlock {
            group,
            entity,
            prio,
        } => print_lock(b"unlock", groups, *group, *entity, *prio, out),
        Act::Read { group, entity, var } => print_read(groups, *group, *entity, *var, out),
        Act::ReadAt {
            group,
            version,
            entity,
            var,
        } => print_readat(groups, *group, *version, *entity, *var, out),
        Act::Fail {
            group,
            entity,
            health,
            rows,
        } => print_fail(groups, *group, *entity, *health, rows.as_slice(), out),
        Act::Poll { group, entity } => print_poll(groups, *group, *entity, out),
        Act::Span { .. } => out.word(b"\n"),
    }
}

/// Adds a line for each command.
pub fn print_acts(groups: &[Parts], acts: &[Act], out: &mut Text) -> Result<(), AllocError>
    ensures { OnOk result (out.new ≡ out.old ++ text_of (map (act_words groups.now) acts.now)) }
{
    for act in acts {
        print_act(groups, act, out)?;
    }
    Ok(())
}
