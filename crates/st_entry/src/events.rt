//! The words of an event: what happened to a group, with what it names.

ghost use Rattle.std.specs.Prelude.{◌≡◌, ◌++◌, ◌∷◌, [], OnOk, decimal};
ghost use Rattle.st_text.specs.Printed.{bytes_of, value_word as value_word_lem};
ghost use Rattle.st_text.specs.Words.{spaced};
ghost use Rattle.st_net.specs.Entities.{value_of};
ghost use Rattle.st_net.specs.Groups.{name_of};
ghost use Rattle.st_token.specs.Words.{prio_word as prio_word_lem, var_word as var_word_lem};
ghost use Rattle.st_entry.specs.declared.keyword.EventWord.TheVariants as events;
ghost use Rattle.st_entry.specs.Keywords.{event_word};
ghost use Rattle.st_entry.specs.Words.{app_word, assignment_words, value_words};
ghost use Rattle.st_entry.specs.Entries.{event_words};

use crate::keyword::EventWord;
use crate::names::{app_name, entity_name};
use st_event::Event;
use st_net::{AppId, Entity, GroupTopo, Name, Prio, Row, Vals, Var};
use st_text::{Text, Word, print_word, print_words};
use st_token::{prio_word, var_word};
use std::alloc::AllocError;

/// Adds rows as assignments, each behind a space. `Err` is for want of memory alone, and nothing is said of the text then.
pub fn print_assignments(topo: &GroupTopo, rows: &[Row], out: &mut Text) -> Result<(), AllocError>
    ensures { OnOk result (out.new ≡ out.old ++ spaced (assignment_words topo.now rows.now)) }
{
    for row in rows {
        let name = entity_name(topo, row.entity);
        print_word(
            Word::Assignment {
                name,
                var: var_word(row.var),
                value: row.value,
            },
            out,
        )?;
    }
    Ok(())
}

/// A variable of an entity with its value among these.
fn value_word(entity: Entity, vals: Vals, var: Var) -> Word<'static>
    ensures { bytes_of result ≡ value_word_lem (var_word_lem var) (value_of entity vals var) }
{
    Word::Value {
        var: var_word(var),
        value: vals.get(entity, var),
    }
}

/// Adds every variable of an entity with its value.
fn print_values(entity: Entity, vals: Vals, out: &mut Text) -> Result<(), AllocError>
    ensures { OnOk result (out.new ≡ out.old ++ spaced (value_words entity vals)) }
{
    match entity {
        Entity::Device(_) => print_words(
            &[
                value_word(entity, vals, Var::Power),
                value_word(entity, vals, Var::Firmware),
                value_word(entity, vals, Var::Config),
                value_word(entity, vals, Var::Routing),
            ],
            out,
        ),
        Entity::Link(_) => print_words(
            &[
                value_word(entity, vals, Var::LinkPower),
                value_word(entity, vals, Var::Iface),
            ],
            out,
        ),
    }
}

/// Adds a proposal.
fn print_submit(
    topo: &GroupTopo,
    app: &[u8],
    rows: &[Row],
    out: &mut Text,
) -> Result<(), AllocError>
    ensures { OnOk result (out.new ≡ out.old ++ spaced (event_word events.Submit ∷ app.now ∷ assignment_words topo.now rows.now)) }
{
    let head = [Word::Plain(EventWord::Submit.word()), Word::Plain(app)];
    print_words(&head, out)?;
    print_assignments(topo, rows, out)
}

/// Adds the request or the return of a lock.
fn print_lock<'a>(
    topo: &'a GroupTopo,
    apps: &'a [Name],
    word: EventWord,
    app: AppId,
    entity: Entity,
    prio: Prio,
    out: &mut Text,
) -> Result<(), AllocError>
    ensures { OnOk result (out.new ≡ out.old ++ spaced (event_word word ∷ app_word apps.now app ∷ name_of topo.now entity ∷ prio_word_lem prio ∷ [])) }
{
    print_words(
        &[
            Word::Plain(word.word()),
            Word::Plain(app_name(apps, app)),
            Word::Plain(entity_name(topo, entity)),
            Word::Plain(prio_word(prio)),
        ],
        out,
    )
}

/// Adds an event of one entity.
fn print_named(word: EventWord, name: &[u8], out: &mut Text) -> Result<(), AllocError>
    ensures { OnOk result (out.new ≡ out.old ++ spaced (event_word word ∷ name.now ∷ [])) }
{
    print_words(&[Word::Plain(word.word()), Word::Plain(name)], out)
}

/// Adds an event of one message.
fn print_numbered(word: EventWord, number: u32, out: &mut Text) -> Result<(), AllocError>
    ensures { OnOk result (out.new ≡ out.old ++ spaced (event_word word ∷ decimal number ∷ [])) }
{
    print_words(
        &[Word::Plain(word.word()), Word::Number(u64::from(number))],
        out,
    )
}

/// Adds a failure.
fn print_fail(
    name: &[u8],
    health: u32,
    entity: Entity,
    vals: Vals,
    out: &mut Text,
) -> Result<(), AllocError>
    ensures { OnOk result (out.new ≡ out.old ++ spaced (event_word events.Fail ∷ name.now ∷ decimal health ∷ value_words entity vals)) }
{
    print_named(EventWord::Fail, name, out)?;
    print_word(Word::Number(u64::from(health)), out)?;
    print_values(entity, vals, out)
}

/// Adds the words of an event, each behind a space. `Err` is for want of memory alone, and nothing is said of the text then.
pub fn print_event<'a>(
    topo: &'a GroupTopo,
    apps: &'a [Name],
    event: &Event,
    out: &mut Text,
) -> Result<(), AllocError>
    ensures { OnOk result (out.new ≡ out.old ++ spaced (event_words topo.now apps.now event.now)) }
{
    match event {
        Event::Submit { app, rows } => {
            print_submit(topo, app_name(apps, *app), rows.as_slice(), out)
        }
        Event::Check => print_word(Word::Plain(EventWord::Check.word()), out),
        Event::Lock { app, entity, prio } => {
            print_lock(topo, apps, EventWord::Lock, *app, *entity, *prio, out)
        }
        Event::Unlock { app, entity, prio } => {
            print_lock(topo, apps, EventWord::Unlock, *app, *entity, *prio, out)
        }
        Event::Send { entity } => print_named(EventWord::Send, entity_name(topo, *entity), out),
        Event::Deliver { command } => print_numbered(EventWord::Deliver, *command, out),
        Event::Finish { entity } => {
            print_named(EventWord::Finish, entity_name(topo, *entity), out)
        }
        Event::Report { entity } => {
            print_named(EventWord::Report, entity_name(topo, *entity), out)
        }
        Event::Hear { report } => print_numbered(EventWord::Hear, *report, out),
        Event::Fail {
            entity,
            vals,
            health,
        } => print_fail(entity_name(topo, *entity), *health, *entity, *vals, out),
        Event::Withdraw { entity } => {
            print_named(EventWord::Withdraw, entity_name(topo, *entity), out)
        }
    }
}
