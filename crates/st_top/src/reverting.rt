//! `revert`: each group of a document whose scripts were run is led back to a version of its target, by a proposal of the first application
//! that is checked like any other. A line tells of each group.

ghost use Rattle.std.specs.Prelude.{◌≡◌, ◌++◌, ◌∷◌, [], ◌<◌, ◌^◌, IfOk, OnOk, None, codes, length, map};
ghost use Rattle.st_text.specs.Words.{text_of};
ghost use Rattle.st_net.specs.Ranges.{RowsFit};
ghost use Rattle.st_event.specs.Legal.{Fits};
ghost use Rattle.st_event.specs.declared.event.Event.TheVariants.{Submit as submit_event, Check as check_event};
ghost use Rattle.st_serial.specs.Serial.{run_in, state_of, states_of};
ghost use Rattle.st_top.specs.Ending.{IsLed};
ghost use Rattle.st_top.specs.Reverting.{all_led_back, answer_words, course_back, first_app, revert_words};
ghost use Rattle.st_world.specs.Rounds.{course_from, enter, enter_all, Goes, HasSameSetting};

use st_event::{Event, Rows};
use st_net::{AppId, GroupTopo};
use st_revert::{Revert, revert_rows};
use st_serial::Ran;
use st_text::{Text, Word, print_line};
use st_world::{Going, Stepped, World};
use std::alloc::{AllocError, Global};

/// The application that asks for the rows.
const FIRST_APP: AppId = AppId(0);

/// Enters an event in a world's journal.
fn entered(world: &mut World, event: Event) -> Result<Going, AllocError>
    requires { Fits world.old.history.group event }
    ensures ok { IfOk result (Goes world.new (enter world.old.history.group (course_from world.old.history.past) event)) }
    ensures setting { OnOk result (HasSameSetting world.old world.new) }
{
    match world.step(event)? {
        Stepped::Did(_) => Ok(Going::On),
        Stepped::JournalFull { .. } => Ok(Going::Full),
    }
}

/// Submits rows for the first application, and checks them.
fn ask(world: &mut World, rows: Rows) -> Result<Going, AllocError>
    requires { RowsFit world.old.history.group rows }
    ensures ok { IfOk result (Goes world.new (enter_all world.old.history.group (course_from world.old.history.past) (submit_event first_app rows ∷ check_event ∷ []))) }
    ensures setting { OnOk result (HasSameSetting world.old world.new) }
{
    let app = FIRST_APP;
    match entered(world, Event::Submit { app, rows })? {
        Going::On => entered(world, Event::Check),
        Going::Full => Ok(Going::Full),
    }
}

/// Adds the line that tells how a group gets back.
fn print_answer(topo: &GroupTopo, answer: &Revert, out: &mut Text) -> Result<(), AllocError>
    ensures { OnOk result (out.new ≡ out.old ++ text_of ((codes "revert" ∷ topo.now.name ∷ answer_words answer.now) ∷ [])) }
{
    let name = Word::Plain(topo.name().bytes());
    match answer {
        Revert::Rows(_) => print_line(b"revert", &[name, Word::Plain(b"asked")], out),
        Revert::NoVersion { latest } => print_line(
            b"revert",
            &[
                name,
                Word::Plain(b"noversion"),
                Word::Plain(b"latest"),
                Word::Number(u64::from(*latest)),
            ],
            out,
        ),
        Revert::Same => print_line(b"revert", &[name, Word::Plain(b"same")], out),
        Revert::TooMany { rows } => print_line(
            b"revert",
            &[
                name,
                Word::Plain(b"toomany"),
                Word::Number(u64::from(*rows)),
            ],
            out,
        ),
    }
}

/// Leads a world back to a version: where there are rows for it they are submitted and checked. Adds the line that tells of it.
fn lead_back(
    alloc: Global,
    world: &mut World,
    version: u32,
    out: &mut Text,
) -> Result<Going, AllocError>
    ensures course { IfOk result (Goes world.new (course_back version (state_of world.old))) }
    ensures setting { OnOk result (HasSameSetting world.old world.new) }
    ensures line { OnOk result (out.new ≡ out.old ++ text_of (revert_words version (state_of world.old) ∷ [])) }
{
    // Of a legal journal all that was overlaid fits the group, and so do the rows that lead back.
    world.is_legal();
    let answer = revert_rows(alloc, world.control(), version)?;
    print_answer(world.control().topo(), &answer, out)?;
    match answer {
        Revert::Rows(rows) => ask(world, rows),
        _ => Ok(Going::On),
    }
}

/// Leads worlds back to a version, in order, up to an event that meets a full journal: then its group is given. Adds a line for each.
fn lead_all_back(
    alloc: Global,
    worlds: &mut [World],
    version: u32,
    out: &mut Text,
) -> Result<Option<u32>, AllocError>
    requires { length worlds.old < 2 ^ 32 }
    ensures worlds { IfOk result (λ full. record { groups = states_of worlds.new; full = full } ≡ all_led_back version 0 (states_of worlds.old)) }
    ensures lines { IfOk result (λ full. full ≡ None → out.new ≡ out.old ++ text_of (map (revert_words version) (states_of worlds.old))) }
{
    let mut group = 0u32;
    for world in worlds.iter_mut() {
        if let Going::Full = lead_back(alloc, world, version, out)? {
            return Ok(Some(group));
        }
        group += 1;
    }
    Ok(None)
}

/// A run whose groups were led back, and the lines that tell of them.
#[derive(Drop)]
pub struct LedBack {
    pub ran: Ran,
    pub lines: Text,
}

/// Leads the groups of a run back to a version, where it met no full journal.
pub fn led_back(alloc: Global, ran: Ran, version: u32) -> Result<LedBack, AllocError>
    requires { length ran.worlds.items < 2 ^ 32 }
    ensures { IfOk result (IsLed version (run_in ran)) }
{
    let Ran {
        mut worlds,
        logs,
        full,
    } = ran;
    let mut lines = Text::new(alloc);
    print_line(
        b"statesman",
        &[Word::Plain(b"revert"), Word::Plain(b"1")],
        &mut lines,
    )?;
    let full = match full {
        Some(group) => Some(group),
        None => lead_all_back(alloc, worlds.as_mut_slice(), version, &mut lines)?,
    };
    let ran = Ran { worlds, logs, full };
    Ok(LedBack { ran, lines })
}
