//! What the tasks write: what is shown of worlds and logs, in each form, as sums or as plans, and the line that counts a document's parts.

ghost use Rattle.std.specs.Prelude.{◌≡◌, ◌∷◌, ◌++◌, ◌<◌, ◌^◌, length, flat_map, sum_by, OnOk, IfOk, decimal};
ghost use Rattle.st_grammar.specs.Sound.{IsSoundDoc};
ghost use Rattle.st_report.specs.Lines.{histories};
ghost use Rattle.st_report.specs.Sums.{sums_text};
ghost use Rattle.st_replay.specs.Replaying.{app_names as app_names_lem};
ghost use Rattle.st_top.specs.Rolling.{roll_text_of};
ghost use Rattle.st_top.specs.Output.{journals_text, demo_text as demo_text_lem, shown, check_text as check_text_lem};

use crate::rolling::roll_text;
use crate::task::Showing;
use st_doc::{Doc, Script, print_doc};
use st_event::Log;
use st_journal::print_world;
use st_net::{Name, Parts};
use st_replay::app_names;
use st_report::{print_sums, report_json, report_text};
use st_text::{Text, Word, print_line};
use st_words::{FatTree, Form};
use st_world::World;
use std::alloc::{AllocError, Global};

/// Adds the journal of each world, in order.
fn print_journals(
    alloc: Global,
    worlds: &[World],
    apps: &[Name],
    out: &mut Text,
) -> Result<(), AllocError>
    ensures { OnOk result (out.new ≡ out.old ++ journals_text (histories worlds.now) apps.now) }
{
    for world in worlds {
        print_world(alloc, world, apps, out)?;
    }
    Ok(())
}

/// What is shown of worlds and logs in a form.
fn form_text(
    alloc: Global,
    form: Form,
    doc: &Doc,
    worlds: &[World],
    logs: &[Log],
) -> Result<Text, AllocError>
    requires { IsSoundDoc doc.now }
    ensures { IfOk result (λ text. text ≡ shown (Showing.In form) doc.now (histories worlds.now) logs.now) }
{
    let names = app_names(alloc, doc)?;
    let apps = names.as_slice();
    let mut out = Text::new(alloc);
    match form {
        Form::Text => report_text(alloc, worlds, apps, logs, &mut out)?,
        Form::Json => report_json(alloc, worlds, apps, logs, &mut out)?,
        Form::Replay => {
            print_doc(doc, &mut out)?;
            print_journals(alloc, worlds, apps, &mut out)?;
        }
    }
    Ok(out)
}

/// Adds the lines that sum up each world, in order.
fn print_all_sums(alloc: Global, worlds: &[World], out: &mut Text) -> Result<(), AllocError>
    ensures { OnOk result (out.new ≡ out.old ++ flat_map (λ h. sums_text h.group h.past) (histories worlds.now)) }
{
    for world in worlds {
        print_sums(alloc, world, out)?;
    }
    Ok(())
}

/// The lines that sum up the worlds of the document of a fat tree.
fn demo_text(alloc: Global, tree: FatTree, worlds: &[World]) -> Result<Text, AllocError>
    ensures { IfOk result (λ text. text ≡ demo_text_lem tree (histories worlds.now)) }
{
    let mut out = Text::new(alloc);
    print_line(
        b"demo",
        &[
            Word::Plain(b"pods"),
            Word::Number(u64::from(tree.pods.count())),
            Word::Plain(b"seed"),
            Word::Number(u64::from(tree.seed)),
        ],
        &mut out,
    )?;
    print_all_sums(alloc, worlds, &mut out)?;
    print_line(b"end", &[], &mut out)?;
    Ok(out)
}

/// The plans of an upgrade of a document's worlds to a firmware.
fn rolls_text(alloc: Global, firmware: u32, doc: &Doc, worlds: &[World]) -> Result<Text, AllocError>
    requires { IsSoundDoc doc.now }
    ensures { IfOk result (λ text. text ≡ roll_text_of (histories worlds.now) (app_names_lem doc.now) firmware) }
{
    let names = app_names(alloc, doc)?;
    roll_text(alloc, worlds, names.as_slice(), firmware)
}

/// What is shown of a document's worlds and of the logs of its applications.
pub fn shown_text(
    alloc: Global,
    showing: Showing,
    doc: &Doc,
    worlds: &[World],
    logs: &[Log],
) -> Result<Text, AllocError>
    requires { IsSoundDoc doc.now }
    ensures { IfOk result (λ text. text ≡ shown showing doc.now (histories worlds.now) logs.now) }
{
    match showing {
        Showing::In(form) => form_text(alloc, form, doc, worlds, logs),
        Showing::Sums(tree) => demo_text(alloc, tree, worlds),
        Showing::Roll(firmware) => rolls_text(alloc, firmware, doc, worlds),
    }
}

/// Adds a space, a word, a space and a number.
fn print_count(word: &[u8], count: u64, out: &mut Text) -> Result<(), AllocError>
    ensures { OnOk result (out.new ≡ out.old ++ (32 ∷ word.now ++ 32 ∷ decimal count)) }
{
    out.word(b" ")?;
    out.word(word)?;
    out.word(b" ")?;
    out.num(count)
}

/// How many devices groups have together.
fn device_count(groups: &[Parts]) -> u64
    requires { sum_by (λ parts. length parts.devices) groups.now < 2 ^ 64 }
    ensures { result ≡ sum_by (λ parts. length parts.devices) groups.now }
{
    let mut count = 0;
    for parts in groups {
        count += parts.devices.as_slice().len() as u64;
    }
    count
}

/// How many links groups have together.
fn link_count(groups: &[Parts]) -> u64
    requires { sum_by (λ parts. length parts.links) groups.now < 2 ^ 64 }
    ensures { result ≡ sum_by (λ parts. length parts.links) groups.now }
{
    let mut count = 0;
    for parts in groups {
        count += parts.links.as_slice().len() as u64;
    }
    count
}

/// How many promises groups have together.
fn promise_count(groups: &[Parts]) -> u64
    requires { sum_by (λ parts. length parts.promises) groups.now < 2 ^ 64 }
    ensures { result ≡ sum_by (λ parts. length parts.promises) groups.now }
{
    let mut count = 0;
    for parts in groups {
        count += parts.promises.as_slice().len() as u64;
    }
    count
}

/// How many commands applications have together.
fn act_count(apps: &[Script]) -> u64
    requires { sum_by (λ script. length script.acts) apps.now < 2 ^ 64 }
    ensures { result ≡ sum_by (λ script. length script.acts) apps.now }
{
    let mut count = 0;
    for script in apps {
        count += script.acts.as_slice().len() as u64;
    }
    count
}

/// The line that counts a document's parts.
pub fn check_text(alloc: Global, doc: &Doc) -> Result<Text, AllocError>
    requires { IsSoundDoc doc.now }
    ensures { IfOk result (λ text. text ≡ check_text_lem doc.now) }
{
    let groups = doc.groups.as_slice();
    let apps = doc.apps.as_slice();
    let mut out = Text::new(alloc);
    out.word(b"ok")?;
    print_count(b"groups", groups.len() as u64, &mut out)?;
    print_count(b"devices", device_count(groups), &mut out)?;
    print_count(b"links", link_count(groups), &mut out)?;
    print_count(b"promises", promise_count(groups), &mut out)?;
    print_count(b"apps", apps.len() as u64, &mut out)?;
    print_count(b"commands", act_count(apps), &mut out)?;
    out.word(b"\n")?;
    Ok(out)
}
