//! Documents are printed here, section by section, as lines of words. What is printed is read as the document.

ghost use Rattle.std.specs.Prelude.{◌≡◌, ◌++◌, ◌∷◌, [], OnOk, OnErr, Ok, flat_map, map};
ghost use Rattle.st_text.specs.Words.{text_of};
ghost use Rattle.st_grammar.specs.Reading.{document_of};
ghost use Rattle.st_grammar.specs.Sound.{IsSoundDoc};
ghost use Rattle.st_doc.specs.Printed.{group_lines, app_name_at, app_lines, order_words, version_of_doc, header_words, doc_lines, printed_doc, without_journals};

mod acts;
mod opening;
mod parts;
mod wires;
mod words;

use acts::print_acts;
use opening::{print_healths, print_opens};
use parts::{print_devices, print_links, print_promises};
use st_grammar::{Doc, Script};
use st_net::Parts;
use st_text::{Text, Word};
use std::alloc::AllocError;
use wires::print_wires;
use words::print_line;

/// Adds the section of a group.
fn print_group(group: &Parts, out: &mut Text) -> Result<(), AllocError>
    ensures { OnOk result (out.new ≡ out.old ++ text_of (group_lines group.now)) }
{
    print_line(b"group", &[Word::Plain(group.name.bytes())], out)?;
    print_devices(group.devices.as_slice(), out)?;
    print_links(group.links.as_slice(), out)?;
    print_promises(group.promises.as_slice(), out)?;
    print_opens(group, out)?;
    print_healths(group, out)
}

/// Adds the sections of groups.
fn print_groups(groups: &[Parts], out: &mut Text) -> Result<(), AllocError>
    ensures { OnOk result (out.new ≡ out.old ++ text_of (flat_map group_lines groups.now)) }
{
    for group in groups {
        print_group(group, out)?;
    }
    Ok(())
}

/// Adds an application with its acts.
fn print_app(groups: &[Parts], app: &Script, out: &mut Text) -> Result<(), AllocError>
    ensures { OnOk result (out.new ≡ out.old ++ text_of (app_lines groups.now app.now)) }
{
    print_line(b"app", &[Word::Plain(app.name.bytes())], out)?;
    print_acts(groups, app.acts.as_slice(), out)
}

/// Adds applications with their acts.
fn print_apps(groups: &[Parts], apps: &[Script], out: &mut Text) -> Result<(), AllocError>
    ensures { OnOk result (out.new ≡ out.old ++ text_of (flat_map (app_lines groups.now) apps.now)) }
{
    for app in apps {
        print_app(groups, app, out)?;
    }
    Ok(())
}

/// The name of an application, by its number; no bytes where there are not so many.
fn app_name(apps: &[Script], app: u32) -> &[u8]
    ensures { result.now ≡ app_name_at apps.now app }
{
    match apps.get(app as usize) {
        Some(script) => script.name.bytes(),
        None => b"",
    }
}

/// Adds a line for each application of an order.
fn print_order(apps: &[Script], order: &[u32], out: &mut Text) -> Result<(), AllocError>
    ensures { OnOk result (out.new ≡ out.old ++ text_of (map (order_words apps.now) order.now)) }
{
    for app in order {
        print_line(b"order", &[Word::Plain(app_name(apps, *app))], out)?;
    }
    Ok(())
}

/// The version that a document is printed in: the lowest in which each of its lines may stand.
fn version_of(_doc: &Doc) -> u32
    ensures { result ≡ version_of_doc _doc.now }
{
    1
}

/// Adds the header.
fn print_header(version: u32, out: &mut Text) -> Result<(), AllocError>
    ensures { OnOk result (out.new ≡ out.old ++ text_of (header_words version ∷ [])) }
{
    print_line(b"statesman", &[Word::Number(u64::from(version))], out)
}

/// Adds all lines of a document.
fn print_lines(doc: &Doc, out: &mut Text) -> Result<(), AllocError>
    ensures { OnOk result (out.new ≡ out.old ++ text_of (doc_lines doc.now)) }
{
    let groups = doc.groups.as_slice();
    let apps = doc.apps.as_slice();
    print_header(version_of(doc), out)?;
    print_groups(groups, out)?;
    print_wires(groups, doc.wires.as_slice(), out)?;
    print_apps(groups, apps, out)?;
    print_order(apps, doc.order.as_slice(), out)
}

/// Prints a sound document without the place of its journals: adds the header, the sections of groups, their wire lines, the
/// applications with their acts and a line for each item of the order, with one space between tokens and LF ends.
/// Opening values and healths that are the default have no lines. Takes time in the bytes that are printed. `Err` is for
/// want of memory alone, and leaves the text as it was.
pub fn print_doc(doc: &Doc, out: &mut Text) -> Result<(), AllocError>
    requires sound { IsSoundDoc doc.now }
    ensures ok { OnOk result (out.new ≡ out.old ++ printed_doc doc.now) }
    ensures err { OnErr result (out.new ≡ out.old) }
    // What is printed is read as the document.
    ensures reads_back { document_of (printed_doc doc.now) ≡ Ok (without_journals doc.now) }
{
    let mut text = out.empty();
    print_lines(doc, &mut text)?;
    out.word(text.bytes())
}
