//! The receipts in a group's journal: the verdict on each ticket, with the application that proposed it.

ghost use Rattle.std.specs.Prelude.{◌≡◌, ◌++◌, ◌∷◌, ◌+◌, ◌<◌, ◌^◌, IfOk, OnOk, decimal, map, reverse, slice_get, true};
ghost use Rattle.std.specs.List.{filter_map};
ghost use Rattle.std.specs.Option.{option_copied};
ghost use Rattle.st_text.specs.Words.{spaced};
ghost use Rattle.st_net.specs.Groups.{are_names};
ghost use Rattle.st_entry.specs.Causes.{verdict_words};
ghost use Rattle.st_entry.specs.Words.{app_word};
ghost use Rattle.st_report.specs.Inside.{proposer_of as proposer_of_lem, verdict_of as verdict_of_lem, texts_where};
ghost use Rattle.st_report.specs.Lines.{receipt_words};

use crate::lines::Lines;
use st_entry::{app_name, print_verdict};
use st_event::{Entry, Event, Reply, Verdict};
use st_net::{AppId, GroupTopo, Name};
use st_text::{Text, Word, print_words};
use std::alloc::{AllocError, Global};

/// The application whose proposal an entry queues.
fn proposer_of(entry: &Entry) -> Option<AppId>
    ensures { result ≡ proposer_of_lem entry.now }
{
    match (&entry.event, &entry.reply) {
        (Event::Submit { app, .. }, Reply::Queued { .. }) => Some(*app),
        _ => None,
    }
}

/// The verdict that an entry gives.
fn verdict_of(entry: &Entry) -> Option<&Verdict>
    ensures { option_copied result ≡ verdict_of_lem entry.now }
{
    match (&entry.event, &entry.reply) {
        (Event::Check, Reply::Decided(receipt)) => Some(&receipt.verdict),
        _ => None,
    }
}

/// The applications of the queued proposals, the oldest first.
fn proposers(alloc: Global, entries: &[Entry]) -> Result<Vec<AppId>, AllocError>
    ensures { IfOk result (λ apps. apps.items ≡ filter_map proposer_of_lem entries.now) }
{
    entries.iter().filter_map(proposer_of).collect(alloc)
}

/// The words of one receipt.
fn receipt_text(
    alloc: Global,
    topo: &GroupTopo,
    apps: &[Name],
    ticket: u64,
    app: AppId,
    verdict: &Verdict,
) -> Result<Text, AllocError>
    ensures { IfOk result (λ text. text ≡ spaced (decimal ticket ∷ app_word apps.now app ∷ verdict_words topo.now apps.now verdict.now)) }
{
    let mut text = Text::new(alloc);
    let name = app_name(apps, app);
    print_words(&[Word::Number(ticket), Word::Plain(name)], &mut text)?;
    print_verdict(topo, apps, verdict, &mut text)?;
    Ok(text)
}

/// Adds the receipt of the ticket behind so many decided ones, where it was proposed.
fn add_decided(
    alloc: Global,
    topo: &GroupTopo,
    apps: &[Name],
    proposers: &[AppId],
    decided: usize,
    verdict: &Verdict,
    lines: &mut Lines,
) -> Result<(), AllocError>
    requires { are_names apps.now ≡ true }
    ensures { OnOk result (lines.new ≡ lines.old ++ texts_where topo.now apps.now (decided + 1) (slice_get proposers.now decided) verdict.now) }
{
    topo.is_sound();
    match proposers.get(decided) {
        Some(app) => {
            lines.add(receipt_text(alloc, topo, apps, decided as u64 + 1, *app, verdict)?)
        }
        None => Ok(()),
    }
}

/// The receipt of each decided ticket, in order: its number from 1, the application that proposed it, and the verdict.
pub(crate) fn receipt_lines(
    alloc: Global,
    topo: &GroupTopo,
    apps: &[Name],
    entries: &[Entry],
) -> Result<Lines, AllocError>
    requires { are_names apps.now ≡ true }
    ensures { IfOk result (λ lines. lines ≡ map spaced (receipt_words topo.now apps.now (reverse entries.now))) }
{
    let proposers = proposers(alloc, entries)?;
    let mut lines = Lines::new(alloc);
    let mut decided = 0;
    for entry in entries {
        if let Some(verdict) = verdict_of(entry) {
            add_decided(
                alloc,
                topo,
                apps,
                proposers.as_slice(),
                decided,
                verdict,
                &mut lines,
            )?;
            decided += 1;
        }
    }
    Ok(lines)
}
