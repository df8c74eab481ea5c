//! A report as a text of lines.

ghost use Rattle.std.specs.Prelude.{◌≡◌, ◌++◌, ◌∷◌, [], IfOk, OnOk, OnErr, drop, flat_map};
ghost use Rattle.st_text.specs.Printed.{bytes_of};
ghost use Rattle.st_text.specs.Words.{line};
ghost use Rattle.st_report.specs.Inside.{head_text, lines_behind, promise_text, summary_text, whole_lines, whole_text, wire_text};
ghost use Rattle.st_report.specs.Lines.{histories};
ghost use Rattle.st_report.specs.Text.{report_text_of};

use crate::lines::{Lines, without_space};
use crate::report::{Report, Summary, gather};
use st_event::Log;
use st_net::Name;
use st_text::{Text, Word, print_line};
use st_world::World;
use std::alloc::{AllocError, Global};

/// Adds a line of one word and another.
fn print_pair(head: &[u8], word: Word, out: &mut Text) -> Result<(), AllocError>
    ensures { OnOk result (out.new ≡ out.old ++ line head.now (bytes_of word.entry ∷ [])) }
{
    print_line(head, &[word], out)
}

/// Adds the lines that name a group and count its versions and entries.
fn print_head(summary: &Summary, out: &mut Text) -> Result<(), AllocError>
    ensures { OnOk result (out.new ≡ out.old ++ head_text summary.now) }
{
    print_pair(b"group", Word::Plain(summary.name.bytes()), out)?;
    print_pair(b"version", Word::Number(summary.version), out)?;
    print_pair(b"entries", Word::Number(summary.entries), out)
}

/// Adds the line of what passed the wire.
fn print_wire(summary: &Summary, out: &mut Text) -> Result<(), AllocError>
    ensures { OnOk result (out.new ≡ out.old ++ wire_text summary.now) }
{
    print_line(
        b"wire",
        &[
            Word::Plain(b"commands"),
            Word::Number(summary.wire.commands),
            Word::Plain(b"reports"),
            Word::Number(summary.wire.reports),
            Word::Plain(b"stale"),
            Word::Number(summary.wire.stale),
            Word::Plain(b"old"),
            Word::Number(summary.wire.old),
        ],
        out,
    )
}

/// Adds the line that counts the promises that held and hold.
fn print_promises(summary: &Summary, out: &mut Text) -> Result<(), AllocError>
    ensures { OnOk result (out.new ≡ out.old ++ promise_text summary.now) }
{
    print_line(
        b"promises",
        &[
            Word::Number(summary.promises.count),
            Word::Plain(b"start"),
            Word::Number(summary.promises.held_at_start),
            Word::Plain(b"now"),
            Word::Number(summary.promises.held_at_end),
        ],
        out,
    )
}

/// Adds a line of a first word and a text.
fn print_behind(word: &[u8], text: &[u8], out: &mut Text) -> Result<(), AllocError>
    ensures { OnOk result (out.new ≡ out.old ++ (word.now ++ text.now ++ 10 ∷ [])) }
{
    out.word(word)?;
    out.word(text)?;
    out.word(b"\n")
}

/// Adds a line of each text, behind a first word.
fn print_lines(word: &[u8], lines: &Lines, out: &mut Text) -> Result<(), AllocError>
    ensures { OnOk result (out.new ≡ out.old ++ lines_behind word.now lines.now) }
{
    for text in lines.as_slice() {
        print_behind(word, text.bytes(), out)?;
    }
    Ok(())
}

/// Adds a line of each text, which has its first word.
fn print_whole_lines(lines: &Lines, out: &mut Text) -> Result<(), AllocError>
    ensures { OnOk result (out.new ≡ out.old ++ whole_lines lines.now) }
{
    for text in lines.as_slice() {
        print_behind(b"", without_space(text), out)?;
    }
    Ok(())
}

/// Adds the lines of a group.
fn print_summary(summary: &Summary, out: &mut Text) -> Result<(), AllocError>
    ensures { OnOk result (out.new ≡ out.old ++ summary_text summary.now) }
{
    print_head(summary, out)?;
    print_whole_lines(&summary.locks, out)?;
    print_lines(b"receipt", &summary.receipts, out)?;
    print_lines(b"withdrawn", &summary.withdrawn, out)?;
    print_lines(b"target", &summary.targets, out)?;
    print_lines(b"unsettled", &summary.unsettled, out)?;
    print_wire(summary, out)?;
    print_promises(summary, out)?;
    print_lines(b"lost", &summary.lost, out)
}

/// Adds the lines of groups, in order.
fn print_summaries(summaries: &[Summary], out: &mut Text) -> Result<(), AllocError>
    ensures { OnOk result (out.new ≡ out.old ++ flat_map summary_text summaries.now) }
{
    for summary in summaries {
        print_summary(summary, out)?;
    }
    Ok(())
}

/// Adds all lines of a report.
fn print_report(report: &Report, out: &mut Text) -> Result<(), AllocError>
    ensures { OnOk result (out.new ≡ out.old ++ whole_text report.now.groups.items report.now.reads) }
{
    print_line(
        b"statesman",
        &[Word::Plain(b"report"), Word::Plain(b"1")],
        out,
    )?;
    print_summaries(report.groups.as_slice(), out)?;
    print_lines(b"read", &report.reads, out)?;
    print_line(b"end", &[], out)
}

/// The report of worlds and logs, as a text.
fn whole_report(
    alloc: Global,
    worlds: &[World],
    apps: &[Name],
    logs: &[Log],
) -> Result<Text, AllocError>
    ensures { IfOk result (λ text. text ≡ report_text_of (histories worlds.now) apps.now logs.now) }
{
    let report = gather(alloc, worlds, apps, logs)?;
    let mut text = Text::new(alloc);
    print_report(&report, &mut text)?;
    Ok(text)
}

/// Adds the report of worlds as a text of lines: `statesman report 1`, the lines of each group in order, a line for each entry of each
/// log, and `end`. `apps` has the applications' names in order. What the groups or the applications do not have is spelled with no
/// bytes. Whether a promise holds is judged in the simulated network, at the opening and now, and a network is built for it where the
/// kept flows do not show it. `Err` is for want of memory alone, and leaves the text as it was.
pub fn report_text(
    alloc: Global,
    worlds: &[World],
    apps: &[Name],
    logs: &[Log],
    out: &mut Text,
) -> Result<(), AllocError>
    ensures ok { OnOk result (out.new ≡ out.old ++ report_text_of (histories worlds.now) apps.now logs.now) }
    ensures err { OnErr result (out.new ≡ out.old) }
{
    let text = whole_report(alloc, worlds, apps, logs)?;
    out.word(text.bytes())
}
