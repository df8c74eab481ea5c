//! A report as one line of JSON.

ghost use Rattle.std.specs.Prelude.{◌≡◌, ◌++◌, ◌∷◌, [], IfOk, OnOk, OnErr, string_bytes, true};
ghost use Rattle.std.specs.List.{list_all};
ghost use Rattle.serde_json.specs.Data.{array, string};
ghost use Rattle.serde_json.specs.View.{view, members_view};
ghost use Rattle.serde_json.specs.Written.{compact_text};
ghost use Rattle.st_entry.specs.Plain.{is_plain};
ghost use Rattle.st_report.specs.Json.{report_json_of};
ghost use Rattle.st_report.specs.JsonInside.{is_plain_summary as is_plain_summary_lem, group_data, groups_data, lines_data, report_data, wire_data, with_back, with_front, with_middle};
ghost use Rattle.st_report.specs.Lines.{histories};

use crate::lines::{Lines, without_space};
use crate::report::{Report, Summary, WireCounts, gather};
use serde_json::{Map, Value, json, put};
use st_event::Log;
use st_net::Name;
use st_text::Text;
use st_world::World;
use std::alloc::{AllocError, Global};

/// Plain bytes as a text of JSON.
fn text_value(alloc: Global, bytes: &[u8]) -> Result<Value, AllocError>
    requires { is_plain bytes.now ≡ true }
    ensures { IfOk result (λ value. view value ≡ string bytes.now) }
{
    match str::from_utf8(bytes) {
        Ok(text) => Value::try_from_str(alloc, text),
        Err(_) => unreachable!(),
    }
}

/// Texts as a list of JSON.
fn lines_value(alloc: Global, lines: &Lines) -> Result<Value, AllocError>
    ensures { IfOk result (λ value. view value ≡ lines_data lines.now) }
{
    let mut list = Vec::new(alloc);
    for text in lines.as_slice() {
        list.push(text_value(alloc, without_space(text))?)?;
    }
    Ok(Value::Array(list))
}

/// Puts the first four members of a group.
fn put_front(
    map: &mut Map<String, Value>,
    alloc: Global,
    summary: &Summary,
) -> Result<(), AllocError>
    ensures { OnOk result (members_view map.new.entries ≡ with_front summary.now (members_view map.old.entries)) }
{
    put(map, alloc, "entries", Value::from(summary.entries))?;
    put(map, alloc, "locks", lines_value(alloc, &summary.locks)?)?;
    put(map, alloc, "lost", lines_value(alloc, &summary.lost)?)?;
    put(map, alloc, "name", text_value(alloc, summary.name.bytes())?)
}

/// Puts the next four.
fn put_middle(
    map: &mut Map<String, Value>,
    alloc: Global,
    summary: &Summary,
) -> Result<(), AllocError>
    ensures { OnOk result (members_view map.new.entries ≡ with_middle summary.now (members_view map.old.entries)) }
{
    let promises = summary.promises;
    put(map, alloc, "now", Value::from(promises.held_at_end))?;
    put(map, alloc, "promises", Value::from(promises.count))?;
    put(
        map,
        alloc,
        "receipts",
        lines_value(alloc, &summary.receipts)?,
    )?;
    put(map, alloc, "start", Value::from(promises.held_at_start))
}

/// Puts the last five.
fn put_back(
    map: &mut Map<String, Value>,
    alloc: Global,
    summary: &Summary,
) -> Result<(), AllocError>
    ensures { OnOk result (members_view map.new.entries ≡ with_back summary.now (members_view map.old.entries)) }
{
    put(map, alloc, "targets", lines_value(alloc, &summary.targets)?)?;
    put(
        map,
        alloc,
        "unsettled",
        lines_value(alloc, &summary.unsettled)?,
    )?;
    put(map, alloc, "version", Value::from(summary.version))?;
    put(map, alloc, "wire", wire_value(alloc, summary.wire)?)?;
    put(
        map,
        alloc,
        "withdrawn",
        lines_value(alloc, &summary.withdrawn)?,
    )
}

/// The counts of messages as an object.
fn wire_value(alloc: Global, wire: WireCounts) -> Result<Value, AllocError>
    ensures { IfOk result (λ value. view value ≡ wire_data wire) }
{
    json!(in alloc; {
        "commands": wire.commands,
        "old": wire.old,
        "reports": wire.reports,
        "stale": wire.stale
    })
}

/// What is gathered of a group as an object.
fn group_value(alloc: Global, summary: &Summary) -> Result<Value, AllocError>
    ensures { IfOk result (λ value. view value ≡ group_data summary.now) }
{
    let mut map = Map::new(alloc);
    put_front(&mut map, alloc, summary)?;
    put_middle(&mut map, alloc, summary)?;
    put_back(&mut map, alloc, summary)?;
    Ok(Value::Object(map))
}

/// What is gathered of groups as a list of objects.
fn groups_value(alloc: Global, summaries: &[Summary]) -> Result<Value, AllocError>
    ensures { IfOk result (λ value. view value ≡ array (groups_data summaries.now)) }
{
    let mut list = Vec::new(alloc);
    for summary in summaries {
        list.push(group_value(alloc, summary)?)?;
    }
    Ok(Value::Array(list))
}

/// A report as an object.
fn report_value(alloc: Global, report: &Report) -> Result<Value, AllocError>
    ensures { IfOk result (λ value. view value ≡ report_data report.now.groups.items report.now.reads) }
{
    let groups = groups_value(alloc, report.groups.as_slice())?;
    let reads = lines_value(alloc, &report.reads)?;
    json!(in alloc; {"groups": groups, "reads": reads, "statesman": 1u32})
}

/// No text of a group needs an escape. They are only looked at, for the proof.
fn is_plain_summary(summary: &Summary)
    ensures { is_plain_summary_lem summary.now ≡ true }
{
    let _name = summary.name.bytes();
    let _locks = summary.locks.as_slice();
    let _lost = summary.lost.as_slice();
    let _receipts = summary.receipts.as_slice();
    let _targets = summary.targets.as_slice();
    let _unsettled = summary.unsettled.as_slice();
    let _withdrawn = summary.withdrawn.as_slice();
}

/// Nor of any group.
fn are_plain(summaries: &[Summary])
    ensures { list_all is_plain_summary_lem summaries.now ≡ true }
{
    for summary in summaries {
        is_plain_summary(summary);
    }
}

/// Nor of a report.
fn is_plain_report(report: &Report)
    ensures groups { list_all is_plain_summary_lem report.now.groups.items ≡ true }
    ensures reads { list_all is_plain report.now.reads ≡ true }
{
    are_plain(report.groups.as_slice());
    let _reads = report.reads.as_slice();
}

/// A gathered report as a line.
fn line_of(alloc: Global, report: &Report) -> Result<String, AllocError>
    ensures { IfOk result (λ line. string_bytes line ≡ compact_text (report_data report.now.groups.items report.now.reads) ++ 10 ∷ []) }
{
    let value = report_value(alloc, report)?;
    let mut line = value.to_string(alloc)?;
    line.push('\n')?;
    Ok(line)
}

/// The report of worlds and logs, as a line of JSON.
fn json_line(
    alloc: Global,
    worlds: &[World],
    apps: &[Name],
    logs: &[Log],
) -> Result<String, AllocError>
    ensures { IfOk result (λ line. string_bytes line ≡ report_json_of (histories worlds.now) apps.now logs.now) }
{
    let report = gather(alloc, worlds, apps, logs)?;
    is_plain_report(&report);
    line_of(alloc, &report)
}

/// Adds the report of worlds as one line of JSON, compact, with each object's keys in the order of their bytes. It says what
/// `report_text` says: `groups` has an object for each group, with its lines as texts, and `reads` has the entries of the logs. Each
/// text has no first word of its kind, but those of locks. `Err` is for want of memory alone, and leaves the text as it was.
pub fn report_json(
    alloc: Global,
    worlds: &[World],
    apps: &[Name],
    logs: &[Log],
    out: &mut Text,
) -> Result<(), AllocError>
    ensures ok { OnOk result (out.new ≡ out.old ++ report_json_of (histories worlds.now) apps.now logs.now) }
    ensures err { OnErr result (out.new ≡ out.old) }
{
    let line = json_line(alloc, worlds, apps, logs)?;
    out.word(line.as_bytes())
}
