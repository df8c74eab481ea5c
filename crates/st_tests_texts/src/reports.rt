//! What a report says of what is not there. Whole reports are tested where documents are read: in `st_top`, and as stored runs of the
//! program.

use crate::outcome::holds;
use st_event::{Log, LogEntry, LogSaw};
use st_net::{AppId, Entity, Items, Name, Var};
use st_report::report_text;
use st_text::Text;
use st_world::World;
use std::alloc::{AllocError, Global};
use std::test::Fail;

fn seen(group: u32, entity: Entity, var: Var, saw: LogSaw) -> LogEntry {
    LogEntry {
        group,
        entity,
        var,
        saw,
    }
}

fn log(alloc: Global, app: AppId, entries: &[LogEntry]) -> Result<Log, AllocError> {
    let mut lines = Items::none(alloc);
    for entry in entries {
        lines.add(*entry)?;
    }
    Ok(Log {
        app,
        entries: lines,
    })
}

/// The report as a text.
fn printed(
    alloc: Global,
    worlds: &[World],
    apps: &[Name],
    logs: &[Log],
) -> Result<Text, AllocError> {
    let mut out = Text::new(alloc);
    report_text(alloc, worlds, apps, logs, &mut out)?;
    Ok(out)
}

/// Whether a report on these logs is this text.
fn is_printed(alloc: Global, logs: &[Log], text: &[u8]) -> Result<bool, AllocError> {
    let out = printed(alloc, &[], &[], logs)?;
    let is = out.bytes() == text;
    drop(out);
    Ok(is)
}

/// An entry of a log on a group that there is not: no bytes stand for its names.
#[test]
fn what_is_not_there_has_no_bytes(rt: HostRuntime) -> Result<(), Fail> {
    let latest = LogSaw::Seen {
        version: 0,
        value: 1,
    };
    let entry = seen(7, Entity::Device(2), Var::Power, latest);
    let log = log(rt.alloc(), AppId(1), &[entry])?;
    let text = b"\
statesman report 1
read   .power version 0 value 1
end
";
    holds(is_printed(rt.alloc(), &[log], text))
}
