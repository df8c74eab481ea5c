//! What sums up a group after its journal, in four lines of numbers. Each number is taken from the world, without the lines of its report.

ghost use Rattle.std.specs.Prelude.{◌≡◌, ◌++◌, [], IfOk, OnOk, OnErr, length};
ghost use Rattle.st_event.specs.Moments.{commands, reports};
ghost use Rattle.st_event.specs.Observed.{actual};
ghost use Rattle.st_event.specs.Proposals.{is_accepting as is_accepting_lem, version as version_lem};
ghost use Rattle.st_report.specs.Counts.{kept_count};
ghost use Rattle.st_report.specs.Lines.{unsettled_words};
ghost use Rattle.st_report.specs.Sums.{is_refusing as is_refusing_lem, accepted_count as accepted_count_lem, refused_count as refused_count_lem, parts_line, receipts_line, sent_line, held_line, sums_text};

use crate::promises::{judge_promises, mark_count};
use crate::report::version;
use st_event::{Entry, Reply, Verdict};
use st_net::GroupTopo;
use st_text::{Text, Word, print_line};
use st_world::World;
use std::alloc::{AllocError, Global};

/// Whether an entry's reply is a receipt that accepts.
fn is_accepting(entry: &Entry) -> bool
    ensures { result ≡ is_accepting_lem entry.now.reply }
{
    match &entry.reply {
        Reply::Decided(receipt) => matches!(receipt.verdict, Verdict::Accepted { .. }),
        _ => false,
    }
}

/// Whether an entry's reply is a receipt that refuses.
fn is_refusing(entry: &Entry) -> bool
    ensures { result ≡ is_refusing_lem entry.now.reply }
{
    match &entry.reply {
        Reply::Decided(receipt) => matches!(receipt.verdict, Verdict::Refused(_)),
        _ => false,
    }
}

/// How many receipts accept.
fn accepted_count(world: &World) -> usize
    ensures { result ≡ accepted_count_lem world.now.history.past }
{
    let entries = world.journal();
    entries.iter().filter(|entry| is_accepting(entry)).count()
}

/// How many receipts refuse.
fn refused_count(world: &World) -> usize
    ensures { result ≡ refused_count_lem world.now.history.past }
{
    let entries = world.journal();
    entries.iter().filter(|entry| is_refusing(entry)).count()
}

/// Adds the line that counts the parts of a group.
fn print_parts(topo: &GroupTopo, out: &mut Text) -> Result<(), AllocError>
    ensures { OnOk result (out.new ≡ out.old ++ parts_line topo.now) }
{
    print_line(
        b"devices",
        &[
            Word::Number(u64::from(topo.device_count())),
            Word::Plain(b"links"),
            Word::Number(u64::from(topo.link_count())),
            Word::Plain(b"promises"),
            Word::Number(u64::from(topo.promise_count())),
        ],
        out,
    )
}

/// Adds the line that counts the entries of a journal, and its receipts.
fn print_receipts(world: &World, out: &mut Text) -> Result<(), AllocError>
    ensures { OnOk result (out.new ≡ out.old ++ receipts_line (length world.now.history.past) (version_lem world.now.history.past) (accepted_count_lem world.now.history.past) (refused_count_lem world.now.history.past)) }
{
    print_line(
        b"entries",
        &[
            Word::Number(u64::from(world.entries())),
            Word::Plain(b"version"),
            Word::Number(u64::from(version(world))),
            Word::Plain(b"accepted"),
            Word::Number(accepted_count(world) as u64),
            Word::Plain(b"refused"),
            Word::Number(refused_count(world) as u64),
        ],
        out,
    )
}

/// Adds the line of what was sent and is not settled.
fn print_sent(world: &World, out: &mut Text) -> Result<(), AllocError>
    ensures { OnOk result (out.new ≡ out.old ++ sent_line (length (commands world.now.history.group world.now.history.past)) (length (reports world.now.history.group world.now.history.past)) (length (unsettled_words world.now.history.group world.now.history.past))) }
{
    let wire = world.wire();
    let unsettled = world.unsettled()?;
    print_line(
        b"commands",
        &[
            Word::Number(u64::from(wire.command_count())),
            Word::Plain(b"reports"),
            Word::Number(u64::from(wire.report_count())),
            Word::Plain(b"unsettled"),
            Word::Number(unsettled.len() as u64),
        ],
        out,
    )
}

/// Adds the line of the promises that held at the opening and hold now.
fn print_held(alloc: Global, world: &World, out: &mut Text) -> Result<(), AllocError>
    ensures { OnOk result (out.new ≡ out.old ++ held_line (kept_count world.now.history.group (actual world.now.history.group [])) (kept_count world.now.history.group (actual world.now.history.group world.now.history.past))) }
{
    let held = judge_promises(alloc, world)?;
    print_line(
        b"start",
        &[
            Word::Number(mark_count(held.at_start.as_slice()) as u64),
            Word::Plain(b"now"),
            Word::Number(mark_count(held.at_end.as_slice()) as u64),
        ],
        out,
    )
}

/// The lines that sum up a world.
fn sums(alloc: Global, world: &World) -> Result<Text, AllocError>
    ensures { IfOk result (λ text. text ≡ sums_text world.now.history.group world.now.history.past) }
{
    let mut text = Text::new(alloc);
    print_parts(world.control().topo(), &mut text)?;
    print_receipts(world, &mut text)?;
    print_sent(world, &mut text)?;
    print_held(alloc, world, &mut text)?;
    Ok(text)
}

/// Adds four lines of numbers that sum up what came of a world's group: its parts, the entries of its journal with its receipts, what
/// was sent and what is not settled, and how many promises held at the opening and hold now. They are the numbers of its report.
/// `Err` is for want of memory alone, and leaves the text as it was.
pub fn print_sums(alloc: Global, world: &World, out: &mut Text) -> Result<(), AllocError>
    ensures ok { OnOk result (out.new ≡ out.old ++ sums_text world.now.history.group world.now.history.past) }
    ensures err { OnErr result (out.new ≡ out.old) }
{
    let text = sums(alloc, world)?;
    out.word(text.bytes())
}
