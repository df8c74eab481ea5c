//! The words of a verdict: accepted as a version, or refused with what the refusal names.

ghost use Rattle.std.specs.Prelude.{◌≡◌, ◌++◌, OnOk};
ghost use Rattle.st_text.specs.Words.{spaced};
ghost use Rattle.st_net.specs.Demands.{pair_of_broken};
ghost use Rattle.st_net.specs.Groups.{promise_of};
ghost use Rattle.st_entry.specs.Words.{device_words};
ghost use Rattle.st_entry.specs.Causes.{lack_words, broken_words, cause_words, verdict_words};

use crate::keyword::{CauseWord, VerdictWord, kind_word};
use crate::names::{app_name, entity_name};
use st_event::{Cause, Lack, Verdict};
use st_net::{Broken, BrokenOf, Entity, GroupTopo, Name, Promise, Row};
use st_text::{Text, Word, print_word, print_words};
use st_token::{prio_word, var_word};
use std::alloc::AllocError;

/// Adds the names of devices, by their numbers.
fn print_devices(topo: &GroupTopo, devices: &[u32], out: &mut Text) -> Result<(), AllocError>
    ensures { OnOk result (out.new ≡ out.old ++ spaced (device_words topo.now devices.now)) }
{
    for device in devices {
        let name = entity_name(topo, Entity::Device(*device));
        print_word(Word::Plain(name), out)?;
    }
    Ok(())
}

/// A promise, by its number; one between the first device and itself where there are not so many.
fn promise_at(topo: &GroupTopo, number: u32) -> Promise
    ensures { result ≡ promise_of topo.now number }
{
    if number < topo.promise_count() {
        topo.promise(number)
    } else {
        Promise {
            a: 0,
            b: 0,
            percent: 0,
        }
    }
}

/// Adds why a row can't be set.
fn print_lack(topo: &GroupTopo, row: Row, lack: Lack, out: &mut Text) -> Result<(), AllocError>
    ensures { OnOk result (out.new ≡ out.old ++ spaced (lack_words topo.now row lack)) }
{
    let assignment = Word::Assignment {
        name: entity_name(topo, row.entity),
        var: var_word(row.var),
        value: row.value,
    };
    match lack {
        Lack::Level { of, level, needs } => print_words(
            &[
                Word::Plain(CauseWord::Level.word()),
                assignment,
                Word::Plain(b"of"),
                Word::Plain(entity_name(topo, of)),
                Word::Plain(b"has"),
                Word::Number(u64::from(level)),
                Word::Plain(b"needs"),
                Word::Number(u64::from(needs)),
            ],
            out,
        ),
        Lack::PowerOff => print_words(&[Word::Plain(CauseWord::Off.word()), assignment], out),
    }
}

/// The two devices between which a demand breaks, as they were declared: those of a promise, by its number.
fn pair_of(topo: &GroupTopo, of: BrokenOf) -> (u32, u32)
    ensures a { result.0 ≡ (pair_of_broken topo.now of).0 }
    ensures b { result.1 ≡ (pair_of_broken topo.now of).1 }
{
    match of {
        BrokenOf::Promise(number) => {
            let promise = promise_at(topo, number);
            (promise.a, promise.b)
        }
    }
}

/// Adds between which devices a demand breaks and how, with the devices of its side.
fn print_broken(topo: &GroupTopo, broken: &Broken, out: &mut Text) -> Result<(), AllocError>
    ensures { OnOk result (out.new ≡ out.old ++ spaced (broken_words topo.now broken.now)) }
{
    let (a, b) = pair_of(topo, broken.of);
    print_words(
        &[
            Word::Plain(CauseWord::Broken.word()),
            Word::Plain(entity_name(topo, Entity::Device(a))),
            Word::Plain(entity_name(topo, Entity::Device(b))),
            Word::Plain(kind_word(broken.kind)),
            Word::Plain(b"need"),
            Word::Number(broken.need),
            Word::Plain(b"has"),
            Word::Number(broken.has),
            Word::Plain(b"side"),
        ],
        out,
    )?;
    print_devices(topo, broken.side.as_slice(), out)
}

/// Adds the words of what a refusal names, each behind a space: the row that can't be set, and why; or the entity that is locked, its
/// holder and the lock; or the pair of the demand that breaks, how, and the devices of its side. `Err` is for want of memory alone, and nothing is
/// said of the text then.
pub fn print_cause<'a>(
    topo: &'a GroupTopo,
    apps: &'a [Name],
    cause: &Cause,
    out: &mut Text,
) -> Result<(), AllocError>
    ensures { OnOk result (out.new ≡ out.old ++ spaced (cause_words topo.now apps.now cause.now)) }
{
    match cause {
        Cause::NotControllable { row, lack } => print_lack(topo, *row, *lack, out),
        Cause::Locked {
            entity,
            holder,
            prio,
        } => print_words(
            &[
                Word::Plain(CauseWord::Locked.word()),
                Word::Plain(entity_name(topo, *entity)),
                Word::Plain(app_name(apps, *holder)),
                Word::Plain(prio_word(*prio)),
            ],
            out,
        ),
        Cause::Broken(broken) => print_broken(topo, broken, out),
    }
}

/// Adds the words of a verdict, each behind a space: accepted, and as which version, or refused, and what the refusal names.
/// `Err` is for want of memory alone, and nothing is said of the text then.
pub fn print_verdict(
    topo: &GroupTopo,
    apps: &[Name],
    verdict: &Verdict,
    out: &mut Text,
) -> Result<(), AllocError>
    ensures { OnOk result (out.new ≡ out.old ++ spaced (verdict_words topo.now apps.now verdict.now)) }
{
    match verdict {
        Verdict::Accepted { version } => print_words(
            &[
                Word::Plain(VerdictWord::Accepted.word()),
                Word::Number(u64::from(*version)),
            ],
            out,
        ),
        Verdict::Refused(cause) => {
            print_word(Word::Plain(VerdictWord::Refused.word()), out)?;
            print_cause(topo, apps, cause, out)
        }
    }
}
