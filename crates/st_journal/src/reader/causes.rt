//! What a refusal names: each function reads the tokens that stand behind the word of a cause.

ghost use Rattle.std.specs.Prelude.{◌≡◌, ◌<◌, ◌^◌, [], length, map, All, IfOk};
ghost use Rattle.st_text.specs.Tokens.{token_in, IsTokenOf};
ghost use Rattle.st_token.specs.Steps.{Gives};
ghost use Rattle.st_journal.specs.ReplyReading.{device_in as device_in_lem, broken_kind_in as broken_kind_in_lem, two_told_in as two_told_in_lem, is_behind as is_behind_lem, devices_in as devices_in_lem, side_in as side_in_lem, promise_place as promise_place_lem, cut_behind as cut_behind_lem, row_of_in as row_of_in_lem, ends_in as ends_in_lem, level_of as level_of_lem, off_of as off_of_lem, locked_of as locked_of_lem, broken_of as broken_of_lem, cause_of as cause_of_lem};

use crate::reader::events::app_in;
use st_entry::{CauseWord, kind_word};
use st_event::{Cause, Lack};
use st_net::{Broken, BrokenKind, BrokenOf, Entity, GroupTopo, Name, Row, Side};
use st_text::Token;
use st_token::{
    FaultKind, LineError, NamedEntities, assignment_in, four_of, number_in, one_of, prio_in,
    three_of, word_in,
};
use std::alloc::Global;

/// A device, by its name.
#[tactic(auto, unfolding(crate::specs::ReplyReading::device_in))]
fn device_in(alloc: Global, topo: &GroupTopo, token: &[u8]) -> Result<u32, LineError>
    ensures { Gives (λ device. device) result (device_in_lem topo.now token.now) }
{
    match topo.entity_in(alloc, token)? {
        Entity::Device(device) => Ok(device),
        Entity::Link(_) => Err(LineError::Bad(FaultKind::Unknown)),
    }
}

/// How a promise breaks, by its word.
fn broken_kind_in(token: &[u8]) -> Result<BrokenKind, LineError>
    ensures { Gives (λ kind. kind) result (broken_kind_in_lem token.now) }
{
    if token == kind_word(BrokenKind::CutOff) {
        Ok(BrokenKind::CutOff)
    } else if token == kind_word(BrokenKind::Short) {
        Ok(BrokenKind::Short)
    } else {
        Err(LineError::Bad(FaultKind::Value))
    }
}

/// Two numbers, each behind its word.
#[tactic(auto, unfolding(crate::specs::ReplyReading::two_told_in))]
fn two_told_in(
    first: &[u8],
    second: &[u8],
    line: &[u8],
    tokens: &[Token],
) -> Result<(u32, u32), LineError>
    requires { All (IsTokenOf line.now) tokens.now }
    ensures { Gives (λ told. told) result (two_told_in_lem first.now second.now (map (token_in line.now) tokens.now)) }
{
    let (one, a, two, b) = four_of(line, tokens)?;
    word_in(first, one)?;
    let a = number_in(a)?;
    word_in(second, two)?;
    let b = number_in(b)?;
    Ok((a, b))
}

/// Whether a device stands behind the last of these.
fn is_behind(devices: &[u32], device: u32) -> bool
    ensures { result ≡ is_behind_lem devices.now device }
{
    devices.is_empty() || devices[devices.len() - 1] < device
}

/// Devices in ascending order.
#[tactic(auto, unfolding(crate::specs::ReplyReading::devices_in))]
fn devices_in(
    alloc: Global,
    topo: &GroupTopo,
    line: &[u8],
    tokens: &[Token],
) -> Result<Vec<u32>, LineError>
    requires { All (IsTokenOf line.now) tokens.now }
    ensures { Gives (λ devices. devices.items) result (devices_in_lem topo.now [] (map (token_in line.now) tokens.now)) }
{
    let mut devices = Vec::new(alloc);
    for token in tokens {
        let device = match device_in(alloc, topo, &line[token.start..token.end]) {
            Ok(device) => device,
            Err(error) => return Err(error),
        };
        if !is_behind(devices.as_slice(), device) {
            return Err(LineError::Bad(FaultKind::Twice));
        }
        devices.push(device)?;
    }
    Ok(devices)
}

/// The side of a broken promise.
#[tactic(auto, unfolding(crate::specs::ReplyReading::side_in))]
fn side_in(
    alloc: Global,
    topo: &GroupTopo,
    line: &[u8],
    tokens: &[Token],
) -> Result<Side, LineError>
    requires { All (IsTokenOf line.now) tokens.now }
    ensures { Gives (λ side. side) result (side_in_lem topo.now (map (token_in line.now) tokens.now)) }
{
    if tokens.is_empty() {
        return Err(LineError::Bad(FaultKind::Count));
    }
    word_in(b"side".as_slice(), &line[tokens[0].start..tokens[0].end])?;
    let devices = devices_in(alloc, topo, line, &tokens[1..])?;
    Ok(Side::from_slice(alloc, devices.as_slice())?)
}

/// The number of the promise that was declared with these ends in this order.
fn promise_place(topo: &GroupTopo, a: u32, b: u32) -> Option<u32>
    ensures { result ≡ promise_place_lem a b topo.now.promises }
{
    for place in 0..topo.promise_count() {
        let promise = topo.promise(place);
        if promise.a == a && promise.b == b {
            return Some(place);
        }
    }
    None
}

/// So many tokens, and those behind them.
fn cut_behind<'a>(
    count: usize,
    line: &[u8],
    tokens: &'a [Token],
) -> Result<(&'a [Token], &'a [Token]), LineError>
    requires { All (IsTokenOf line.now) tokens.now }
    ensures gives { Gives (λ p. (map (token_in line.now) p.0.now, map (token_in line.now) p.1.now)) result (cut_behind_lem count (map (token_in line.now) tokens.now)) }
    ensures first { IfOk result (λ p. All (IsTokenOf line.now) p.0.now) }
    ensures rest { IfOk result (λ p. All (IsTokenOf line.now) p.1.now) }
{
    if tokens.len() < count {
        return Err(LineError::Bad(FaultKind::Count));
    }
    Ok((&tokens[..count], &tokens[count..]))
}

/// The row that can't be set, and the entity whose level is too low.
#[tactic(auto, unfolding(crate::specs::ReplyReading::row_of_in))]
fn row_of_in(
    alloc: Global,
    topo: &GroupTopo,
    line: &[u8],
    tokens: &[Token],
) -> Result<(Row, Entity), LineError>
    requires { All (IsTokenOf line.now) tokens.now }
    ensures { Gives (λ of. of) result (row_of_in_lem topo.now (map (token_in line.now) tokens.now)) }
{
    let (row, own, name) = three_of(line, tokens)?;
    let row = assignment_in(alloc, topo, row)?;
    word_in(b"of".as_slice(), own)?;
    let entity = topo.entity_in(alloc, name)?;
    Ok((row, entity))
}

#[tactic(auto, unfolding(crate::specs::ReplyReading::level_of))]
fn level_of(
    alloc: Global,
    topo: &GroupTopo,
    line: &[u8],
    tokens: &[Token],
) -> Result<Cause, LineError>
    requires { All (IsTokenOf line.now) tokens.now }
    ensures { Gives (λ cause. cause) result (level_of_lem topo.now (map (token_in line.now) tokens.now)) }
{
    let (first, rest) = cut_behind(3, line, tokens)?;
    let (row, of) = row_of_in(alloc, topo, line, first)?;
    let (level, needs) = two_told_in(b"has".as_slice(), b"needs".as_slice(), line, rest)?;
    Ok(Cause::NotControllable {
        row,
        lack: Lack::Level { of, level, needs },
    })
}

#[tactic(auto, unfolding(crate::specs::ReplyReading::off_of))]
fn off_of(
    alloc: Global,
    topo: &GroupTopo,
    line: &[u8],
    tokens: &[Token],
) -> Result<Cause, LineError>
    requires { All (IsTokenOf line.now) tokens.now }
    ensures { Gives (λ cause. cause) result (off_of_lem topo.now (map (token_in line.now) tokens.now)) }
{
    let word = one_of(line, tokens)?;
    let row = assignment_in(alloc, topo, word)?;
    Ok(Cause::NotControllable {
        row,
        lack: Lack::PowerOff,
    })
}

#[tactic(auto, unfolding(crate::specs::ReplyReading::locked_of))]
fn locked_of(
    alloc: Global,
    topo: &GroupTopo,
    apps: &[Name],
    line: &[u8],
    tokens: &[Token],
) -> Result<Cause, LineError>
    requires few { length apps.now < 2 ^ 32 }
    requires within { All (IsTokenOf line.now) tokens.now }
    ensures { Gives (λ cause. cause) result (locked_of_lem topo.now apps.now (map (token_in line.now) tokens.now)) }
{
    let (name, app, prio) = three_of(line, tokens)?;
    let entity = topo.entity_in(alloc, name)?;
    let holder = app_in(alloc, apps, app)?;
    let prio = prio_in(prio)?;
    Ok(Cause::Locked {
        entity,
        holder,
        prio,
    })
}

/// The two devices of a promise, and how it breaks.
#[tactic(auto, unfolding(crate::specs::ReplyReading::ends_in))]
fn ends_in(
    alloc: Global,
    topo: &GroupTopo,
    line: &[u8],
    tokens: &[Token],
) -> Result<(u32, u32, BrokenKind), LineError>
    requires { All (IsTokenOf line.now) tokens.now }
    ensures { Gives (λ ends. ends) result (ends_in_lem topo.now (map (token_in line.now) tokens.now)) }
{
    let (a, b, kind) = three_of(line, tokens)?;
    let a = device_in(alloc, topo, a)?;
    let b = device_in(alloc, topo, b)?;
    let kind = broken_kind_in(kind)?;
    Ok((a, b, kind))
}

#[tactic(auto, unfolding(crate::specs::ReplyReading::broken_of))]
fn broken_of(
    alloc: Global,
    topo: &GroupTopo,
    line: &[u8],
    tokens: &[Token],
) -> Result<Cause, LineError>
    requires { All (IsTokenOf line.now) tokens.now }
    ensures { Gives (λ cause. cause) result (broken_of_lem topo.now (map (token_in line.now) tokens.now)) }
{
    let (first, rest) = cut_behind(3, line, tokens)?;
    let (a, b, kind) = ends_in(alloc, topo, line, first)?;
    let (told, rest) = cut_behind(4, line, rest)?;
    let (need, has) = two_told_in(b"need".as_slice(), b"has".as_slice(), line, told)?;
    let side = side_in(alloc, topo, line, rest)?;
    match promise_place(topo, a, b) {
        None => Err(LineError::Bad(FaultKind::Pair)),
        Some(promise) => Ok(Cause::Broken(Broken {
            of: BrokenOf::Promise(promise),
            kind,
            need: need as u64,
            has: has as u64,
            side,
        })),
    }
}

/// What the cause of a word says.
pub fn cause_of(
    alloc: Global,
    topo: &GroupTopo,
    apps: &[Name],
    word: CauseWord,
    line: &[u8],
    tokens: &[Token],
) -> Result<Cause, LineError>
    requires few { length apps.now < 2 ^ 32 }
    requires within { All (IsTokenOf line.now) tokens.now }
    ensures { Gives (λ cause. cause) result (cause_of_lem topo.now apps.now word (map (token_in line.now) tokens.now)) }
{
    match word {
        CauseWord::Level => level_of(alloc, topo, line, tokens),
        CauseWord::Off => off_of(alloc, topo, line, tokens),
        CauseWord::Locked => locked_of(alloc, topo, apps, line, tokens),
        CauseWord::Broken => broken_of(alloc, topo, line, tokens),
    }
}
