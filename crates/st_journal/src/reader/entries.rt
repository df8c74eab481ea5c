//! The line of an entry: its number, its event, `:`, and its reply.

ghost use Rattle.std.specs.Prelude.{◌≡◌, ◌<◌, ◌^◌, length, map, All, IfOk, IfSome, option_map};
ghost use Rattle.st_text.specs.Tokens.{token_in, IsTokenOf};
ghost use Rattle.st_token.specs.Steps.{Gives};
ghost use Rattle.st_token.specs.Spelling.{number_within};
ghost use Rattle.st_journal.specs.EntryReading.{cut_at_colon as cut_at_colon_lem, parts_of as parts_of_lem, event_part_of as event_part_of_lem, reply_part_of as reply_part_of_lem, entry_of as entry_of_lem};

use crate::reader::events::{event_of, has_few_rows};
use crate::reader::replies::reply_of;
use crate::reader::words::{
    event_named, has_event_count, has_reply_count, replies_of, reply_among,
};
use st_entry::{EventWord, ReplyWord};
use st_event::Entry;
use st_net::{GroupTopo, Name};
use st_text::Token;
use st_token::{FaultKind, LineError, number_in};
use std::alloc::Global;

/// The tokens before the first `:`, and those behind it.
fn cut_at_colon<'a>(line: &[u8], tokens: &'a [Token]) -> Option<(&'a [Token], &'a [Token])>
    requires { All (IsTokenOf line.now) tokens.now }
    ensures parts { option_map (λ p. (map (token_in line.now) p.0.now, map (token_in line.now) p.1.now)) result ≡ cut_at_colon_lem (map (token_in line.now) tokens.now) }
    ensures event { IfSome result (λ p. All (IsTokenOf line.now) p.0.now) }
    ensures reply { IfSome result (λ p. All (IsTokenOf line.now) p.1.now) }
{
    for (at, token) in tokens.iter().enumerate() {
        if &line[token.start..token.end] == b":".as_slice() {
            return Some((&tokens[..at], &tokens[at + 1..]));
        }
    }
    None
}

/// The tokens of the event and those of the reply.
#[tactic(auto, unfolding(crate::specs::EntryReading::parts_of))]
fn parts_of<'a>(line: &[u8], tokens: &'a [Token]) -> Result<(&'a [Token], &'a [Token]), LineError>
    requires { All (IsTokenOf line.now) tokens.now }
    ensures gives { Gives (λ p. (map (token_in line.now) p.0.now, map (token_in line.now) p.1.now)) result (parts_of_lem (map (token_in line.now) tokens.now)) }
    ensures event { IfOk result (λ p. All (IsTokenOf line.now) p.0.now) }
    ensures reply { IfOk result (λ p. All (IsTokenOf line.now) p.1.now) }
{
    match cut_at_colon(line, tokens) {
        None => Err(LineError::Bad(FaultKind::Count)),
        Some((event, reply)) => {
            if has_event_count(line, event) && has_reply_count(line, reply) {
                Ok((event, reply))
            } else {
                Err(LineError::Bad(FaultKind::Count))
            }
        }
    }
}

/// The event's word, and the tokens behind it.
#[tactic(auto, unfolding(crate::specs::EntryReading::event_part_of))]
fn event_part_of<'a>(
    line: &[u8],
    tokens: &'a [Token],
) -> Result<(EventWord, &'a [Token]), LineError>
    requires { All (IsTokenOf line.now) tokens.now }
    ensures gives { Gives (λ p. (p.0, map (token_in line.now) p.1.now)) result (event_part_of_lem (map (token_in line.now) tokens.now)) }
    ensures within { IfOk result (λ p. All (IsTokenOf line.now) p.1.now) }
{
    if tokens.is_empty() {
        return Err(LineError::Bad(FaultKind::Count));
    }
    match event_named(&line[tokens[0].start..tokens[0].end]) {
        Some(word) => Ok((word, &tokens[1..])),
        None => Err(LineError::Bad(FaultKind::Value)),
    }
}

/// The word of a reply that the event takes, and the tokens behind it.
#[tactic(auto, unfolding(crate::specs::EntryReading::reply_part_of))]
fn reply_part_of<'a>(
    event: EventWord,
    line: &[u8],
    tokens: &'a [Token],
) -> Result<(ReplyWord, &'a [Token]), LineError>
    requires { All (IsTokenOf line.now) tokens.now }
    ensures gives { Gives (λ p. (p.0, map (token_in line.now) p.1.now)) result (reply_part_of_lem event (map (token_in line.now) tokens.now)) }
    ensures within { IfOk result (λ p. All (IsTokenOf line.now) p.1.now) }
{
    if tokens.is_empty() {
        return Err(LineError::Bad(FaultKind::Count));
    }
    match reply_among(replies_of(event), &line[tokens[0].start..tokens[0].end]) {
        Some(word) => Ok((word, &tokens[1..])),
        None => Err(LineError::Bad(FaultKind::Value)),
    }
}

/// The number of the next entry, if the token is it.
#[tactic(auto, unfolding(st_token::specs::Spelling::number_within))]
fn next_in(next: usize, token: &[u8]) -> Result<u32, LineError>
    ensures { Gives (λ n. n) result (number_within next next token.now) }
{
    let n = number_in(token)?;
    if next <= n as usize && n as usize <= next {
        Ok(n)
    } else {
        Err(LineError::Bad(FaultKind::Number))
    }
}

/// The entry of this number, by its number's token and the tokens behind it.
#[tactic(auto, unfolding(crate::specs::EntryReading::entry_of))]
pub fn entry_of(
    alloc: Global,
    topo: &GroupTopo,
    apps: &[Name],
    next: usize,
    number: &[u8],
    line: &[u8],
    tokens: &[Token],
) -> Result<Entry, LineError>
    requires few { length apps.now < 2 ^ 32 }
    requires within { All (IsTokenOf line.now) tokens.now }
    ensures { Gives (λ entry. entry) result (entry_of_lem topo.now apps.now next number.now (map (token_in line.now) tokens.now)) }
{
    let (asked, given) = parts_of(line, tokens)?;
    let n = next_in(next, number)?;
    let (event, asked) = event_part_of(line, asked)?;
    let (reply, given) = reply_part_of(event, line, given)?;
    let event = event_of(alloc, topo, apps, event, line, asked)?;
    let reply = reply_of(alloc, topo, apps, n, &event, reply, line, given)?;
    if has_few_rows(&event) {
        Ok(Entry { event, reply })
    } else {
        Err(LineError::Bad(FaultKind::Limit))
    }
}
