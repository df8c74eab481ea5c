//! Which words the tokens of an entry are, and how many tokens stand behind each.

ghost use Rattle.std.specs.Prelude.{◌≡◌, map, length, All};
ghost use Rattle.st_text.specs.Tokens.{token_in, IsTokenOf};
ghost use Rattle.st_journal.specs.EntryWords.{replies_of as replies_of_lem, reply_among as reply_among_lem, event_named as event_named_lem, reply_named as reply_named_lem, verdict_named as verdict_named_lem, cause_named as cause_named_lem, takes_event_tokens as takes_event_tokens_lem, takes_cause_tokens as takes_cause_tokens_lem, has_verdict_count_by, has_receipt_count as has_receipt_count_lem, takes_reply_tokens as takes_reply_tokens_lem, has_event_count as has_event_count_lem, has_reply_count_by, has_reply_count as has_reply_count_lem};

use st_entry::{CauseWord, EventWord, ReplyWord, VerdictWord};
use st_text::Token;

static EVENTS: [EventWord; 11] = [
    EventWord::Submit,
    EventWord::Check,
    EventWord::Lock,
    EventWord::Unlock,
    EventWord::Send,
    EventWord::Deliver,
    EventWord::Finish,
    EventWord::Report,
    EventWord::Hear,
    EventWord::Fail,
    EventWord::Withdraw,
];

static REPLIES: [ReplyWord; 22] = [
    ReplyWord::Queued,
    ReplyWord::Full,
    ReplyWord::Receipt,
    ReplyWord::Idle,
    ReplyWord::Granted,
    ReplyWord::Held,
    ReplyWord::Released,
    ReplyWord::NotYours,
    ReplyWord::Sent,
    ReplyWord::Settled,
    ReplyWord::Blocked,
    ReplyWord::Begun,
    ReplyWord::Stale,
    ReplyWord::NoSuch,
    ReplyWord::Done,
    ReplyWord::NotBusy,
    ReplyWord::Reported,
    ReplyWord::Taken,
    ReplyWord::Old,
    ReplyWord::Changed,
    ReplyWord::Withdrawn,
    ReplyWord::Kept,
];

/// The event of a word.
#[tactic(auto, unfolding(crate::specs::EntryWords::event_named))]
pub fn event_named(token: &[u8]) -> Option<EventWord>
    ensures { result ≡ event_named_lem token.now }
{
    for event in EVENTS.as_slice() {
        if token == event.word() {
            return Some(*event);
        }
    }
    None
}

/// The first of these replies whose word the token is.
pub fn reply_among(replies: &[ReplyWord], token: &[u8]) -> Option<ReplyWord>
    ensures { result ≡ reply_among_lem replies.now token.now }
{
    for reply in replies {
        if token == reply.word() {
            return Some(*reply);
        }
    }
    None
}

/// The reply of a word, whatever the event.
#[tactic(auto, unfolding(crate::specs::EntryWords::reply_named))]
fn reply_named(token: &[u8]) -> Option<ReplyWord>
    ensures { result ≡ reply_named_lem token.now }
{
    reply_among(REPLIES.as_slice(), token)
}

/// The replies that an event takes.
pub fn replies_of(event: EventWord) -> &'static [ReplyWord]
    ensures { result.now ≡ replies_of_lem event }
{
    match event {
        EventWord::Submit => &[ReplyWord::Queued, ReplyWord::Full],
        EventWord::Check => &[ReplyWord::Receipt, ReplyWord::Idle],
        EventWord::Lock => &[ReplyWord::Granted, ReplyWord::Held],
        EventWord::Unlock => &[ReplyWord::Released, ReplyWord::NotYours],
        EventWord::Send => &[ReplyWord::Sent, ReplyWord::Settled, ReplyWord::Blocked],
        EventWord::Deliver => &[ReplyWord::Begun, ReplyWord::Stale, ReplyWord::NoSuch],
        EventWord::Finish => &[ReplyWord::Done, ReplyWord::NotBusy],
        EventWord::Report => &[ReplyWord::Reported],
        EventWord::Hear => &[ReplyWord::Taken, ReplyWord::Old, ReplyWord::NoSuch],
        EventWord::Fail => &[ReplyWord::Changed],
        EventWord::Withdraw => &[ReplyWord::Withdrawn, ReplyWord::Kept],
    }
}

/// The verdict of a word.
#[tactic(auto, unfolding(crate::specs::EntryWords::verdict_named))]
pub fn verdict_named(token: &[u8]) -> Option<VerdictWord>
    ensures { result ≡ verdict_named_lem token.now }
{
    if token == VerdictWord::Accepted.word() {
        Some(VerdictWord::Accepted)
    } else if token == VerdictWord::Refused.word() {
        Some(VerdictWord::Refused)
    } else {
        None
    }
}

/// The cause of a word.
#[tactic(auto, unfolding(crate::specs::EntryWords::cause_named))]
pub fn cause_named(token: &[u8]) -> Option<CauseWord>
    ensures { result ≡ cause_named_lem token.now }
{
    if token == CauseWord::Level.word() {
        Some(CauseWord::Level)
    } else if token == CauseWord::Off.word() {
        Some(CauseWord::Off)
    } else if token == CauseWord::Locked.word() {
        Some(CauseWord::Locked)
    } else if token == CauseWord::Broken.word() {
        Some(CauseWord::Broken)
    } else {
        None
    }
}

/// Whether so many tokens may stand behind the word of an event.
fn takes_event_tokens(event: EventWord, count: usize) -> bool
    ensures { result ≡ takes_event_tokens_lem event count }
{
    match event {
        EventWord::Submit => count >= 2,
        EventWord::Check => count == 0,
        EventWord::Lock | EventWord::Unlock => count == 3,
        EventWord::Send
        | EventWord::Deliver
        | EventWord::Finish
        | EventWord::Report
        | EventWord::Hear
        | EventWord::Withdraw => count == 1,
        EventWord::Fail => count >= 3,
    }
}

/// Whether so many tokens may stand behind the word of a cause.
fn takes_cause_tokens(cause: CauseWord, count: usize) -> bool
    ensures { result ≡ takes_cause_tokens_lem cause count }
{
    match cause {
        CauseWord::Level => count == 7,
        CauseWord::Off => count == 1,
        CauseWord::Locked => count == 3,
        CauseWord::Broken => count >= 9,
    }
}

/// Whether so many tokens may stand behind a verdict and this token, which is a version or the word of a cause.
fn has_verdict_count(verdict: Option<VerdictWord>, first: &[u8], count: usize) -> bool
    ensures { result ≡ has_verdict_count_by verdict first.now count }
{
    match verdict {
        None => true,
        Some(VerdictWord::Accepted) => count == 0,
        Some(VerdictWord::Refused) => match cause_named(first) {
            None => true,
            Some(cause) => takes_cause_tokens(cause, count),
        },
    }
}

/// Whether these are a ticket, the word of a verdict, and as many tokens as that takes.
fn has_receipt_count(line: &[u8], tokens: &[Token]) -> bool
    requires { All (IsTokenOf line.now) tokens.now }
    ensures { result ≡ has_receipt_count_lem (map (token_in line.now) tokens.now) }
{
    if tokens.len() < 3 {
        return false;
    }
    let verdict = verdict_named(&line[tokens[1].start..tokens[1].end]);
    has_verdict_count(
        verdict,
        &line[tokens[2].start..tokens[2].end],
        tokens.len() - 3,
    )
}

/// Whether these are as many tokens as may stand behind the word of a reply.
fn takes_reply_tokens(reply: ReplyWord, line: &[u8], tokens: &[Token]) -> bool
    requires { All (IsTokenOf line.now) tokens.now }
    ensures { result ≡ takes_reply_tokens_lem reply (map (token_in line.now) tokens.now) }
{
    match reply {
        ReplyWord::Receipt => has_receipt_count(line, tokens),
        ReplyWord::Withdrawn => tokens.len() >= 2,
        ReplyWord::Queued
        | ReplyWord::Full
        | ReplyWord::Held
        | ReplyWord::NotYours
        | ReplyWord::Sent
        | ReplyWord::Blocked
        | ReplyWord::Stale
        | ReplyWord::NoSuch
        | ReplyWord::Reported
        | ReplyWord::Old => tokens.len() == 1,
        ReplyWord::Idle
        | ReplyWord::Granted
        | ReplyWord::Released
        | ReplyWord::Settled
        | ReplyWord::Begun
        | ReplyWord::Done
        | ReplyWord::NotBusy
        | ReplyWord::Taken
        | ReplyWord::Changed
        | ReplyWord::Kept => tokens.is_empty(),
    }
}

/// Whether these are a word, and behind the word of an event as many tokens as it takes.
pub fn has_event_count(line: &[u8], tokens: &[Token]) -> bool
    requires { All (IsTokenOf line.now) tokens.now }
    ensures { result ≡ has_event_count_lem (map (token_in line.now) tokens.now) }
{
    if tokens.is_empty() {
        return false;
    }
    match event_named(&line[tokens[0].start..tokens[0].end]) {
        None => true,
        Some(event) => takes_event_tokens(event, tokens.len() - 1),
    }
}

/// Whether these are as many tokens as may stand behind the word of a reply, if it is one.
fn has_count_of(reply: Option<ReplyWord>, line: &[u8], tokens: &[Token]) -> bool
    requires { All (IsTokenOf line.now) tokens.now }
    ensures { result ≡ has_reply_count_by reply (map (token_in line.now) tokens.now) }
{
    match reply {
        None => true,
        Some(reply) => takes_reply_tokens(reply, line, tokens),
    }
}

/// Whether these are a word, and behind the word of a reply as many tokens as it takes.
pub fn has_reply_count(line: &[u8], tokens: &[Token]) -> bool
    requires { All (IsTokenOf line.now) tokens.now }
    ensures { result ≡ has_reply_count_lem (map (token_in line.now) tokens.now) }
{
    if tokens.is_empty() {
        return false;
    }
    let reply = reply_named(&line[tokens[0].start..tokens[0].end]);
    has_count_of(reply, line, &tokens[1..])
}
