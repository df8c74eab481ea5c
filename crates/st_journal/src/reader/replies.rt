//! What replies say: each function reads the tokens that stand behind the word of one.

ghost use Rattle.std.specs.Prelude.{◌≡◌, ◌<◌, ◌^◌, length, map, All};
ghost use Rattle.st_text.specs.Tokens.{token_in, IsTokenOf};
ghost use Rattle.st_token.specs.Steps.{Gives};
ghost use Rattle.st_journal.specs.ReplyReading.{holder_in as holder_in_lem, one_number_in as one_number_in_lem, accepted_of as accepted_of_lem, refused_of as refused_of_lem, verdict_of as verdict_of_lem, receipt_of as receipt_of_lem, bare_of as bare_of_lem, held_of as held_of_lem, notyours_of as notyours_of_lem, blocked_of as blocked_of_lem, reply_of as reply_of_lem};

use crate::reader::causes::cause_of;
use crate::reader::events::{app_in, none_of};
use crate::reader::withdrawals::withdrawn_of;
use crate::reader::words::{cause_named, verdict_named};
use st_entry::{ReplyWord, VerdictWord};
use st_event::{Event, Receipt, Reply, Verdict};
use st_net::{AppId, GroupTopo, Name};
use st_text::Token;
use st_token::{FaultKind, LineError, assignment_in, number_in, one_of};
use std::alloc::Global;

/// An application, or nobody.
#[tactic(auto, unfolding(crate::specs::ReplyReading::holder_in))]
fn holder_in(alloc: Global, apps: &[Name], token: &[u8]) -> Result<Option<AppId>, LineError>
    requires { length apps.now < 2 ^ 32 }
    ensures { Gives (λ holder. holder) result (holder_in_lem apps.now token.now) }
{
    if token == b"-".as_slice() {
        return Ok(None);
    }
    let app = app_in(alloc, apps, token)?;
    Ok(Some(app))
}

/// The one number behind a word.
#[tactic(auto, unfolding(crate::specs::ReplyReading::one_number_in))]
fn one_number_in(line: &[u8], tokens: &[Token]) -> Result<u32, LineError>
    requires { All (IsTokenOf line.now) tokens.now }
    ensures { Gives (λ n. n) result (one_number_in_lem (map (token_in line.now) tokens.now)) }
{
    let word = one_of(line, tokens)?;
    number_in(word)
}

#[tactic(auto, unfolding(crate::specs::ReplyReading::accepted_of))]
fn accepted_of(line: &[u8], tokens: &[Token]) -> Result<Verdict, LineError>
    requires { All (IsTokenOf line.now) tokens.now }
    ensures { Gives (λ verdict. verdict) result (accepted_of_lem (map (token_in line.now) tokens.now)) }
{
    let version = one_number_in(line, tokens)?;
    Ok(Verdict::Accepted { version })
}

#[tactic(auto, unfolding(crate::specs::ReplyReading::refused_of))]
fn refused_of(
    alloc: Global,
    topo: &GroupTopo,
    apps: &[Name],
    line: &[u8],
    tokens: &[Token],
) -> Result<Verdict, LineError>
    requires few { length apps.now < 2 ^ 32 }
    requires within { All (IsTokenOf line.now) tokens.now }
    ensures { Gives (λ verdict. verdict) result (refused_of_lem topo.now apps.now (map (token_in line.now) tokens.now)) }
{
    if tokens.is_empty() {
        return Err(LineError::Bad(FaultKind::Count));
    }
    match cause_named(&line[tokens[0].start..tokens[0].end]) {
        None => Err(LineError::Bad(FaultKind::Value)),
        Some(word) => {
            let cause = cause_of(alloc, topo, apps, word, line, &tokens[1..])?;
            Ok(Verdict::Refused(cause))
        }
    }
}

/// What the verdict of a word says.
fn verdict_of(
    alloc: Global,
    topo: &GroupTopo,
    apps: &[Name],
    word: VerdictWord,
    line: &[u8],
    tokens: &[Token],
) -> Result<Verdict, LineError>
    requires few { length apps.now < 2 ^ 32 }
    requires within { All (IsTokenOf line.now) tokens.now }
    ensures { Gives (λ verdict. verdict) result (verdict_of_lem topo.now apps.now word (map (token_in line.now) tokens.now)) }
{
    match word {
        VerdictWord::Accepted => accepted_of(line, tokens),
        VerdictWord::Refused => refused_of(alloc, topo, apps, line, tokens),
    }
}

/// The receipt that entry `n` has.
#[tactic(auto, unfolding(crate::specs::ReplyReading::receipt_of))]
fn receipt_of(
    alloc: Global,
    topo: &GroupTopo,
    apps: &[Name],
    n: u32,
    line: &[u8],
    tokens: &[Token],
) -> Result<Reply, LineError>
    requires few { length apps.now < 2 ^ 32 }
    requires within { All (IsTokenOf line.now) tokens.now }
    ensures { Gives (λ reply. reply) result (receipt_of_lem topo.now apps.now n (map (token_in line.now) tokens.now)) }
{
    if tokens.len() < 3 {
        return Err(LineError::Bad(FaultKind::Count));
    }
    let ticket = number_in(&line[tokens[0].start..tokens[0].end])?;
    match verdict_named(&line[tokens[1].start..tokens[1].end]) {
        None => Err(LineError::Bad(FaultKind::Value)),
        Some(word) => {
            let verdict = verdict_of(alloc, topo, apps, word, line, &tokens[2..])?;
            Ok(Reply::Decided(Receipt {
                ticket,
                entry: n,
                verdict,
            }))
        }
    }
}

/// A reply behind whose word nothing stands.
#[tactic(auto, unfolding(crate::specs::ReplyReading::bare_of))]
fn bare_of(reply: Reply, line: &[u8], tokens: &[Token]) -> Result<Reply, LineError>
    requires { All (IsTokenOf line.now) tokens.now }
    ensures { Gives (λ reply. reply) result (bare_of_lem reply (map (token_in line.now) tokens.now)) }
{
    none_of(line, tokens)?;
    Ok(reply)
}

#[tactic(auto, unfolding(crate::specs::ReplyReading::held_of))]
fn held_of(alloc: Global, apps: &[Name], line: &[u8], tokens: &[Token]) -> Result<Reply, LineError>
    requires few { length apps.now < 2 ^ 32 }
    requires within { All (IsTokenOf line.now) tokens.now }
    ensures { Gives (λ reply. reply) result (held_of_lem apps.now (map (token_in line.now) tokens.now)) }
{
    let word = one_of(line, tokens)?;
    let holder = app_in(alloc, apps, word)?;
    Ok(Reply::Held { holder })
}

#[tactic(auto, unfolding(crate::specs::ReplyReading::notyours_of))]
fn notyours_of(
    alloc: Global,
    apps: &[Name],
    line: &[u8],
    tokens: &[Token],
) -> Result<Reply, LineError>
    requires few { length apps.now < 2 ^ 32 }
    requires within { All (IsTokenOf line.now) tokens.now }
    ensures { Gives (λ reply. reply) result (notyours_of_lem apps.now (map (token_in line.now) tokens.now)) }
{
    let word = one_of(line, tokens)?;
    let holder = holder_in(alloc, apps, word)?;
    Ok(Reply::NotYours { holder })
}

#[tactic(auto, unfolding(crate::specs::ReplyReading::blocked_of))]
fn blocked_of(
    alloc: Global,
    topo: &GroupTopo,
    line: &[u8],
    tokens: &[Token],
) -> Result<Reply, LineError>
    requires { All (IsTokenOf line.now) tokens.now }
    ensures { Gives (λ reply. reply) result (blocked_of_lem topo.now (map (token_in line.now) tokens.now)) }
{
    let word = one_of(line, tokens)?;
    let row = assignment_in(alloc, topo, word)?;
    Ok(Reply::Blocked { row })
}

/// What the reply of a word says in entry `n`, to this event.
pub fn reply_of(
    alloc: Global,
    topo: &GroupTopo,
    apps: &[Name],
    n: u32,
    event: &Event,
    word: ReplyWord,
    line: &[u8],
    tokens: &[Token],
) -> Result<Reply, LineError>
    requires few { length apps.now < 2 ^ 32 }
    requires within { All (IsTokenOf line.now) tokens.now }
    ensures { Gives (λ reply. reply) result (reply_of_lem topo.now apps.now n event.now word (map (token_in line.now) tokens.now)) }
{
    Ok(match word {
        ReplyWord::Receipt => return receipt_of(alloc, topo, apps, n, line, tokens),
        ReplyWord::Held => return held_of(alloc, apps, line, tokens),
        ReplyWord::NotYours => return notyours_of(alloc, apps, line, tokens),
        ReplyWord::Blocked => return blocked_of(alloc, topo, line, tokens),
        ReplyWord::Withdrawn => return withdrawn_of(alloc, topo, event, line, tokens),
        ReplyWord::Idle => return bare_of(Reply::Idle, line, tokens),
        ReplyWord::Granted => return bare_of(Reply::Granted, line, tokens),
        ReplyWord::Released => return bare_of(Reply::Released, line, tokens),
        ReplyWord::Settled => return bare_of(Reply::Settled, line, tokens),
        ReplyWord::Begun => return bare_of(Reply::Begun, line, tokens),
        ReplyWord::Done => return bare_of(Reply::Done, line, tokens),
        ReplyWord::NotBusy => return bare_of(Reply::NotBusy, line, tokens),
        ReplyWord::Taken => return bare_of(Reply::Taken, line, tokens),
        ReplyWord::Changed => return bare_of(Reply::Changed, line, tokens),
        ReplyWord::Kept => return bare_of(Reply::Kept, line, tokens),
        ReplyWord::Queued => Reply::Queued {
            ticket: one_number_in(line, tokens)?,
        },
        ReplyWord::Full => Reply::Full {
            pending: one_number_in(line, tokens)?,
        },
        ReplyWord::Sent => Reply::Sent {
            command: one_number_in(line, tokens)?,
        },
        ReplyWord::Stale => Reply::Stale {
            fence: one_number_in(line, tokens)?,
        },
        ReplyWord::NoSuch => Reply::NoSuch {
            sent: one_number_in(line, tokens)?,
        },
        ReplyWord::Reported => Reply::Reported {
            report: one_number_in(line, tokens)?,
        },
        ReplyWord::Old => Reply::Old {
            kept: one_number_in(line, tokens)?,
        },
    })
}
