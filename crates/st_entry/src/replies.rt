//! The words of a reply, with the numbers, names and verdicts that it says.

ghost use Rattle.std.specs.Prelude.{◌≡◌, ◌++◌, ◌∷◌, [], OnOk, decimal};
ghost use Rattle.st_text.specs.Words.{spaced};
ghost use Rattle.st_entry.specs.declared.keyword.ReplyWord.TheVariants as replies;
ghost use Rattle.st_entry.specs.Keywords.{reply_word};
ghost use Rattle.st_entry.specs.Words.{assignment, assignment_words};
ghost use Rattle.st_entry.specs.Causes.{verdict_words};
ghost use Rattle.st_entry.specs.Entries.{reply_words};

use crate::causes::print_verdict;
use crate::events::print_assignments;
use crate::keyword::ReplyWord;
use crate::names::{app_name, entity_name, holder_name};
use st_event::{Receipt, Reply};
use st_net::{GroupTopo, Name, Row};
use st_text::{Text, Word, print_word, print_words};
use st_token::var_word;
use std::alloc::AllocError;

/// Adds a reply of one word.
fn print_bare(word: ReplyWord, out: &mut Text) -> Result<(), AllocError>
    ensures { OnOk result (out.new ≡ out.old ++ spaced (reply_word word ∷ [])) }
{
    print_words(&[Word::Plain(word.word())], out)
}

/// Adds a reply that says a name.
fn print_named(word: ReplyWord, name: &[u8], out: &mut Text) -> Result<(), AllocError>
    ensures { OnOk result (out.new ≡ out.old ++ spaced (reply_word word ∷ name.now ∷ [])) }
{
    print_words(&[Word::Plain(word.word()), Word::Plain(name)], out)
}

/// Adds a reply that says a number.
fn print_numbered(word: ReplyWord, number: u32, out: &mut Text) -> Result<(), AllocError>
    ensures { OnOk result (out.new ≡ out.old ++ spaced (reply_word word ∷ decimal number ∷ [])) }
{
    print_words(
        &[Word::Plain(word.word()), Word::Number(u64::from(number))],
        out,
    )
}

/// Adds a decision: the ticket and its verdict.
fn print_receipt(
    topo: &GroupTopo,
    apps: &[Name],
    receipt: &Receipt,
    out: &mut Text,
) -> Result<(), AllocError>
    ensures { OnOk result (out.new ≡ out.old ++ spaced (reply_word replies.Receipt ∷ decimal receipt.now.ticket ∷ verdict_words topo.now apps.now receipt.now.verdict)) }
{
    print_numbered(ReplyWord::Receipt, receipt.ticket, out)?;
    print_verdict(topo, apps, &receipt.verdict, out)
}

/// Adds that a row of the target can't be set now.
fn print_blocked(topo: &GroupTopo, row: Row, out: &mut Text) -> Result<(), AllocError>
    ensures { OnOk result (out.new ≡ out.old ++ spaced (reply_word replies.Blocked ∷ assignment topo.now row ∷ [])) }
{
    let assignment = Word::Assignment {
        name: entity_name(topo, row.entity),
        var: var_word(row.var),
        value: row.value,
    };
    print_words(&[Word::Plain(ReplyWord::Blocked.word()), assignment], out)
}

/// Adds what is withdrawn: the version that it is, and its rows.
fn print_withdrawn(
    topo: &GroupTopo,
    version: u32,
    rows: &[Row],
    out: &mut Text,
) -> Result<(), AllocError>
    ensures { OnOk result (out.new ≡ out.old ++ spaced (reply_word replies.Withdrawn ∷ decimal version ∷ assignment_words topo.now rows.now)) }
{
    print_numbered(ReplyWord::Withdrawn, version, out)?;
    print_assignments(topo, rows, out)
}

/// Adds the words of a reply, each behind a space. `Err` is for want of memory alone, and nothing is said of the text then.
pub fn print_reply<'a>(
    topo: &'a GroupTopo,
    apps: &'a [Name],
    reply: &Reply,
    out: &mut Text,
) -> Result<(), AllocError>
    ensures { OnOk result (out.new ≡ out.old ++ spaced (reply_words topo.now apps.now reply.now)) }
{
    match reply {
        Reply::Queued { ticket } => print_numbered(ReplyWord::Queued, *ticket, out),
        Reply::Full { pending } => print_numbered(ReplyWord::Full, *pending, out),
        Reply::Decided(receipt) => print_receipt(topo, apps, receipt, out),
        Reply::Idle => print_bare(ReplyWord::Idle, out),
        Reply::Granted => print_bare(ReplyWord::Granted, out),
        Reply::Held { holder } => print_named(ReplyWord::Held, app_name(apps, *holder), out),
        Reply::Released => print_bare(ReplyWord::Released, out),
        Reply::NotYours { holder } => {
            print_named(ReplyWord::NotYours, holder_name(apps, *holder), out)
        }
        Reply::Sent { command } => print_numbered(ReplyWord::Sent, *command, out),
        Reply::Settled => print_bare(ReplyWord::Settled, out),
        Reply::Blocked { row } => print_blocked(topo, *row, out),
        Reply::Begun => print_bare(ReplyWord::Begun, out),
        Reply::Stale { fence } => print_numbered(ReplyWord::Stale, *fence, out),
        Reply::NoSuch { sent } => print_numbered(ReplyWord::NoSuch, *sent, out),
        Reply::Done => print_bare(ReplyWord::Done, out),
        Reply::NotBusy => print_bare(ReplyWord::NotBusy, out),
        Reply::Reported { report } => print_numbered(ReplyWord::Reported, *report, out),
        Reply::Taken => print_bare(ReplyWord::Taken, out),
        Reply::Old { kept } => print_numbered(ReplyWord::Old, *kept, out),
        Reply::Changed => print_bare(ReplyWord::Changed, out),
        Reply::Withdrawn { version, rows } => {
            print_withdrawn(topo, *version, rows.as_slice(), out)
        }
        Reply::Kept => print_bare(ReplyWord::Kept, out),
    }
}
