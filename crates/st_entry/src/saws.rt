//! The words of what a command that reads saw.

ghost use Rattle.std.specs.Prelude.{◌≡◌, ◌++◌, ◌∷◌, [], OnOk, codes, decimal};
ghost use Rattle.st_text.specs.Words.{spaced};
ghost use Rattle.st_entry.specs.Saws.{saw_words};

use st_event::LogSaw;
use st_text::{Text, Word, print_words};
use std::alloc::AllocError;

/// Adds a version, behind the word that says which it is, and the value at it.
fn print_value(which: &[u8], version: u32, value: u32, out: &mut Text) -> Result<(), AllocError>
    ensures { OnOk result (out.new ≡ out.old ++ spaced (which.now ∷ decimal version ∷ codes "value" ∷ decimal value ∷ [])) }
{
    print_words(
        &[
            Word::Plain(which),
            Word::Number(u64::from(version)),
            Word::Plain(b"value"),
            Word::Number(u64::from(value)),
        ],
        out,
    )
}

/// Adds the words of what a command saw, each behind a space. `Err` is for want of memory alone, and nothing is said of the text
/// then.
pub fn print_saw(saw: LogSaw, out: &mut Text) -> Result<(), AllocError>
    ensures { OnOk result (out.new ≡ out.old ++ spaced (saw_words saw)) }
{
    match saw {
        LogSaw::Seen { version, value } => print_value(b"version", version, value, out),
        LogSaw::At { version, value } => print_value(b"at", version, value, out),
        LogSaw::NoVersion { asked, latest } => print_words(
            &[
                Word::Plain(b"at"),
                Word::Number(u64::from(asked)),
                Word::Plain(b"none"),
                Word::Plain(b"latest"),
                Word::Number(u64::from(latest)),
            ],
            out,
        ),
    }
}
