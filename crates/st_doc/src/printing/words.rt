//! The words that documents alone have, by what they are in a document, and the text of a line. The modules beside make lines of
//! them.

ghost use Rattle.std.specs.Prelude.{◌≡◌, ◌++◌, ◌∷◌, [], OnOk, map};
ghost use Rattle.st_text.specs.Printed.{bytes_of};
ghost use Rattle.st_text.specs.Words.{text_of};
ghost use Rattle.st_doc.specs.Printed.{tor_word as tor_word_lem, wire_kind_word as kind_word_lem};

use st_text::{Text, Word};
use st_wire::WireKind;
use std::alloc::AllocError;

/// The word for a device's kind.
pub fn tor_word(tor: bool) -> &'static [u8]
    ensures { result.now ≡ tor_word_lem tor }
{
    if tor { b"tor" } else { b"switch" }
}

/// The word for a kind of messages.
pub fn kind_word(kind: WireKind) -> &'static [u8]
    ensures { result.now ≡ kind_word_lem kind }
{
    match kind {
        WireKind::Command => b"command",
        WireKind::Report => b"report",
    }
}

/// Adds a line: its first word, more words, each behind a space, and LF.
pub fn print_line(head: &[u8], words: &[Word], out: &mut Text) -> Result<(), AllocError>
    ensures { OnOk result (out.new ≡ out.old ++ text_of ((head.now ∷ map bytes_of words.now) ∷ [])) }
{
    st_text::print_line(head, words, out)
}
