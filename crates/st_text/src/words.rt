//! Lines of words are printed here. The crates that print a text make its words from what they print, and add them to a
//! `Text`.

ghost use Rattle.std.specs.Prelude.{◌≡◌, ◌++◌, ◌∷◌, [], OnOk, OnErr, map};
ghost use Rattle.st_text.specs.Words.{spaced, line};
ghost use Rattle.st_text.specs.Printed.{bytes_of, value_word, assignment_word, variable_word};
ghost use Rattle.st_text.specs.Inside.{between};
ghost use mathlib.Core.List.{IsPrefix};

use crate::printing::Text;
use std::alloc::AllocError;

/// A word of a line.
#[derive(Clone, Copy)]
pub enum Word<'a> {
    /// These bytes.
    Plain(&'a [u8]),
    /// A number in decimal.
    Number(u64),
    /// NAME.VAR.
    Variable {
        name: &'a [u8],
        var: &'a [u8],
    },
    /// NAME.VAR=NUMBER.
    Assignment {
        name: &'a [u8],
        var: &'a [u8],
        value: u32,
    },
    /// VAR=NUMBER.
    Value {
        var: &'a [u8],
        value: u32,
    },
}

/// Adds VAR=NUMBER. At `Err` a part of it may stand behind what the text held.
fn add_value(var: &[u8], value: u32, out: &mut Text) -> Result<(), AllocError>
    ensures ok { OnOk result (out.new ≡ out.old ++ value_word var.now value) }
    ensures err { OnErr result (IsPrefix out.old out.new) }
{
    out.word(var)?;
    out.word(b"=")?;
    out.num(u64::from(value))
}

/// Adds NAME.VAR. At `Err` a part of it may stand behind what the text held.
fn add_variable(name: &[u8], var: &[u8], out: &mut Text) -> Result<(), AllocError>
    ensures ok { OnOk result (out.new ≡ out.old ++ variable_word name.now var.now) }
    ensures err { OnErr result (IsPrefix out.old out.new) }
{
    out.word(name)?;
    out.word(b".")?;
    out.word(var)
}

/// Adds NAME.VAR=NUMBER. At `Err` a part of it may stand behind what the text held.
fn add_assignment(name: &[u8], var: &[u8], value: u32, out: &mut Text) -> Result<(), AllocError>
    ensures ok { OnOk result (out.new ≡ out.old ++ assignment_word name.now var.now value) }
    ensures err { OnErr result (IsPrefix out.old out.new) }
{
    out.word(name)?;
    out.word(b".")?;
    add_value(var, value, out)
}

/// Adds a space and the word. At `Err` a part of them may stand behind what the text held.
fn add_word(word: Word, out: &mut Text) -> Result<(), AllocError>
    ensures ok { OnOk result (out.new ≡ out.old ++ 32 ∷ bytes_of word.entry) }
    ensures err { OnErr result (IsPrefix out.old out.new) }
{
    out.word(b" ")?;
    match word {
        Word::Plain(bytes) => out.word(bytes),
        Word::Number(number) => out.num(number),
        Word::Variable { name, var } => add_variable(name, var, out),
        Word::Assignment { name, var, value } => add_assignment(name, var, value, out),
        Word::Value { var, value } => add_value(var, value, out),
    }
}

/// Adds bytes, words, each behind a space, and more bytes. At `Err` a part of them may stand behind what the text held.
fn add_between(head: &[u8], words: &[Word], end: &[u8], out: &mut Text) -> Result<(), AllocError>
    ensures ok { OnOk result (out.new ≡ out.old ++ between head.now words.now end.now) }
    ensures err { OnErr result (IsPrefix out.old out.new) }
{
    out.word(head)?;
    for word in words {
        add_word(*word, out)?;
    }
    out.word(end)
}

/// Adds bytes, words, each behind a space, and more bytes. `Err` is for want of memory alone, and leaves the text as it was.
fn print_between(head: &[u8], words: &[Word], end: &[u8], out: &mut Text) -> Result<(), AllocError>
    ensures ok { OnOk result (out.new ≡ out.old ++ between head.now words.now end.now) }
    ensures err { OnErr result (out.new ≡ out.old) }
{
    let before = out.len();
    let added = add_between(head, words, end, out);
    if added.is_err() {
        out.cut(before);
    }
    added
}

/// Adds a space and the word. `Err` is for want of memory alone, and leaves the text as it was.
pub fn print_word(word: Word, out: &mut Text) -> Result<(), AllocError>
    ensures ok { OnOk result (out.new ≡ out.old ++ 32 ∷ bytes_of word.entry) }
    ensures err { OnErr result (out.new ≡ out.old) }
{
    print_words(&[word], out)
}

/// Adds words, each behind a space. `Err` is for want of memory alone, and leaves the text as it was.
pub fn print_words(words: &[Word], out: &mut Text) -> Result<(), AllocError>
    ensures ok { OnOk result (out.new ≡ out.old ++ spaced (map bytes_of words.now)) }
    ensures err { OnErr result (out.new ≡ out.old) }
{
    print_between(b"", words, b"", out)
}

/// Adds the beginning of a line: its first word and more words, each behind a space. `Err` is for want of memory alone, and
/// leaves the text as it was.
pub fn begin_line(head: &[u8], words: &[Word], out: &mut Text) -> Result<(), AllocError>
    ensures ok { OnOk result (out.new ≡ out.old ++ (head.now ++ spaced (map bytes_of words.now))) }
    ensures err { OnErr result (out.new ≡ out.old) }
{
    print_between(head, words, b"", out)
}

/// Adds a line: its first word, more words, each behind a space, and LF. `Err` is for want of memory alone, and leaves the
/// text as it was.
pub fn print_line(head: &[u8], words: &[Word], out: &mut Text) -> Result<(), AllocError>
    ensures ok { OnOk result (out.new ≡ out.old ++ line head.now (map bytes_of words.now)) }
    ensures err { OnErr result (out.new ≡ out.old) }
{
    print_between(head, words, b"\n", out)
}
