//! Lines, tokens, bytes and numbers of texts that are read, and texts that are printed word by word, worked by hand.

use crate::outcome::holds;
use st_text::{
    Line, Text, Token, Word, begin_line, has_allowed_bytes, lines, number, print_line, tokens,
};
use std::alloc::{AllocError, Global};
use std::test::Fail;

/// Tokens, and the number of each, if it has one.
const NUMBERS: [(&[u8], Option<u32>); 10] = [
    (b"0", Some(0)),
    (b"1024", Some(1024)),
    (b"4294967295", Some(4294967295)),
    (b"4294967296", None),
    (b"10000000000", None),
    (b"", None),
    (b"00", None),
    (b"07", None),
    (b"+7", None),
    (b"7a", None),
];

#[test]
fn a_number_has_one_spelling_and_fits_32_bits(_rt: HostRuntime) -> Result<(), Fail> {
    for (token, want) in NUMBERS {
        holds(Ok(number(token) == want))?;
    }
    Ok(())
}

/// Lines, and whether each has allowed bytes alone.
const ALLOWED: [(&[u8], bool); 6] = [
    (b"", true),
    (b" device\ttor1 ~", true),
    (b"a\rb", false),
    (b"a\x1f", false),
    (b"\x7fa", false),
    (b"caf\xc3\xa9", false),
];

#[test]
fn a_line_holds_printable_ascii_and_tab_alone(_rt: HostRuntime) -> Result<(), Fail> {
    for (line, want) in ALLOWED {
        holds(Ok(has_allowed_bytes(line) == want))?;
    }
    Ok(())
}

/// Adds a piece of a text in angle brackets.
fn add_piece(shown: &mut Vec<u8>, text: &[u8], start: usize, end: usize) -> Result<(), AllocError> {
    shown.push(b'<')?;
    shown.extend_from_slice(text.get(start..end).unwrap_or(b"no place within"))?;
    shown.push(b'>')?;
    Ok(())
}

/// The lines of a text, each in angle brackets.
fn lines_shown(alloc: Global, text: &[u8], lines: &[Line]) -> Result<Vec<u8>, AllocError> {
    let mut shown = Vec::new(alloc);
    for line in lines {
        add_piece(&mut shown, text, line.start, line.end)?;
    }
    Ok(shown)
}

/// Whether these are the lines of a text.
fn has_lines(alloc: Global, text: &[u8], want: &[u8]) -> Result<bool, AllocError> {
    let lines = lines(alloc, text)?;
    let shown = lines_shown(alloc, text, lines.as_slice());
    drop(lines);
    Ok(shown?.as_slice() == want)
}

/// Texts, and the lines of each.
const LINES: [(&[u8], &[u8]); 7] = [
    (b"", b""),
    (b"\n", b"<>"),
    (b"a\r\n\nb", b"<a><><b>"),
    (b"a\rb\n", b"<a\rb>"),
    (b"a\r\r\n", b"<a\r>"),
    (b"a\nb\r", b"<a><b>"),
    (b"\r", b"<>"),
];

#[test]
fn a_text_is_cut_at_each_lf(rt: HostRuntime) -> Result<(), Fail> {
    for (text, want) in LINES {
        holds(has_lines(rt.alloc(), text, want))?;
    }
    Ok(())
}

/// The tokens of a line, each in angle brackets.
fn tokens_shown(alloc: Global, line: &[u8], tokens: &[Token]) -> Result<Vec<u8>, AllocError> {
    let mut shown = Vec::new(alloc);
    for token in tokens {
        add_piece(&mut shown, line, token.start, token.end)?;
    }
    Ok(shown)
}

/// Whether these are the tokens of a line.
fn has_tokens(alloc: Global, line: &[u8], want: &[u8]) -> Result<bool, AllocError> {
    let tokens = tokens(alloc, line)?;
    let shown = tokens_shown(alloc, line, tokens.as_slice());
    drop(tokens);
    Ok(shown?.as_slice() == want)
}

/// Lines, and the tokens of each.
const TOKENS: [(&[u8], &[u8]); 5] = [
    (b"", b""),
    (b" \t ", b""),
    (b"group dc1", b"<group><dc1>"),
    (b"\t link\tl1  a1/b ", b"<link><l1><a1/b>"),
    (b"#x y", b"<#x><y>"),
];

#[test]
fn a_line_is_cut_at_spaces_and_tabs(rt: HostRuntime) -> Result<(), Fail> {
    for (line, want) in TOKENS {
        holds(has_tokens(rt.alloc(), line, want))?;
    }
    Ok(())
}

/// Prints a line of each kind of word, and the beginning of another.
fn print_words(text: &mut Text) -> Result<(), AllocError> {
    let (name, var) = (b"a1".as_slice(), b"config".as_slice());
    let words = [
        Word::Plain(b"dc1"),
        Word::Number(18446744073709551615),
        Word::Variable { name, var },
        Word::Assignment {
            name,
            var,
            value: 4294967295,
        },
        Word::Value { var, value: 0 },
    ];
    print_line(b"seen", &words, text)?;
    begin_line(b"end", &[], text)
}

/// Whether what was printed is this.
fn is(text: Text, printed: Result<(), AllocError>, want: &[u8]) -> Result<bool, AllocError> {
    let is = text.bytes() == want;
    drop(text);
    printed?;
    Ok(is)
}

#[test]
fn words_of_each_kind_stand_in_a_line(rt: HostRuntime) -> Result<(), Fail> {
    let mut text = Text::new(rt.alloc());
    let printed = print_words(&mut text);
    let line = b"seen dc1 18446744073709551615 a1.config a1.config=4294967295 config=0\nend";
    holds(is(text, printed, line))
}

/// Adds words and numbers, one behind the other.
fn add_words(text: &mut Text) -> Result<(), AllocError> {
    text.word(b"settled")?;
    text.word(b" ")?;
    text.num(0)?;
    text.word(b" ")?;
    text.num(18446744073709551615)?;
    text.word(b"\n")
}

#[test]
fn words_and_numbers_stand_in_order(rt: HostRuntime) -> Result<(), Fail> {
    let mut text = Text::new(rt.alloc());
    let added = add_words(&mut text);
    holds(is(text, added, b"settled 0 18446744073709551615\n"))
}
