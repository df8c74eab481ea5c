//! Where the tokens of a line stand. The line is one that `lines` cut, and readers take each token by its place, so that
//! nothing is copied.

ghost use Rattle.std.specs.Prelude.{◌≡◌, IfOk};
ghost use Rattle.st_text.specs.Tokens.{is_blank, AreTokensOf};

use std::alloc::{AllocError, Global};

/// The place of a token in its line, `line[start..end]`.
#[derive(Clone, Copy, Debug, PartialEq, Eq)]
pub struct Token {
    /// The index of its first byte.
    pub start: usize,
    /// The index behind its last byte, above `start` and at most the line's length.
    pub end: usize,
}

/// Whether the byte parts tokens: a space or a tab.
fn is_blank(byte: u8) -> bool
    ensures { result ≡ is_blank byte }
{
    byte == b' ' || byte == b'\t'
}

/// The tokens of a line, in order: the longest runs of bytes other than space and tab. Takes time in the bytes, copies none
/// of them, and its memory is the list's. `Err` is for want of memory alone.
pub fn tokens(alloc: Global, line: &[u8]) -> Result<Vec<Token>, AllocError>
    ensures { IfOk result (λ tokens. AreTokensOf line.now tokens.items) }
{
    let mut tokens = Vec::new(alloc);
    let mut start = 0;
    for (at, byte) in line.iter().enumerate() {
        if is_blank(*byte) {
            if start < at {
                tokens.push(Token { start, end: at })?;
            }
            start = at + 1;
        }
    }
    if start < line.len() {
        tokens.push(Token {
            start,
            end: line.len(),
        })?;
    }
    Ok(tokens)
}
