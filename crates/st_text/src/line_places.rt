//! Where the lines of a text stand. The bytes come from a file or a caller as they are, and readers take each line by its
//! place, so that nothing is copied.

ghost use Rattle.std.specs.Prelude.{◌≡◌, ◌<◌, ◌≤◌, length, IfOk, IfNone, IfSome, OnSome};
ghost use Rattle.st_text.specs.Lines.{is_line_feed, CutsLine, AreLinesOf};

use std::alloc::{AllocError, Global};

/// The place of a line in its text, `bytes[start..end]`: without its LF, and without a CR before that or at the text's end.
#[derive(Clone, Copy, Debug, PartialEq, Eq)]
pub struct Line {
    /// The index of its first byte.
    pub start: usize,
    /// The index behind its last byte, at least `start` and at most the text's length.
    pub end: usize,
}

/// Whether the byte ends a line.
fn is_line_feed(byte: u8) -> bool
    ensures { result ≡ is_line_feed byte }
{
    byte == b'\n'
}

/// The line that begins at `start` and is cut at `end`, where an LF or the text's end is: one CR at its end is dropped.
fn line_between(bytes: &[u8], start: usize, end: usize) -> Line
    requires order { start ≤ end }
    requires within { end ≤ length bytes.now }
    ensures { CutsLine bytes.now start end result }
{
    if start < end && bytes[end - 1] == b'\r' {
        return Line {
            start,
            end: end - 1,
        };
    }
    Line { start, end }
}

/// The rest that begins at `start`, behind the last LF, where it has a byte.
fn rest_from(bytes: &[u8], start: usize) -> Option<Line>
    ensures none { IfNone result (length bytes.now ≤ start) }
    ensures some { OnSome result (start < length bytes.now) }
    ensures line { IfSome result (CutsLine bytes.now start (length bytes.now)) }
{
    if start < bytes.len() {
        return Some(line_between(bytes, start, bytes.len()));
    }
    None
}

/// The lines of a text, in order. The bytes are cut after each LF (10), a rest that is not empty is a line too, and one CR
/// (13) at a line's end is dropped. Takes time in the bytes, copies none of them, and its memory is the list's. `Err` is
/// for want of memory alone.
pub fn lines(alloc: Global, bytes: &[u8]) -> Result<Vec<Line>, AllocError>
    ensures { IfOk result (λ lines. AreLinesOf bytes.now lines.items) }
{
    let mut lines = Vec::new(alloc);
    let mut start = 0;
    for (at, byte) in bytes.iter().enumerate() {
        if is_line_feed(*byte) {
            lines.push(line_between(bytes, start, at))?;
            start = at + 1;
        }
    }
    if let Some(rest) = rest_from(bytes, start) {
        lines.push(rest)?;
    }
    Ok(lines)
}
