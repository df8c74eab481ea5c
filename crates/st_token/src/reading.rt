//! The loop over the lines of a text, for readers of documents and of journals: each line is taken over what those before it
//! declared, and the first bad one ends the reading.

ghost use Rattle.std.specs.Prelude.{◌≡◌, ℕ, ◌+◌, ◌<◌, ◌^◌, List, Result, All, IfOk, length, map};
ghost use Rattle.st_text.specs.Lines.{line_in, IsLineWithin};
ghost use Rattle.st_token.specs.declared.fault.FaultKind.{FaultKind};
ghost use Rattle.st_token.specs.Steps.{Gives};
ghost use Rattle.st_token.specs.Reading.{read_on, Ends, Tells};

use crate::fault::{LineError, LineFault};
use st_text::Line;
use std::alloc::AllocError;

/// What the lines of a text declare is gathered here, line by line.
pub trait TakesLines {
    // What a line makes of what was declared before it, or the first kind that applies to it.
    ghost line_of: { Self → List ℕ → Result Self FaultKind };

    /// Takes a line, given without its end.
    fn line(&mut self, line: &[u8]) -> Result<(), LineError>
        ensures { Gives (λ _. self.new) result (line_of self.old line.now) };
}

/// Takes the lines at these places, one after another, up to the first bad one, which is the result. Lines are numbered from
/// `first`. `Err` is for want of memory alone.
pub fn take_lines<R: TakesLines>(
    reader: &mut R,
    first: u32,
    bytes: &[u8],
    places: &[Line],
) -> Result<Option<LineFault>, AllocError>
    requires within { All (IsLineWithin bytes.now) places.now }
    requires few { first + length places.now < 2 ^ 32 }
    ensures exact { IfOk result (λ fault. Ends fault reader.new (read_on R.line_of reader.old first (map (line_in bytes.now) places.now))) }
    // The lines before the first bad one are good, one after another.
    ensures tells { IfOk result (λ fault. Tells R.line_of reader.old first (map (line_in bytes.now) places.now) fault reader.new) }
{
    take_each(reader, first, bytes, places)
}

/// Takes the lines, as `take_lines` does.
fn take_each<R: TakesLines>(
    reader: &mut R,
    first: u32,
    bytes: &[u8],
    places: &[Line],
) -> Result<Option<LineFault>, AllocError>
    requires within { All (IsLineWithin bytes.now) places.now }
    requires few { first + length places.now < 2 ^ 32 }
    ensures { IfOk result (λ fault. Ends fault reader.new (read_on R.line_of reader.old first (map (line_in bytes.now) places.now))) }
{
    for (n, place) in places.iter().enumerate() {
        match reader.line(&bytes[place.start..place.end]) {
            Ok(()) => {}
            Err(LineError::Memory) => return Err(AllocError),
            Err(LineError::Bad(kind)) => {
                return Ok(Some(LineFault {
                    line: first + n as u32,
                    kind,
                }));
            }
        }
    }
    Ok(None)
}
