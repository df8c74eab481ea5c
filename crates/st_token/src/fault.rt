//! What is wrong with a line, of a document or of a journal. The kinds stand in the order in which a line of a document is
//! tested, but for `header`, which comes second there.

ghost use Rattle.std.specs.Prelude.{◌≡◌};
ghost use Rattle.st_token.specs.declared.fault.LineError.TheVariants.{Memory};

use std::alloc::{AllocError, AllocFailed};

/// The kind of a line's fault: of those that apply to the line the first in the order of the tests. A reader of documents
/// gives them out as `DocKind`, and one of journals as `JournalKind`.
#[derive(Clone, Copy, Debug, PartialEq, Eq)]
pub enum FaultKind {
    /// The first line that is not skipped is not `statesman 1`, or there is none.
    Header,
    /// A byte that a line may not hold.
    Byte,
    /// The first token is no keyword, or may not stand here.
    Word,
    /// The number of tokens is wrong.
    Count,
    /// A token is not spelled as a name.
    Name,
    /// A name is not declared.
    Unknown,
    /// A name is declared already, or a variable is set already.
    Twice,
    /// A number is misspelled or out of its range.
    Number,
    /// A fixed word, the form of an assignment, its variable or its value is wrong.
    Value,
    /// A link's end is in another group.
    Cross,
    /// Both ends of a link are one device.
    Loop,
    /// A promise's end is no ToR, its ends are equal, or its pair is promised already.
    Pair,
    /// The line passes a limit.
    Limit,
}

/// The first bad line of a text, from 1, and its kind.
#[derive(Clone, Copy, Debug, PartialEq, Eq)]
pub struct LineFault {
    pub line: u32,
    pub kind: FaultKind,
}

/// Why a line was not read: for want of memory, or since it is bad.
#[derive(Clone, Copy, Debug, PartialEq, Eq)]
pub enum LineError {
    Memory,
    Bad(FaultKind),
}

impl From<AllocError> for LineError {
    ghost from_gives = { λ _ e. e ≡ Memory };

    fn from(_: AllocError) -> LineError {
        LineError::Memory
    }
}

impl<T: Drop> From<AllocFailed<T>> for LineError {
    ghost from_gives = { λ _ e. e ≡ Memory };

    fn from(_: AllocFailed<T>) -> LineError {
        LineError::Memory
    }
}
