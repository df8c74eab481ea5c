//! How the words that documents alone have are read: each gives what it stands for, or the kind of its fault.

ghost use Rattle.std.specs.Prelude.{◌≡◌};
ghost use Rattle.st_token.specs.Steps.{Gives};
ghost use Rattle.st_grammar.specs.Spelling.{wire_kind_in, is_tor_word};

use st_token::{FaultKind, LineError};
use st_wire::WireKind;

/// A kind of messages, by its word.
pub fn wire_kind_in(token: &[u8]) -> Result<WireKind, LineError>
    ensures { Gives (λ kind. kind) result (wire_kind_in token.now) }
{
    if token == b"command".as_slice() {
        Ok(WireKind::Command)
    } else if token == b"report".as_slice() {
        Ok(WireKind::Report)
    } else {
        Err(LineError::Bad(FaultKind::Value))
    }
}

/// Whether a device is a ToR, by its word.
pub fn is_tor_word(token: &[u8]) -> Result<bool, LineError>
    ensures { Gives (λ tor. tor) result (is_tor_word token.now) }
{
    if token == b"tor".as_slice() {
        Ok(true)
    } else if token == b"switch".as_slice() {
        Ok(false)
    } else {
        Err(LineError::Bad(FaultKind::Value))
    }
}
