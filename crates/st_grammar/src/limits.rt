//! The limits of a document beside those of a group's parts.

ghost use Rattle.std.specs.Prelude.{◌≡◌};

/// The highest version of a document.
pub const MAX_VERSION: u32 = 1;

/// The most groups of a document.
pub const MAX_GROUPS: usize = 16;

/// The most applications of a document.
pub const MAX_APPS: usize = 32;

/// The most acts of one application.
pub const MAX_ACTS: usize = 1_024;

/// The most rounds of one `settle`.
pub const MAX_ROUNDS: u32 = 64;

/// The most wire lines of one group.
pub const MAX_WIRE_LINES: usize = 1_024;

/// The numbers of these limits, as laws: it does nothing.
pub fn document_limits()
    ensures version { MAX_VERSION ≡ 1 }
    ensures groups { MAX_GROUPS ≡ 16 }
    ensures apps { MAX_APPS ≡ 32 }
    ensures acts { MAX_ACTS ≡ 1024 }
    ensures rounds { MAX_ROUNDS ≡ 64 }
    ensures wires { MAX_WIRE_LINES ≡ 1024 }
{}
