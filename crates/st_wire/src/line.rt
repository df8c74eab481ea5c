//! The lines of a loss plan. Messages of each kind are numbered from 1 in the order in which they are sent, and the moment
//! at which message m is sent is turn m of its kind.

/// The two kinds of messages of a group.
#[derive(Clone, Copy, Debug, PartialEq, Eq)]
pub enum WireKind {
    /// What an agent is asked to set.
    Command,
    /// What an agent says of itself.
    Report,
}

/// What becomes of message `n` of a kind.
#[derive(Clone, Copy, Debug, PartialEq, Eq)]
pub enum WireLine {
    /// It is not delivered at its own turn.
    Drop { kind: WireKind, n: u32 },
    /// It is delivered once more at turn `m`, which is at least `n`.
    Repeat { kind: WireKind, n: u32, m: u32 },
    /// It is not delivered at its own turn but at turn `m`, which is above `n`.
    Hold { kind: WireKind, n: u32, m: u32 },
}
