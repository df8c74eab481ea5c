//! What a change of what is up does to an ask, found by a book or by the networks of what is up.

use st_net::Broken;

/// What a change does to an ask.
#[derive(Drop)]
pub(crate) enum Change {
    /// The ask holds after it.
    Holds,
    /// The ask failed before it, and fails after it.
    Failed,
    /// The ask held before it, and is broken so after it.
    Breaks(Broken),
}
