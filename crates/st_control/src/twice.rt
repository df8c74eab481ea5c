//! An answer, twice.

/// An answer to hand out, and an equal one to enter in a journal. Both are made before the event is done, since a copy can be refused
/// memory.
#[derive(Drop)]
pub struct Twice<T> {
    pub told: T,
    pub kept: T,
}
