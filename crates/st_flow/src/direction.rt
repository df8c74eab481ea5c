//! The direction in which a search follows a flow. A search against a flow is a search along the flow whose amounts are
//! all turned round, so that both have the same rules.

/// Whether a search goes along the flow, from where it starts, or against it, from where it ends.
#[derive(Clone, Copy, Debug, PartialEq, Eq)]
pub(crate) enum Direction {
    Along,
    Against,
}
