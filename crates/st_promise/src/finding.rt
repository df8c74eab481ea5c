//! What the network of what is up tells of an ask: a flow that shows that it holds, or the least cut. A book keeps the flow.

use st_flow::{Cut, Flow};

/// What was found of an ask.
#[derive(Drop)]
pub(crate) enum Finding {
    /// It holds, as this flow of so much shows.
    Sent { flow: Flow, amount: u64 },
    /// It holds: this is the least value of a cut.
    Least { value: u64 },
    /// It fails, as the least cut shows.
    Fails(Cut),
}
