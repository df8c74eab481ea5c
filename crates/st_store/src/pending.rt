//! The proposals that wait for their verdicts.

use st_event::Rows;
use st_net::AppId;

/// A proposal that waits, with its ticket.
#[derive(Drop)]
pub struct Pending {
    /// Its number among the proposals of its group, from 1.
    pub ticket: u32,
    pub app: AppId,
    pub rows: Rows,
}

/// The answer to a proposal.
#[derive(Clone, Copy, Debug, PartialEq, Eq)]
pub enum Put {
    /// It waits under this ticket.
    Ticket(u32),
    /// So many wait that it was dropped.
    Full { pending: u32 },
}
