//! What a call hands back: how it ended, the journals that the groups kept, and the logs of the applications.

ghost use Rattle.std.specs.Prelude.{◌≡◌, []};

use st_event::{Journal, Log};
use st_net::Items;
use st_replay::Status;
use std::alloc::Global;

/// How a call ended, the journals that the groups of the document kept, in order, and the logs of its applications, in order: what their
/// commands saw. Both are empty where the status came before a run began, or of a command that runs nothing, and may be empty where memory
/// was refused.
#[derive(Drop)]
pub struct Outcome {
    pub status: Status,
    pub journals: Items<Journal>,
    pub logs: Items<Log>,
}

impl Outcome {
    /// The outcome where memory was refused before anything was written.
    pub fn out_of_memory(alloc: Global) -> Outcome
        ensures status { result.status ≡ Status.OutOfMemory }
        ensures journals { result.journals ≡ [] }
        ensures logs { result.logs ≡ [] }
    {
        Outcome {
            status: Status::OutOfMemory,
            journals: Items::none(alloc),
            logs: Items::none(alloc),
        }
    }
}
