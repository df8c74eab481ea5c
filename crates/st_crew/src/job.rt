//! What a thread does, and what it promises of its end.

use crate::gate::Gate;
use std::sync::Wait;
use std::thread::Threads;

/// Work for one thread. A job may borrow what it shares with others, as a service behind its locks, and owns what is its own.
pub trait Job: Send + Drop {
    ghost use Rattle.std.specs.Prelude.{⊤};
    ghost use Rattle.std.specs.Thread.{IsSync};

    /// What is left of the job once its work is done.
    type End: Send + Drop;

    /// Which jobs may be worked.
    ghost can_work: { Self → Type 0 } = { λ _. ⊤ };

    /// Which ends a job may come to.
    ghost promises: { Self → Self.End → Type 0 };

    /// Does the work, and calls the gate at its points. It may wait, and start threads of its own.
    fn work<R: Threads + Wait + Sync, G: Gate>(self, rt: &R, gate: &G) -> Self::End
        requires sync { IsSync R.row }
        requires can { can_work self }
        ensures { promises self result };
}
