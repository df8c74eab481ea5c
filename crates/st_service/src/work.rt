//! What a pass enters under one hold of a room's lock. The calls of a service make a work of each hold that enters anything, and the room
//! does the work.

ghost use Rattle.std.specs.Prelude.{◌≡◌};
ghost use Rattle.st_service.specs.Works.{may_decide as may_decide_lem};

use st_control::Judged;
use st_event::Act;
use st_net::Entity;

/// An entity's whole turn, or a half of it.
#[derive(Clone, Copy, Debug, PartialEq, Eq)]
pub enum Part {
    Whole,
    Update,
    Monitor,
}

/// What is entered under one hold.
#[derive(Clone, Copy)]
pub enum Work<'a> {
    /// An act of an application that is made under one hold: a proposal, a lock asked for or given back, a failure, or a poll.
    OneAct(&'a Act),
    /// The check of a proposal that was judged off the lock, unless it is decided.
    Commit(&'a Judged),
    /// An entity's turn, or a half of it.
    Turn(Part, Entity),
}

impl Work<'_> {
    /// Whether the work may decide a proposal, by a check that is its first entry.
    pub fn may_decide(self) -> bool
        ensures { result ≡ may_decide_lem self.entry }
    {
        match self {
            Work::OneAct(Act::Propose { .. }) | Work::Commit(_) => true,
            Work::OneAct(_) | Work::Turn(..) => false,
        }
    }
}
