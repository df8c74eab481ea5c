//! Laws of the definitions over worlds, for whoever drives a world. A function here does nothing: the law is its contract.

ghost use Rattle.st_world.specs.Commits.{TicketsStay, BasesMayCommit};

/// The ticket of a basis may be committed from then on: no entry takes a ticket back, or a decision.
pub fn tickets_stay()
    ensures stay { TicketsStay }
    ensures bases { BasesMayCommit }
{}
