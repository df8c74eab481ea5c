//! Laws of scripts that threads have done on a service, and of the journals that the service keeps. A function here does nothing: its
//! contract is the law.

ghost use Rattle.st_run.specs.CarriedLaws.{AllAreCarriedOut, EachIsCarriedOut, ScriptsAreLogged};
ghost use Rattle.st_run.specs.Isolation.{EventsTellJournals};
ghost use Rattle.st_run.specs.ShareLaws.{SharesAreCounted};

/// The scripts were carried out on a service that was closed, where the pass of each application was fresh, then did the commands of the
/// application's script, and then an await on each group, and where the other passes made only what a worker makes. Carried out means that
/// each log has what the application's script reads, and that on each group each script, and all scripts together, were carried out.
pub fn scripts_are_carried_out()
    ensures logs { ScriptsAreLogged }
    ensures apps { EachIsCarriedOut }
    ensures groups { AllAreCarriedOut }
{}

/// Legal journals of one group with the same events have the same replies, whatever services kept the journals, and whatever other groups the
/// services had.
pub fn journals_are_told_by_events()
    ensures { EventsTellJournals }
{}

/// A command of a script, with what workers enter for the command, enters no more on a service than the command's share of the most entries
/// that scripts can make.
pub fn shares_are_counted()
    ensures { SharesAreCounted }
{}
