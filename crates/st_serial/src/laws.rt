//! Laws of what the scripts of a document do on one thread. A function here does nothing: its contract is the law, for whoever runs a
//! document and has to say that it comes to its end, or what it leaves there.

ghost use Rattle.st_serial.specs.Most.{FewEntriesFit, JournalsAreWithinMost};
ghost use Rattle.st_serial.specs.Decided.{AllAreDecided, AwaitsDecide, LatestIsPending};

/// On one thread no journal gets more entries than the acts on its group can make at the most; so where these are below
/// 200,000 for each group no event meets a full journal.
pub fn few_entries_fit()
    ensures within { JournalsAreWithinMost }
    ensures fit { FewEntriesFit }
{}

/// Where a document's scripts meet no full journal nothing is pending in any group in the end: at most 64 proposals are, and
/// each check takes the oldest. So too an await leaves nothing of its application pending, if it meets no full journal.
pub fn all_are_decided()
    ensures all { AllAreDecided }
    ensures awaited { AwaitsDecide }
{}

/// An application's latest proposal is pending exactly where one of its proposals is: the oldest is decided first.
pub fn latest_is_pending()
    ensures { LatestIsPending }
{}
