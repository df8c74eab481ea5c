//! What is printed of journals is read back. The function does nothing: its contract is the law.

ghost use Rattle.st_journal.specs.ReadingBack.{EachPrintsBack, JournalPrintsBack, JournalsPrintBack};

/// Legal journals that are printed in the order of their groups are read as these journals; a group whose journal is not printed has the
/// empty one. So a journal that is printed alone is read back, and so is one of each group. The topologies have different names, and so
/// have the applications; these ask in the journals, and message numbers have 32 bits.
pub fn prints_back()
    ensures in_order { JournalsPrintBack }
    ensures one { JournalPrintsBack }
    ensures each { EachPrintsBack }
{}
