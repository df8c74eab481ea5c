//! What follows of the rows that lead back. The crates above cite it.

ghost use Rattle.st_revert.specs.Laws.{AsksBack, BackFits, IsOfJournal, LeadsAllBack, LeadsBack};

/// The target behind a journal, overlaid by the rows that lead back to a version, has the values of that version: in each variable of the
/// group, and where all that was overlaid fits the group in all. A checker that stands as the journal leaves its group gives these rows and
/// their answer. Where all that was overlaid fits, 1 to 16 of them are a proposal's; and so are the rows that an answer asks.
pub fn back_leads_back()
    ensures leads_back { LeadsBack }
    ensures leads_all_back { LeadsAllBack }
    ensures of_journal { IsOfJournal }
    ensures fits { BackFits }
    ensures asks { AsksBack }
{}
