//! Laws of the grammar of words. Each function does nothing: its contract is the law, for readers of the grammar and for
//! proofs above it.

ghost use Rattle.st_words.specs.Laws.{AsksForEachJob, AsksInAnyOrder, ReadsSpellings, ReadsSpellingsAlone};

/// The parts that the grammar finds in words are those that the words spell by its rules, written as rules: what words spell is
/// read, and nothing else is.
pub fn reads_spellings()
    ensures spelled { ReadsSpellings }
    ensures alone { ReadsSpellingsAlone }
{}

/// It does not matter in which order options and further words stand: two neighbours can change places.
pub fn asks_in_any_order()
    ensures { AsksInAnyOrder }
{}

/// Each job is asked for by some words: its command, and each option that goes with it, as one word.
pub fn asks_for_each_job()
    ensures { AsksForEachJob }
{}
