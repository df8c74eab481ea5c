//! Laws on what comes of a replay. Each function does nothing: its contract is the law, for whoever relies on the answer.

ghost use Rattle.st_journal.specs.Replaying.{WrongIsIllegal, FirstWrongIsOne};

/// A journal with a first wrong entry is not legal, so `replay` answers Legal exactly where the journal is; and there is one such entry.
pub fn replay_is_exact()
    ensures illegal { WrongIsIllegal }
    ensures one { FirstWrongIsOne }
{}
