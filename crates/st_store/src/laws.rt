//! What follows for a store from the contracts of its calls, whatever calls there are. The crates above cite it.

ghost use Rattle.st_store.specs.Laws.{DecisionsMakeOne, VersionsAreMerges, WithdrawalsMakeOne};

/// After any list of accepted proposals and withdrawals, whatever calls stand between, the value of a variable at version v is that of the
/// merge of the first v of them, and in the target that of the merge of all.
pub fn versions_are_merges()
    ensures { VersionsAreMerges }
{}

/// A decision makes at most one version, and a withdrawal one: so where there were no more versions than so many entries, there are no
/// more with one entry more.
pub fn versions_are_few()
    ensures decision { DecisionsMakeOne }
    ensures withdrawal { WithdrawalsMakeOne }
{}
