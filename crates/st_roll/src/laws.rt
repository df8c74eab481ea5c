//! What follows of refusals, and of plans. The crates above cite it.

ghost use Rattle.st_roll.specs.Kept.{AcceptedOfAll, PlansAreRolls, TellsVerdicts};

/// Where rows are refused for a cause, the verdict on them as the control stands is that refusal; where they are refused for none, they are
/// accepted as the next version. So a batch that is proposed while nothing waits is accepted, if it is decided before anything else happens.
pub fn refusals_are_verdicts()
    ensures { TellsVerdicts }
{}

/// What `plan_roll` says of the plan that it makes is so of the plan for each sound group, however this stands: also where no checker keeps how
/// it stands, but a journal leads there.
pub fn plans_are_rolls()
    ensures { PlansAreRolls }
{}

/// Rows that would be accepted of an application that holds no lock would be accepted of every application. So may be proposed the batches of
/// a plan for such a one, whoever proposes them.
pub fn accepted_of_all()
    ensures { AcceptedOfAll }
{}
