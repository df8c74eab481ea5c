//! Laws of the definitions over journals. Each function does nothing: its contract is the law, for the proofs of the
//! crates that keep a journal or claim something of one.

ghost use Rattle.st_event.specs.Laws.{AcceptedAreDecided, AcceptedGoesOn, AcceptedMoves, AgentsMove, AllAreInRange, ChecksTakeNoPromise, FenceIsGreatest, FencesNeverFall, FewWait, HolderIsLastGrant, JournalsAreApart, KeptTells, LeastSideIsCut, LeastSideIsOne, LegalAgentsAgree, LegalJournalsKeepPromises, MoreEntitiesKeepDemands, MoreEntitiesKeepPromises, NoSuchCommand, NoSuchReport, NoWalkIsNoCut, ObservedIsGreatest, OverlaysAreListed, OverlaysGoOn, OverlaysMove, ReportsAscend, StampsAreEntries, StampsNeverFall, StandingMoves, StandingReplies, TargetOpens, TestsTellDemands, TicketsArePending, VersionsAreFew, WiresMove, WithdrawalsLeaveSure, WithdrawalsMoveOne};

/// Each legal journal of a sound group keeps the group's promises at every moment: a sure entity is up or failed
/// untold; while nothing fails of itself, a promise that held at the start holds in the sure set, in the network, and
/// in every larger set; and a loss comes by a report of an entity that failed. A check takes no demand from the sure set.
pub fn keeps_promises()
    ensures throughout { LegalJournalsKeepPromises }
    ensures checks { ChecksTakeNoPromise }
{}

/// In a legal journal the commands, the reports and the agents agree at every moment with the target at their stamps.
pub fn agents_agree()
    ensures { LegalAgentsAgree }
{}

/// No entry lets an agent's fence fall.
pub fn fences_never_fall()
    ensures { FencesNeverFall }
{}

/// No entry lets an entity's stamp fall, and a stamp is never the number of an entry to come.
pub fn stamps_never_fall()
    ensures grow { StampsNeverFall }
    ensures behind { StampsAreEntries }
{}

/// A target is its opening overlaid by what each entry overlays it with, in order; in a legal journal these are the rows of
/// the accepted proposals and of the withdrawals.
pub fn target_is_merge()
    ensures opens { TargetOpens }
    ensures overlaid { OverlaysMove }
    ensures listed { AcceptedMoves }
    ensures mixed { OverlaysAreListed }
{}

/// What a journal overlaid its target with, each journal that goes on from it has first; and what it accepted, each legal one.
pub fn accepted_begun()
    ensures overlaid { OverlaysGoOn }
    ensures accepted { AcceptedGoesOn }
{}

/// A withdrawal gives its entity what was observed of it as its target, under a new stamp, and leaves all others; it leaves the sure
/// set. It is made except where the observed values are the target's or what the entity is to become can be set.
pub fn withdrawals_go_back()
    ensures moves { WithdrawalsMoveOne }
    ensures sure { WithdrawalsLeaveSure }
    ensures kept { KeptTells }
{}

/// There are no more versions than entries, and no more proposals were accepted than decided.
pub fn versions_are_few()
    ensures entries { VersionsAreFew }
    ensures accepted { AcceptedAreDecided }
{}

/// In a legal journal of a sound group what entries overlay fits the group, and all values are in range: of targets, of commands, of
/// agents and what they have in work, of reports, and what is observed.
pub fn all_in_range()
    ensures { AllAreInRange }
{}

/// In a legal journal at most 64 proposals wait.
pub fn few_wait()
    ensures { FewWait }
{}

/// In a legal journal a ticket that was given is pending exactly where fewer tickets than its number were decided.
pub fn undecided_are_pending()
    ensures { TicketsArePending }
{}

/// One entry moves what the checker keeps, and the network, by one step; and from these two the next reply is given.
pub fn standing_moves()
    ensures checker { StandingMoves }
    ensures network { WiresMove }
    ensures replies { StandingReplies }
{}

/// One entry moves each agent by one step.
pub fn agents_move()
    ensures { AgentsMove }
{}

/// What is observed of an entity is the report of it with the greatest number among those that were heard, or the opening's where none
/// was; and of two reports of one entity the one that was made later has the greater number.
pub fn observed_is_greatest()
    ensures greatest { ObservedIsGreatest }
    ensures numbered { ReportsAscend }
{}

/// A fence is the greatest stamp of the commands that were delivered to its entity, or 0 where none was.
pub fn fence_is_greatest()
    ensures { FenceIsGreatest }
{}

/// Who holds a lock is the application that it was granted to last, unless its own release follows; else nobody.
pub fn holder_is_last_grant()
    ensures { HolderIsLastGrant }
{}

/// In a service of several groups each group's journal comes of its own events, whatever the other groups are and are asked.
pub fn journals_are_apart()
    ensures { JournalsAreApart }
{}

/// A promise, and each demand, that holds goes on to hold with more entities up; and the test that the judge makes says that
/// the demand holds.
pub fn more_entities_keep_promises()
    ensures more { MoreEntitiesKeepPromises }
    ensures demands { MoreEntitiesKeepDemands }
    ensures test { TestsTellDemands }
{}

/// Of two devices there is one cut of least value that all cuts of that value contain: it has the devices that each of
/// these has. And no walk joins the two exactly where that value is 0.
pub fn least_side_is_one()
    ensures cut { LeastSideIsCut }
    ensures one { LeastSideIsOne }
    ensures cut_off { NoWalkIsNoCut }
{}

/// A number names no message where it is 0 or above how many were made; just then its event is answered NoSuch.
pub fn no_such_message()
    ensures command { NoSuchCommand }
    ensures report { NoSuchReport }
{}
