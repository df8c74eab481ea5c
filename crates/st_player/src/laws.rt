//! Laws of the data of a page. Each function does nothing: its contract is the law, for whoever reads a page and has to say what it shows.

ghost use Rattle.std.specs.Prelude.{◌≡◌, ◌*◌, ◌≤◌, ℕ};
ghost use Rattle.st_player.specs.declared.pictures.TheConstants.{MOST_BYTES};
ghost use Rattle.st_player.specs.Laws.{AskedGaveTicket, CountsPlayBack, FailuresLeftHealth, HealthIsTold, LongestFits, NoEntryIsLost, PromisesPlayBack, RefusalsTellCuts, ReportsAreTold, SettersSet, StatesPlayBack, UnsetAreOpening};
ghost use Rattle.st_player.specs.Pictures.{room_of};

/// What the opening and the entries behind it tell is how the group stands after them: the state of each entity, the version and what
/// waits, and whether each promise holds.
pub fn pages_play_back()
    ensures states { StatesPlayBack }
    ensures counts { CountsPlayBack }
    ensures promises { PromisesPlayBack }
{}

/// What stands before the page, what it shows and what it leaves out is the whole journal.
pub fn no_entry_is_lost()
    ensures { NoEntryIsLost }
{}

/// What a page shows of a journal is the longest that takes no more bytes than the group has.
pub fn the_longest_is_shown()
    ensures { LongestFits }
{}

/// The number of `MOST_BYTES`, and that the groups together have no more.
pub fn most_bytes()
    ensures number { MOST_BYTES ≡ 4194304 }
    ensures shared { (groups : ℕ) → groups * room_of groups ≤ 4194304 }
{}

/// Where a proposal is refused since a promise would break, the links that are told as left are the up links that leave the least side, and
/// just as well those that leave the part that is shown; what they carry is what the receipt says is left.
pub fn refusals_tell_cuts()
    ensures { RefusalsTellCuts }
{}

/// The entry that is told as asked gave the ticket that is decided.
pub fn asked_gave_ticket()
    ensures { AskedGaveTicket }
{}

/// The entry that a state tells as the one since which an entity is known so made the report that is kept of it, and a health that it tells
/// is the entity's then.
pub fn reports_are_told()
    ensures made { ReportsAreTold }
    ensures health { HealthIsTold }
{}

/// Of what a page opens with: the version that is told of a variable gives it the value of the target, and a variable that no version is told of
/// has the opening's; the failure that is told of an entity left the health that it has.
pub fn causes_hold()
    ensures set { SettersSet }
    ensures unset { UnsetAreOpening }
    ensures failed { FailuresLeftHealth }
{}
