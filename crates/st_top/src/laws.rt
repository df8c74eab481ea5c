//! Laws of the documents of fat trees, and of a run that is printed. A function here does nothing: its contract is the law, for
//! whoever runs a document and has to say that it comes to its end, or keeps what was printed and replays it later.

ghost use Rattle.st_top.specs.PrintedRuns.{PrintedRunsAreReplayed, RunsByThreadsAreReplayed, SerialRunsAreReplayed};
ghost use Rattle.st_top.specs.Promised.{PromisesHoldWithoutFailures};
ghost use Rattle.st_top.specs.Trees.{TreesFit, TreesHaveRoom};

/// The documents of fat trees have so few commands that no event meets a full journal.
pub fn trees_fit()
    ensures room { TreesHaveRoom }
    ensures trees { TreesFit }
{}

/// The text that is printed of a sound document and of a legal journal of each of its groups, asked by its applications and with message
/// numbers of 32 bits, is read as that document and these journals, if it is no longer than an input may be. No entry is refused, and
/// what a replay writes is the document and the journals in its form, without what was read.
pub fn printed_runs_are_replayed()
    ensures { PrintedRunsAreReplayed }
{}

/// What `serial` hands back of a sound document, whether or not it met a full journal, is such a run: its text is read as the document
/// and these journals, and replayed.
pub fn serial_runs_are_replayed()
    ensures { SerialRunsAreReplayed }
{}

/// What threads made of a sound document, whether or not they met a full journal, is such a run: its text is read as the document and
/// these journals, and replayed.
pub fn runs_by_threads_are_replayed()
    ensures { RunsByThreadsAreReplayed }
{}

/// What was promised of a network whose entities never fail of themselves: a document's scripts are run, on one thread, whatever is done
/// behind them, or by threads, the call ends with `Ok`, and there is no `fail` in a group's journal. Then every promise of the group that
/// held at the opening holds in the network at each of the journal's moments. It follows from clause `ends` of `statesman`, whose cases for
/// the tasks that make a run, as `serial` and `revert`, and for `run` are its premises.
pub fn promises_hold_without_failures()
    ensures { PromisesHoldWithoutFailures }
{}
