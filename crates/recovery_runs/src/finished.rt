//! Laws of the turns of recoveries in states of runs.

ghost use Rattle.recovery_runs.specs.Finished.{EarlyStayStill, FailedTellHooks, FinishedEndEntries, FinishedKeepAims, FinishedKeepEntries, FinishedKeepHistories, FinishedOweNothing, FinishedTellHooks, FinishedTellLines, FinishedTellOwn, LastFactsAreTrue, FactsAreTrue, OpeningsAreExplained, TurnsStayExplained};

/// The turn in which a recovery is done answers its lines, its own and after them those of its hooks. It leaves nothing
/// owed to its replicas. If the servers are `Safe` afterwards, histories are kept, too. What the recovery is about is
/// what it began with.
pub fn finished_recoveries_owe_nothing()
    ensures reply { FinishedTellLines }
    ensures own { FinishedTellOwn }
    ensures owes { FinishedOweNothing }
    ensures histories { FinishedKeepHistories }
    ensures aim { FinishedKeepAims }
{}

/// The entry of such a recovery ends with the server that it promoted, at the moment of the turn, and is kept so.
pub fn finished_recoveries_end_their_entries()
    ensures audit { FinishedEndEntries }
    ensures kept { FinishedKeepEntries }
{}

/// If hooks are in order a recovery that is done has the lines of all that run then, before it and after it. One that
/// fails has those of all that run then. It has none before it if its failed server was reached, which is why it fails.
/// Else it has those up to the first with another exit than 0. Until all before it have run that are to, its turns
/// change no server.
pub fn recoveries_tell_all_hooks()
    ensures done { FinishedTellHooks }
    ensures failed { FailedTellHooks }
    ensures still { EarlyStayStill }
{}

/// The facts of each turn of a recovery, whether it goes on, is done or fails. The reasons of its lost, what it
/// drained, whom it chose and promoted were so before, or are true of the servers and the book of that turn. So each
/// was true in some turn, from the recovery's start to its last turn. If each fact that is true in a turn of its number
/// counts, all of them count.
pub fn facts_are_true()
    ensures turn { FactsAreTrue }
    ensures opening { OpeningsAreExplained }
    ensures stay { TurnsStayExplained }
    ensures last { LastFactsAreTrue }
{}
