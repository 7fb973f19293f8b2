//! Laws of runs with jobs.

ghost use Rattle.run_laws.specs.Failures.{PlansAreDone, PlansFailForWhatBefell};
ghost use Rattle.run_laws.specs.Jobs.{JobsHaveLeases, JobsLeaveFewerTurns, JobsLeaveOthers, LeasesNameJobs};
ghost use Rattle.run_laws.specs.Marks.{FoundMatchesEnd, MatchesEnd};
ghost use Rattle.run_laws.specs.Runs.{AtEveryTurn, InEveryQuietState, InEveryState};
ghost use Rattle.run_laws.specs.States.{HeldState, SoundState};
ghost use Rattle.run_laws.specs.SingleTurns.{IsItsPassages, TurnMayPass};

/// In every run each turn is its `Passage`s, and each of them may happen. They are an exchange that is no job's, a
/// poll, a reading that is stored or passed over, and a discovery. Then an instance that is forgotten, a restart, a job
/// that begins, and a job's turn. The rows that the row store hands back make no difference to them.
pub fn turns_are_passages()
    ensures passages { AtEveryTurn IsItsPassages }
    ensures may { AtEveryTurn TurnMayPass }
{}

/// Each state of each run has `Held`, with errant writes or without. The servers have `Placed`, and both ends of each
/// kept bridge have places in the logs of servers that log. What was read is true for good. Each job finds what its
/// operations use, and each server that it may still change is leased to it. So it is for what a recovery goes by
/// later, and for each server that it may change later.
pub fn every_state_is_held()
    ensures { InEveryState HeldState }
{}

/// Each state of each run without errant writes has `Sound`, with its jobs. It is `Safe`. Each bridge is right that is
/// kept, that a slot's reading has, that a job saw or by which a recovery goes later. If the log of a server matches
/// another's, the coordinate's place in the other's log is all that the server has executed. That is a prefix of what
/// the other has. So it is for each match that a job found, as long as the server is at the position at which it was
/// matched.
pub fn every_quiet_state_is_sound()
    ensures sound { InEveryQuietState SoundState }
    ensures matched { InEveryQuietState MatchesEnd }
    ensures found { InEveryQuietState FoundMatchesEnd }
{}

/// In each state of each run a lease names a job that isn't ended. Each job has the leases of the servers that it may
/// still change, and its turn leaves every other server as it is. A plan's job that answers a failure does so because
/// its cause happened in that very turn. One to which nothing happens is done.
pub fn jobs_keep_to_their_leases()
    ensures named { InEveryState LeasesNameJobs }
    ensures leased { InEveryState JobsHaveLeases }
    ensures others { InEveryState JobsLeaveOthers }
    ensures fails { InEveryState PlansFailForWhatBefell }
    ensures done { InEveryState PlansAreDone }
{}

/// In each state of each run a job that goes on after its turn has fewer turns left: so rounds of its turns end it.
pub fn jobs_leave_fewer_turns()
    ensures { InEveryState JobsLeaveFewerTurns }
{}
