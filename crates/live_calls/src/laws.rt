//! Laws of calls, over their definitions alone.

ghost use Rattle.live_calls.specs.Alike.{SchedulesRunAlike};
ghost use Rattle.live_calls.specs.Dumps.{DumpsAreOfWhatIsLeft, RefusedCommandsLeaveTheState};

/// What `run` writes of a scenario whose turns are a schedule is what a live run with this schedule writes after it.
/// The schedule has as many writes and rotations as the scenario's own turns.
pub fn schedules_run_alike()
    ensures { SchedulesRunAlike }
{}

/// If a command line asks for the servers after its command, and the report is written, out has the dump of the state
/// after all turns of the command. This is a state of a run of the scenario. If a server with a source has accepted a
/// write in it, out has nothing.
pub fn dumps_are_of_what_is_left()
    ensures { DumpsAreOfWhatIsLeft }
{}

/// If there is one orchestrator, a refused command leaves the state that the scenario's turns left. So its dump is
/// theirs.
pub fn refused_commands_leave_the_state()
    ensures { RefusedCommandsLeaveTheState }
{}
