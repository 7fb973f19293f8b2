//! Laws of what commands and scans answer and begin.

ghost use Rattle.run_laws.specs.Answering.{BegunAreTheCommands, BegunHaveNextNumber, CommandsAnswerByTable, EntersAudit, HasNextNumber, IsLastJob, IsReplied, JoinsJobs, KeepsEntry, LowestRefuse, RefusedChangeNothing, ScannedAreLastJobs, ScannedJoinJobs, ScannedKeepEntries, ScannedTakeLeases, ScansBeginUnasked, ScansTellEachTry, ScansTryByTable, SpendsWaits, TakesLeases, WhereBegun};

/// A command turn is refused exactly with the refusal of the permission table. That is what one of its checks refuses
/// and none with a lower number. Otherwise it begins its job or is done. A refused one changes nothing: no kept row,
/// and nothing of the state, such as a server, a ring, a lease, a job or a number.
///
/// A job that is begun has the next number, joins the unended ones, and takes the leases of its command's list. A
/// recovery and a takeover begin with their entry in the audit, which is kept. A plan's job that fails because its
/// waits are spent spent them all last.
pub fn commands_answer_by_the_table()
    ensures answer { CommandsAnswerByTable }
    ensures lowest { LowestRefuse }
    ensures refused { RefusedChangeNothing }
    ensures number { BegunHaveNextNumber }
    ensures job { BegunAreTheCommands }
    ensures begun { WhereBegun IsReplied }
    ensures numbered { WhereBegun HasNextNumber }
    ensures joins { WhereBegun JoinsJobs }
    ensures last { WhereBegun IsLastJob }
    ensures leases { WhereBegun TakesLeases }
    ensures audit { WhereBegun EntersAudit }
    ensures kept { WhereBegun KeepsEntry }
    ensures waits { WhereBegun SpendsWaits }
{}

/// A scan has a line for each instance whose analysis asks for a recovery, in name order. It begins, with the next
/// job's number, exactly if no check refuses it on what those before it left. Else it is refused. Exactly what its
/// lines report so begins: it joins the unended jobs, takes its leases, and its entries are kept. It begins nothing
/// while recoveries are disabled, of a server in downtime, or of a cluster that the filters don't have.
pub fn scans_tell_each_try()
    ensures lines { ScansTellEachTry }
    ensures table { ScansTryByTable }
    ensures unasked { ScansBeginUnasked }
    ensures joins { ScannedJoinJobs }
    ensures last { ScannedAreLastJobs }
    ensures leases { ScannedTakeLeases }
    ensures kept { ScannedKeepEntries }
{}
