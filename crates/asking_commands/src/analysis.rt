//! What is wrong with a book's instances.

ghost use Rattle.std.specs.Prelude.{◌≡◌, IfOk};
ghost use Rattle.asking_commands.specs.Analysis.{analysis_lines, is_problem, problem_line};

use crate::Memory;
use commands::{Line, Lines};
use failure_analysis::{Code, Entry, analyse};
use instance_keeper::Book;
use std::alloc::Global;

fn is_problem(code: Code) -> bool
    ensures { result ≡ is_problem code }
{
    match code {
        Code::NoProblem => false,
        Code::MasterSingleReplicaDead
        | Code::MasterSingleReplicaNotReplicating
        | Code::AllMasterReplicasNotReplicating
        | Code::AllMasterReplicasNotReplicatingOrDead
        | Code::DeadMasterWithoutReplicas
        | Code::DeadMasterAndReplicas
        | Code::DeadMaster
        | Code::DeadMasterAndSomeReplicas
        | Code::UnreachableMasterWithLaggingReplicas
        | Code::UnreachableMaster
        | Code::AllIntermediateMasterReplicasNotReplicating
        | Code::DeadIntermediateMasterAndReplicas
        | Code::DeadIntermediateMasterWithSingleReplica
        | Code::DeadIntermediateMaster
        | Code::DeadIntermediateMasterAndSomeReplicas
        | Code::UnreachableIntermediateMasterWithLaggingReplicas
        | Code::UnreachableIntermediateMaster => true,
    }
}

fn problem_line(entry: &Entry) -> Line
    ensures { result ≡ problem_line entry.now }
{
    Line::Analysis {
        no: entry.no,
        code: entry.code,
        replicas: entry.counts.replicas,
        valid: entry.counts.valid_replicas,
        replicating: entry.counts.replicating,
        lagging: entry.counts.lagging,
    }
}

/// The analysis of each instance that has a problem, in name order, with the counts of its replicas. `Err` means out of
/// memory.
pub fn replication_analysis(alloc: Global, book: &Book) -> Result<Lines, Memory>
    ensures { IfOk result (λ lines. lines ≡ analysis_lines book.now) }
{
    let entries = analyse(alloc, book)?;
    let mut lines = Vec::new(alloc);
    for entry in &entries {
        if is_problem(entry.code) {
            lines.push(problem_line(entry))?;
        }
    }
    Ok(Lines::new(lines))
}
