//! The code of an analysis, and what it asks for (orchestrator's documentation, "Failure detection scenarios"; the
//! conditions are this program's own).

ghost use Rattle.std.specs.Prelude.{◌≡◌, true};
ghost use Rattle.failure_analysis.specs.Table.{action_of, code_of, is_dead_intermediate, is_dead_master, is_valid_intermediate, is_valid_master, AreCounts};

use crate::orch_base::Code;

/// What a book has of an instance and of its replicas: the instances whose seen source is attached to it.
#[derive(Clone, Copy, Debug, PartialEq, Eq)]
pub struct Counts {
    /// Whether it has a source, attached or detached.
    pub has_source: bool,
    /// Whether its last reading reached it.
    pub valid: bool,
    /// How many replicas it has.
    pub replicas: u32,
    /// How many of the replicas were reached by their last reading.
    pub valid_replicas: u32,
    /// How many of these replicate: the receiver is connected, and the applier on.
    pub replicating: u32,
    /// How many of these haven't executed what they have read.
    pub lagging: u32,
}

/// What an analysis asks for.
#[derive(Clone, Copy, Debug, PartialEq, Eq)]
pub enum Action {
    /// A replica is promoted in place of a master.
    MasterRecovery,
    /// The replicas of an intermediate master are moved below its source.
    IntermediateRecovery,
    /// Nothing.
    Nothing,
}

// The code of an instance that is valid and has no source.
#[tactic(auto, using(std::proofs::lemmas::Bool::Decides::nat_tests), unfolding(crate::specs::Table::code_of))]
fn valid_master(c: Counts) -> Code
    requires counts { AreCounts c }
    requires kind { is_valid_master c ≡ true }
    ensures { result ≡ code_of c }
{
    if c.replicas == 0 || c.replicating > 0 {
        Code::NoProblem
    } else if c.replicas > 1 {
        if c.valid_replicas == c.replicas {
            Code::AllMasterReplicasNotReplicating
        } else {
            Code::AllMasterReplicasNotReplicatingOrDead
        }
    } else if c.valid_replicas == 0 {
        Code::MasterSingleReplicaDead
    } else {
        Code::MasterSingleReplicaNotReplicating
    }
}

// The code of an instance that isn't valid and has no source.
#[tactic(auto, using(std::proofs::lemmas::Bool::Decides::nat_tests), unfolding(crate::specs::Table::code_of))]
fn dead_master(c: Counts) -> Code
    requires counts { AreCounts c }
    requires kind { is_dead_master c ≡ true }
    ensures { result ≡ code_of c }
{
    if c.replicas == 0 {
        Code::DeadMasterWithoutReplicas
    } else if c.valid_replicas == 0 {
        Code::DeadMasterAndReplicas
    } else if c.replicating == 0 {
        if c.valid_replicas == c.replicas {
            Code::DeadMaster
        } else {
            Code::DeadMasterAndSomeReplicas
        }
    } else if c.lagging == c.replicating {
        Code::UnreachableMasterWithLaggingReplicas
    } else {
        Code::UnreachableMaster
    }
}

// The code of an instance that is valid and has a source.
#[tactic(auto, using(std::proofs::lemmas::Bool::Decides::nat_tests), unfolding(crate::specs::Table::code_of))]
fn valid_intermediate(c: Counts) -> Code
    requires counts { AreCounts c }
    requires kind { is_valid_intermediate c ≡ true }
    ensures { result ≡ code_of c }
{
    if c.replicas > 0 && c.replicating == 0 {
        Code::AllIntermediateMasterReplicasNotReplicating
    } else {
        Code::NoProblem
    }
}

// The code of an instance that isn't valid and has a source.
#[tactic(auto, using(std::proofs::lemmas::Bool::Decides::nat_tests), unfolding(crate::specs::Table::code_of))]
fn dead_intermediate(c: Counts) -> Code
    requires counts { AreCounts c }
    requires kind { is_dead_intermediate c ≡ true }
    ensures { result ≡ code_of c }
{
    if c.replicas == 0 {
        Code::NoProblem
    } else if c.valid_replicas == 0 {
        Code::DeadIntermediateMasterAndReplicas
    } else if c.replicating > 0 {
        if c.lagging == c.replicating {
            Code::UnreachableIntermediateMasterWithLaggingReplicas
        } else {
            Code::UnreachableIntermediateMaster
        }
    } else if c.valid_replicas < c.replicas {
        Code::DeadIntermediateMasterAndSomeReplicas
    } else if c.replicas == 1 {
        Code::DeadIntermediateMasterWithSingleReplica
    } else {
        Code::DeadIntermediateMaster
    }
}

/// The code of the table's row that applies. Each count is a part of the one before it: of `replicas`,
/// `valid_replicas`, `replicating` and `lagging`. It takes no memory.
pub fn code_of(c: Counts) -> Code
    requires { AreCounts c }
    ensures { result ≡ code_of c }
{
    match (c.has_source, c.valid) {
        (false, true) => valid_master(c),
        (false, false) => dead_master(c),
        (true, true) => valid_intermediate(c),
        (true, false) => dead_intermediate(c),
    }
}

/// What a code asks for: a recovery of a master or of an intermediate master if the server is dead and has replicas
/// that were reached, and none that replicates. It takes no memory.
pub fn actionable(code: Code) -> Action
    ensures { result ≡ action_of code }
{
    match code {
        Code::DeadMaster | Code::DeadMasterAndSomeReplicas => Action::MasterRecovery,
        Code::DeadIntermediateMasterWithSingleReplica
        | Code::DeadIntermediateMaster
        | Code::DeadIntermediateMasterAndSomeReplicas => Action::IntermediateRecovery,
        Code::MasterSingleReplicaDead
        | Code::MasterSingleReplicaNotReplicating
        | Code::AllMasterReplicasNotReplicating
        | Code::AllMasterReplicasNotReplicatingOrDead
        | Code::DeadMasterWithoutReplicas
        | Code::DeadMasterAndReplicas
        | Code::UnreachableMasterWithLaggingReplicas
        | Code::UnreachableMaster
        | Code::AllIntermediateMasterReplicasNotReplicating
        | Code::DeadIntermediateMasterAndReplicas
        | Code::UnreachableIntermediateMasterWithLaggingReplicas
        | Code::UnreachableIntermediateMaster
        | Code::NoProblem => Action::Nothing,
    }
}
