//! What holds throughout a run.

use crate::audit_log::Periods;
use crate::commands::Answers;
use crate::orch_base::ServerNo;
use scenarios::{Aliases, Blocks, SharedHooks};

/// What holds throughout a run.
#[derive(Drop)]
pub struct Configuration {
    /// At most so many times a job waits.
    pub wait: u32,
    /// Each transaction whose number is divisible by this is a mark (Pseudo-GTID); 0 for no marks.
    pub every: u64,
    /// The block period in seconds (RecoveryPeriodBlockSeconds).
    pub block: u64,
    /// Clusters with block periods of their own.
    pub blocks: Blocks,
    /// For each server whether a dead master's recovery may begin by itself in its cluster
    /// (RecoverMasterClusterFilters).
    pub master: Answers,
    /// The same for a dead intermediate master (RecoverIntermediateMasterClusterFilters).
    pub intermediate: Answers,
    /// The hooks of recoveries that a command or a scan begins.
    pub hooks: SharedHooks,
    /// The clusters' aliases, for the hooks.
    pub aliases: Aliases,
}

impl Periods for Configuration {
    ghost use Rattle.command_outcomes.specs.Periods.{period_by};

    ghost period_of = { period_by };

    fn period(&self, server: ServerNo, cluster: &str) -> u64 {
        self.blocks.period_at(self.block, server, cluster)
    }
}
