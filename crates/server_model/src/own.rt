//! How many transactions of its own each server has executed.

ghost use Rattle.std.specs.Prelude.{◌≡◌, ◌≤◌, IfOk, length};
ghost use Rattle.server_model.specs.Prelude.{count_own};
ghost use Rattle.server_model.specs.Fit.{own_counts};

use crate::Server;
use crate::binlog_coords_items::LogIndex;
use crate::orch_base::{Memory, ServerNo};
use crate::steps::own_of;
use std::alloc::Global;

fn count_own(no: ServerNo, log: &LogIndex) -> u64
    ensures { result ≡ count_own no.0 log.now.txns }
{
    let mut own = 0;
    for k in 0..log.len() {
        own += own_of(no, log.txn(k).unwrap());
    }
    own
}

/// How many transactions of its own each server has executed.
pub(crate) fn own_counts(alloc: Global, servers: &[Server]) -> Result<Vec<u64>, Memory>
    requires { length servers.now ≤ 1000 }
    ensures { IfOk result (λ v. v.items ≡ own_counts servers.now) }
{
    let mut counts = Vec::new(alloc);
    for (n, s) in servers.iter().enumerate() {
        counts.push(count_own(ServerNo(n as u32), &s.log))?;
    }
    Ok(counts)
}
