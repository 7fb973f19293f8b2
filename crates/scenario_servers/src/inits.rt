//! The servers with the defaults that need other servers.

ghost use Rattle.std.specs.Prelude.{◌≡◌, IfOk};
ghost use Rattle.scenario_servers.specs.Openings.{init_under, inits_of};

use crate::Given;
use crate::labels::labels_of;
use crate::orch_base::{Memory, OwnedText, Settings};
use openings::ServerInit;
use std::alloc::Global;

// A server of the cluster of this label.
fn init_under(cluster: OwnedText, given: Given) -> ServerInit
    ensures { result ≡ init_under cluster given }
{
    let Given {
        identity,
        setup,
        known: _,
        rule: _,
        history,
        source,
        replication,
        flushes,
        purged,
        dc,
    } = given;
    let is_on = !replication.detached;
    ServerInit {
        settings: Settings {
            name: identity.name,
            uuid: identity.uuid,
            server_id: identity.server_id,
            version: identity.version,
            cluster,
            logs: setup.logs,
            limit: setup.limit,
            dc,
        },
        read_only: setup.read_only,
        up: setup.up,
        desk: setup.desk,
        feed: setup.feed,
        history,
        source,
        executed: replication.executed,
        at: replication.at,
        read: replication.read,
        io: replication.io.unwrap_or(is_on),
        sql: replication.sql.unwrap_or(is_on),
        auto: replication.auto,
        detached: replication.detached,
        until: replication.until,
        flushes,
        purged,
    }
}

/// The servers that are given, with the defaults that need other servers. A cluster's label is that of the root of the
/// server's tree. The threads of a server that isn't detached are on. The time is that of the servers, squared, because
/// sources are followed from each. `Err` means out of memory.
pub fn inits_of(alloc: Global, given: Vec<Given>) -> Result<Vec<ServerInit>, Memory>
    ensures { IfOk result (λ v. v.items ≡ inits_of given.items) }
{
    let labels = labels_of(alloc, &given)?;
    let mut inits = Vec::with_capacity(alloc, given.len())?;
    for (one, cluster) in given.into_iter().zip(labels) {
        inits.push(init_under(cluster, one))?;
    }
    Ok(inits)
}
