//! What orchestrator sees of a server in one exchange.

ghost use Rattle.std.specs.Prelude.{◌≡◌, option_and_then, slice_get};
ghost use Rattle.server_model.specs.Prelude.{option_copied};
ghost use Rattle.server_model.specs.Gtids.{io_of, status_of};
ghost use Rattle.server_model.specs.Worlds.{source_no};

use crate::Server;
use crate::gtid_sets::GtidSet;
use crate::orch_base::{IoState, SourceState};
use server_words::Status;

/// The server that this one is attached to or detached from.
pub(crate) fn above<'a>(servers: &'a [Server], s: &Server) -> Option<&'a Server>
    ensures { option_copied result ≡
        option_and_then (λ m. slice_get servers.now m) (source_no s.now.source) }
{
    match s.source {
        SourceState::Attached(m) | SourceState::Detached(m) => servers.get(m.0 as usize),
        SourceState::Without => None,
    }
}

fn io_of(r: &Server, source: Option<&Server>) -> IoState
    ensures { result ≡ io_of r.now (option_copied source.entry) }
{
    if !r.receiver {
        return IoState::No;
    }
    match source {
        Some(s) if s.up && r.feed => IoState::Yes,
        _ => IoState::Connecting,
    }
}

/// What is seen of a server under its source, with the sets of what it has executed and purged.
pub(crate) fn status_of(
    s: &Server,
    source: Option<&Server>,
    set: GtidSet,
    purged: GtidSet,
) -> Status
    ensures { result ≡ status_of s.now (option_copied source.entry) set purged }
{
    Status {
        own_end: if s.settings.logs {
            Some(s.log.end())
        } else {
            None
        },
        source: s.source,
        exec: s.exec,
        read: s.read,
        auto: s.auto,
        io: io_of(s, source),
        sql: s.applier,
        read_only: s.read_only,
        set,
        first: s.first,
        purged,
    }
}
