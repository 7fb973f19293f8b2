//! Which files of a binary log may go.

ghost use Rattle.std.specs.Prelude.{◌≡◌};
ghost use Rattle.server_model.specs.Purging.{is_attached_to, is_reading, kept_from, least_read};

use crate::Server;
use crate::orch_base::{ServerNo, SourceState};

fn is_attached_to(no: ServerNo, source: SourceState) -> bool
    ensures { result ≡ is_attached_to no.0 source }
{
    match source {
        SourceState::Attached(m) => m.0 == no.0,
        SourceState::Without | SourceState::Detached(_) => false,
    }
}

// Whether the receiver of `r` is on and reaches the server, its source.
fn is_reading(no: ServerNo, r: &Server) -> bool
    ensures { result ≡ is_reading no.0 r.now }
{
    r.up && (is_attached_to(no, r.source) && (r.receiver && r.feed))
}

// The least of a file and those that replicas of the server are reading.
fn least_read(servers: &[Server], no: ServerNo, file: u32) -> u32
    ensures { result ≡ least_read servers.now no.0 file }
{
    servers
        .iter()
        .filter(|r| is_reading(no, r))
        .map(|r| r.read.file)
        .fold(file, |least, read| if read < least { read } else { least })
}

/// The first file that the server is to keep if the files before this one are to go.
pub(crate) fn kept_from(servers: &[Server], no: ServerNo, file: u32, s: &Server) -> u32
    ensures { result ≡ kept_from servers.now no.0 file s.now }
{
    let least = least_read(servers, no, file);
    if s.first < least { least } else { s.first }
}
