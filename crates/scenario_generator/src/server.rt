//! Servers as they are drawn.

ghost use Rattle.std.specs.Prelude.{◌≡◌, ◌≤◌, ◌%◌, ◌++◌, OnOk, slice_index, slice_set};
ghost use Rattle.scenario_generator.specs.Servers.{AreFew, after_server, count_of, server_by};
ghost use Rattle.scenario_generator.specs.Texts.{server_text};

use crate::numbers::Numbers;
use crate::text::{print_between, print_number};
use orch_base::Memory;

/// A server that was drawn.
#[derive(Clone, Copy)]
pub enum DrawnServer {
    /// It has no source, and took 20 transactions of 100 bytes from clients.
    Root,
    /// It replicates from this one, by its number counted from 0, and has executed so many of its transactions: 0 to
    /// 20.
    Replica { source: u32, executed: u32 },
}

/// Draws the server of this number, counted from 0. `counts` has, for each server before it in its ten, how many
/// transactions that has executed; this one's count joins them.
pub(crate) fn draw_server(no: u32, counts: &mut [u32; 10], numbers: &mut Numbers) -> DrawnServer
    requires { AreFew counts.old }
    ensures server { result ≡ server_by (λ m. slice_index counts.old (m % 10)) no numbers.old.last }
    ensures counts { counts.new ≡ slice_set counts.old (no % 10) (count_of result) }
    ensures few { AreFew counts.new }
    ensures after { numbers.new.last ≡ after_server no numbers.old.last }
{
    let place = no % 10;
    if place == 0 {
        counts[0] = 20;
        return DrawnServer::Root;
    }
    let source = no - place + numbers.draw(place);
    let executed = numbers.draw(counts[(source % 10) as usize] + 1);
    counts[place as usize] = executed;
    DrawnServer::Replica { source, executed }
}

/// The server of this number as JSON.
pub(crate) fn print_server(no: u32, server: DrawnServer, out: &mut Vec<u8>) -> Result<(), Memory>
    ensures { OnOk result (out.new.items ≡ out.old.items ++ server_text no server) }
{
    match server {
        DrawnServer::Root => {
            print_between(b"{\"history\":[[\"", no, b"\",100,20]]", out)?;
            print_between(b",\"name\":\"", no, b"\"}", out)
        }
        DrawnServer::Replica { source, executed } => {
            out.extend_from_slice(b"{\"executed\":")?;
            print_number(executed, out)?;
            print_between(b",\"name\":\"", no, b"\"", out)?;
            print_between(b",\"source\":\"", source, b"\"}", out)
        }
    }
}
