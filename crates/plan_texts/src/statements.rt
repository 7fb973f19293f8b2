//! What is sent for each operation.

ghost use Rattle.std.specs.Prelude.{◌≡◌, ◌++◌, [], codes, OnOk};
ghost use Rattle.plan_texts.specs.Prelude.{ExecOf};
ghost use Rattle.plan_texts.specs.Letters.{letter};
ghost use Rattle.plan_texts.specs.Statements.{auto_change, change_words, cross_statement, expected_statement, match_change, named_words, own_change, own_words, read_only_words, reading_words, source_words, spot_words, statement};

use crate::Memory;
use crate::line::{Expect, Line};
use crate::orch_base::{Name, ServerNo};
use crate::told::latest_source;
use crate::words::{login, print_lettered, print_named, print_own, print_source, print_spot};
use operations::{Aim, Crossing, Op};

/// The servers of a plan by their names and their letters, and the lines before the one that is printed.
#[derive(Clone, Copy)]
pub(crate) struct Told<'a> {
    pub(crate) names: &'a [Name],
    pub(crate) order: &'a [ServerNo],
    pub(crate) before: &'a [Line],
}

/// A reading of a server.
pub(crate) fn reading() -> &'static [u8]
    ensures { result.now ≡ reading_words }
{
    b"SHOW REPLICA STATUS; SHOW BINARY LOG STATUS"
}

fn read_only(on: bool) -> &'static [u8]
    ensures { result.now ≡ read_only_words on }
{
    if on {
        b"SET PERSIST super_read_only=ON"
    } else {
        b"SET PERSIST super_read_only=OFF; SET PERSIST read_only=OFF"
    }
}

// After the source of a change: the coordinate that was noted.
fn print_place(order: &[ServerNo], aim: Aim, out: &mut Vec<u8>) -> Result<(), Memory>
    ensures { OnOk result (out.new.items
        ≡ out.old.items
        ++ (codes ", " ++ spot_words order.now aim ++ codes ", SOURCE_AUTO_POSITION=0")) }
{
    out.extend_from_slice(b", ")?;
    print_spot(order, aim, out)?;
    out.extend_from_slice(b", SOURCE_AUTO_POSITION=0")
}

// A change to the source of a server.
fn print_to_source(
    told: &Told<'_>,
    no: ServerNo,
    source: Option<ServerNo>,
    aim: Aim,
    out: &mut Vec<u8>,
) -> Result<(), Memory>
    ensures { OnOk result (out.new.items ≡ out.old.items
        ++ change_words told.now.order.now
        (source_words told.now.names.now told.now.order.now no source) aim) }
{
    out.extend_from_slice(b"CHANGE REPLICATION SOURCE TO ")?;
    print_source(told.names, told.order, no, source, out)?;
    print_place(told.order, aim, out)
}

// A change to a server.
fn print_to_server(told: &Told<'_>, no: ServerNo, aim: Aim, out: &mut Vec<u8>) -> Result<(), Memory>
    ensures { OnOk result (out.new.items ≡ out.old.items
        ++ change_words told.now.order.now (named_words told.now.names.now no) aim) }
{
    out.extend_from_slice(b"CHANGE REPLICATION SOURCE TO ")?;
    print_named(told.names, no, out)?;
    print_place(told.order, aim, out)
}

// A change to the source that was noted, after so many slashes.
fn print_to_own(
    order: &[ServerNo],
    slashes: &[u8],
    no: ServerNo,
    out: &mut Vec<u8>,
) -> Result<(), Memory>
    ensures { OnOk result (out.new.items ≡ out.old.items
        ++ change_words order.now (own_words order.now slashes.now no) (ExecOf no)) }
{
    out.extend_from_slice(b"CHANGE REPLICATION SOURCE TO ")?;
    print_own(order, slashes, no, out)?;
    print_place(order, Aim::ExecOf(no), out)
}

fn print_crossing(
    told: &Told<'_>,
    crossing: Crossing,
    a: ServerNo,
    b: ServerNo,
    out: &mut Vec<u8>,
) -> Result<(), Memory>
    ensures { OnOk result (out.new.items ≡ out.old.items
        ++ cross_statement told.now.names.now told.now.order.now told.now.before.now crossing a b) }
{
    match crossing {
        Crossing::Up => {
            let source = latest_source(told.before, b);
            print_to_source(told, b, source, Aim::ExecOf(b), out)
        }
        Crossing::Down => print_to_server(told, b, Aim::EndOf(b), out),
        Crossing::About => {
            print_to_server(told, b, Aim::EndOf(b), out)?;
            out.extend_from_slice(login(latest_source(told.before, a)))
        }
        Crossing::Back => {
            print_to_server(told, b, Aim::ExecOf(a), out)?;
            out.extend_from_slice(login(None))
        }
    }
}

// Another source, by GTIDs.
fn print_auto(names: &[Name], no: ServerNo, out: &mut Vec<u8>) -> Result<(), Memory>
    ensures { OnOk result (out.new.items ≡ out.old.items
        ++ (codes "CHANGE REPLICATION SOURCE TO " ++ named_words names.now no
        ++ codes ", SOURCE_AUTO_POSITION=1")) }
{
    out.extend_from_slice(b"CHANGE REPLICATION SOURCE TO ")?;
    print_named(names, no, out)?;
    out.extend_from_slice(b", SOURCE_AUTO_POSITION=1")
}

// Another source, by a coordinate of its log that was found.
fn print_matched(
    told: &Told<'_>,
    no: ServerNo,
    to: ServerNo,
    out: &mut Vec<u8>,
) -> Result<(), Memory>
    ensures { OnOk result (out.new.items ≡ out.old.items
        ++ match_change told.now.names.now told.now.order.now no to) }
{
    out.extend_from_slice(b"CHANGE REPLICATION SOURCE TO ")?;
    print_named(told.names, to, out)?;
    print_lettered(b", SOURCE_LOG_FILE=:", told.order, no, out)?;
    print_lettered(b".match.file, SOURCE_LOG_POS=:", told.order, no, out)?;
    out.extend_from_slice(b".match.pos, SOURCE_AUTO_POSITION=0")
}

// A server is stopped and read, and its source changes: the one that was noted, after so many slashes.
fn print_own_change(
    order: &[ServerNo],
    slashes: &[u8],
    no: ServerNo,
    out: &mut Vec<u8>,
) -> Result<(), Memory>
    ensures { OnOk result (out.new.items
        ≡ out.old.items ++ own_change order.now slashes.now no) }
{
    out.extend_from_slice(b"STOP REPLICA; ")?;
    out.extend_from_slice(reading())?;
    out.extend_from_slice(b"; ")?;
    print_to_own(order, slashes, no, out)
}

// The same in auto position, without a coordinate.
fn print_auto_change(
    order: &[ServerNo],
    slashes: &[u8],
    no: ServerNo,
    out: &mut Vec<u8>,
) -> Result<(), Memory>
    ensures { OnOk result (out.new.items
        ≡ out.old.items ++ auto_change order.now slashes.now no) }
{
    out.extend_from_slice(b"STOP REPLICA; ")?;
    out.extend_from_slice(reading())?;
    out.extend_from_slice(b"; CHANGE REPLICATION SOURCE TO ")?;
    print_own(order, slashes, no, out)
}

// The statement that waits for a server's GTIDs.
fn print_wait(order: &[ServerNo], of: ServerNo, out: &mut Vec<u8>) -> Result<(), Memory>
    ensures { OnOk result (out.new.items ≡ out.old.items
        ++ (codes "SELECT WAIT_FOR_EXECUTED_GTID_SET(':" ++ letter order.now of
        ++ codes ".gtids', 1)")) }
{
    print_lettered(b"SELECT WAIT_FOR_EXECUTED_GTID_SET(':", order, of, out)?;
    out.extend_from_slice(b".gtids', 1)")
}

// The server goes on up to a coordinate that was noted.
fn print_until(order: &[ServerNo], aim: Aim, out: &mut Vec<u8>) -> Result<(), Memory>
    ensures { OnOk result (out.new.items
        ≡ out.old.items ++ (codes "START REPLICA UNTIL " ++ spot_words order.now aim)) }
{
    out.extend_from_slice(b"START REPLICA UNTIL ")?;
    print_spot(order, aim, out)
}

// What is sent for an operation. Nothing for the end of a job.
fn print_statement(told: &Told<'_>, op: &Op, out: &mut Vec<u8>) -> Result<(), Memory>
    ensures { OnOk result (out.new.items ≡ out.old.items
        ++ statement told.now.names.now told.now.order.now told.now.before.now op.now) }
{
    match op {
        Op::Status(_, _) | Op::Await(_, _) | Op::Settle(_) => out.extend_from_slice(reading()),
        Op::Stop(_) => out.extend_from_slice(b"STOP REPLICA"),
        Op::StopReceiver(_) => out.extend_from_slice(b"STOP REPLICA IO_THREAD"),
        Op::Start(_) => out.extend_from_slice(b"START REPLICA"),
        Op::Reset(_) => out.extend_from_slice(b"STOP REPLICA; RESET REPLICA ALL"),
        Op::Detach(no) => print_own_change(told.order, b"//", *no, out),
        Op::Reattach(no) => print_own_change(told.order, b"", *no, out),
        Op::ReadOnly(_, on) => out.extend_from_slice(read_only(*on)),
        Op::Until(_, aim) => print_until(told.order, *aim, out),
        Op::AwaitSet(_, of) => print_wait(told.order, *of, out),
        Op::Cross(crossing, a, b) => print_crossing(told, *crossing, *a, *b, out),
        Op::Same(no) => {
            let source = latest_source(told.before, *no);
            print_to_source(told, *no, source, Aim::ExecOf(*no), out)
        }
        Op::Auto(_, to) => print_auto(told.names, *to, out),
        Op::Match(_, _, _) => out.extend_from_slice(b"SHOW BINLOG EVENTS"),
        Op::CrossMatch(no, to) => print_matched(told, *no, *to, out),
        Op::Finish(_) => Ok(()),
    }
}

// Another source, if the coordinate is found by hand.
fn print_by_hand(
    told: &Told<'_>,
    no: ServerNo,
    to: ServerNo,
    out: &mut Vec<u8>,
) -> Result<(), Memory>
    ensures { OnOk result (out.new.items ≡ out.old.items
        ++ (codes "SHOW BINLOG EVENTS; "
        ++ match_change told.now.names.now told.now.order.now no to)) }
{
    out.extend_from_slice(b"SHOW BINLOG EVENTS; ")?;
    print_matched(told, no, to, out)
}

/// What is sent to a server for an operation, if this is expected of it.
pub(crate) fn print_expected(
    told: &Told<'_>,
    op: &Op,
    no: ServerNo,
    expect: Expect,
    out: &mut Vec<u8>,
) -> Result<(), Memory>
    ensures { OnOk result (out.new.items ≡ out.old.items
        ++ expected_statement told.now.names.now told.now.order.now told.now.before.now
        op.now no expect) }
{
    match expect {
        Expect::AsTold | Expect::Below(_) | Expect::Root => print_statement(told, op, out),
        Expect::Away | Expect::Gone => out.extend_from_slice(reading()),
        Expect::AttachedByAuto => print_auto_change(told.order, b"//", no, out),
        Expect::DetachedByAuto => print_auto_change(told.order, b"", no, out),
        Expect::ByHand(to) | Expect::Behind(to) => print_by_hand(told, no, to, out),
    }
}
