//! A single command's report, written at its end.

ghost use Rattle.std.specs.Prelude.{◌≡◌, ◌≤◌, [], IfOk, IfErr, IfSome, OnOk, length, option_map, if◌then◌else◌};
ghost use Rattle.tasks.specs.Prelude.{HasTurnCause, IsNumberOf, IsTurn, NamesOneOf, Ran, WasCutOff, engine as plainly, nodes_of, option_to_list};
ghost use Rattle.tasks.specs.Prelude.{reply_of};
ghost use Rattle.tasks.specs.Begun.{begun_by};
ghost use Rattle.tasks.specs.Endings.{HasKeepersCause};
ghost use Rattle.tasks.specs.Progress.{Answers, ClosesEach, EndsEach, GivesUpEach, Stops, StopsEach, point};
ghost use Rattle.tasks.specs.Report.{extra_answer, tables_of, told_answer, without_tables};
ghost use Rattle.tasks.specs.Singles.{Writes, view};
ghost use Rattle.tasks.specs.Sinks.{across};
ghost use Rattle.tasks.specs.Stages.{claim_ahead, own_stages, own_turn, taker};
ghost use Rattle.tasks.specs.Stands.{AreNamedIn, AreTurnsIn, CommandStands, IsCommandIn, UnknownStands};

use crate::commands::Refusal;
use crate::dumped::dumped_report;
use crate::instance_keeper_items::Keeper;
use crate::orch_base::{Memory, Name, Sink, write_all};
use crate::pieces::add_tables;
use crate::scenarios_items::Scenario;
use crate::turns::{Act, BoxedCommand, Reply, Turn};
use crate::verdict::{is_for_err, is_taken};
use crate::{Ending, Extra};
use orch_core::{Engine, TurnFault};
use report_text::plain_text;
use std::alloc::Global;

/// What out and err are to take, and whether the reply is refused or failed.
#[derive(Drop)]
pub(crate) struct Report {
    pub(crate) out: Vec<u8>,
    pub(crate) err: Vec<u8>,
    pub(crate) is_refused: bool,
}

// The tables, if they are asked for.
fn some_tables(alloc: Global, asked: bool, engine: &Engine) -> Result<Vec<u8>, Memory>
    ensures { IfOk result (λ v. v.items ≡ (if asked then tables_of engine.now else [])) }
{
    let mut text = Vec::new(alloc);
    if asked {
        add_tables(engine, &mut text)?;
    }
    Ok(text)
}

/// The lines of a reply, or for err its refusal or whose claim lasts; and the tables if they are asked for, but not if
/// another's claim lasts.
pub(crate) fn told_report(
    alloc: Global,
    asked: bool,
    names: &[Name],
    engine: &Engine,
    reply: &Reply,
) -> Result<Report, Memory>
    ensures { IfOk result (λ r. view r ≡ told_answer asked names.now engine.now reply.now) }
{
    let mut told = Vec::new(alloc);
    plain_text(reply, names, &mut told)?;
    let mut tables = some_tables(alloc, asked && !is_taken(reply), engine)?;
    if is_for_err(reply) {
        return Ok(Report {
            out: tables,
            err: told,
            is_refused: true,
        });
    }
    told.append(&mut tables)?;
    Ok(Report {
        out: told,
        err: Vec::new(alloc),
        is_refused: false,
    })
}

/// Writes a report: what err is to take, then what out is.
pub(crate) fn write_report<O: Sink, E: Sink>(out: &mut O, err: &mut E, report: &Report) -> Ending
    ensures writes { Writes (view report.now)
        (across (O.written out.old) (O.faults out.old) (O.written out.new) (O.faults out.new))
        (across (E.written err.old) (E.faults err.old) (E.written err.new) (E.faults err.new))
        result }
    ensures later { E.faults err.old ≤ E.faults err.new }
{
    if write_all(err, &report.err).is_err() || write_all(out, &report.out).is_err() {
        return Ending::Unwritten;
    }
    Ending::Written(report.is_refused)
}

// What a single command is answered by its reply, with what is asked for beside it.
fn extra_report(
    alloc: Global,
    extra: Extra,
    names: &[Name],
    scenario: &Scenario,
    engine: &Engine,
    reply: &Reply,
) -> Result<Report, Memory>
    ensures { IfOk result (λ r. view r
        ≡ extra_answer extra names.now scenario.now engine.now reply.now) }
{
    match extra {
        Extra::Nothing => told_report(alloc, false, names, engine, reply),
        Extra::Tables => told_report(alloc, true, names, engine, reply),
        Extra::Dump => dumped_report(alloc, names, scenario, engine, reply),
    }
}

// Writes what is answered to a single command by its reply.
fn write_told<O: Sink, E: Sink>(
    alloc: Global,
    extra: Extra,
    names: &[Name],
    scenario: &Scenario,
    engine: &Engine,
    reply: &Reply,
    out: &mut O,
    err: &mut E,
) -> Ending
    ensures writes { Writes (extra_answer extra names.now scenario.now engine.now reply.now)
        (across (O.written out.old) (O.faults out.old) (O.written out.new) (O.faults out.new))
        (across (E.written err.old) (E.faults err.old) (E.written err.new) (E.faults err.new))
        result }
    ensures later { E.faults err.old ≤ E.faults err.new }
{
    match extra_report(alloc, extra, names, scenario, engine, reply) {
        Ok(report) => write_report(out, err, &report),
        Err(_) => Ending::Memory,
    }
}

/// The claim ahead of a command: of the first of several orchestrators, if none is active.
pub(crate) fn claim_ahead(engine: &Engine) -> Option<Turn>
    requires { 1 ≤ nodes_of engine.now }
    ensures claim { result ≡ claim_ahead engine.now }
    ensures turn { IfSome result (IsTurn (length engine.now.world.servers)) }
    ensures named { IfSome result (NamesOneOf (nodes_of engine.now)) }
{
    let claims = engine.claims();
    if claims.is_alone() || claims.active(engine.now()).is_some() {
        return None;
    }
    Some(Turn::Claim(1))
}

// The orchestrator by which a command is taken: the active one, or the first, if the kept claim is its own.
fn taker(engine: &Engine) -> Option<u32>
    requires { 1 ≤ nodes_of engine.now }
    ensures taker { result ≡ taker engine.now }
    ensures node { IfSome result (IsNumberOf (nodes_of engine.now)) }
{
    let claims = engine.claims();
    if let Some(node) = claims.active(engine.now()) {
        return Some(node);
    }
    match claims.kept() {
        Some((1, _)) => Some(1),
        Some(_) | None => None,
    }
}

// The command's own turn; none if another orchestrator's claim lasts.
fn own_turn(alloc: Global, engine: &Engine, own: &BoxedCommand) -> Result<Option<Turn>, Memory>
    requires own { IsCommandIn engine.now own.now }
    requires nodes { 1 ≤ nodes_of engine.now }
    ensures own { IfOk result (λ t. t ≡ own_turn own.now engine.now) }
    ensures turn { IfOk result (λ t. IfSome t (IsTurn (length engine.now.world.servers))) }
    ensures named { IfOk result (λ t. IfSome t (NamesOneOf (nodes_of engine.now))) }
{
    let act = Act::Command(own.copy(alloc)?);
    if engine.claims().is_alone() {
        return Ok(Some(Turn::Act(act)));
    }
    let Some(node) = taker(engine) else {
        return Ok(None);
    };
    Ok(Some(Turn::As(node, act)))
}

// Takes this turn, if it is one.
fn take_one<K: Keeper>(
    alloc: Global,
    keeper: &mut K,
    engine: &mut Engine,
    t: &Option<Turn>,
) -> Result<Option<Reply>, TurnFault>
    requires turn { IfSome t.now (IsTurn (length engine.old.world.servers)) }
    requires named { IfSome t.now (NamesOneOf (nodes_of engine.old)) }
    ensures reply { IfOk result (λ r. r ≡ option_map (reply_of engine.old) t.now) }
    ensures ok { OnOk result (Ran plainly (K.kept keeper.old) engine.old (option_to_list t.now)
        (K.kept keeper.new) engine.new) }
    ensures err { IfErr result (λ e. WasCutOff plainly (K.kept keeper.old) engine.old
        (option_to_list t.now) (K.kept keeper.new) engine.new e) }
    ensures cause { HasTurnCause (K.faults keeper.old) (K.faults keeper.new) result }
    ensures servers { length engine.new.world.servers ≡ length engine.old.world.servers }
    ensures nodes { nodes_of engine.new ≡ nodes_of engine.old }
{
    match t {
        Some(t) => Ok(Some(engine.turn(alloc, keeper, t)?)),
        None => Ok(None),
    }
}

// Takes the command's claim, if it needs one, and then its own turn, if it got it; and answers the last reply.
fn own_reply<K: Keeper>(
    alloc: Global,
    keeper: &mut K,
    engine: &mut Engine,
    own: &BoxedCommand,
) -> Result<Reply, TurnFault>
    requires own { IsCommandIn engine.old own.now }
    requires nodes { 1 ≤ nodes_of engine.old }
    ensures ok { IfOk result (EndsEach (own_stages own.now)
        (point (K.kept keeper.old) engine.old) (point (K.kept keeper.new) engine.new)) }
    ensures err { IfErr result (StopsEach (own_stages own.now)
        (point (K.kept keeper.old) engine.old) (K.kept keeper.new)) }
    ensures cause { HasTurnCause (K.faults keeper.old) (K.faults keeper.new) result }
{
    let claim = claim_ahead(engine);
    let claimed = take_one(alloc, keeper, engine, &claim)?;
    let own = own_turn(alloc, engine, own)?;
    let told = take_one(alloc, keeper, engine, &own)?;
    Ok(told.or(claimed).unwrap_or(Reply::Lapsed))
}

/// The job that began by a reply.
pub(crate) fn begun_by(reply: &Reply) -> Option<u64>
    ensures { result ≡ begun_by reply.now }
{
    match reply {
        Reply::Begun(job) => Some(*job),
        Reply::Write(_)
        | Reply::Fetch(_)
        | Reply::Apply(_)
        | Reply::Done
        | Reply::Rotate(_)
        | Reply::Purge(_)
        | Reply::Now(_)
        | Reply::Read(_)
        | Reply::ReadUnreachable(_)
        | Reply::Unknown
        | Reply::Stored
        | Reply::Old(_)
        | Reply::Nothing
        | Reply::Told(_)
        | Reply::Refused(_)
        | Reply::Going
        | Reply::Failed(_)
        | Reply::NoJob
        | Reply::Held(_)
        | Reply::Taken { .. }
        | Reply::Released
        | Reply::NotHeld
        | Reply::Lapsed => None,
    }
}

// Takes the rounds of the job that this reply of the command began, if it did, and answers the command's last reply.
fn finish<K: Keeper>(
    alloc: Global,
    keeper: &mut K,
    engine: &mut Engine,
    reply: Reply,
) -> Result<Reply, TurnFault>
    ensures ok { IfOk result (ClosesEach (point (K.kept keeper.old) engine.old) reply
        (point (K.kept keeper.new) engine.new)) }
    ensures err { IfErr result (GivesUpEach (point (K.kept keeper.old) engine.old) reply
        (K.kept keeper.new)) }
    ensures cause { HasTurnCause (K.faults keeper.old) (K.faults keeper.new) result }
{
    let Some(job) = begun_by(&reply) else {
        return Ok(reply);
    };
    let told = engine.finish(alloc, keeper, job)?;
    Ok(told.unwrap_or(reply))
}

// Takes all turns of a single command: the scenario's, its claim, its own and the rounds of its job; and answers its
// last reply.
fn last_reply<K: Keeper>(
    alloc: Global,
    keeper: &mut K,
    engine: &mut Engine,
    turns: &[Turn],
    own: &BoxedCommand,
) -> Result<Reply, TurnFault>
    requires turns { AreTurnsIn engine.old turns.now }
    requires named { AreNamedIn engine.old turns.now }
    requires own { IsCommandIn engine.old own.now }
    requires nodes { 1 ≤ nodes_of engine.old }
    ensures ok { IfOk result (Answers (point (K.kept keeper.old) engine.old)
        turns.now own.now (point (K.kept keeper.new) engine.new)) }
    ensures err { IfErr result (Stops (point (K.kept keeper.old) engine.old)
        turns.now own.now (K.kept keeper.new)) }
    ensures cause { HasTurnCause (K.faults keeper.old) (K.faults keeper.new) result }
{
    engine.run(alloc, keeper, turns)?;
    let reply = own_reply(alloc, keeper, engine, own)?;
    finish(alloc, keeper, engine, reply)
}

/// Takes the scenario's turns, the command's own and the rounds of the job that it began. It writes what its last reply
/// has: its lines on out, or its refusal or the failed job's cause on err, and the tables if they are asked for. If the
/// servers then are asked for, they are on out and all of the reply is on err.
///
/// If there are several orchestrators the active one takes it. If none is active, the first claims. If another's claim
/// lasts, the answer to the claim is written on err, and nothing else. After a row store's fault nothing is written.
pub(crate) fn command_report<O: Sink, E: Sink, K: Keeper>(
    alloc: Global,
    keeper: &mut K,
    engine: &mut Engine,
    scenario: &Scenario,
    turns: &[Turn],
    own: &BoxedCommand,
    extra: Extra,
    names: &[Name],
    out: &mut O,
    err: &mut E,
) -> Ending
    requires turns { AreTurnsIn engine.old turns.now }
    requires named { AreNamedIn engine.old turns.now }
    requires own { IsCommandIn engine.old own.now }
    requires nodes { 1 ≤ nodes_of engine.old }
    ensures stands { CommandStands own.now extra names.now scenario.now turns.now
        (point (K.kept keeper.old) engine.old) (K.kept keeper.new)
        (across (O.written out.old) (O.faults out.old) (O.written out.new) (O.faults out.new))
        (across (E.written err.old) (E.faults err.old) (E.written err.new) (E.faults err.new))
        result }
    ensures cause { HasKeepersCause (K.faults keeper.old) (K.faults keeper.new) result }
    ensures later { E.faults err.old ≤ E.faults err.new }
{
    match last_reply(alloc, keeper, engine, turns, own) {
        Ok(reply) => write_told(alloc, extra, names, scenario, engine, &reply, out, err),
        Err(TurnFault::Keeper) => Ending::Keeper,
        Err(TurnFault::Memory) => Ending::Memory,
    }
}

/// Takes the scenario's turns, and writes the refusal of an instance that no server is on err. If the servers then are
/// asked for, they are on out.
pub(crate) fn unknown_report<O: Sink, E: Sink, K: Keeper>(
    alloc: Global,
    keeper: &mut K,
    engine: &mut Engine,
    scenario: &Scenario,
    turns: &[Turn],
    extra: Extra,
    names: &[Name],
    out: &mut O,
    err: &mut E,
) -> Ending
    requires turns { AreTurnsIn engine.old turns.now }
    requires named { AreNamedIn engine.old turns.now }
    ensures stands { UnknownStands extra names.now scenario.now turns.now
        (point (K.kept keeper.old) engine.old) (K.kept keeper.new)
        (across (O.written out.old) (O.faults out.old) (O.written out.new) (O.faults out.new))
        (across (E.written err.old) (E.faults err.old) (E.written err.new) (E.faults err.new))
        result }
    ensures cause { HasKeepersCause (K.faults keeper.old) (K.faults keeper.new) result }
    ensures later { E.faults err.old ≤ E.faults err.new }
{
    match engine.run(alloc, keeper, turns) {
        Ok(()) => {
            let reply = Reply::Refused(Refusal::UnknownInstance);
            let extra = extra.without_tables();
            write_told(alloc, extra, names, scenario, engine, &reply, out, err)
        }
        Err(TurnFault::Keeper) => Ending::Keeper,
        Err(TurnFault::Memory) => Ending::Memory,
    }
}
