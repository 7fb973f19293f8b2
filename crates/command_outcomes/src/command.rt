//! What a command answers, and what it changes.

ghost use Rattle.std.specs.Prelude.{◌≡◌, ◌<◌, ◌≤◌, ◌^◌, ◌∷◌, [], All, IfOk, IfSome, IsTrue, length};
ghost use Rattle.command_outcomes.specs.Prelude.{allowed, discovery_change, instance_at, is_within, option_to_list};
ghost use Rattle.command_outcomes.specs.Outcomes.{begun_by, decision, discovered, early_refusal, forgotten, next_reading, outcome_of, question, refusal, removal, removal_refusal};
ghost use Rattle.command_outcomes.specs.Ids.{LeavesIds};
ghost use Rattle.command_outcomes.specs.CommandsBy.{outcome};

use crate::audit_log::Audit;
use crate::book_views::book_forest;
use crate::commands::{Command, CommandTurn, Decision, Line, Lines, Planner, Refusal, Route};
use crate::instance_keeper_items::{Book, Change, Instance, Key, Observation, Row, Seen, Table};
use crate::jobs::{job, lead_of, permit as permit_job};
use crate::orch_base::{Kind, Listed, Memory, Moment, ServerNo};
use crate::permission_items::{PermitFault, looks_at};
use crate::recovering::begin_by_hand;
use crate::server_model::World;
use crate::turns::Reply;
use crate::{Configuration, read_server};
use asking_commands::{AnswerFault, answer, permit};
use book_commands::{Decided, Effect, decide, rows_of};
use recovery_core::Begun;
use std::alloc::Global;
use std::marker::Model;
use unended_jobs::Unended;

/// The numbers by which a command goes.
#[derive(Clone, Copy)]
pub struct Numbers {
    /// The greatest read number so far.
    pub reads: u64,
    /// The number of the last job that was begun.
    pub last_job: u64,
    /// At most so many times a job waits.
    pub wait: u32,
    /// The distance of marks, 0 for none.
    pub every: u64,
    /// The moment at which it is asked.
    pub moment: Moment,
}

/// A job that begins.
#[derive(Drop)]
pub struct Beginning {
    /// The servers of which it takes the leases.
    pub list: Vec<ServerNo>,
    /// The job, at its first operation.
    pub job: Unended,
}

impl Model for Beginning {
    ghost use Rattle.command_outcomes.specs.Beginnings.{Beginning as Start};

    ghost Value = { Start };

    ghost use Rattle.command_outcomes.specs.BeginningsBy.{beginning_of};

    ghost view = { beginning_of };
}

/// Recoveries that begin one after another, which contracts see as a list.
pub type Recoveries = Listed<Begun>;

/// What a command or a scan makes of the book, the audit and the jobs.
#[derive(Drop)]
pub enum Update {
    /// Nothing.
    Stays,
    /// This change.
    Change(Change),
    /// It takes in what was read of a server.
    Discovery(Observation),
    /// What an operator decided.
    Decides(Effect),
    /// A job begins, which takes its leases.
    Begins(Beginning),
    /// Recoveries begin one after another: each takes its leases, and has its entry in the audit.
    Recovers(Recoveries),
}

/// What a command or a scan comes to.
#[derive(Drop)]
pub struct Outcome {
    /// What it answers.
    pub reply: Reply,
    /// What it makes of what is known.
    pub book: Update,
    /// How it changes the kept rows, in order.
    pub rows: Vec<Change>,
    /// The greatest read number after it.
    pub reads: u64,
}

pub(crate) fn refused(alloc: Global, reads: u64, why: Refusal) -> Outcome
    ensures { outcome result ≡ refusal reads why }
{
    Outcome {
        reply: Reply::Refused(why),
        book: Update::Stays,
        rows: Vec::new(alloc),
        reads,
    }
}

// The name of the instance as the only line.
fn named(alloc: Global, no: ServerNo) -> Result<Reply, Memory>
    ensures { IfOk result (λ r. r ≡ Reply.Told (Line.Server no ∷ [])) }
{
    let mut lines = Vec::with_capacity(alloc, 1)?;
    lines.push(Line::Server(no))?;
    Ok(Reply::Told(Lines::new(lines)))
}

// A list of the change, if there is one.
fn listed(alloc: Global, change: Option<Change>) -> Result<Vec<Change>, Memory>
    ensures { IfOk result (λ v. v.items ≡ option_to_list change) }
{
    let mut changes = Vec::new(alloc);
    if let Some(change) = change {
        changes.push(change)?;
    }
    Ok(changes)
}

// How the kept rows change: an instance that the book lacks is put; for one that it has the rule of stored readings
// holds.
fn discovery_change(book: &Book, o: &Observation, seen: &Seen) -> Result<Option<Change>, Memory>
    requires { o.now.no.0 < length book.now.names }
    ensures { IfOk result (λ c. c ≡ discovery_change
        (instance_at book.now o.now.no) o.now seen.now) }
{
    if book.instance(o.no).is_some() {
        return book.change_by(o);
    }
    Ok(Some(Change::Put(Row::Instance(Instance {
        no: o.no,
        read: o.read,
        moment: o.moment,
        valid: true,
        seen: seen.copy()?,
    }))))
}

fn discovered(alloc: Global, book: &Book, reads: u64, o: Observation) -> Result<Outcome, Memory>
    requires { o.no.0 < length book.now.names }
    ensures { IfOk result (λ out. outcome out ≡ discovered book.now reads o o.seen) }
{
    let Some(seen) = &o.seen else {
        return Ok(refused(alloc, reads, Refusal::Unreachable(o.no)));
    };
    let rows = listed(alloc, discovery_change(book, &o, seen)?)?;
    let reply = named(alloc, o.no)?;
    let reads = o.read;
    Ok(Outcome {
        reply,
        book: Update::Discovery(o),
        rows,
        reads,
    })
}

// Reads the server itself.
fn discover(
    alloc: Global,
    world: &World,
    book: &Book,
    numbers: Numbers,
    no: ServerNo,
) -> Result<Outcome, Memory>
    requires world { no.0 < length world.now.servers }
    requires book { no.0 < length book.now.names }
    ensures { IfOk result (λ out. outcome out ≡ discovered book.now numbers.reads
        (next_reading world.now numbers no) (next_reading world.now numbers no).seen) }
{
    let read = numbers.reads.saturating_add(1);
    let o = read_server(alloc, world, no, read, numbers.moment)?;
    discovered(alloc, book, numbers.reads, o)
}

fn removal(no: ServerNo) -> Change
    ensures { result ≡ removal no }
{
    Change::Remove(Table::Instance, Key::Server(no))
}

// What refuses the removal: an instance that isn't in the book, or one of which a job has the lease.
fn removal_refusal(book: &Book, command: Command) -> Option<Refusal>
    requires i { IsTrue (is_within (length book.now.names) command.i) }
    requires d { IsTrue (is_within (length book.now.names) command.d) }
    ensures { result ≡ removal_refusal book.now command }
{
    if let Err(refusal) = permit(book, command) {
        return Some(refusal);
    }
    let no = command.i?;
    let job = book.lease(no)?;
    Some(Refusal::Busy(no, job))
}

// Removes the instance.
fn forget(
    alloc: Global,
    book: &Book,
    command: Command,
    no: ServerNo,
    reads: u64,
) -> Result<Outcome, Memory>
    requires i { IsTrue (is_within (length book.now.names) command.i) }
    requires d { IsTrue (is_within (length book.now.names) command.d) }
    ensures { IfOk result (λ out. outcome out ≡ forgotten reads
        (allowed (removal_refusal book.now command)) no) }
{
    if let Some(refusal) = removal_refusal(book, command) {
        return Ok(refused(alloc, reads, refusal));
    }
    let rows = listed(alloc, Some(removal(no)))?;
    let reply = named(alloc, no)?;
    Ok(Outcome {
        reply,
        book: Update::Change(removal(no)),
        rows,
        reads,
    })
}

// Asks the book or the audit.
#[tactic(auto, unfolding(asking_commands::specs::Answers::answer_of), using(crate::proofs::Outcomes::asked_told, crate::proofs::Outcomes::asked_refused))]
fn ask(
    alloc: Global,
    book: &Book,
    audit: &Audit,
    reads: u64,
    t: &CommandTurn,
) -> Result<Outcome, Memory>
    requires i { IsTrue (is_within (length book.now.names) t.now.command.i) }
    requires d { IsTrue (is_within (length book.now.names) t.now.command.d) }
    ensures { IfOk result (λ out. outcome out ≡ question book.now audit.now.audit reads t.now) }
{
    match answer(alloc, book, audit.recoveries(), t) {
        Ok(lines) => Ok(Outcome {
            reply: Reply::Told(lines),
            book: Update::Stays,
            rows: Vec::new(alloc),
            reads,
        }),
        Err(AnswerFault::Refused(refusal)) => Ok(refused(alloc, reads, refusal)),
        Err(AnswerFault::Memory) => Err(Memory),
    }
}

// Keeps what an operator decides.
fn decision(
    alloc: Global,
    book: &Book,
    audit: &Audit,
    numbers: Numbers,
    t: &CommandTurn,
    what: Decision,
) -> Result<Outcome, Memory>
    requires i { IsTrue (is_within (length book.now.names) t.now.command.i) }
    requires d { IsTrue (is_within (length book.now.names) t.now.command.d) }
    requires moment { numbers.moment.0 ≤ 2 ^ 63 }
    requires duration { IfSome t.now.keys.duration (λ n. n ≤ 31536000) }
    ensures { IfOk result (λ out. outcome out ≡ decision book.now audit.now.audit numbers t.now
        what) }
{
    if let Err(refusal) = permit(book, t.command) {
        return Ok(refused(alloc, numbers.reads, refusal));
    }
    let now = numbers.moment;
    let decided = decide(alloc, book, audit, now, &t.keys, t.command.i, what)?;
    let rows = rows_of(alloc, audit, &decided.effect)?;
    let Decided { lines, effect } = decided;
    Ok(Outcome {
        reply: Reply::Told(lines),
        book: Update::Decides(effect),
        rows,
        reads: numbers.reads,
    })
}

// Begins the job of a command by the forest of all instances, unless it is refused.
fn begin_by_forest(
    alloc: Global,
    world: &World,
    book: &Book,
    numbers: Numbers,
    command: Command,
    planner: Planner,
) -> Result<Outcome, Memory>
    ensures { IfOk result (λ out. outcome out ≡ begun_by world.now book.now numbers command
        planner) }
{
    let forest = book_forest(alloc, book)?;
    let list = match permit_job(
        alloc,
        book,
        &forest,
        world,
        command,
        planner,
        numbers.moment,
        numbers.every,
    ) {
        Ok(list) => list,
        Err(PermitFault::Refused(why)) => return Ok(refused(alloc, numbers.reads, why)),
        Err(PermitFault::Memory) => return Err(Memory),
    };
    if numbers.last_job == u64::MAX {
        return Err(Memory);
    }
    let number = numbers.last_job + 1;
    let job = job(
        alloc,
        book,
        &forest,
        world,
        command,
        planner,
        number,
        numbers.wait,
        numbers.every,
    )?;
    Ok(Outcome {
        reply: Reply::Begun(number),
        book: Update::Begins(Beginning { list, job }),
        rows: Vec::new(alloc),
        reads: numbers.reads,
    })
}

// What the first checks of a command that begins a job refuse: an unknown instance, or one that is leased. `None` if
// another check comes before that of the lease.
fn early_refusal(book: &Book, command: Command, planner: Planner) -> Option<Refusal>
    requires i { IsTrue (is_within (length book.now.names) command.i) }
    requires d { IsTrue (is_within (length book.now.names) command.d) }
    ensures { result ≡ early_refusal book.now command planner }
{
    if let Err(refusal) = permit(book, command) {
        return Some(refusal);
    }
    let no = command.i?;
    if !looks_at(lead_of(planner), no, command.d) {
        return None;
    }
    let job = book.lease(no)?;
    Some(Refusal::Busy(no, job))
}

// Begins the job of a command, unless it is refused. What the first checks refuse takes no forest of sources. `Memory`
// also comes if no number is left for a job.
fn begin_by(
    alloc: Global,
    world: &World,
    book: &Book,
    numbers: Numbers,
    command: Command,
    planner: Planner,
) -> Result<Outcome, Memory>
    requires i { IsTrue (is_within (length book.now.names) command.i) }
    requires d { IsTrue (is_within (length book.now.names) command.d) }
    ensures { IfOk result (λ out. outcome out ≡ begun_by world.now book.now numbers command
        planner) }
{
    if let Some(refusal) = early_refusal(book, command, planner) {
        return Ok(refused(alloc, numbers.reads, refusal));
    }
    begin_by_forest(alloc, world, book, numbers, command, planner)
}

/// The outcome of a command, by the numbers that it goes by. It changes nothing. `Memory` comes, too, if no number is
/// left for a job, or no id in the audit.
#[tactic(auto, unfolding(crate::specs::Outcomes::outcome_of))]
pub fn outcome_of(
    alloc: Global,
    world: &World,
    book: &Book,
    audit: &Audit,
    configuration: &Configuration,
    numbers: Numbers,
    t: &CommandTurn,
) -> Result<Outcome, Memory>
    requires servers { length book.now.names ≡ length world.now.servers }
    requires i { IsTrue (is_within (length book.now.names) t.now.command.i) }
    requires d { IsTrue (is_within (length book.now.names) t.now.command.d) }
    requires moment { numbers.moment.0 ≤ 2 ^ 63 }
    requires duration { IfSome t.now.keys.duration (λ n. n ≤ 31536000) }
    requires begun { All (λ r. r.begun.0 ≤ 2 ^ 63) audit.now.audit.recoveries }
    ensures outcome { IfOk result (λ out. outcome out
        ≡ outcome_of world.now book.now audit.now.audit configuration.now numbers t.now) }
    ensures ids { IfOk result (λ out. LeavesIds out.book) }
{
    match (Route::of(t.command.name), t.command.i) {
        (Route::Discovers, Some(no)) => discover(alloc, world, book, numbers, no),
        (Route::Forgets, Some(no)) => forget(alloc, book, t.command, no, numbers.reads),
        (Route::Decides(what), _) => decision(alloc, book, audit, numbers, t, what),
        (Route::Begins(planner), _) => begin_by(alloc, world, book, numbers, t.command, planner),
        (Route::Recovers, Some(no)) => {
            begin_by_hand(
                alloc,
                world,
                book,
                audit,
                configuration,
                numbers,
                None,
                no,
                None,
            )
        }
        (Route::TakesOver, Some(no)) => {
            let takeover = Some(Kind::Takeover);
            begin_by_hand(
                alloc,
                world,
                book,
                audit,
                configuration,
                numbers,
                takeover,
                no,
                t.command.d,
            )
        }
        (Route::Recovers | Route::TakesOver, None) => {
            Ok(refused(alloc, numbers.reads, Refusal::UnknownInstance))
        }
        (Route::Discovers | Route::Forgets, None) | (Route::Asks(_), _) => {
            ask(alloc, book, audit, numbers.reads, t)
        }
    }
}
