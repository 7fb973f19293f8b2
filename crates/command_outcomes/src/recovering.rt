//! The commands that begin recoveries, and the scan.

ghost use Rattle.std.specs.Prelude.{◌≡◌, ◌<◌, ◌≤◌, ◌+◌, ◌-◌, ◌^◌, ℕ, List, All, IfOk, IsTrue, Ok, Result, length};
ghost use Rattle.command_outcomes.specs.Prelude.{Begins, Gives, Refusal as Why, is_within, longest_block, permit_fault};
ghost use Rattle.command_outcomes.specs.Outcomes.{begun_by_hand, entries_put, recovery_begun, scan_by, terms_of};
ghost use Rattle.command_outcomes.specs.CommandsBy.{outcome};
ghost use Rattle.command_outcomes.specs.HookTelling.{told_try};
ghost use Rattle.command_outcomes.specs.Ids.{LeavesIds};
ghost use Rattle.command_outcomes.specs.Periods.{period_by};

use crate::Configuration;
use crate::audit_log::{Audit, Periods};
use crate::book_views::{book_forest, label_at};
use crate::command::{Numbers, Outcome, Recoveries, Update, refused};
use crate::instance_keeper_items::{Book, Change, Row};
use crate::orch_base::{Kind, Memory, ServerNo};
use crate::permission_items::PermitFault;
use crate::server_model::World;
use crate::telling::{all_told, with_told};
use crate::turns::Reply;
use recovery_core::{Ask, Begun, Scan, Terms, scan, try_begin};
use std::alloc::Global;

// Each entry is kept.
fn entries_put(alloc: Global, begun: &[Begun]) -> Result<Vec<Change>, Memory>
    ensures { IfOk result (λ v. v.items ≡ entries_put begun.now) }
{
    let mut changes = Vec::with_capacity(alloc, begun.len())?;
    for one in begun {
        changes.push(Change::Put(Row::Recovery(one.entry().copy(alloc)?.into_row())))?;
    }
    Ok(changes)
}

// A recovery begins with this number.
fn begins(alloc: Global, numbers: Numbers, number: u64, begun: Begun) -> Result<Outcome, Memory>
    requires number { number ≡ numbers.last_job + 1 }
    requires id { begun.entry.id < 2 ^ 64 - 1 }
    ensures outcome { IfOk result (λ out. outcome out ≡ recovery_begun numbers (Ok begun)) }
    ensures ids { IfOk result (λ out. LeavesIds out.book) }
{
    let mut list = Vec::with_capacity(alloc, 1)?;
    list.push_reserved(begun);
    let rows = entries_put(alloc, &list)?;
    Ok(Outcome {
        reply: Reply::Begun(number),
        book: Update::Recovers(Recoveries::new(list)),
        rows,
        reads: numbers.reads,
    })
}

// What a try comes to.
fn recovery_begun(
    alloc: Global,
    book: &Book,
    configuration: &Configuration,
    numbers: Numbers,
    number: u64,
    tried: Result<Begun, PermitFault>,
) -> Result<Outcome, Memory>
    requires number { number ≡ numbers.last_job + 1 }
    requires id { IfOk tried (λ x. x.entry.id < 2 ^ 64 - 1) }
    ensures outcome { IfOk result (λ out. (t : Result Begins Why) →
        Gives (λ x. x) permit_fault tried t →
        outcome out ≡ recovery_begun numbers (told_try configuration.now book.now t)) }
    ensures ids { IfOk result (λ out. LeavesIds out.book) }
{
    match tried {
        Ok(begun) => {
            let begun = with_told(alloc, configuration, book, begun)?;
            begins(alloc, numbers, number, begun)
        }
        Err(PermitFault::Refused(why)) => Ok(refused(alloc, numbers.reads, why)),
        Err(PermitFault::Memory) => Err(Memory),
    }
}

// The number of the next job. `Memory` comes if none is left.
fn next_job(numbers: Numbers) -> Result<u64, Memory>
    ensures { IfOk result (λ n. n ≡ numbers.last_job + 1) }
{
    numbers.last_job.checked_add(1).ok_or(Memory)
}

/// What an operator asks for begins, unless it is refused: the recovery of a server, or the takeover of its place by a
/// replica. The switch, downtimes and filters make no difference. `Memory` comes, too, if no number is left for a job,
/// or no id in the audit.
pub(crate) fn begin_by_hand(
    alloc: Global,
    world: &World,
    book: &Book,
    audit: &Audit,
    configuration: &Configuration,
    numbers: Numbers,
    kind: Option<Kind>,
    failed: ServerNo,
    designated: Option<ServerNo>,
) -> Result<Outcome, Memory>
    requires server { failed.0 < length book.now.names }
    requires d { IsTrue (is_within (length book.now.names) designated) }
    requires begun { All (λ r. r.begun.0 ≤ 2 ^ 63) audit.now.audit.recoveries }
    ensures outcome { IfOk result (λ out. outcome out ≡ begun_by_hand world.now book.now
        audit.now.audit configuration.now numbers kind failed designated) }
    ensures ids { IfOk result (λ out. LeavesIds out.book) }
{
    let forest = book_forest(alloc, book)?;
    let number = next_job(numbers)?;
    let ask = Ask {
        world,
        book,
        forest: &forest,
        audit,
        by_master: true,
        by_intermediate: true,
        enabled: true,
        by_hand: true,
        kind,
        failed,
        designated,
        block: configuration.period(failed, label_at(book, failed).as_str()),
        wait: numbers.wait,
        job: number,
        moment: numbers.moment,
    };
    let tried = try_begin(alloc, &ask);
    recovery_begun(alloc, book, configuration, numbers, number, tried)
}

fn terms_of(book: &Book, numbers: Numbers) -> Terms
    ensures { result ≡ terms_of book.now numbers }
{
    Terms {
        enabled: book.enabled(),
        wait: numbers.wait,
        now: numbers.moment,
    }
}

/// What a scan answers and begins. It changes nothing. `Memory` comes, too, if no number is left for a job, or no id in
/// the audit.
pub fn scan_by(
    alloc: Global,
    world: &World,
    book: &Book,
    audit: &Audit,
    configuration: &Configuration,
    numbers: Numbers,
) -> Result<Outcome, Memory>
    requires begun { All (λ r. r.begun.0 ≤ 2 ^ 63) audit.now.audit.recoveries }
    requires moment { numbers.moment.0 ≤ 2 ^ 63 }
    requires periods { (cluster : List ℕ) → period_by configuration.now cluster ≤ longest_block }
    ensures outcome { IfOk result (λ out. outcome out
        ≡ scan_by world.now book.now audit.now.audit configuration.now numbers) }
    ensures ids { IfOk result (λ out. LeavesIds out.book) }
{
    let masters = configuration.master.as_slice();
    let intermediates = configuration.intermediate.as_slice();
    let terms = terms_of(book, numbers);
    let last = numbers.last_job;
    let Scan { lines, begun } = scan(
        alloc,
        book,
        world,
        audit,
        masters,
        intermediates,
        configuration,
        terms,
        last,
    )?;
    let begun = all_told(alloc, configuration, book, begun)?;
    let rows = entries_put(alloc, &begun)?;
    Ok(Outcome {
        reply: Reply::Told(lines),
        book: Update::Recovers(Recoveries::new(begun)),
        rows,
        reads: numbers.reads,
    })
}
