//! Which replicas may be promoted.

ghost use Rattle.std.specs.Prelude.{◌≡◌, IfOk};
ghost use Rattle.permission.specs.Prelude.{is_barred, list_any, rule_at};
ghost use Rattle.permission.specs.Candidates.{is_candidate, without_candidate};

use crate::book_views::replicas;
use crate::by_book::is_valid;
use crate::by_settings::has_log;
use crate::commands::Refusal;
use crate::instance_keeper_items::Book;
use crate::orch_base::{Memory, Moment, Rule, ServerNo};
use crate::server_model::World;
use std::alloc::Global;

// A number that no server has has no registration.
fn rule(book: &Book, no: ServerNo, now: Moment) -> Rule
    ensures { result ≡ rule_at book.now no now }
{
    if no.0 < book.servers() {
        book.rule(no, now)
    } else {
        Rule::Neutral
    }
}

fn is_barred(rule: Rule) -> bool
    ensures { result ≡ is_barred rule }
{
    match rule {
        Rule::MustNot => true,
        Rule::Prefer | Rule::Neutral | Rule::PreferNot => false,
    }
}

/// Whether a server may be promoted at a moment: its last reading reached it, it logs, and no rule of promotion bars
/// it.
pub fn is_candidate(book: &Book, world: &World, no: ServerNo, now: Moment) -> bool
    ensures { result ≡ is_candidate world.now book.now now no }
{
    is_valid(book, no) && has_log(world, no) && !is_barred(rule(book, no, now))
}

/// Whether one of these servers may be promoted at a moment.
pub fn has_candidate(book: &Book, world: &World, servers: &[ServerNo], now: Moment) -> bool
    ensures { result ≡ list_any (is_candidate world.now book.now now) servers.now }
{
    servers.iter().any(|no| is_candidate(book, world, *no, now))
}

/// `NoCandidate`, exactly if none of a server's replicas may be promoted at a moment. `Err` means out of memory.
pub fn without_candidate(
    alloc: Global,
    book: &Book,
    world: &World,
    i: ServerNo,
    now: Moment,
) -> Result<Option<Refusal>, Memory>
    ensures { IfOk result (λ r. r ≡ without_candidate world.now book.now now i) }
{
    if has_candidate(book, world, &replicas(alloc, book, i)?, now) {
        Ok(None)
    } else {
        Ok(Some(Refusal::NoCandidate))
    }
}
