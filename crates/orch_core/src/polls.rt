//! Which servers were read when.

ghost use Rattle.std.specs.Prelude.{◌≡◌, ◌<◌, ◌≤◌, ℕ, IfOk, length, replicate, slice_index};
ghost use Rattle.orch_core.specs.Due.{NotesAct, NotesPoll};

use crate::orch_base::Memory;
use crate::{Act, Turn};
use std::alloc::Global;

/// So many servers, none of which was read.
pub(crate) fn make_polls(alloc: Global, count: usize) -> Result<Vec<u64>, Memory>
    ensures { IfOk result (λ v. v.items ≡ replicate count 0) }
{
    let mut polls = Vec::with_capacity(alloc, count)?;
    'servers: for _ in 0..count {
        polls.push(0)?;
    }
    Ok(polls)
}

// What orchestrator does at this place, from 1: if it is a poll-read, it is the last one of the server that it reads.
fn note_act(polls: &mut Vec<u64>, place: u64, act: &Act)
    ensures count { length polls.new.items ≡ length polls.old.items }
    ensures each { NotesAct polls.old.items polls.new.items place act.now }
{
    match act {
        Act::PollRead(_, no) => {
            let at = no.0 as usize;
            if at < polls.len() {
                polls[at] = place;
            }
        }
        Act::PollStore(_) | Act::Command(_) | Act::Job(_) | Act::Scan | Act::Restart => {}
    }
}

/// A turn at this place, from 1: if it is a poll-read, it is the last one of the server that it reads.
pub(crate) fn note_poll(polls: &mut Vec<u64>, place: u64, t: &Turn)
    ensures count { length polls.new.items ≡ length polls.old.items }
    ensures each { NotesPoll polls.old.items polls.new.items place t.now }
{
    match t {
        Turn::Act(act) | Turn::As(_, act) => note_act(polls, place, act),
        Turn::Step(_) | Turn::Tick(_) | Turn::Claim(_) | Turn::Release(_) => {}
    }
}

/// The first place of the least number.
pub(crate) fn first_least(numbers: &[u64]) -> usize
    requires { 0 < length numbers.now }
    ensures within { result < length numbers.now }
    ensures least { (m : ℕ) → m < length numbers.now
        → slice_index numbers.now result ≤ slice_index numbers.now m }
    ensures first { (m : ℕ) → m < result
        → slice_index numbers.now result < slice_index numbers.now m }
{
    let mut least = 0;
    'numbers: for at in 0..numbers.len() {
        if numbers[at] < numbers[least] {
            least = at;
        }
    }
    least
}
