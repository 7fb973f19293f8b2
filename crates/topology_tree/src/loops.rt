//! Which nodes come back to themselves by following sources.

ghost use Rattle.std.specs.Prelude.{◌≡◌, ℕ, ◌+◌, ◌^◌, ◌<◌, ◌↔◌, ◌⊎◌, length, slice_index, IfOk, IfSome};
ghost use Rattle.topology_tree.specs.Following.{ComesBack};
ghost use Rattle.topology_tree.specs.Forests.{above, IsClosed};
ghost use Rattle.topology_tree.specs.Marks.{IsMarked, Settles, MarksLoops, IsBefore, Walked, Finished};

use crate::Memory;
use std::alloc::Global;

// Marks what is met by following sources from a node that comes back to itself, that node with it.
fn mark_loop(sources: &[Option<u32>], looped: &mut [bool], node: u32)
    requires range { node < length sources.now }
    requires len { length looped.old ≡ length sources.now }
    requires closed { IsClosed sources.now }
    requires back { ComesBack (above sources.now) node }
    requires marks { MarksLoops (above sources.now) looped.old }
    ensures marks { MarksLoops (above sources.now) looped.new }
    ensures kept { (n : ℕ) → IsMarked looped.old n → IsMarked looped.new n }
    ensures marked { IsMarked looped.new node }
{
    let mut at = node;
    while !looped[at as usize] {
        looped[at as usize] = true;
        if let Some(source) = sources[at as usize] {
            at = source;
        }
    }
}

// Follows sources from a node that no walk has met, and gives each node on the way the walk's number, its start. It
// stops at a node that a walk has met, which is the answer, or at one without a source.
fn follow(sources: &[Option<u32>], walks: &mut [u32], start: u32) -> Option<u32>
    requires few { length sources.now < 2 ^ 32 }
    requires range { start < length sources.now }
    requires len { length walks.old ≡ length sources.now }
    requires closed { IsClosed sources.now }
    requires fresh { slice_index walks.old start ≡ length sources.now }
    requires before { IsBefore sources.now walks.old start }
    ensures walked { Walked sources.now walks.old walks.new start result }
    ensures begun { slice_index walks.new start ≡ start }
    ensures within { IfSome result (λ x. x < length sources.now) }
    ensures met { IfSome result (λ x. slice_index walks.new x < length sources.now) }
{
    let unmet = sources.len() as u32;
    walks[start as usize] = start;
    let mut at = sources[start as usize];
    while let Some(node) = at {
        if walks[node as usize] != unmet {
            return Some(node);
        }
        walks[node as usize] = start;
        at = sources[node as usize];
    }
    None
}

// The nodes that come back to themselves are marked. Each node is met by one walk alone.
pub(crate) fn looped_nodes(alloc: Global, sources: &[Option<u32>]) -> Result<Vec<bool>, Memory>
    requires few { length sources.now < 2 ^ 32 }
    requires closed { IsClosed sources.now }
    ensures len { IfOk result (λ v. length v.items ≡ length sources.now) }
    ensures exact { IfOk result (λ v. (n : ℕ) → n < length sources.now →
        IsMarked v.items n ↔ ComesBack (above sources.now) n) }
    ensures settles { IfOk result (λ v. (n : ℕ) → n < length sources.now →
        Settles (above sources.now) n) }
{
    let unmet = sources.len() as u32;
    let mut walks = vec![in alloc; unmet; sources.len()]?;
    let mut looped = vec![in alloc; false; sources.len()]?;
    for start in 0..unmet {
        if walks[start as usize] == unmet {
            walk_from(sources, &mut walks, &mut looped, start);
        }
    }
    Ok(looped)
}

// One walk, and the loop that it comes to, if it comes to a new one.
fn walk_from(sources: &[Option<u32>], walks: &mut [u32], looped: &mut [bool], start: u32)
    requires few { length sources.now < 2 ^ 32 }
    requires range { start < length sources.now }
    requires walks_len { length walks.old ≡ length sources.now }
    requires looped_len { length looped.old ≡ length sources.now }
    requires closed { IsClosed sources.now }
    requires fresh { slice_index walks.old start ≡ length sources.now }
    requires before { IsBefore sources.now walks.old start }
    requires marks { MarksLoops (above sources.now) looped.old }
    requires finished { Finished sources.now walks.old start looped.old }
    ensures before { IsBefore sources.now walks.new (start + 1) }
    ensures marks { MarksLoops (above sources.now) looped.new }
    ensures finished { Finished sources.now walks.new (start + 1) looped.new }
    ensures kept { (n : ℕ) → n < length sources.now →
        slice_index walks.old n < start → slice_index walks.new n < start + 1 }
    ensures begun { slice_index walks.new start < start + 1 }
{
    if let Some(node) = follow(sources, walks, start) {
        if walks[node as usize] == start {
            mark_loop(sources, looped, node);
        }
    }
}
