//! Groups of drained replicas.

ghost use Rattle.std.specs.Prelude.{◌≡◌, ◌<◌, ◌++◌, IfOk, OnOk, length};
ghost use Rattle.std.specs.Option.{option_to_list};
ghost use Rattle.promotion_rules.specs.Groups.{ahead_at, ahead_in, behind_at, behind_in, follow_at, follow_in, group_of};

use crate::Memory;
use crate::binlog_coords_items::Coord;
use crate::drained::Drained;
use crate::orch_base::ServerNo;
use instance_keeper::Book;
use std::alloc::Global;

/// What is known of the replica that is promoted.
#[derive(Drop)]
pub struct Lines<'a> {
    /// The book, which keeps its latest bridges.
    pub book: &'a Book,
    /// The end of its own binary log.
    pub own_end: Coord,
    /// How far it has executed the source's log.
    pub exec: Coord,
}

/// How a drained replica goes below the one that is promoted.
#[derive(Clone, Copy, Debug, PartialEq, Eq)]
pub enum Group {
    /// Below it, at this coordinate of its binary log.
    Follow(Coord),
    /// Nowhere: it has executed more of the source's log.
    Ahead,
    /// Nowhere: it has executed less, and no kept bridge has the position in the promoted one's log that follows.
    Behind,
}

/// Drained replicas by how they go, each list in their order.
#[derive(Drop)]
pub struct Groups {
    /// Those that go below the promoted one, each with the coordinate of its binary log.
    pub follow: Vec<(ServerNo, Coord)>,
    /// Those that have executed more of the source's log, each with how much.
    pub ahead: Vec<(ServerNo, Coord)>,
    /// Those that have executed less and can't follow, each with how much.
    pub behind: Vec<(ServerNo, Coord)>,
}

impl Groups {
    // A replica joins the list of its group.
    fn add(&mut self, replica: Drained, group: Group) -> Result<(), Memory>
        ensures follow { OnOk result (self.new.follow.items
            ≡ self.old.follow.items ++ option_to_list (follow_at replica.no group)) }
        ensures ahead { OnOk result (self.new.ahead.items
            ≡ self.old.ahead.items ++ option_to_list (ahead_at replica.no replica.exec group)) }
        ensures behind { OnOk result (self.new.behind.items
            ≡ self.old.behind.items ++ option_to_list (behind_at replica.no replica.exec group)) }
    {
        match group {
            Group::Follow(at) => self.follow.push((replica.no, at))?,
            Group::Ahead => self.ahead.push((replica.no, replica.exec))?,
            Group::Behind => self.behind.push((replica.no, replica.exec))?,
        }
        Ok(())
    }
}

/// How a replica goes that is at `exec` of the source's log, beside the promoted one. One at the same position goes to
/// its own end. One that is after it is ahead. One that is before it goes to the own coordinate of the latest kept
/// bridge of the promoted one under the source with that coordinate. It is `Behind` exactly if there is none.
pub fn group_of(promoted: ServerNo, by: &Lines<'_>, exec: Coord, source: ServerNo) -> Group
    requires { promoted.0 < length by.now.book.now.names }
    ensures { result
        ≡ group_of by.now.book.now.rings promoted by.now.own_end by.now.exec source exec }
{
    if exec == by.exec {
        return Group::Follow(by.own_end);
    }
    if by.exec < exec {
        return Group::Ahead;
    }
    match by.book.bridge_by_exec(promoted, source, exec) {
        Some(bridge) => Group::Follow(bridge.own),
        None => Group::Behind,
    }
}

/// Divides drained replicas of a source, without the promoted one, by how they go. `Err` means out of memory.
pub fn split(
    alloc: Global,
    promoted: ServerNo,
    by: Lines<'_>,
    drained: &[Drained],
    source: ServerNo,
) -> Result<Groups, Memory>
    requires { promoted.0 < length by.book.now.names }
    ensures follow { IfOk result (λ g. g.follow.items ≡ follow_in (group_of by.entry.book.now.rings
        promoted by.entry.own_end by.entry.exec source) drained.now) }
    ensures ahead { IfOk result (λ g. g.ahead.items ≡ ahead_in (group_of by.entry.book.now.rings
        promoted by.entry.own_end by.entry.exec source) drained.now) }
    ensures behind { IfOk result (λ g. g.behind.items ≡ behind_in (group_of by.entry.book.now.rings
        promoted by.entry.own_end by.entry.exec source) drained.now) }
{
    let mut groups = Groups {
        follow: Vec::new(alloc),
        ahead: Vec::new(alloc),
        behind: Vec::new(alloc),
    };
    for replica in drained {
        groups.add(*replica, group_of(promoted, &by, replica.exec, source))?;
    }
    Ok(groups)
}
