//! The replicas of each server, in one pass.

ghost use Rattle.std.specs.Prelude.{◌≡◌, ◌++◌, ◌∷◌, [], IfOk, OnOk, length, replicate, true};
ghost use Rattle.recovery_core.specs.Prelude.{are_known, source_servers};
ghost use Rattle.recovery_core.specs.Groups.{joined, AreGroups};

use crate::Memory;
use crate::book_views::seen_source;
use crate::instance_keeper_items::Book;
use crate::orch_base::{ServerNo, SourceState};
use std::alloc::Global;
use std::marker::Model;

/// The instances that are attached to a server.
#[derive(Drop)]
pub(crate) struct Group {
    members: Vec<ServerNo>,
}

impl Model for Group {
    ghost use Rattle.std.specs.Prelude.{List};
    ghost use Rattle.permission.specs.OrchBase.declared.server.ServerNo.{ServerNo as Number};

    ghost Value = { List Number };

    ghost view = { λ g. g.members.items };
}

impl Group {
    fn empty(alloc: Global) -> Group
        ensures { result ≡ [] }
    {
        Group {
            members: Vec::new(alloc),
        }
    }

    fn add(&mut self, no: ServerNo) -> Result<(), Memory>
        ensures { OnOk result (self.new ≡ self.old ++ no ∷ []) }
    {
        self.members.push(no)?;
        Ok(())
    }

    /// These instances, in name order.
    pub(crate) fn members(&self) -> &[ServerNo]
        ensures { result.now ≡ self.now }
    {
        &self.members
    }
}

fn empty_groups(alloc: Global, count: u32) -> Result<Vec<Group>, Memory>
    ensures { IfOk result (λ v. v.items ≡ replicate count []) }
{
    let mut groups = Vec::with_capacity(alloc, count as usize)?;
    for _ in 0..count {
        groups.push(Group::empty(alloc))?;
    }
    Ok(groups)
}

// A server joins those that are attached to its source.
fn join(groups: &mut Vec<Group>, source: SourceState, no: ServerNo) -> Result<(), Memory>
    requires { are_known (length groups.old.items) (source_servers source) ≡ true }
    ensures { OnOk result (groups.new.items ≡ joined groups.old.items source no) }
{
    match source {
        SourceState::Without | SourceState::Detached(_) => Ok(()),
        SourceState::Attached(source) => groups[source.0 as usize].add(no),
    }
}

/// The replicas of each server, by number. The time is linear in the number of servers.
pub(crate) fn groups(alloc: Global, book: &Book) -> Result<Vec<Group>, Memory>
    ensures { IfOk result (λ v. AreGroups book.now v.items) }
{
    let mut groups = empty_groups(alloc, book.servers())?;
    let order = book.order();
    for no in order {
        join(&mut groups, seen_source(book, *no), *no)?;
    }
    Ok(groups)
}
