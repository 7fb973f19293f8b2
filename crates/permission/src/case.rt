//! What the checks of a command are about.

ghost use Rattle.std.specs.Prelude.{◌≡◌, IfOk};
ghost use Rattle.permission.specs.Prelude.{option_to_list};
ghost use Rattle.permission.specs.Lists.{moves_to};

use crate::Memory;
use crate::orch_base::ServerNo;
use std::alloc::Global;
use std::marker::Model;

/// A check of the permission table, by the name of the refusal of one that doesn't pass.
#[derive(Clone, Copy, Debug, PartialEq, Eq)]
pub enum Check {
    /// 3: the new source isn't the instance.
    SameInstance,
    /// 4: no job has a lease of a server that is to be leased.
    Busy,
    /// 5: each server that must be reached is a valid instance.
    Unreachable,
    /// 6: the instance has a source, attached or detached.
    NoSource,
    /// 7: the instance isn't attached.
    NotDetached,
    /// 8: the instance isn't detached.
    AlreadyDetached,
    /// 9: each server that moves has the cluster's label of its new source.
    OtherCluster,
    /// 10: no new source is below the server that moves.
    Below,
    /// 11: the instance's source is attached to a source.
    SourceHasNoSource,
    /// 12: the new source is attached to the instance's source.
    NotSibling,
    /// 13: the new source is the instance's source.
    NotSameLog,
    /// 14: the new sources write binary logs.
    DestNotLogging,
    /// 15: no server that moves has the `server_id` of its new source.
    SameServerId,
    /// 16: no server that moves has a lower version than its new source, by the first two parts.
    VersionLower,
    /// 17: the servers use GTIDs.
    GtidOff,
    /// 18: each server that moves was seen to have executed nothing of its own that wasn't seen of its new source.
    Errant,
    /// 30: no source was seen to have purged the file of the coordinate that was seen of its replica, if a move goes by
    ///   that coordinate.
    PurgedPlace,
    /// 30: no new source was seen to have purged what wasn't seen of the server that moves.
    PurgedSet,
    /// 31: transactions are marked. This check never passes: it is only in the rows of scenarios without marks.
    PseudoOff,
    /// 32: each server that moves writes a binary log.
    MovedNotLogging,
}

/// Which checks of a command's row come first, after the one that its instances are known.
#[derive(Clone, Copy)]
pub enum Lead {
    /// That no job has its instance's lease.
    Held,
    /// That its destination isn't its instance, then that no job has its instance's lease.
    Apart,
    /// That its destination isn't its instance, then that no job has the leases of other servers.
    Other,
}

/// A server that moves, and its new source.
#[derive(Clone, Copy, Debug, PartialEq, Eq)]
pub struct Move {
    /// The server that moves.
    pub no: ServerNo,
    /// Its new source.
    pub source: ServerNo,
}

/// What the checks of a command are about: the instance, its new source, the servers of which the job takes the leases,
/// and those that must be reached. Then which servers move to which source, the new sources, which must log, and the
/// servers by whose coordinates under their sources the moves go. Contracts see it as a `Case` of lists.
#[derive(Drop)]
pub struct Case {
    pub(crate) i: ServerNo,
    pub(crate) to: Option<ServerNo>,
    pub(crate) leased: Vec<ServerNo>,
    pub(crate) reached: Vec<ServerNo>,
    pub(crate) moves: Vec<Move>,
    pub(crate) sources: Vec<ServerNo>,
    pub(crate) crossed: Vec<ServerNo>,
}

impl Model for Case {
    ghost use Rattle.permission.specs.Checks.{Case as ACase};

    ghost Value = { ACase };

    ghost view = { λ c. record {
      i = c.i;
      to = c.to;
      leased = c.leased.items;
      reached = c.reached.items;
      moves = c.moves.items;
      sources = c.sources.items;
      crossed = c.crossed.items;
    } };
}

/// The list of one server, if there is one. `Err` means out of memory.
pub fn one_or_none(alloc: Global, no: Option<ServerNo>) -> Result<Vec<ServerNo>, Memory>
    ensures { IfOk result (λ list. list.items ≡ option_to_list no) }
{
    let mut list = Vec::new(alloc);
    if let Some(no) = no {
        list.push(no)?;
    }
    Ok(list)
}

/// These servers move to one source, if there is one. `Err` means out of memory.
pub fn moves_to(
    alloc: Global,
    servers: &[ServerNo],
    source: Option<ServerNo>,
) -> Result<Vec<Move>, Memory>
    ensures { IfOk result (λ moves. moves.items ≡ moves_to servers.now source) }
{
    let Some(source) = source else {
        return Ok(Vec::new(alloc));
    };
    let mut moves = Vec::with_capacity(alloc, servers.len())?;
    for no in servers {
        moves.push(Move { no: *no, source })?;
    }
    Ok(moves)
}

impl Case {
    /// The case of these lists. It takes no memory.
    pub fn new(
        i: ServerNo,
        to: Option<ServerNo>,
        leased: Vec<ServerNo>,
        reached: Vec<ServerNo>,
        moves: Vec<Move>,
        sources: Vec<ServerNo>,
        crossed: Vec<ServerNo>,
    ) -> Case
        ensures { result ≡ record {
          i = i;
          to = to;
          leased = leased.items;
          reached = reached.items;
          moves = moves.items;
          sources = sources.items;
          crossed = crossed.items;
        } }
    {
        Case {
            i,
            to,
            leased,
            reached,
            moves,
            sources,
            crossed,
        }
    }
}
