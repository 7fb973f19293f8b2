//! Openings of checked servers.

ghost use Rattle.std.specs.Prelude.{Bool, List, Result};
ghost use Rattle.opening_checks.specs.Prelude.{Gives, IsListed, ServerInit, opening};
ghost use Rattle.opening_checks.specs.declared.fault.OpeningFault.{OpeningFault};
ghost use Rattle.opening_checks.specs.Checked.{checked, flaw_of};

use crate::OpeningFault;
use crate::check::check_servers;
use openings::{Opening, ServerInit};
use std::alloc::Global;

/// An opening that is made of servers by a check.
pub trait CheckedOpening: Sized {
    /// The servers are within the limits of an opening.
    ghost may_check: { List ServerInit → Bool → Type 0 };

    /// What the check of these servers answers.
    ghost check_gives: { List ServerInit → Bool → Result Self OpeningFault → Type 0 };

    /// The opening of these servers, whose numbers are in their ranges, if they have no flaw. Each flaw is looked for
    /// at all servers before the next one.
    ///
    /// The time is that of the servers, squared, of the servers times the listed transactions, and of the flush points.
    /// The log of each source, and of each server with purged files, is laid once. For that these logs are kept until
    /// all places are looked at.
    fn check(alloc: Global, servers: Vec<ServerInit>, gtid: bool) -> Result<Self, OpeningFault>
        requires { may_check servers.items gtid }
        ensures { check_gives servers.items gtid result };
}

impl CheckedOpening for Opening {
    ghost may_check = { λ servers gtid. IsListed (opening servers gtid) };

    ghost check_gives = { λ servers gtid result.
        Gives (λ o. o) flaw_of result (checked servers gtid) };

    fn check(alloc: Global, servers: Vec<ServerInit>, gtid: bool) -> Result<Opening, OpeningFault> {
        check_servers(alloc, &servers)?;
        Ok(Opening::of_checked(alloc, servers, gtid)?)
    }
}
