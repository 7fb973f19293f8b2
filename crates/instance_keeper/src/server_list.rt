//! The servers of a book: their settings, which never change, and their order by name.

ghost use Rattle.std.specs.Prelude.{◌≡◌, ◌<◌, ◌^◌, All, IfOk, Some, length, map, slice_get};
ghost use Rattle.instance_keeper.specs.Prelude.{by_name, rank_of};

use crate::Memory;
use crate::orch_base::{Name, ServerNo, Settings};
use name_order::{in_name_order, ranks};
use std::alloc::Global;
use std::marker::Model;

/// The servers by number, and their numbers by name.
pub(crate) struct ServerList {
    settings: Vec<Settings>,
    names: Vec<Name>,
    order: Vec<ServerNo>,
    ranks: Vec<u32>,
}

impl Drop for ServerList {
    fn drop(self) {
        let ServerList {
            settings: _settings,
            names: _names,
            order: _order,
            ranks: _ranks,
        } = self;
    }
}

impl Model for ServerList {
    ghost use Rattle.std.specs.Prelude.{List};
    ghost use Rattle.kept_rows.specs.OrchBase.declared.server.Settings.{Settings as ASettings};
    ghost use Rattle.instance_keeper.specs.ServerLists.{IsServerList};

    ghost Value = { List ASettings };

    ghost view = { λ s. s.settings.items };

    ghost invariant = { λ s.
        IsServerList s.settings.items s.names.items s.order.items s.ranks.items };
}

/// Copies of these settings, in order. `Err` means out of memory.
pub(crate) fn copy_settings(alloc: Global, settings: &[&Settings]) -> Result<Vec<Settings>, Memory>
    ensures { IfOk result (λ copies. copies.items ≡ map (λ s. s.now) settings.now) }
{
    let mut copies = Vec::with_capacity(alloc, settings.len())?;
    'servers: for server in settings {
        copies.push(server.copy(alloc)?)?;
    }
    Ok(copies)
}

// The names in the settings.
fn copy_names(alloc: Global, settings: &[Settings]) -> Result<Vec<Name>, Memory>
    ensures { IfOk result (λ names. names.items ≡ map (λ s. s.name) settings.now) }
{
    let mut names = Vec::with_capacity(alloc, settings.len())?;
    for server in settings {
        names.push(server.name.copy(alloc)?)?;
    }
    Ok(names)
}

impl ServerList {
    /// The list of servers of these settings, by number.
    pub(crate) fn make(alloc: Global, settings: Vec<Settings>) -> Result<ServerList, Memory>
        requires { length settings.items < 2 ^ 32 }
        ensures { IfOk result (λ list. list ≡ settings.items) }
    {
        let names = copy_names(alloc, &settings)?;
        let order = in_name_order(alloc, &names)?;
        let ranks = ranks(alloc, &order)?;
        Ok(ServerList {
            settings,
            names,
            order,
            ranks,
        })
    }

    /// How many servers there are.
    pub(crate) fn count(&self) -> u32
        ensures { result ≡ length self.now }
    {
        self.settings.len() as u32
    }

    /// All settings by number.
    pub(crate) fn all(&self) -> &[Settings]
        ensures { result.now ≡ self.now }
    {
        &self.settings
    }

    /// The names by number.
    pub(crate) fn names(&self) -> &[Name]
        ensures { result.now ≡ map (λ s. s.name) self.now }
    {
        &self.names
    }

    /// The numbers in the order of the names.
    pub(crate) fn order(&self) -> &[ServerNo]
        ensures { result.now ≡ by_name (map (λ s. s.name) self.now) }
    {
        &self.order
    }

    /// A server's place in the order of the names.
    pub(crate) fn rank(&self, no: ServerNo) -> u32
        requires { no.0 < length self.now }
        ensures { result ≡ rank_of (by_name (map (λ s. s.name) self.now)) no.0 }
    {
        self.ranks[no.0 as usize]
    }
}
