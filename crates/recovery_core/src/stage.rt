//! How far a scan has come.

ghost use Rattle.std.specs.Prelude.{◌≡◌, ◌<◌, ◌≤◌, ◌-◌, ◌^◌, All, Err, IfOk, None, Ok, OnOk, length, slice_index_or};
ghost use Rattle.recovery_core.specs.Prelude.{MayBegin, busy_by, first_about, longest_block, replicas_of, taken};
ghost use Rattle.recovery_core.specs.Recoveries.{recovery_list};
ghost use Rattle.recovery_core.specs.Scans.{after_try, from_start, staged_refusal, staged_try, HasRoom, IsEntryIn, IsReady};

use crate::attempt::Attempt;
use crate::audit_log::{Audit, Extended};
use crate::commands::{Line, Lines, Refusal};
use crate::failure_analysis::Entry;
use crate::instance_keeper_items::Book;
use crate::orch_base::ServerNo;
use crate::recoveries::{recovery_servers, refusal_by_code};
use crate::server_model::World;
use crate::tries::recovery_begins;
use crate::{Begun, Memory};
use std::alloc::Global;
use std::marker::Model;

// The leases of a book by server number.
fn leases_of(alloc: Global, book: &Book) -> Result<Vec<Option<u64>>, Memory>
    ensures leases { IfOk result (λ v. v.items ≡ book.now.leases) }
    ensures count { IfOk result (λ v. length v.items ≡ length book.now.names) }
{
    let count = book.servers();
    let mut leases = Vec::with_capacity(alloc, count as usize)?;
    for number in 0..count {
        leases.push(book.lease(ServerNo(number)))?;
    }
    Ok(leases)
}

// The first of the servers of which a job has the lease, with that job.
fn busy(leases: &[Option<u64>], servers: &[ServerNo]) -> Option<Refusal>
    requires { All (λ n. n.0 < length leases.now) servers.now }
    ensures { result ≡ first_about (λ n. busy_by n (slice_index_or leases.now n.0 None))
        servers.now }
{
    for no in servers {
        if let Some(job) = leases[no.0 as usize] {
            return Some(Refusal::Busy(*no, job));
        }
    }
    None
}

// Gives a job the leases of the servers.
fn take(leases: &mut [Option<u64>], servers: &[ServerNo], job: u64)
    requires { All (λ n. n.0 < length leases.old) servers.now }
    ensures { leases.new ≡ taken leases.old servers.now job }
{
    for no in servers {
        leases[no.0 as usize] = Some(job);
    }
}

/// The scan's answer for each instance whose analysis asks for a recovery, in name order. Also the recoveries that may
/// begin, each after those before it.
#[derive(Drop)]
pub struct Scan {
    /// A line for each such instance.
    pub lines: Lines,
    /// What begins, in order.
    pub begun: Vec<Begun>,
}

/// How far a scan has come: the leases and the audit with what it has begun, the number of the last job, and what it
/// answers and begins.
#[derive(Drop)]
pub(crate) struct Stage<'a> {
    leases: Vec<Option<u64>>,
    audit: Extended<'a>,
    last: u64,
    lines: Vec<Line>,
    begun: Vec<Begun>,
}

impl<'a> Model for Stage<'a> {
    ghost use Rattle.recovery_core.specs.Scans.{Staged};

    ghost Value = { Staged };

    ghost view = { λ a. record {
      leases = a.leases.items;
      audit = a.audit.audit;
      last = a.last;
      lines = a.lines.items;
      begun = a.begun.items;
    } };
}

impl<'a> Stage<'a> {
    /// Nothing has been tried.
    pub(crate) fn begin(
        alloc: Global,
        book: &Book,
        audit: &'a Audit,
        last: u64,
    ) -> Result<Stage<'a>, Memory>
        ensures stage { IfOk result (λ s. s ≡ from_start book.now audit.now.audit last) }
        ensures count { IfOk result (λ s. length s.leases ≡ length book.now.names) }
    {
        Ok(Stage {
            leases: leases_of(alloc, book)?,
            audit: Extended::of(alloc, audit)?,
            last,
            lines: Vec::new(alloc),
            begun: Vec::new(alloc),
        })
    }

    // What refuses the recovery of an instance.
    fn refusal(
        &self,
        book: &Book,
        world: &World,
        attempt: Attempt,
        list: &[ServerNo],
        replicas: &[ServerNo],
        entry: Entry,
    ) -> Option<Refusal>
        requires entry { IsEntryIn book.now entry }
        requires list { list.now ≡ recovery_list book.now entry.no }
        requires replicas { replicas.now ≡ replicas_of book.now entry.no }
        requires ready { IsReady book.now self.now }
        ensures { result ≡ staged_refusal world.now book.now attempt self.now entry.no }
    {
        match busy(&self.leases, list) {
            Some(refusal) => Some(refusal),
            None => refusal_by_code(
                book,
                world,
                &self.audit,
                attempt,
                entry.no,
                replicas,
                entry.code,
            ),
        }
    }

    // The recovery of an instance is refused.
    fn refuse(&mut self, entry: Entry, refusal: Refusal) -> Result<(), Memory>
        ensures { OnOk result (self.new ≡ after_try self.old entry (Err refusal)) }
    {
        let Entry { no, code, .. } = entry;
        self.lines.push(Line::Refused { no, code, refusal })?;
        Ok(())
    }

    // The recovery of an instance begins.
    fn add(&mut self, alloc: Global, entry: Entry, begun: Begun) -> Result<(), Memory>
        requires last { self.old.last < 2 ^ 64 - 1 }
        requires list { All (λ n. n.0 < length self.old.leases) begun.list }
        requires may { MayBegin self.old.audit begun.entry }
        requires room { begun.entry.id < 2 ^ 64 - 1 }
        ensures { OnOk result (self.new ≡ after_try self.old entry (Ok begun)) }
    {
        let Entry { no, code, .. } = entry;
        let job = self.last + 1;
        self.audit.reserve()?;
        self.audit.begin(begun.entry().copy(alloc)?);
        take(&mut self.leases, begun.list(), job);
        self.last = job;
        self.lines.push(Line::Begun { no, code, job })?;
        self.begun.push(begun)?;
        Ok(())
    }

    /// Tries the recovery of an instance, with its replicas in name order.
    pub(crate) fn try_entry(
        &mut self,
        alloc: Global,
        book: &Book,
        world: &World,
        attempt: Attempt,
        wait: u32,
        entry: Entry,
        replicas: &[ServerNo],
    ) -> Result<(), Memory>
        requires entry { IsEntryIn book.now entry }
        requires replicas { replicas.now ≡ replicas_of book.now entry.no }
        requires ready { IsReady book.now self.old }
        requires block { attempt.block ≤ longest_block }
        ensures tried { OnOk result (self.new ≡ after_try self.old entry
            (staged_try world.now book.now attempt wait self.old entry.no)) }
        ensures room { OnOk result (HasRoom self.old.begun → HasRoom self.new.begun) }
    {
        let list = recovery_servers(alloc, entry.no, replicas)?;
        if let Some(refusal) = self.refusal(book, world, attempt, &list, replicas, entry) {
            return self.refuse(entry, refusal);
        }
        if self.last == u64::MAX {
            return Err(Memory);
        }
        let replicas = replicas.to_vec(alloc)?;
        let begun = recovery_begins(
            alloc,
            book,
            &self.audit,
            attempt.now,
            attempt.block,
            wait,
            self.last + 1,
            entry.no,
            Some(entry.code),
            list,
            replicas,
        )?;
        self.add(alloc, entry, begun)
    }

    pub(crate) fn into_scan(self) -> Scan
        ensures lines { result.lines ≡ self.entry.lines }
        ensures begun { result.begun.items ≡ self.entry.begun }
    {
        Scan {
            lines: Lines::new(self.lines),
            begun: self.begun,
        }
    }
}
