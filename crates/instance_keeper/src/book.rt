//! The book: what orchestrator knows.

ghost use Rattle.std.specs.Prelude.{◌≡◌, ◌<◌, ◌≤◌, ◌^◌, All, None, Some, [], IfOk, OnErr, OnOk, IsTrue, true, false, fold, length, map, replicate, slice_get, slice_set, slice_index_or, option_map, unwrap_or, nat_lt};
ghost use Rattle.instance_keeper.specs.Prelude.{IsOrder, are_known, by_name, fits, key_servers, observed_servers, option_copied};
ghost use Rattle.instance_keeper.specs.Prelude.{rank_of, row_fits, servers_of, values};
ghost use Rattle.instance_keeper.specs.Bridges.{bridge_in, has_exec, has_own, latest_that, ring_at, ringed};
ghost use Rattle.instance_keeper.specs.Had.{candidate_kept, downtime_kept};
ghost use Rattle.instance_keeper.specs.Reloads.{first_set, place_from};
ghost use Rattle.instance_keeper.specs.Leases.{first_busy, given_back, taken};
ghost use Rattle.instance_keeper.specs.Counts.{CountsUp};
ghost use Rattle.instance_keeper.specs.Book.{empty_book, after_put, after_bridge, after_removal, after_change, lease_at, lease_result, after_row, book_made, instance_at, renewed, store_answer, after_store, shown_by, after_addition, after_discovery, renewal, store_change, downtime_at, rule_at, IsBook};

use crate::binlog_coords_items::Coord;
use crate::bridge::{Bridge, Ring, bridge_in};
use crate::lease::{LeaseFault, first_busy, give_back, take};
use crate::orch_base::{Moment, Name, ServerNo, Settings};
use crate::server_list::{ServerList, copy_settings};
use crate::{Memory, Rule};
use indexmap::IndexMap;
use kept_rows::{Candidate, Change, Downtime, Instance, Key, Observation, Row, Table};
use std::alloc::Global;
use std::marker::Model;
use std::mem::{replace, swap};

/// What became of an observation.
#[derive(Clone, Copy, Debug, PartialEq, Eq)]
pub enum StoreAnswer {
    /// There is no such instance.
    Unknown,
    /// The instance was read later, by this number.
    Old(u64),
    /// It is stored.
    Stored,
}

type Instances = IndexMap<u32, Option<Instance>>;

// A place for each server, all of them empty.
fn empty_instances(alloc: Global, count: u32) -> Result<Instances, Memory>
    ensures keys { IfOk result (λ m. CountsUp 0 m.entries) }
    ensures values { IfOk result (λ m. values m ≡ replicate count None) }
{
    let mut instances = IndexMap::with_capacity(alloc, count as usize)?;
    for no in 0..count {
        instances.insert(no, None)?;
    }
    Ok(instances)
}

// Sets a server's place. It takes no memory.
#[inline(always)]
fn put_at(instances: &mut Instances, no: u32, instance: Option<Instance>)
    requires keys { CountsUp 0 instances.old.entries }
    requires within { no < length (values instances.old) }
    ensures keys { CountsUp 0 instances.new.entries }
    ensures values { values instances.new ≡ slice_set (values instances.old) no instance }
{
    if let Some(place) = instances.get_mut(&no) {
        *place = instance;
    }
}

// Sets the place of this index, which is the server's number: for rows that come in their order. It takes no memory.
#[inline(always)]
fn set_place(instances: &mut Instances, no: u32, instance: Option<Instance>)
    requires keys { CountsUp 0 instances.old.entries }
    requires within { no < length (values instances.old) }
    ensures keys { CountsUp 0 instances.new.entries }
    ensures values { values instances.new ≡ slice_set (values instances.old) no instance }
{
    instances[no as usize] = instance;
}

// Swaps an instance for the one at its place, which is its number: `false` if none is there, and nothing is changed.
#[inline(always)]
fn swap_in(instances: &mut Instances, instance: &mut Instance) -> bool
    requires keys { CountsUp 0 instances.old.entries }
    requires within { instance.old.no.0 < length (values instances.old) }
    ensures keys { CountsUp 0 instances.new.entries }
    ensures swapped { result ≡ true → values instances.new
        ≡ slice_set (values instances.old) instance.old.no.0 (Some instance.old) }
    ensures none { result ≡ false → (values instances.new ≡ values instances.old)
        × (instance.new ≡ instance.old) }
{
    let Some(kept) = &mut instances[instance.no.0 as usize] else {
        return false;
    };
    swap(kept, instance);
    true
}

fn instance_in(instances: &Instances, no: u32) -> Option<&Instance>
    requires keys { CountsUp 0 instances.now.entries }
    requires within { no < length (values instances.now) }
    ensures { option_copied result ≡ slice_index_or (values instances.now) no None }
{
    instances.get(&no)?.as_ref()
}

// The place that a row sets, if a book of so many servers takes it and its place isn't before this one.
#[inline(always)]
fn place_from(next: u32, count: u32, row: &Row) -> Option<u32>
    ensures { result ≡ place_from next count row.now }
{
    match row {
        Row::Instance(instance) => {
            let no = instance.no.0;
            if next <= no && row.fits(count) {
                Some(no)
            } else {
                None
            }
        }
        Row::Downtime(_)
        | Row::Candidate(_)
        | Row::Recovery(_)
        | Row::Switch(_)
        | Row::Active { .. } => None,
    }
}

// Renews what is known of an instance, in its place.
#[inline(always)]
fn renew_place(place: &mut Option<Instance>, o: Observation)
    ensures { place.new ≡ option_map (λ i. renewed i o) place.old }
{
    if let Some(kept) = place {
        kept.no = o.no;
        kept.read = o.read;
        kept.moment = o.moment;
        kept.valid = o.seen.is_some();
        if let Some(seen) = o.seen {
            kept.seen = seen;
        }
    }
}

// Renews what is known of an instance, at its number.
#[inline(always)]
fn renew_at(instances: &mut Instances, o: Observation)
    requires keys { CountsUp 0 instances.old.entries }
    requires within { o.no.0 < length (values instances.old) }
    ensures keys { CountsUp 0 instances.new.entries }
    ensures values { values instances.new ≡ slice_set (values instances.old) o.no.0
        (option_map (λ i. renewed i o) (slice_index_or (values instances.old) o.no.0 None)) }
{
    if let Some(place) = instances.get_mut(&o.no.0) {
        renew_place(place, o);
    }
}

// What is known after a reading, beside what was kept.
#[inline(always)]
fn renewed_copy(kept: &Instance, o: &Observation) -> Result<Instance, Memory>
    ensures { IfOk result (λ i. i ≡ renewed kept.now o.now) }
{
    let seen = match &o.seen {
        Some(seen) => seen.copy()?,
        None => kept.seen.copy()?,
    };
    Ok(Instance {
        no: o.no,
        read: o.read,
        moment: o.moment,
        valid: o.seen.is_some(),
        seen,
    })
}

#[inline(always)]
fn renewal(kept: &Instance, o: &Observation) -> Result<Option<Change>, Memory>
    ensures { IfOk result (λ c. c ≡ renewal kept.now (renewed kept.now o.now)) }
{
    let now = renewed_copy(kept, o)?;
    if kept.is_same(&now) {
        Ok(None)
    } else {
        Ok(Some(Change::Put(Row::Instance(now))))
    }
}

/// What orchestrator knows: the instances, downtimes and candidates by the servers' numbers, and the switch.
pub struct Book {
    servers: ServerList,
    instances: Instances,
    downtimes: Vec<Option<Downtime>>,
    candidates: Vec<Option<Candidate>>,
    switch: Option<bool>,
    rings: Vec<Ring>,
    leases: Vec<Option<u64>>,
}

impl Drop for Book {
    fn drop(self) {
        let Book {
            servers: _servers,
            instances: _instances,
            downtimes: _downtimes,
            candidates: _candidates,
            switch: _switch,
            rings: _rings,
            leases: _leases,
        } = self;
    }
}

impl Model for Book {
    ghost use Rattle.std.specs.Prelude.{map};
    ghost use Rattle.indexmap.specs.IndexMap.{values};
    ghost use Rattle.instance_keeper.specs.Counts.{CountsUp};
    ghost use Rattle.instance_keeper.specs.Book.{BookState, IsBook};

    ghost Value = { BookState };

    ghost view = { λ b. record {
      settings = b.servers;
      names = map (λ s. s.name) b.servers;
      instances = values b.instances;
      downtimes = b.downtimes.items;
      candidates = b.candidates.items;
      switch = b.switch;
      rings = b.rings.items;
      leases = b.leases.items;
    } };

    ghost invariant = { λ b. CountsUp 0 b.instances.entries
        × IsBook (record {
          settings = b.servers;
          names = map (λ s. s.name) b.servers;
          instances = values b.instances;
          downtimes = b.downtimes.items;
          candidates = b.candidates.items;
          switch = b.switch;
          rings = b.rings.items;
          leases = b.leases.items;
        }) };
}

// A place for each server, all of them empty.
fn empty_places<T: Drop>(alloc: Global, count: u32) -> Result<Vec<Option<T>>, Memory>
    ensures { IfOk result (λ places. places.items ≡ replicate count None) }
{
    let mut places = Vec::with_capacity(alloc, count as usize)?;
    for _ in 0..count {
        places.push(None)?;
    }
    Ok(places)
}

// Empties a place, if something is there.
#[inline(always)]
fn clear_place<T: Drop>(place: &mut Option<T>)
    ensures { place.new ≡ None }
{
    if place.is_some() {
        *place = None;
    }
}

// Empties all places.
#[tactic(auto, using(crate::proofs::Cleared::cleared_next, crate::proofs::Cleared::cleared_all))]
fn clear_places<T: Drop>(places: &mut Vec<Option<T>>)
    ensures { places.new.items ≡ replicate (length places.old.items) None }
{
    for place in places.iter_mut() {
        clear_place(place);
    }
}

// Empties all rings.
#[tactic(auto, using(crate::proofs::Cleared::cleared_next, crate::proofs::Cleared::cleared_all))]
fn clear_rings(rings: &mut Vec<Ring>)
    ensures { rings.new.items ≡ replicate (length rings.old.items) [] }
{
    for ring in rings.iter_mut() {
        ring.clear();
    }
}

// A ring for each server, all of them empty.
fn empty_rings(alloc: Global, count: u32) -> Result<Vec<Ring>, Memory>
    ensures { IfOk result (λ rings. rings.items ≡ replicate count []) }
{
    let mut rings = Vec::with_capacity(alloc, count as usize)?;
    for _ in 0..count {
        rings.push(Ring::with_room(alloc)?)?;
    }
    Ok(rings)
}

// The bridge that a reading shows: none if the server wasn't reached.
#[inline(always)]
fn bridge_shown(o: &Observation) -> Option<Bridge>
    ensures { result ≡ bridge_in o.now.no o.now.seen }
{
    match &o.seen {
        Some(seen) => bridge_in(o.no, seen),
        None => None,
    }
}

// The bridge that an instance shows: none if it isn't valid.
fn bridge_of(instance: &Instance) -> Option<Bridge>
    ensures { result ≡ shown_by instance.now }
{
    if instance.valid {
        bridge_in(instance.no, &instance.seen)
    } else {
        None
    }
}

impl Book {
    /// The book of these servers, without a row. `Err` means out of memory.
    pub fn of_servers(alloc: Global, settings: &[&Settings]) -> Result<Book, Memory>
        requires { length settings.now < 2 ^ 32 }
        ensures { IfOk result (λ b. b ≡ empty_book (map (λ s. s.now) settings.now)) }
    {
        let copies = copy_settings(alloc, settings)?;
        let servers = ServerList::make(alloc, copies)?;
        let count = servers.count();
        Ok(Book {
            servers,
            instances: empty_instances(alloc, count)?,
            downtimes: empty_places(alloc, count)?,
            candidates: empty_places(alloc, count)?,
            switch: None,
            rings: empty_rings(alloc, count)?,
            leases: empty_places(alloc, count)?,
        })
    }

    /// How many servers there are.
    pub fn servers(&self) -> u32
        ensures count { result ≡ length self.now.names }
        ensures holds { IsBook self.now }
    {
        self.servers.count()
    }

    /// The servers' settings by number.
    pub fn all_settings(&self) -> &[Settings]
        ensures settings { result.now ≡ self.now.settings }
        ensures count { length result.now ≡ length self.now.names }
    {
        self.servers.all()
    }

    /// A server's settings, which never change.
    pub fn settings(&self, no: ServerNo) -> &Settings
        requires { no.0 < length self.now.names }
        ensures { Some result.now ≡ slice_get self.now.settings no.0 }
    {
        &self.servers.all()[no.0 as usize]
    }

    /// The servers' names by number.
    pub fn names(&self) -> &[Name]
        ensures { result.now ≡ self.now.names }
    {
        self.servers.names()
    }

    /// The name of a server.
    pub fn name(&self, no: ServerNo) -> &Name
        requires { no.0 < length self.now.names }
        ensures { Some result.now ≡ slice_get self.now.names no.0 }
    {
        &self.servers.names()[no.0 as usize]
    }

    /// The servers' numbers in name order: by the host's bytes, then by the port; of equal names the lower number comes
    /// first.
    pub fn order(&self) -> &[ServerNo]
        ensures order { result.now ≡ by_name self.now.names }
        ensures count { length result.now ≡ length self.now.names }
        ensures once { IsOrder result.now }
        ensures within { All (λ server. server.0 < length self.now.names) result.now }
    {
        self.servers.order()
    }

    /// A server's place in name order, counted from 0.
    pub fn rank(&self, no: ServerNo) -> u32
        requires { no.0 < length self.now.names }
        ensures { result ≡ rank_of (by_name self.now.names) no.0 }
    {
        self.servers.rank(no)
    }

    /// What is known of a server: none if it is no instance.
    pub fn instance(&self, no: ServerNo) -> Option<&Instance>
        requires { no.0 < length self.now.names }
        ensures { option_copied result ≡ instance_at self.now no }
    {
        instance_in(&self.instances, no.0)
    }

    /// What is known of each server, by number: none if it is no instance. `Err` means out of memory.
    pub fn instances(&self, alloc: Global) -> Result<Vec<&Option<Instance>>, Memory>
        ensures { IfOk result (λ v. map (λ place. place.now) v.items ≡ self.now.instances) }
    {
        self.instances.values().collect(alloc)
    }

    /// A server's downtime as it is kept, whether or not it still lasts.
    pub(crate) fn kept_downtime(&self, no: ServerNo) -> Option<&Downtime>
        requires { no.0 < length self.now.names }
        ensures { option_copied result ≡ downtime_kept self.now no }
    {
        self.downtimes[no.0 as usize].as_ref()
    }

    /// A server's registration as it is kept, whether or not it still lasts.
    pub(crate) fn kept_candidate(&self, no: ServerNo) -> Option<Candidate>
        requires { no.0 < length self.now.names }
        ensures { result ≡ candidate_kept self.now no }
    {
        self.candidates[no.0 as usize]
    }

    /// The switch as it is kept: none without a row.
    pub(crate) fn kept_switch(&self) -> Option<bool>
        ensures { result ≡ self.now.switch }
    {
        self.switch
    }

    /// Whether recoveries are enabled. They are if no row decides otherwise.
    pub fn enabled(&self) -> bool
        ensures { result ≡ unwrap_or self.now.switch true }
    {
        self.switch.unwrap_or(true)
    }

    /// When a server's downtime ends: none if it has none that lasts longer than now.
    pub fn downtime(&self, no: ServerNo, now: Moment) -> Option<Moment>
        requires { no.0 < length self.now.names }
        ensures { result ≡ downtime_at self.now no now }
    {
        match &self.downtimes[no.0 as usize] {
            Some(downtime) if now < downtime.until => Some(downtime.until),
            _ => None,
        }
    }

    /// A server's rule of promotion: neutral without a registration that lasts longer than now.
    pub fn rule(&self, no: ServerNo, now: Moment) -> Rule
        requires { no.0 < length self.now.names }
        ensures { result ≡ rule_at self.now no now }
    {
        match self.candidates[no.0 as usize] {
            Some(candidate) if now < candidate.until => candidate.rule,
            _ => Rule::Neutral,
        }
    }
}

impl Book {
    /// The book of these servers and rows: of two rows with one table and key the later counts. A row of the recovery
    /// table or the claim's, and one that names an unknown server, are passed over. `Err` means out of memory.
    pub fn make(alloc: Global, settings: &[Settings], rows: &[Row]) -> Result<Book, Memory>
        requires { length settings.now < 2 ^ 32 }
        ensures made { IfOk result (λ b. b ≡ book_made settings.now rows.now) }
        ensures settings { IfOk result (λ b. b.settings ≡ settings.now) }
        ensures names { IfOk result (λ b. b.names ≡ map (λ s. s.name) settings.now) }
        ensures count { IfOk result (λ b. length b.names ≡ length settings.now) }
    {
        let borrowed: Vec<&Settings> = settings.iter().collect(alloc)?;
        let mut book = Book::of_servers(alloc, &borrowed)?;
        'rows: for row in rows {
            book.take(row.copy(alloc)?);
        }
        Ok(book)
    }

    /// Forgets all except the servers, and takes these rows as `make` does: of two with one table and key the later
    /// counts. A row of the recovery table or the claim's, and one that names an unknown server, are passed over.
    /// Bridges and leases are dropped. It takes no memory.
    pub fn reload(&mut self, rows: Vec<Row>)
        ensures made { self.new ≡ book_made self.old.settings rows.items }
        ensures settings { self.new.settings ≡ self.old.settings }
        ensures names { self.new.names ≡ self.old.names }
    {
        self.clear_rest();
        let next = self.set_all(rows);
        let count = self.servers();
        self.empty_between(next, count);
    }

    // Puts these rows, if a book takes them, while all places of instances are still to be set. It gives the next one
    // that is to be set then.
    fn set_all(&mut self, mut rows: Vec<Row>) -> u32
        ensures within { result ≤ length self.new.names }
        ensures after { first_set result self.new ≡
            fold after_row (first_set 0 self.old) rows.items }
        ensures settings { self.new.settings ≡ self.old.settings }
        ensures names { self.new.names ≡ self.old.names }
    {
        let mut next = 0;
        for row in rows.iter_mut() {
            next = self.set_next(next, row);
        }
        next
    }

    // Forgets all except the servers and their instances.
    fn clear_rest(&mut self)
        ensures after { self.new ≡
            record (empty_book self.old.settings) { instances = self.old.instances } }
        ensures settings { self.new.settings ≡ self.old.settings }
        ensures names { self.new.names ≡ self.old.names }
        ensures whole { IsBook self.old }
    {
        clear_places(&mut self.downtimes);
        clear_places(&mut self.candidates);
        self.switch = None;
        clear_rings(&mut self.rings);
        clear_places(&mut self.leases);
    }

    // Puts a row, if a book takes it, while the places of instances from the next one on are still to be set. It gives
    // the next one that is to be set then.
    #[inline(always)]
    fn set_next(&mut self, next: u32, row: &mut Row) -> u32
        requires { next ≤ length self.old.names }
        ensures within { result ≤ length self.new.names }
        ensures after { first_set result self.new ≡ after_row (first_set next self.old) row.old }
        ensures settings { self.new.settings ≡ self.old.settings }
        ensures names { self.new.names ≡ self.old.names }
    {
        match place_from(next, self.servers(), row) {
            Some(no) => {
                self.empty_between(next, no);
                self.put_by_place(row);
                no + 1
            }
            None => {
                self.take(replace(row, Row::Switch(false)));
                next
            }
        }
    }

    // Puts a row, an instance's by its place. What is left of the row doesn't count.
    #[inline(always)]
    fn put_by_place(&mut self, row: &mut Row)
        requires { row_fits (length self.old.names) row.old ≡ true }
        ensures after { self.new ≡ after_put self.old row.old }
        ensures settings { self.new.settings ≡ self.old.settings }
        ensures names { self.new.names ≡ self.old.names }
    {
        if let Row::Instance(instance) = &mut *row {
            if swap_in(&mut self.instances, instance) {
                return;
            }
        }
        self.put_in_place(replace(row, Row::Switch(false)));
    }

    // Empties the places of instances from one on and before another.
    #[inline(always)]
    fn empty_between(&mut self, from: u32, to: u32)
        requires ordered { from ≤ to }
        requires within { to ≤ length self.old.names }
        ensures after { first_set to self.new ≡ first_set from self.old }
        ensures settings { self.new.settings ≡ self.old.settings }
        ensures names { self.new.names ≡ self.old.names }
        ensures places { length self.new.instances ≡ length self.old.instances }
    {
        for no in from..to {
            self.empty_place(no);
        }
    }

    fn empty_place(&mut self, no: u32)
        requires { no < length self.old.names }
        ensures { self.new ≡ record self.old { instances = slice_set self.old.instances no None } }
    {
        set_place(&mut self.instances, no, None);
    }

    // Puts a row, an instance's by its place.
    #[inline(always)]
    fn put_in_place(&mut self, row: Row)
        requires { row_fits (length self.old.names) row ≡ true }
        ensures after { self.new ≡ after_put self.old row }
        ensures settings { self.new.settings ≡ self.old.settings }
        ensures names { self.new.names ≡ self.old.names }
    {
        match row {
            Row::Instance(instance) => {
                set_place(&mut self.instances, instance.no.0, Some(instance));
            }
            other @ (Row::Downtime(_)
            | Row::Candidate(_)
            | Row::Recovery(_)
            | Row::Switch(_)
            | Row::Active { .. }) => self.put(other),
        }
    }

    // Puts a row, if a book takes it.
    fn take(&mut self, row: Row)
        ensures after { self.new ≡ after_row self.old row }
        ensures settings { self.new.settings ≡ self.old.settings }
        ensures names { self.new.names ≡ self.old.names }
    {
        if row.fits(self.servers()) {
            self.put(row);
        }
    }

    /// Makes a change: a server's row, or the switch, is put or removed, and all else stays. It takes no memory.
    pub fn set(&mut self, change: Change)
        requires { IsTrue (fits (length self.old.names) change) }
        ensures after { self.new ≡ after_change self.old change }
        ensures settings { self.new.settings ≡ self.old.settings }
        ensures names { self.new.names ≡ self.old.names }
    {
        match change {
            Change::Put(row) => self.put(row),
            Change::Remove(table, key) => self.remove(table, key),
        }
    }

    #[inline(always)]
    fn put(&mut self, row: Row)
        requires { row_fits (length self.old.names) row ≡ true }
        ensures after { self.new ≡ after_put self.old row }
        ensures settings { self.new.settings ≡ self.old.settings }
        ensures names { self.new.names ≡ self.old.names }
    {
        match row {
            Row::Instance(instance) => {
                put_at(&mut self.instances, instance.no.0, Some(instance));
            }
            Row::Downtime(downtime) => {
                let index = downtime.no.0 as usize;
                self.downtimes[index] = Some(downtime);
            }
            Row::Candidate(candidate) => self.candidates[candidate.no.0 as usize] = Some(candidate),
            Row::Recovery(_) | Row::Active { .. } => {}
            Row::Switch(enabled) => self.switch = Some(enabled),
        }
    }

    fn remove(&mut self, table: Table, key: Key)
        requires { are_known (length self.old.names) (key_servers key) ≡ true }
        ensures after { self.new ≡ after_removal self.old table key }
        ensures settings { self.new.settings ≡ self.old.settings }
        ensures names { self.new.names ≡ self.old.names }
    {
        match (table, key) {
            (Table::Instance, Key::Server(no)) => {
                put_at(&mut self.instances, no.0, None);
                self.rings[no.0 as usize].clear();
            }
            (Table::Downtime, Key::Server(no)) => self.downtimes[no.0 as usize] = None,
            (Table::Candidate, Key::Server(no)) => self.candidates[no.0 as usize] = None,
            (Table::Switch, Key::Global) => self.switch = None,
            (
                Table::Instance | Table::Downtime | Table::Candidate,
                Key::Id(_) | Key::Global | Key::Active,
            )
            | (Table::Switch, Key::Server(_) | Key::Id(_) | Key::Active)
            | (
                Table::Recovery | Table::Active,
                Key::Server(_) | Key::Id(_) | Key::Global | Key::Active,
            ) => {}
        }
    }

    // The number of the last reading of a server.
    fn last_read(&self, no: ServerNo) -> Option<u64>
        requires { no.0 < length self.now.names }
        ensures { result ≡ option_map (λ i. i.read) (instance_at self.now no) }
    {
        match self.instance(no) {
            Some(instance) => Some(instance.read),
            None => None,
        }
    }

    // Renews what is known of an instance.
    #[inline(always)]
    fn renew(&mut self, o: Observation)
        requires { are_known (length self.old.names) (observed_servers o) ≡ true }
        ensures { self.new ≡ record self.old {
          instances = slice_set self.old.instances o.no.0
              (option_map (λ i. renewed i o) (instance_at self.old o.no));
        } }
    {
        renew_at(&mut self.instances, o);
    }

    /// How storing this reading changes the kept rows: not at all if it isn't stored, or the instance stays equal.
    /// `Err` means out of memory.
    pub fn change_by(&self, o: &Observation) -> Result<Option<Change>, Memory>
        requires { o.now.no.0 < length self.now.names }
        ensures { IfOk result (λ c. c ≡ store_change (instance_at self.now o.now.no) o.now) }
    {
        match self.instance(o.no) {
            Some(kept) if kept.read <= o.read => renewal(kept, o),
            _ => Ok(None),
        }
    }

    /// Stores a reading, unless the kept one of that instance is later. One that reached its server replaces the
    /// instance. One that didn't keeps what was seen earlier, which is no longer valid. The bridge that it shows goes
    /// into the server's ring. It takes no memory.
    pub fn store_observation(&mut self, o: Observation) -> StoreAnswer
        requires { IsTrue (are_known (length self.old.names) (observed_servers o)) }
        ensures answer { result ≡ store_answer (instance_at self.old o.no) o }
        ensures after { self.new ≡ after_store self.old o }
        ensures settings { self.new.settings ≡ self.old.settings }
        ensures names { self.new.names ≡ self.old.names }
    {
        match self.last_read(o.no) {
            None => StoreAnswer::Unknown,
            Some(kept) if o.read < kept => StoreAnswer::Old(kept),
            Some(_) => {
                let no = o.no;
                let shown = bridge_shown(&o);
                self.renew(o);
                self.add_shown(no, shown);
                StoreAnswer::Stored
            }
        }
    }

    // Adds the bridge that a reading of a server shows, if it shows one.
    #[inline(always)]
    fn add_shown(&mut self, no: ServerNo, shown: Option<Bridge>)
        requires { no.0 < length self.old.names }
        ensures { self.new ≡ record self.old { rings = ringed self.old.rings no shown } }
    {
        if let Some(bridge) = shown {
            self.rings[no.0 as usize].add(bridge);
        }
    }

    /// Adds an instance in its server's place, and the bridge that it shows if it is valid. It takes no memory.
    #[inline(always)]
    pub fn add(&mut self, instance: Instance)
        requires { IsTrue (are_known (length self.old.names) (servers_of (Row.Instance instance))) }
        ensures after { self.new ≡ after_addition self.old instance }
        ensures settings { self.new.settings ≡ self.old.settings }
        ensures names { self.new.names ≡ self.old.names }
    {
        let no = instance.no;
        let shown = bridge_of(&instance);
        self.put(Row::Instance(instance));
        self.add_shown(no, shown);
    }

    /// Takes in the reading of a server that `discover` asked for. An instance that the book lacks is added if the
    /// server was reached. One that it has is stored as any reading is. It takes no memory.
    pub fn discover(&mut self, o: Observation)
        requires { IsTrue (are_known (length self.old.names) (observed_servers o)) }
        ensures after { self.new ≡ after_discovery self.old o }
        ensures settings { self.new.settings ≡ self.old.settings }
        ensures names { self.new.names ≡ self.old.names }
    {
        if self.instance(o.no).is_some() {
            self.store_observation(o);
            return;
        }
        let Observation {
            no,
            read,
            moment,
            seen,
        } = o;
        if let Some(seen) = seen {
            self.add(Instance {
                no,
                read,
                moment,
                valid: true,
                seen,
            });
        }
    }

    /// Adds a bridge to its server's ring, unless it is equal to the latest there. A ring of 16 drops its oldest. It
    /// takes no memory.
    pub fn add_bridge(&mut self, bridge: Bridge)
        requires { bridge.no.0 < length self.old.names }
        ensures { self.new ≡ after_bridge self.old bridge }
    {
        self.add_shown(bridge.no, Some(bridge));
    }

    /// The latest kept bridge of a server under this source with this executed coordinate.
    pub fn bridge_by_exec(&self, no: ServerNo, source: ServerNo, exec: Coord) -> Option<Bridge>
        requires { no.0 < length self.now.names }
        ensures { result ≡ latest_that (has_exec source exec) (ring_at self.now.rings no) }
    {
        self.rings[no.0 as usize].by_exec(source, exec)
    }

    /// The latest kept bridge of a server under this source with this own coordinate.
    pub fn bridge_by_own(&self, no: ServerNo, source: ServerNo, own: Coord) -> Option<Bridge>
        requires { no.0 < length self.now.names }
        ensures { result ≡ latest_that (has_own source own) (ring_at self.now.rings no) }
    {
        self.rings[no.0 as usize].by_own(source, own)
    }

    /// The job that has a server's lease: none exactly if none has.
    pub fn lease(&self, no: ServerNo) -> Option<u64>
        requires { no.0 < length self.now.names }
        ensures { result ≡ lease_at self.now no }
    {
        self.leases[no.0 as usize]
    }

    /// Gives a job the leases of all these servers. If one of them has a lease already, the job gets none, and `Busy`
    /// names the first such server. It takes no memory.
    pub fn take_leases(&mut self, list: &[ServerNo], job: u64) -> Result<(), LeaseFault>
        requires { All (λ k. k.0 < length self.old.names) list.now }
        ensures result { result ≡ lease_result (first_busy self.old.leases list.now) }
        ensures ok { OnOk result (self.new
            ≡ record self.old { leases = taken self.old.leases list.now job }) }
        ensures err { OnErr result (self.new ≡ self.old) }
    {
        if let Some(fault) = first_busy(&self.leases, list) {
            return Err(fault);
        }
        take(&mut self.leases, list, job);
        Ok(())
    }

    /// Takes all leases of a job from it. It takes no memory.
    pub fn free_leases(&mut self, job: u64)
        ensures { self.new ≡ record self.old { leases = given_back self.old.leases job } }
    {
        give_back(&mut self.leases, job);
    }
}
