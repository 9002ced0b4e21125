//! Where a run over partitions stands.
ghost use Rattle.std.specs.Prelude.{◌≡◌, ◌+◌, ◌%◌, ◌<◌, ◌==◌, ◌^◌, cond, map, slice_set, None, Some, IfOk};
ghost use Rattle.std.specs.List.{list_all, range_with_len};
ghost use Rattle.std.specs.Option.{option_map};
ghost use Rattle.pg_core_machine.specs.Machine.{after, first_state, host_of, is_alive, is_allowed, is_at};
ghost use Rattle.pg_core_machine.specs.Machine.{is_from as from_test, place_at, places_without, saved_at};
ghost use Rattle.pg_core_machine.specs.declared.event.Closed.{Closed};
ghost use Rattle.pg_core_machine.specs.declared.event.Event.{Event};

use crate::Closed;
use pg_graph::{Memory, PartitionId, Superstep, WorkerId};
use std::alloc::Global;
use std::marker::Model;

/// Where a run over partitions stands between two events.
pub struct State {
    hosts: Vec<WorkerId>,
    places: Vec<Option<Superstep>>,
    saved: Vec<Option<Superstep>>,
    current: Superstep,
    alive: Vec<bool>,
    ended: bool,
}

// By hand, so that it is let go by one call wherever that is, and not field by field.
impl Drop for State {
    fn drop(self) {
        let State {
            hosts: _,
            places: _,
            saved: _,
            current: _,
            alive: _,
            ended: _,
        } = self;
    }
}

impl Model for State {
    ghost use Rattle.pg_core_machine.specs.Machine.{State};

    ghost Value = { State };

    ghost view = { λ s. record {
      hosts = s.hosts.items;
      places = s.places.items;
      saved = s.saved.items;
      current = s.current;
      alive = s.alive.items;
      ended = s.ended;
    } };
}

impl State {
    /// By partition, the worker that hosts it.
    pub fn hosts(&self) -> &[WorkerId]
        ensures { result.now ≡ self.now.hosts }
    {
        self.hosts.as_slice()
    }

    /// By partition, the superstep that it is at; `None` where it is lost.
    pub fn places(&self) -> &[Option<Superstep>]
        ensures { result.now ≡ self.now.places }
    {
        self.places.as_slice()
    }

    /// By partition, the superstep that was saved, if one was.
    pub fn saved(&self) -> &[Option<Superstep>]
        ensures { result.now ≡ self.now.saved }
    {
        self.saved.as_slice()
    }

    /// The open superstep, or the last one of a run that has ended.
    pub fn current(&self) -> Superstep
        ensures { result ≡ self.now.current }
    {
        self.current
    }

    /// By worker, whether it is alive.
    pub fn alive(&self) -> &[bool]
        ensures { result.now ≡ self.now.alive }
    {
        self.alive.as_slice()
    }

    /// Whether the run has ended.
    pub fn ended(&self) -> bool
        ensures { result ≡ self.now.ended }
    {
        self.ended
    }

    /// The superstep that a partition is at. `None` where it is lost, and for a number that is none of a partition.
    pub fn place(&self, partition: PartitionId) -> Option<Superstep>
        ensures { result ≡ place_at partition self.now }
    {
        let place = partition.number() as usize;
        if place >= self.places.len() {
            return None;
        }
        self.places[place]
    }

    /// The worker that hosts a partition; worker 0 for a number that is none of a partition.
    pub fn host(&self, partition: PartitionId) -> WorkerId
        ensures { result ≡ host_of partition self.now }
    {
        let place = partition.number() as usize;
        if place >= self.hosts.len() {
            return WorkerId::new(0);
        }
        self.hosts[place]
    }

    /// Whether a partition may step: the run hasn't ended, the partition's superstep isn't past the open one, and no
    /// partition is behind it or lost. Costs O(partitions).
    pub fn may_step(&self, partition: PartitionId) -> bool
        ensures { result ≡ is_allowed self.now (Event.Step partition) }
    {
        if self.ended {
            return false;
        }
        match self.place(partition) {
            Some(place) => place <= self.current && all_from(self.places.as_slice(), place),
            None => false,
        }
    }

    /// Whether the open superstep may be closed: the run hasn't ended, and all partitions are past it. Costs
    /// O(partitions).
    pub fn may_close(&self) -> bool
        requires { self.now.current + 1 < 2 ^ 32 }
        ensures { result ≡ is_allowed self.now (Event.Close Closed.Next) }
    {
        let next = Superstep::new(self.current.number() + 1);
        !self.ended && all_at(self.places.as_slice(), next)
    }

    /// The superstep of a partition that was saved, if one was; `None` for a number that is none of a partition.
    pub fn saved_place(&self, partition: PartitionId) -> Option<Superstep>
        ensures { result ≡ saved_at partition self.now }
    {
        let index = partition.number() as usize;
        if index >= self.saved.len() {
            return None;
        }
        self.saved[index]
    }

    /// Whether a worker is alive; one that there isn't is not.
    pub fn is_alive(&self, worker: WorkerId) -> bool
        ensures { result ≡ is_alive worker self.now }
    {
        let index = worker.number() as usize;
        index < self.alive.len() && self.alive[index]
    }

    /// Whether a worker may fall: the run hasn't ended, and it is alive.
    pub fn may_lose(&self, worker: WorkerId) -> bool
        ensures { result ≡ is_allowed self.now (Event.Lose worker) }
    {
        !self.ended && self.is_alive(worker)
    }

    /// Whether a partition may be given to a worker: the run hasn't ended, there is the partition, and the worker is
    /// alive.
    pub fn may_host(&self, partition: PartitionId, worker: WorkerId) -> bool
        ensures { result ≡ is_allowed self.now (Event.Host partition worker) }
    {
        let there = (partition.number() as usize) < self.places.len();
        !self.ended && there && self.is_alive(worker)
    }

    /// Whether a partition may be restored at a superstep: the run hasn't ended, the partition is lost, its host is
    /// alive, and the superstep is the first or the one that was saved.
    pub fn may_restore(&self, partition: PartitionId, superstep: Superstep) -> bool
        ensures { result ≡ is_allowed self.now (Event.Restore partition superstep) }
    {
        let there = (partition.number() as usize) < self.places.len();
        let lost = self.place(partition).is_none();
        let alive = self.is_alive(self.host(partition));
        let known = superstep.number() == 0 || self.saved_place(partition) == Some(superstep);
        !self.ended && there && lost && alive && known
    }

    /// Whether a partition may be saved: the run hasn't ended, and the partition isn't lost.
    pub fn may_save(&self, partition: PartitionId) -> bool
        ensures { result ≡ is_allowed self.now (Event.Save partition) }
    {
        !self.ended && self.place(partition).is_some()
    }

    /// As a run begins.
    pub fn first(alloc: Global, partitions: u32, workers: u32) -> Result<State, Memory>
        requires { 0 < workers }
        ensures { IfOk result (λ state. state ≡ first_state partitions workers) }
    {
        Ok(State {
            hosts: first_hosts(alloc, partitions, workers)?,
            places: filled(alloc, partitions, Some(Superstep::new(0)))?,
            saved: filled(alloc, partitions, None)?,
            current: Superstep::new(0),
            alive: filled(alloc, workers, true)?,
            ended: false,
        })
    }

    /// A partition has made a step.
    pub fn step(&mut self, partition: PartitionId, next: Superstep)
        requires { option_map (λ r. r + 1) (place_at partition self.old) ≡ Some next }
        ensures { self.new ≡ after self.old (Event.Step partition) }
    {
        let place = partition.number() as usize;
        if place < self.places.len() {
            self.places[place] = Some(next);
        }
    }

    /// A worker has fallen: the partitions that it hosts are lost.
    pub fn lose(&mut self, worker: WorkerId)
        ensures { self.new ≡ after self.old (Event.Lose worker) }
    {
        let index = worker.number() as usize;
        if index < self.alive.len() {
            self.alive[index] = false;
        }
        lose_hosted(worker, self.hosts.as_slice(), &mut self.places);
    }

    /// A worker hosts a partition from now on.
    pub fn host_on(&mut self, partition: PartitionId, worker: WorkerId)
        ensures { self.new ≡ after self.old (Event.Host partition worker) }
    {
        let index = partition.number() as usize;
        if index < self.hosts.len() {
            self.hosts[index] = worker;
        }
    }

    /// A partition is at a superstep again.
    pub fn restore(&mut self, partition: PartitionId, superstep: Superstep)
        ensures { self.new ≡ after self.old (Event.Restore partition superstep) }
    {
        let index = partition.number() as usize;
        if index < self.places.len() {
            self.places[index] = Some(superstep);
        }
    }

    /// The superstep of a partition was saved.
    pub fn save(&mut self, partition: PartitionId)
        ensures { self.new ≡ after self.old (Event.Save partition) }
    {
        let place = self.place(partition);
        let index = partition.number() as usize;
        if index < self.saved.len() {
            self.saved[index] = place;
        }
    }

    /// The open superstep was closed.
    pub fn close(&mut self, closed: Closed)
        requires { self.old.current + 1 < 2 ^ 32 }
        ensures { self.new ≡ after self.old (Event.Close closed) }
    {
        match closed {
            Closed::Next => self.current = Superstep::new(self.current.number() + 1),
            Closed::Ended => self.ended = true,
        }
    }
}

/// The partitions that a worker hosts are lost, by their hosts.
fn lose_hosted(worker: WorkerId, hosts: &[WorkerId], places: &mut Vec<Option<Superstep>>)
    ensures { places.new.items ≡ places_without worker hosts.now places.old.items }
{
    for index in 0..hosts.len() {
        lose_if_hosted(worker, hosts[index], index, places);
    }
}

/// The partition of this number is lost, if its host is that worker.
fn lose_if_hosted(
    worker: WorkerId,
    host: WorkerId,
    index: usize,
    places: &mut Vec<Option<Superstep>>,
)
    ensures { places.new.items ≡ cond (host == worker) (slice_set places.old.items index None) places.old.items }
{
    if host == worker && index < places.len() {
        places[index] = None;
    }
}

/// The workers that host so many partitions at first: one after another, and again.
fn first_hosts(alloc: Global, partitions: u32, workers: u32) -> Result<Vec<WorkerId>, Memory>
    requires { 0 < workers }
    ensures { IfOk result (λ hosts. hosts.items ≡ map (λ p. p % workers) (range_with_len 0 partitions)) }
{
    let mut hosts = Vec::new(alloc);
    for partition in 0..partitions {
        hosts.push(WorkerId::new(partition % workers))?;
    }
    Ok(hosts)
}

/// A value so many times.
fn filled<T: Copy>(alloc: Global, count: u32, value: T) -> Result<Vec<T>, Memory>
    ensures { IfOk result (λ values. values.items ≡ map (λ _. value) (range_with_len 0 count)) }
{
    let mut values = Vec::new(alloc);
    for _place in 0..count {
        values.push(value)?;
    }
    Ok(values)
}

/// Whether all of them are at a superstep.
fn all_at(places: &[Option<Superstep>], superstep: Superstep) -> bool
    ensures { result ≡ list_all (is_at superstep) places.now }
{
    places.iter().all(|place| *place == Some(superstep))
}

/// Whether all of them are at a superstep or further.
fn all_from(places: &[Option<Superstep>], superstep: Superstep) -> bool
    ensures { result ≡ list_all (from_test superstep) places.now }
{
    places.iter().all(|place| is_from(*place, superstep))
}

/// Whether a partition at this place is at a superstep or further.
fn is_from(place: Option<Superstep>, superstep: Superstep) -> bool
    ensures { result ≡ from_test superstep place }
{
    match place {
        Some(place) => superstep <= place,
        None => false,
    }
}
