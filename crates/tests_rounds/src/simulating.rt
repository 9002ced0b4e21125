//! The rounds of a run on workers, simulated with plain numbers: where each partition stands, who hosts it, and what
//! was saved.
use crate::fates::Table;
use pg_graph::{Memory, PartitionId, Superstep, WorkerId};
use pg_workers::{Fate, Limits};
use std::alloc::{AllocError, Global};
use std::mem;

/// How many calls each step takes, by superstep and partition: of a partition that goes on against the kept run, and of
/// one that doesn't.
#[derive(Drop)]
pub struct Calls {
    pub warm: Vec<Vec<u64>>,
    pub cold: Vec<Vec<u64>>,
}

impl Calls {
    // The calls of a step.
    fn of(&self, is_warm: bool, superstep: u32, partition: usize) -> u64 {
        let rows = if is_warm { &self.warm } else { &self.cold };
        let row = match rows.get(superstep as usize) {
            Some(row) => row.get(partition),
            None => None,
        };
        match row {
            Some(calls) => *calls,
            None => 0,
        }
    }
}

/// Which checkpoint of a partition can be loaded, of those that were put.
#[derive(Clone, Copy)]
pub enum Findable {
    Last,
    First,
    None,
}

/// What comes of a run.
#[derive(Debug, PartialEq, Eq, Drop)]
pub enum Simulated {
    /// It ends, with so many calls of compute, these steps of each partition, and these workers fallen, each in a
    /// superstep.
    Ended(u64, Vec<u64>, Vec<(u32, u32)>),
    /// It is refused for the reason with this number, which names these workers: those that fell, but none where the
    /// device failed.
    Refused(u8, Vec<(u32, u32)>),
}

// A partition: its host, where it stands, whether it is lost, whether it goes on against the kept run, how many steps
// it made, the superstep at which it was saved last, and that of the checkpoint that can be loaded.
#[derive(Clone, Copy)]
struct VertexWithInbox {
    host: u32,
    place: u32,
    is_lost: bool,
    is_warm: bool,
    steps: u64,
    saved: Option<u32>,
    found: Option<u32>,
}

/// A run between two of its rounds.
#[derive(Drop)]
pub struct Simulation {
    limits: Limits,
    findable: Findable,
    failing: u64,
    with_inboxes: Vec<VertexWithInbox>,
    alive: Vec<bool>,
    current: u32,
    calls: u64,
    puts: u64,
    gets: u64,
    losses: Vec<(u32, u32)>,
}

impl Simulation {
    /// A run as it begins, against a kept run or not, on a shelf of whose checkpoints these can be loaded.
    pub fn new(
        alloc: Global,
        limits: Limits,
        findable: Findable,
        is_warm: bool,
    ) -> Result<Simulation, Memory> {
        let mut with_inboxes = Vec::new(alloc);
        for partition in 0..limits.partitions() {
            with_inboxes.push(VertexWithInbox {
                host: partition.checked_rem(limits.workers()).unwrap_or(0),
                place: 0,
                is_lost: false,
                is_warm,
                steps: 0,
                saved: None,
                found: None,
            })?;
        }
        let mut alive = Vec::new(alloc);
        for _ in 0..limits.workers() {
            alive.push(true)?;
        }
        Ok(Simulation {
            limits,
            findable,
            failing: 0,
            with_inboxes,
            alive,
            current: 0,
            calls: 0,
            puts: 0,
            gets: 0,
            losses: Vec::new(alloc),
        })
    }

    /// This simulation on a shelf whose device fails at the request with this number, from 1 on; 0 is none.
    pub fn failing(self, failing: u64) -> Simulation {
        Simulation { failing, ..self }
    }

    /// How many checkpoints were put.
    pub fn puts(&self) -> u64 {
        self.puts
    }

    /// How often a checkpoint was looked for.
    pub fn gets(&self) -> u64 {
        self.gets
    }

    /// Simulates the run to its end.
    pub fn simulated(
        &mut self,
        alloc: Global,
        calls: &Calls,
        fate: &Table,
    ) -> Result<Simulated, Memory> {
        for _ in 0..10_000 {
            let least = self.least();
            let refused = if least <= self.current {
                self.round(alloc, least, calls, fate)?
            } else if self.current.saturating_add(1) as usize == calls.cold.len() {
                return self.ended(alloc);
            } else {
                self.open_next()
            };
            match refused {
                Some(4) => return Ok(Simulated::Refused(4, Vec::new(alloc))),
                Some(number) => return Ok(Simulated::Refused(number, self.taken_losses(alloc))),
                None => {}
            }
        }
        Err(AllocError)
    }

    // The superstep of the partitions that are furthest behind.
    fn least(&self) -> u32 {
        let mut least = u32::MAX;
        for with_inbox in &self.with_inboxes {
            least = least.min(with_inbox.place);
        }
        least
    }

    // Whether the device fails now.
    fn fails(&self) -> bool {
        self.puts.saturating_add(self.gets) == self.failing
    }

    // The next superstep opens, and all partitions are saved where that is due; the number of a refusal where the
    // device fails.
    fn open_next(&mut self) -> Option<u8> {
        self.current = self.current.saturating_add(1);
        if self.current.checked_rem(self.limits.every()) != Some(0) {
            return None;
        }
        for partition in 0..self.with_inboxes.len() {
            self.puts = self.puts.saturating_add(1);
            if self.fails() {
                return Some(4);
            }
            if let Some(with_inbox) = self.with_inboxes.get_mut(partition) {
                save(with_inbox, self.findable);
            }
        }
        None
    }

    // A round of the partitions at a superstep, and the number of a refusal.
    fn round(
        &mut self,
        alloc: Global,
        superstep: u32,
        calls: &Calls,
        fate: &Table,
    ) -> Result<Option<u8>, Memory> {
        let attempt = self.losses.len();
        let mut fallen = Vec::new(alloc);
        for worker in 0..self.limits.workers() {
            if self.falls(fate, worker, superstep, attempt) {
                fallen.push(worker)?;
            }
        }
        self.step_all(superstep, fallen.as_slice(), calls);
        for worker in &fallen {
            self.losses.push((*worker, superstep))?;
            self.lose(*worker);
        }
        if self.losses.len() > self.limits.max_losses() as usize {
            return Ok(Some(2));
        }
        self.rehost(alloc)
    }

    // Whether a worker falls as it steps its partitions at a superstep.
    fn falls(&self, fate: &Table, worker: u32, superstep: u32, attempt: usize) -> bool {
        let (at, attempt) = (
            Superstep::new(superstep),
            u32::try_from(attempt).unwrap_or(0),
        );
        let mut partition = 0u32;
        for with_inbox in &self.with_inboxes {
            let is_stepped = with_inbox.host == worker && with_inbox.place == superstep;
            let (host, which) = (WorkerId::new(worker), PartitionId::new(partition));
            if is_stepped && fate.falls(at, attempt, host, which) {
                return true;
            }
            partition = partition.saturating_add(1);
        }
        false
    }

    // The partitions at a superstep make a step, but those of the workers that fell.
    fn step_all(&mut self, superstep: u32, fallen: &[u32], calls: &Calls) {
        let mut partition = 0usize;
        for with_inbox in self.with_inboxes.as_mut_slice() {
            if with_inbox.place == superstep && !fallen.contains(&with_inbox.host) {
                let more = calls.of(with_inbox.is_warm, superstep, partition);
                self.calls = self.calls.saturating_add(more);
                with_inbox.steps = with_inbox.steps.saturating_add(1);
                with_inbox.place = superstep.saturating_add(1);
            }
            partition = partition.saturating_add(1);
        }
    }

    // The partitions of a worker are lost.
    fn lose(&mut self, worker: u32) {
        if let Some(alive) = self.alive.get_mut(worker as usize) {
            *alive = false;
        }
        for with_inbox in self.with_inboxes.as_mut_slice() {
            if with_inbox.host == worker {
                with_inbox.is_lost = true;
            }
        }
    }

    // The workers that are alive.
    fn living(&self, alloc: Global) -> Result<Vec<u32>, Memory> {
        let mut living = Vec::new(alloc);
        let mut worker = 0u32;
        for alive in &self.alive {
            if *alive {
                living.push(worker)?;
            }
            worker = worker.saturating_add(1);
        }
        Ok(living)
    }

    // The lost partitions go on at the workers that are alive; the number of a refusal where none is, or the device
    // fails.
    fn rehost(&mut self, alloc: Global) -> Result<Option<u8>, Memory> {
        let living = self.living(alloc)?;
        if living.is_empty() {
            return Ok(Some(3));
        }
        for partition in 0..self.with_inboxes.len() {
            let position = partition.checked_rem(living.len()).unwrap_or(0);
            let host = living.get(position).copied().unwrap_or(0);
            if self.restore(partition, host) {
                return Ok(Some(4));
            }
        }
        Ok(None)
    }

    // A partition goes on at a worker, where it is lost; whether the device fails. A checkpoint is looked for where one
    // was put.
    fn restore(&mut self, partition: usize, host: u32) -> bool {
        let (is_lost, is_saved) = match self.with_inboxes.get(partition) {
            Some(with_inbox) => (with_inbox.is_lost, with_inbox.saved.is_some()),
            None => (false, false),
        };
        if is_lost && is_saved {
            self.gets = self.gets.saturating_add(1);
            if self.fails() {
                return true;
            }
        }
        match self.with_inboxes.get_mut(partition) {
            Some(with_inbox) if is_lost => restore(with_inbox, host),
            _ => {}
        }
        false
    }

    fn taken_losses(&mut self, alloc: Global) -> Vec<(u32, u32)> {
        mem::replace(&mut self.losses, Vec::new(alloc))
    }

    fn ended(&mut self, alloc: Global) -> Result<Simulated, Memory> {
        let mut steps = Vec::new(alloc);
        for with_inbox in &self.with_inboxes {
            steps.push(with_inbox.steps)?;
        }
        Ok(Simulated::Ended(self.calls, steps, self.taken_losses(alloc)))
    }
}

// A partition is saved as it stands.
fn save(with_inbox: &mut VertexWithInbox, findable: Findable) {
    with_inbox.saved = Some(with_inbox.place);
    with_inbox.found = match findable {
        Findable::Last => with_inbox.saved,
        Findable::First => with_inbox.found.or(with_inbox.saved),
        Findable::None => None,
    };
}

// A lost partition goes on at a worker: from the checkpoint where it is the one that was saved last, or else from
// superstep 0, and no longer against the kept run.
fn restore(with_inbox: &mut VertexWithInbox, host: u32) {
    with_inbox.host = host;
    with_inbox.is_lost = false;
    with_inbox.is_warm = false;
    with_inbox.place = match with_inbox.found {
        Some(place) if with_inbox.saved == Some(place) => place,
        _ => 0,
    };
}
