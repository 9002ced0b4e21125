//! Fates: by one or two strikes, by a table, and the one by which all workers fall.
ghost use Rattle.std.specs.Prelude.{◌≡◌, ◌==◌, ◌&&◌};

use pg_graph::{Memory, PartitionId, Superstep, WorkerId};
use pg_workers::Fate;
use std::alloc::Global;
use tests_kit::Random;

/// A superstep, how many losses were recorded before, a worker and one of its partitions.
#[derive(Clone, Copy)]
pub struct Strike {
    pub superstep: u32,
    pub attempt: u32,
    pub worker: u32,
    pub partition: u32,
}

impl Strike {
    /// The strike at these.
    pub fn at(superstep: u32, attempt: u32, worker: u32, partition: u32) -> Strike {
        Strike {
            superstep,
            attempt,
            worker,
            partition,
        }
    }

    fn is(self, superstep: u32, attempt: u32, worker: u32, partition: u32) -> bool
        ensures { result ≡ (superstep == self.superstep && (attempt == self.attempt
            && (worker == self.worker && partition == self.partition))) }
    {
        superstep == self.superstep
            && attempt == self.attempt
            && worker == self.worker
            && partition == self.partition
    }
}

/// The fate by which workers fall at two strikes, which may be the same.
#[derive(Clone, Copy)]
pub struct Strikes {
    pub first: Strike,
    pub second: Strike,
}

impl Strikes {
    /// One strike.
    pub fn once(strike: Strike) -> Strikes {
        Strikes::twice(strike, strike)
    }

    /// Two strikes.
    pub fn twice(first: Strike, second: Strike) -> Strikes {
        Strikes { first, second }
    }
}

impl Fate for Strikes {
    ghost use Rattle.std.specs.Prelude.{◌==◌, ◌&&◌, ◌||◌};

    ghost fated = { λ fate superstep attempt worker partition.
        (superstep == fate.first.superstep && (attempt == fate.first.attempt
        && (worker == fate.first.worker && partition == fate.first.partition)))
        || (superstep == fate.second.superstep && (attempt == fate.second.attempt
        && (worker == fate.second.worker && partition == fate.second.partition))) };

    fn falls(
        &self,
        superstep: Superstep,
        attempt: u32,
        worker: WorkerId,
        partition: PartitionId,
    ) -> bool {
        let (superstep, worker, partition) = (
            superstep.number(),
            worker.number(),
            partition.number(),
        );
        self.first.is(superstep, attempt, worker, partition)
            || self.second.is(superstep, attempt, worker, partition)
    }
}

/// The fate by which each worker falls in its first round.
#[derive(Clone, Copy)]
pub struct AllFall;

impl Fate for AllFall {
    ghost use Rattle.std.specs.Prelude.{true};

    ghost fated = { λ _ _ _ _ _. true };

    fn falls(
        &self,
        _superstep: Superstep,
        _attempt: u32,
        _worker: WorkerId,
        _partition: PartitionId,
    ) -> bool {
        true
    }
}

// How many supersteps, attempts, workers and partitions a table has.
const TABLE: u32 = 8 * 17 * 5 * 7;

/// The fate by a table, by rising superstep, attempt, worker and partition. Past the table no worker falls.
#[derive(Drop)]
pub struct Table {
    pub falls: Vec<bool>,
}

impl Table {
    /// The fate by which about one step in so many strikes.
    pub fn random(alloc: Global, one_in: u32, random: &mut Random) -> Result<Table, Memory> {
        let mut falls = vec![in alloc; false; TABLE as usize]?;
        for _ in 0..TABLE.checked_div(one_in).unwrap_or(0) {
            if let Some(strikes) = falls.get_mut(random.below(TABLE) as usize) {
                *strikes = true;
            }
        }
        Ok(Table { falls })
    }
}

impl Fate for Table {
    ghost use Rattle.std.specs.Prelude.{◌+◌, ◌*◌, false, slice_index_or};

    ghost fated = { λ fate superstep attempt worker partition.
        slice_index_or fate.falls.items (((superstep * 17 + attempt) * 5 + worker) * 7 + partition) false };

    fn falls(
        &self,
        superstep: Superstep,
        attempt: u32,
        worker: WorkerId,
        partition: PartitionId,
    ) -> bool {
        let row = u64::from(superstep.number()) * 17 + u64::from(attempt);
        let row = row * 5 + u64::from(worker.number());
        let place = (row * 7 + u64::from(partition.number())) as usize;
        place < self.falls.len() && self.falls[place]
    }
}
