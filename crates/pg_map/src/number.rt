//! The numbers that name vertices, partitions, workers, supersteps and editions of a graph, and counts in 32 bits.
ghost use Rattle.std.specs.Prelude.{◌≡◌, ℕ, ◌^◌, ◌<◌, ◌↔◌, IsSome, IfOk, IfSome};

use crate::Memory;
use std::alloc::AllocError;
use std::fmt;
use std::marker::Model;

/// The number of a vertex, at most 2^63 - 1.
#[derive(Clone, Copy, Debug, PartialEq, Eq, PartialOrd, Ord)]
pub struct VertexId {
    number: u64,
}

impl Model for VertexId {
    ghost Value = { ℕ };

    ghost view = { λ v. v.number };

    ghost invariant = { λ v. v.number < 2 ^ 63 };

    ghost inverse = { λ n. record { number = n } };
}

impl VertexId {
    /// The id with this number, or `None` above 2^63 - 1.
    pub fn new(number: u64) -> Option<VertexId>
        ensures some { IsSome result ↔ (number < 2 ^ 63) }
        ensures value { IfSome result (λ id. id ≡ number) }
    {
        if number < 1 << 63 {
            Some(VertexId { number })
        } else {
            None
        }
    }

    /// The number of the id.
    pub fn number(self) -> u64
        ensures value { result ≡ self }
        ensures bound { result < 2 ^ 63 }
    {
        self.number
    }
}

impl fmt::Display for VertexId {
    ghost use Rattle.std.specs.Prelude.{Some};
    ghost use Rattle.std.specs.Fmt.{decimal};

    ghost output = { λ v. Some (decimal v) };

    fn fmt<W: fmt::Write>(&self, f: &mut fmt::Formatter<W>) -> fmt::Result {
        let number = self.number();
        write!(f, "{number}")
    }
}

/// The number of a partition, from 0.
#[derive(Clone, Copy, Debug, PartialEq, Eq, PartialOrd, Ord)]
pub struct PartitionId {
    partition: u32,
}

impl Model for PartitionId {
    ghost Value = { ℕ };

    ghost view = { λ v. v.partition };

    ghost inverse = { λ n. record { partition = n } };
}

impl PartitionId {
    /// The partition with this number.
    pub fn new(number: u32) -> PartitionId
        ensures { result ≡ number }
    {
        PartitionId { partition: number }
    }

    /// The number of the partition.
    pub fn number(self) -> u32
        ensures { result ≡ self }
    {
        self.partition
    }
}

/// The number of a worker, from 0.
#[derive(Clone, Copy, Debug, PartialEq, Eq, PartialOrd, Ord)]
pub struct WorkerId {
    worker: u32,
}

impl Model for WorkerId {
    ghost Value = { ℕ };

    ghost view = { λ v. v.worker };

    ghost inverse = { λ n. record { worker = n } };
}

impl WorkerId {
    /// The worker with this number.
    pub fn new(number: u32) -> WorkerId
        ensures { result ≡ number }
    {
        WorkerId { worker: number }
    }

    /// The number of the worker.
    pub fn number(self) -> u32
        ensures { result ≡ self }
    {
        self.worker
    }
}

/// The number of a superstep of a run, from 0.
#[derive(Clone, Copy, Debug, PartialEq, Eq, PartialOrd, Ord)]
pub struct Superstep {
    superstep: u32,
}

impl Model for Superstep {
    ghost Value = { ℕ };

    ghost view = { λ v. v.superstep };

    ghost inverse = { λ n. record { superstep = n } };
}

impl Superstep {
    /// The superstep with this number.
    pub fn new(number: u32) -> Superstep
        ensures { result ≡ number }
    {
        Superstep { superstep: number }
    }

    /// The number of the superstep.
    pub fn number(self) -> u32
        ensures { result ≡ self }
    {
        self.superstep
    }
}

/// The number of a graph's edition: how many batches it has taken since it was empty.
#[derive(Clone, Copy, Debug, PartialEq, Eq, PartialOrd, Ord)]
pub struct Edition {
    edition: u64,
}

impl Model for Edition {
    ghost Value = { ℕ };

    ghost view = { λ v. v.edition };

    ghost inverse = { λ n. record { edition = n } };
}

impl Edition {
    /// The edition with this number.
    pub fn new(number: u64) -> Edition
        ensures { result ≡ number }
    {
        Edition { edition: number }
    }

    /// The number of the edition.
    pub fn number(self) -> u64
        ensures { result ≡ self }
    {
        self.edition
    }
}

/// A count, or a place in a list, in the 32 bits in which it is kept. A list that needs more is out of memory.
pub fn checked_u32(count: usize) -> Result<u32, Memory>
    ensures { IfOk result (λ n. n ≡ count) }
{
    u32::try_from(count).map_err(|_| AllocError)
}
