//! The numbers of a run over partitions.
ghost use Rattle.std.specs.Prelude.{◌≡◌, ◌↔◌, IsSome, IfSome};
ghost use Rattle.pg_core_machine.specs.Limits.{AreLimits};
ghost use Rattle.pg_graph.specs.declared.missing.Missing.TheVariants.{Drop as DropThem};

use pg_graph::Missing;
use std::marker::Model;

/// The numbers of a run over partitions: how many partitions and workers there are, how many supersteps at most,
/// after how many a partition is saved, how many losses are borne, and what becomes of messages to no vertex.
#[derive(Clone, Copy, Debug, PartialEq, Eq)]
pub struct Limits {
    partitions: u32,
    workers: u32,
    limit: u32,
    every: u32,
    max_losses: u32,
    missing: Missing,
}

impl Model for Limits {
    ghost use Rattle.pg_core_machine.specs.Limits.{AreLimits, Limits};

    ghost Value = { Limits };

    ghost view = { λ l. record {
      partitions = l.partitions;
      workers = l.workers;
      limit = l.limit;
      every = l.every;
      max_losses = l.max_losses;
      missing = l.missing;
    } };

    ghost invariant = { λ l. AreLimits (record {
      partitions = l.partitions;
      workers = l.workers;
      limit = l.limit;
      every = l.every;
      max_losses = l.max_losses;
      missing = l.missing;
    }) };

    ghost inverse = { λ l. record {
      partitions = l.partitions;
      workers = l.workers;
      limit = l.limit;
      every = l.every;
      max_losses = l.max_losses;
      missing = l.missing;
    } };
}

impl Limits {
    /// So many partitions (1 to 64), workers (1 to 16) and supersteps at most (1 to 10,000); each partition is saved
    /// after so many supersteps (up to 1,000, 0 for never); so many losses are borne (up to 16). `None` for any other
    /// number. Messages to no vertex are dropped.
    pub fn new(
        partitions: u32,
        workers: u32,
        limit: u32,
        every: u32,
        max_losses: u32,
    ) -> Option<Limits>
        ensures some { IsSome result ↔ AreLimits (record {
          partitions = partitions;
          workers = workers;
          limit = limit;
          every = every;
          max_losses = max_losses;
          missing = DropThem;
        }) }
        ensures value { IfSome result
            (λ limits. limits ≡ record {
              partitions = partitions;
              workers = workers;
              limit = limit;
              every = every;
              max_losses = max_losses;
              missing = DropThem;
            }) }
    {
        let are_least = partitions > 0 && workers > 0 && limit > 0;
        let are_most = partitions <= 64 && workers <= 16 && limit <= 10_000;
        if are_least && are_most && every <= 1_000 && max_losses <= 16 {
            return Some(Limits {
                partitions,
                workers,
                limit,
                every,
                max_losses,
                missing: Missing::Drop,
            });
        }
        None
    }

    /// These limits with another policy for messages to ids without a vertex.
    pub fn with_missing(self, missing: Missing) -> Limits
        ensures { result ≡ record self { missing = missing } }
    {
        Limits {
            partitions: self.partitions,
            workers: self.workers,
            limit: self.limit,
            every: self.every,
            max_losses: self.max_losses,
            missing,
        }
    }

    /// How many partitions there are.
    pub fn partitions(self) -> u32
        ensures value { result ≡ self.partitions }
        ensures are { AreLimits self }
    {
        self.partitions
    }

    /// How many workers there are.
    pub fn workers(self) -> u32
        ensures value { result ≡ self.workers }
        ensures are { AreLimits self }
    {
        self.workers
    }

    /// How many supersteps there are at most.
    pub fn limit(self) -> u32
        ensures value { result ≡ self.limit }
        ensures are { AreLimits self }
    {
        self.limit
    }

    /// After how many supersteps each partition is saved; 0 for never.
    pub fn every(self) -> u32
        ensures value { result ≡ self.every }
        ensures are { AreLimits self }
    {
        self.every
    }

    /// How many losses are borne.
    pub fn max_losses(self) -> u32
        ensures value { result ≡ self.max_losses }
        ensures are { AreLimits self }
    {
        self.max_losses
    }

    /// What becomes of messages to no vertex.
    pub fn missing(self) -> Missing
        ensures { result ≡ self.missing }
    {
        self.missing
    }
}
