//! Which vertex belongs to which partition.
ghost use Rattle.std.specs.Prelude.{◌≡◌, ◌<◌, ◌≤◌, ◌↔◌, ◌%◌, IsSome, IfSome, IfOk};
ghost use Rattle.pg_part_routing.specs.Starting.{first_states};
ghost use Rattle.pg_map.specs.Entries.{HasRisingIds};
ghost use Rattle.pg_model.specs.Share.{belongs};
ghost use Rattle.pg_trace.specs.Trace.{StatesRise};

use crate::begin::first_states;
use pg_graph::{Graph, Memory, PartitionId, VertexId};
use pg_model::VertexState;
use pg_program::Computation;
use std::alloc::Global;
use std::marker::Model;

/// So many partitions, 1 to 64. A vertex belongs to the one whose number is its id modulo that.
#[derive(Clone, Copy, Debug, PartialEq, Eq)]
pub struct Partitioner {
    partitions: u32,
}

impl Model for Partitioner {
    ghost use Rattle.std.specs.Prelude.{ℕ, ◌<◌, ◌≤◌};

    ghost Value = { ℕ };

    ghost view = { λ p. p.partitions };

    ghost invariant = { λ p. (0 < p.partitions) × (p.partitions ≤ 64) };

    ghost inverse = { λ n. record { partitions = n } };
}

impl Partitioner {
    /// So many partitions, or `None` for none and above 64.
    pub fn new(partitions: u32) -> Option<Partitioner>
        ensures some { IsSome result ↔ ((0 < partitions) × (partitions ≤ 64)) }
        ensures value { IfSome result (λ p. p ≡ partitions) }
    {
        if partitions == 0 || partitions > 64 {
            return None;
        }
        Some(Partitioner { partitions })
    }

    /// How many partitions there are.
    pub fn partitions(self) -> u32
        ensures value { result ≡ self }
        ensures some { 0 < self }
        ensures most { self ≤ 64 }
    {
        let Partitioner { partitions } = self;
        partitions
    }

    /// The partition of a vertex.
    pub fn partition(self, id: VertexId) -> PartitionId
        ensures value { result ≡ id % self }
        ensures within { result < self }
    {
        // It is asked for each message and each vertex that is called, and a division is dear.
        if self.partitions == 1 {
            return PartitionId::new(0);
        }
        PartitionId::new((id.number() % u64::from(self.partitions)) as u32)
    }

    /// The vertices of a partition, with their rows in a graph. Takes no memory.
    pub fn rows(self, graph: &Graph, partition: PartitionId) -> Rows<'_>
        ensures { result ≡ record { graph = graph.now; partition = partition; partitions = self } }
    {
        Rows {
            graph,
            partition,
            partitions: self,
        }
    }
}

/// The vertices of one partition, with their rows.
#[derive(Drop)]
pub struct Rows<'a> {
    pub graph: &'a Graph,
    pub partition: PartitionId,
    pub partitions: Partitioner,
}

impl<'a> Model for Rows<'a> {
    ghost use Rattle.pg_part_routing.specs.Starting.{PartRows};

    ghost Value = { PartRows };

    ghost view = { λ r. record { graph = r.graph.now; partition = r.partition; partitions = r.partitions } };
}

impl<'a> Rows<'a> {
    /// The graph that has them.
    pub fn graph(&self) -> &'a Graph
        ensures { result.now ≡ self.now.graph }
    {
        self.graph
    }

    /// The states with which the vertices begin, by rising id. Costs one walk over the graph's rows.
    pub fn first_states<P: Computation>(
        &self,
        alloc: Global,
        program: &P,
    ) -> Result<Vec<VertexState<P::Value>>, Memory>
        ensures states { IfOk result (λ states. states.items
            ≡ first_states (P.program program.now) self.now.graph self.now.partitions self.now.partition) }
        ensures rise { IfOk result (λ states. StatesRise states.items) }
        ensures rising { HasRisingIds self.now.graph }
    {
        let share = PartitionOf {
            partition: self.partition,
            partitions: self.partitions,
        };
        let states = first_states(alloc, self.graph, &share, program)?;
        Ok(states)
    }
}

/// One of so many partitions.
#[derive(Clone, Copy)]
pub struct PartitionOf {
    pub partition: PartitionId,
    pub partitions: Partitioner,
}

impl PartitionOf {
    /// Whether a vertex belongs to it.
    pub fn has(self, id: VertexId) -> bool
        ensures { result ≡ belongs self.partitions self.partition id }
    {
        self.partitions.partition(id) == self.partition
    }
}
