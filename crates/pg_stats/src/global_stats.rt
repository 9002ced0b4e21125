//! What a superstep comes to in all partitions together.
ghost use Rattle.std.specs.Prelude.{◌≡◌, ◌∷◌, ◌++◌, [], ℕ, ℤ, List, All, FitsSigned, length, IfOk, OnOk, OnErr};
ghost use Rattle.std.specs.Int.{w64};
ghost use Rattle.std.specs.List.{enumerate_from};
ghost use Rattle.pg_global.specs.Registry.{aggregating_of};
ghost use Rattle.pg_model.specs.Superstep.{gathered_at, gathered_from};
ghost use Rattle.pg_stats.specs.GlobalStats.{aggregators_of, is_idle as idle_test, stats_of_all};

use crate::PartitionStats;
use pg_global::{Aggregator, Registration, Registry};
use pg_graph::Memory;
use pg_model::Sequence;
use std::alloc::{AllocError, Global};
use std::mem;

/// What partitions have come to together as a superstep begins. Once the stats of all partitions of a run were added,
/// it tells the totals, the gathered values, the counts of messages and whether all is idle of that run:
/// `are_stats_first` and `are_stats_after` of `proofs/LawsStats.antt`.
#[derive(Drop)]
pub struct GlobalStats {
    pub vertices: u64,
    /// Their out-edges; the number stops at 2^64 - 1.
    pub edges: u64,
    /// Whether all vertices are halted and no message arrives.
    pub is_idle: bool,
    /// How many messages were sent in the superstep before; the number stops at 2^64 - 1.
    pub sent: u64,
    /// Those of the messages that were dropped; the number stops at 2^64 - 1.
    pub dropped: u64,
    /// The gathered aggregates, by place.
    pub gathered: Sequence<i64>,
}

impl GlobalStats {
    /// What no partition comes to, where these values were visible in the superstep before; as a run begins, the
    /// initial ones.
    pub fn new(alloc: Global, registry: &Registry, visible: &[i64]) -> Result<GlobalStats, Memory>
        requires { length visible.now ≡ length registry.now }
        ensures value { IfOk result
            (λ stats. stats ≡ stats_of_all (aggregators_of registry.now) visible.now []) }
        ensures fits { OnOk result (All (FitsSigned w64) visible.now) }
    {
        let mut gathered = Sequence::new(alloc);
        for place in 0..registry.len() {
            gathered.push(start_of(registry.registration(place), visible[place]))?;
        }
        Ok(GlobalStats {
            vertices: 0,
            edges: 0,
            is_idle: true,
            sent: 0,
            dropped: 0,
            gathered,
        })
    }

    /// Adds what one more partition has come to. Refused where there would be more than 2^64 - 1 vertices. Costs one
    /// step for each place.
    pub fn add(
        &mut self,
        alloc: Global,
        registry: &Registry,
        stats: &PartitionStats,
    ) -> Result<(), Memory>
        ensures ok { OnOk result ((visible : List ℤ) (all : List PartitionStats)
            → self.old ≡ stats_of_all (aggregators_of registry.now) visible all
            → self.new
            ≡ stats_of_all (aggregators_of registry.now) visible (all ++ stats.now ∷ [])) }
        ensures err { OnErr result (self.new ≡ self.old) }
    {
        let Some(vertices) = self.vertices.checked_add(stats.vertex_counts.vertices) else {
            return Err(AllocError);
        };
        self.vertices = vertices;
        self.edges = self.edges.saturating_add(stats.vertex_counts.edges);
        self.is_idle &= is_idle(stats);
        self.sent = self.sent.saturating_add(stats.message_counts.sent);
        self.dropped = self.dropped.saturating_add(stats.message_counts.dropped);
        let mut gathered = mem::replace(&mut self.gathered, Sequence::new(alloc)).into_vec();
        aggregate_all(registry, &mut gathered, stats.gathered.as_slice());
        self.gathered = Sequence::from_vec(gathered);
        Ok(())
    }
}

/// What an aggregator goes on from, where a value was visible.
fn start_of(registration: Registration, visible: i64) -> i64
    ensures { result ≡ gathered_at (aggregating_of registration) visible [] }
{
    if registration.persistent {
        visible
    } else {
        registration.kind.initial_value()
    }
}

/// Whether all in a partition are halted, and none of the messages that it sent arrives.
fn is_idle(stats: &PartitionStats) -> bool
    ensures { result ≡ idle_test stats.now }
{
    stats.vertex_counts.unhalted == 0 && stats.message_counts.sent <= stats.message_counts.dropped
}

/// Gathers values by place, each on what was gathered there.
fn aggregate_all(registry: &Registry, gathered: &mut Vec<i64>, values: &[i64])
    ensures { (visible : List ℤ) (contributed : List (ℕ × ℤ))
        → gathered.old.items ≡ gathered_from 0 (aggregators_of registry.now) visible contributed
        → gathered.new.items
        ≡ gathered_from 0 (aggregators_of registry.now) visible
        (contributed ++ enumerate_from 0 values.now) }
{
    for (place, value) in values.iter().enumerate() {
        aggregate_at(registry, gathered, place, *value);
    }
}

/// Gathers one more value at a place, where there is one.
fn aggregate_at(registry: &Registry, gathered: &mut Vec<i64>, place: usize, value: i64)
    ensures { (visible : List ℤ) (contributed : List (ℕ × ℤ))
        → gathered.old.items ≡ gathered_from 0 (aggregators_of registry.now) visible contributed
        → gathered.new.items
        ≡ gathered_from 0 (aggregators_of registry.now) visible
        (contributed ++ (place, value) ∷ []) }
{
    if place < registry.len() && place < gathered.len() {
        let aggregator = registry.registration(place).kind;
        gathered[place] = aggregator.aggregate(gathered[place], value);
    }
}
