//! The coordinator: a run on workers between two of its rounds.
ghost use Rattle.std.specs.Prelude.{◌≡◌, ◌≤◌, [], IfSome};
ghost use Rattle.pg_core.specs.Handed.{Reaches, first_state};

use crate::Loss;
use pg_core::Core;
use pg_global::{MasterCompute, MessageCombiner};
use pg_graph::{PartitionId, Superstep};
use pg_program::Computation;
use std::alloc::Global;
use std::marker::Model;

/// What the coordinator of a run keeps from round to round: the run, how many times compute was called in steps that
/// were given back, and the workers that fell, in their order.
#[derive(Drop)]
pub(crate) struct Coordinator<
    'a,
    P: Computation,
    C: MessageCombiner<P::Message>,
    M: MasterCompute,
> {
    pub(crate) core: Core<'a, P, C, M>,
    pub(crate) calls: u64,
    pub(crate) losses: Vec<Loss>,
}

impl<'a, P: Computation, C: MessageCombiner<P::Message>, M: MasterCompute> Model
    for Coordinator<'a, P, C, M> {
    ghost use Rattle.pg_workers.specs.Running.{Coordination};

    ghost Value = { Coordination P C M P.Value P.Message };

    ghost view = { λ c. record { core = c.core; calls = c.calls; losses = c.losses.items } };
}

impl<'a, P: Computation, C: MessageCombiner<P::Message>, M: MasterCompute> Coordinator<
    'a,
    P,
    C,
    M,
> {
    /// The coordinator of a run of which nothing was counted.
    pub(crate) fn new(alloc: Global, core: Core<'a, P, C, M>) -> Coordinator<'a, P, C, M>
        ensures value { result ≡ record { core = core.entry; calls = 0; losses = [] } }
        ensures leads { Reaches (first_state core.entry.limits.partitions core.entry.limits.workers)
            core.entry.history core.entry.state }
    {
        // What has happened led to where the run stands.
        core.history();
        Coordinator {
            core,
            calls: 0,
            losses: Vec::new(alloc),
        }
    }

    /// The superstep at which the partitions stand that are ready, if any is.
    pub(crate) fn ready_place(&self) -> Option<Superstep>
        ensures { IfSome result (λ superstep. superstep ≤ self.now.core.state.current) }
    {
        for number in 0..self.core.limits().partitions() {
            let partition = PartitionId::new(number);
            if self.core.is_ready(partition) {
                return self.core.state().place(partition);
            }
        }
        None
    }
}
