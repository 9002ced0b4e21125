//! The master: what is gathered, and when a run is halted.
use pg_global::{AnyAggregator, MasterCompute, MasterState, RegisterFault, Registry};
use pg_graph::Memory;
use pg_program::Place;
use std::alloc::Global;

/// The master of widest paths. It registers `found`, the greatest width at the target so far, and
/// halts before the superstep in which that is seen to be enough.
#[derive(Clone, Copy, Debug, PartialEq, Eq)]
pub struct WidestMaster {
    pub enough: i64,
}

impl MasterCompute for WidestMaster {
    ghost use Rattle.example_widest.specs.Widest.{widest_master};

    ghost master = { λ m. widest_master m.enough };

    #[tactic(auto, unfolding(pg_global::specs::Registry::first_refusal, pg_global::specs::Registry::refusal_of))]
    fn initialize(&self, alloc: Global, registry: &mut Registry) -> Result<(), RegisterFault> {
        registry.register_persistent(alloc, "found", AnyAggregator::LongMax)?;
        Ok(())
    }

    fn compute(&self, _alloc: Global, state: &mut MasterState) -> Result<(), Memory> {
        if state.aggregated(Place::new(0)) >= self.enough {
            state.halt();
        }
        Ok(())
    }
}
