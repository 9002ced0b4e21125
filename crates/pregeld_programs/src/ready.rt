//! The ready programs, one of which is chosen, and their master.

use crate::{Cc, Indegree, MaxValue, Pagerank, Peel, Sssp};
use pg_global::{AnyAggregator, MasterCompute, MasterState, RegisterFault, Registry};
use pg_graph::{Memory, VertexId};
use pg_program::{Computation, Cx, Declared, Vertex};
use std::alloc::Global;

/// A ready program.
#[derive(Clone, Copy, Debug, PartialEq, Eq)]
pub enum ReadyProgram {
    /// Distances from one source.
    Sssp(Sssp),
    /// The least id of each component.
    Cc(Cc),
    /// The greatest input that reaches a vertex.
    MaxValue(MaxValue),
    /// The number of edges to a vertex.
    Indegree(Indegree),
    /// Ranks.
    Pagerank(Pagerank),
    /// The vertices of a core.
    Peel(Peel),
}

impl Computation for ReadyProgram {
    type Value = i64;

    type Message = i64;

    ghost use Rattle.pregeld_programs.specs.Ready.{program_of};

    ghost program = { program_of };

    fn declared(&self) -> Declared {
        match self {
            ReadyProgram::Sssp(program) => program.declared(),
            ReadyProgram::Cc(program) => program.declared(),
            ReadyProgram::MaxValue(program) => program.declared(),
            ReadyProgram::Indegree(program) => program.declared(),
            ReadyProgram::Pagerank(program) => program.declared(),
            ReadyProgram::Peel(program) => program.declared(),
        }
    }

    fn initial(&self, alloc: Global, id: VertexId, input: i64) -> Result<i64, Memory> {
        match self {
            ReadyProgram::Sssp(program) => program.initial(alloc, id, input),
            ReadyProgram::Cc(program) => program.initial(alloc, id, input),
            ReadyProgram::MaxValue(program) => program.initial(alloc, id, input),
            ReadyProgram::Indegree(program) => program.initial(alloc, id, input),
            ReadyProgram::Pagerank(program) => program.initial(alloc, id, input),
            ReadyProgram::Peel(program) => program.initial(alloc, id, input),
        }
    }

    fn compute(
        &self,
        alloc: Global,
        vertex: &mut Vertex<i64>,
        messages: &[i64],
        cx: &mut Cx<i64>,
    ) -> Result<(), Memory> {
        match self {
            ReadyProgram::Sssp(program) => program.compute(alloc, vertex, messages, cx),
            ReadyProgram::Cc(program) => program.compute(alloc, vertex, messages, cx),
            ReadyProgram::MaxValue(program) => program.compute(alloc, vertex, messages, cx),
            ReadyProgram::Indegree(program) => program.compute(alloc, vertex, messages, cx),
            ReadyProgram::Pagerank(program) => program.compute(alloc, vertex, messages, cx),
            ReadyProgram::Peel(program) => program.compute(alloc, vertex, messages, cx),
        }
    }
}

/// The master of a ready program: it registers what the program contributes to, and ends the run of ranks
/// that hardly change.
#[derive(Clone, Copy, Debug, PartialEq, Eq)]
pub struct ReadyMaster {
    pub program: ReadyProgram,
}

impl MasterCompute for ReadyMaster {
    ghost use Rattle.pregeld_programs.specs.Ready.{master_of};

    ghost master = { λ m. master_of m.program };

    #[tactic(auto, unfolding(pg_global::specs::Registry::first_refusal, pg_global::specs::Registry::refusal_of))]
    fn initialize(&self, alloc: Global, registry: &mut Registry) -> Result<(), RegisterFault> {
        match self.program {
            ReadyProgram::Sssp(_) => {
                registry.register_persistent(alloc, "reached", AnyAggregator::LongSum)?;
            }
            ReadyProgram::Cc(_) => {}
            ReadyProgram::MaxValue(_) => {
                registry.register_persistent(alloc, "greatest", AnyAggregator::LongMax)?;
            }
            ReadyProgram::Indegree(_) => {
                registry.register_persistent(alloc, "received", AnyAggregator::LongSum)?;
            }
            ReadyProgram::Pagerank(_) => {
                registry.register(alloc, "change", AnyAggregator::LongSum)?;
            }
            ReadyProgram::Peel(_) => {
                registry.register_persistent(alloc, "removed", AnyAggregator::LongSum)?;
            }
        }
        Ok(())
    }

    fn compute(&self, _alloc: Global, state: &mut MasterState) -> Result<(), Memory> {
        if let ReadyProgram::Pagerank(program) = self.program {
            program.decide(state);
        }
        Ok(())
    }
}
