//! The greatest input that reaches a vertex (Pregel, section 2).

use crate::folds::greatest;
use pg_graph::{Memory, VertexId};
use pg_program::{Computation, Cx, Declared, Place, Vertex};
use std::alloc::Global;

/// The program that finds the greatest input along the paths to each vertex. It contributes to the
/// aggregator at place 0 each value that it sends.
#[derive(Clone, Copy, Debug, PartialEq, Eq)]
pub struct MaxValue;

impl Computation for MaxValue {
    type Value = i64;

    type Message = i64;

    ghost use Rattle.pg_model.specs.Programs.{max_value};

    ghost program = { λ _. max_value };

    fn declared(&self) -> Declared {
        Declared {
            reads: 0,
            writes: 1,
            total_vertices: false,
            total_edges: false,
        }
    }

    fn initial(&self, _alloc: Global, _id: VertexId, input: i64) -> Result<i64, Memory> {
        Ok(input)
    }

    #[tactic(auto, unfolding(pg_model::specs::Programs::max_step))]
    fn compute(
        &self,
        alloc: Global,
        vertex: &mut Vertex<i64>,
        messages: &[i64],
        cx: &mut Cx<i64>,
    ) -> Result<(), Memory> {
        cx.called();
        vertex.vote_to_halt();
        let known = *vertex.value();
        if cx.superstep().number() == 0 {
            cx.aggregate(Place::new(0), known)?;
            cx.send_to_all_edges(alloc, vertex, &known)?;
            return Ok(());
        }
        let greatest = greatest(known, messages);
        vertex.set_value(greatest);
        if known < greatest {
            cx.aggregate(Place::new(0), greatest)?;
            cx.send_to_all_edges(alloc, vertex, &greatest)?;
        }
        Ok(())
    }
}
