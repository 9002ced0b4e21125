//! The number of edges to a vertex.

use pg_graph::{Memory, VertexId};
use pg_program::{Computation, Cx, Declared, Place, Vertex};
use std::alloc::Global;

/// The program that counts the messages that come to each vertex, where each has sent one along each of its
/// edges. It contributes the counts to the aggregator at place 0.
#[derive(Clone, Copy, Debug, PartialEq, Eq)]
pub struct Indegree;

impl Computation for Indegree {
    type Value = i64;

    type Message = i64;

    ghost use Rattle.pg_model.specs.Programs.{indegree};

    ghost program = { λ _. indegree };

    fn declared(&self) -> Declared {
        Declared {
            reads: 0,
            writes: 1,
            total_vertices: false,
            total_edges: false,
        }
    }

    fn initial(&self, _alloc: Global, _id: VertexId, _input: i64) -> Result<i64, Memory> {
        Ok(0)
    }

    #[tactic(auto, unfolding(pg_model::specs::Programs::indegree_step))]
    fn compute(
        &self,
        alloc: Global,
        vertex: &mut Vertex<i64>,
        messages: &[i64],
        cx: &mut Cx<i64>,
    ) -> Result<(), Memory> {
        cx.called();
        if cx.superstep().number() == 0 {
            cx.send_to_all_edges(alloc, vertex, &1)?;
            return Ok(());
        }
        let degree = messages.len() as i64;
        vertex.vote_to_halt();
        vertex.set_value(degree);
        cx.aggregate(Place::new(0), degree)?;
        Ok(())
    }
}
