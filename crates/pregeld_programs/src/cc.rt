//! Components: the least id that reaches a vertex.

use crate::folds::least;
use pg_graph::{Memory, VertexId};
use pg_program::{Computation, Cx, Declared, Vertex};
use std::alloc::Global;

/// The program that finds the least id in each component, where each edge stands both ways.
#[derive(Clone, Copy, Debug, PartialEq, Eq)]
pub struct Cc;

impl Computation for Cc {
    type Value = i64;

    type Message = i64;

    ghost use Rattle.pg_model.specs.Programs.{cc};

    ghost program = { λ _. cc };

    fn declared(&self) -> Declared {
        Declared {
            reads: 0,
            writes: 0,
            total_vertices: false,
            total_edges: false,
        }
    }

    fn initial(&self, _alloc: Global, id: VertexId, _input: i64) -> Result<i64, Memory> {
        Ok(id.number() as i64)
    }

    #[tactic(auto, unfolding(pg_model::specs::Programs::cc_step))]
    fn compute(
        &self,
        alloc: Global,
        vertex: &mut Vertex<i64>,
        messages: &[i64],
        cx: &mut Cx<i64>,
    ) -> Result<(), Memory> {
        cx.called();
        vertex.vote_to_halt();
        let known = *vertex.value();
        if cx.superstep().number() == 0 {
            cx.send_to_all_edges(alloc, vertex, &known)?;
            return Ok(());
        }
        let least = least(known, messages);
        vertex.set_value(least);
        if least < known {
            cx.send_to_all_edges(alloc, vertex, &least)?;
        }
        Ok(())
    }
}
