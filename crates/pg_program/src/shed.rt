//! A sample program that changes edges and reads how many there are.
ghost use Rattle.std.specs.Prelude.{◌≡◌, drop};

use crate::{Computation, Cx, Vertex};
use pg_graph::{Memory, VertexId};
use pg_model::Declared;
use std::alloc::Global;

/// The sample program in which each vertex first takes away its edge to the least target, and then takes as
/// its value how many edges remain in all, at most 2^63 - 1.
#[derive(Clone, Copy, Debug, PartialEq, Eq)]
pub struct Shed;

impl Computation for Shed {
    type Value = i64;

    type Message = i64;

    ghost use Rattle.pg_model.specs.Programs.{shed};

    ghost program = { λ _. shed };

    fn declared(&self) -> Declared {
        Declared {
            reads: 0,
            writes: 0,
            total_vertices: false,
            total_edges: true,
        }
    }

    fn initial(&self, _alloc: Global, _id: VertexId, input: i64) -> Result<i64, Memory> {
        Ok(input)
    }

    #[tactic(auto, unfolding(pg_model::specs::Programs::shed_step))]
    fn compute(
        &self,
        _alloc: Global,
        vertex: &mut Vertex<i64>,
        _messages: &[i64],
        cx: &mut Cx<i64>,
    ) -> Result<(), Memory> {
        cx.called();
        if cx.superstep().number() == 0 {
            shed_first(vertex);
            return Ok(());
        }
        let remaining = cx.total_edges().min(i64::MAX as u64) as i64;
        vertex.set_value(remaining);
        vertex.vote_to_halt();
        Ok(())
    }
}

/// Takes away the edge to the least target, if there is one.
fn shed_first(vertex: &mut Vertex<i64>)
    ensures { vertex.new ≡ record vertex.old { edges = drop 1 vertex.old.edges } }
{
    if vertex.num_edges() == 0 {
        return;
    }
    let (target, _) = vertex.edges()[0];
    vertex.remove_edges(target);
}
